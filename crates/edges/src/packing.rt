// Packing at its edges: its refusals, what it writes, and what it leaves.
use crate::bytes::{MARK, front, front_mut, is_kept};
use crate::job::Job;
use crate::reading::reading;
use crate::shape::{Kind, Shape, records_size};
use crate::show::{Answer, Kept, Packing, RoundTrip, Same};
use crate::unpacking::unpack;

// Room in an output for the largest job and two blocks more.
const ROOM: usize = 17920;

// Packs three lists into the first `room` bytes of an output, and says whether the rest of it was left alone.
fn pack(k: usize, lists: [&[u8]; 3], room: u16, out: &mut [u8]) -> Packing {
    let [nodes, expressions, clauses] = lists;
    let answer = jobs::pack(
        k,
        nodes,
        expressions,
        clauses,
        front_mut(out, usize::from(room)),
    );
    Packing {
        answer,
        kept: Kept(is_kept(out, answer.unwrap_or(0))),
    }
}

// Packs the records of a job.
fn repack(job: &Job, room: u16, out: &mut [u8]) -> Packing {
    let Shape { k, n, e, c } = job.shape;
    let nodes: [[u8; 8]; 1008] = job.records(Kind::Node);
    let expressions: [[u8; 8]; 504] = job.records(Kind::Expression);
    let clauses: [[u8; 8]; 504] = job.records(Kind::Clause);
    let lists = [
        front(&nodes, usize::from(n)).as_flattened(),
        front(&expressions, usize::from(e)).as_flattened(),
        front(&clauses, usize::from(c)).as_flattened(),
    ];
    pack(usize::from(k), lists, room, out)
}

// What reading a job answers, and packing its records into an output of `room` bytes.
pub fn read_and_pack(job: &Job, room: u16) -> Answer {
    let mut out = [MARK; ROOM];
    let packing = repack(job, room, &mut out);
    Answer::ReadAndPacked(reading(job.stored()), packing)
}

// Packs three lists of zeros, of the sizes that are given.
pub fn zeros(k: usize, [nodes, expressions, clauses, room]: [u16; 4]) -> Answer {
    let zeros = [0; 8080];
    let lists = [nodes, expressions, clauses].map(|size| front(&zeros, usize::from(size)));
    let mut out = [MARK; ROOM];
    Answer::Packed(pack(k, lists, room, &mut out))
}

// What is packed is the job, byte for byte, and unpacks to the same records.
fn round_trip(job: &Job, room: u16) -> RoundTrip {
    let mut out = [MARK; ROOM];
    let packing = repack(job, room, &mut out);
    let back = packing.answer.ok().map(|size| {
        let stored = front(&out, size);
        (
            Same(stored == job.first_bytes(size)),
            unpack(job, stored, [8064, 4032, 4032]),
        )
    });
    RoundTrip { packing, back }
}

pub fn repacked(job: &mut Job, [k, n, e, c, room]: [u16; 5]) -> Answer {
    job.build(Shape::from([k, n, e, c]));
    Answer::RoundTrip(round_trip(job, room))
}

pub fn flag(job: &mut Job) -> Answer {
    job.build_flag();
    Answer::Flag(reading(job.stored()), round_trip(job, 2048))
}

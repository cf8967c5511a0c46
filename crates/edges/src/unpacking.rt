// Unpacking at its edges: lists too short, exactly long enough, and longer.
use crate::bytes::{MARK, front_mut, is_kept};
use crate::job::Job;
use crate::shape::{Kind, Shape, records_size};
use crate::show::{Answer, Kept, Reading, Same, Unpacking};

// Unpacks the stored bytes of a job into lists with the rooms that are given.
pub fn unpack(job: &Job, stored: &[u8], rooms: [u16; 3]) -> Unpacking {
    let [n, e, c] = rooms.map(usize::from);
    let mut nodes = [MARK; 8080];
    let mut expressions = [MARK; 4048];
    let mut clauses = [MARK; 4048];
    let answer = jobs::unpack(
        stored,
        front_mut(&mut nodes, n),
        front_mut(&mut expressions, e),
        front_mut(&mut clauses, c),
    );
    let lists: [(Kind, &[u8]); 3] = [
        (Kind::Node, &nodes),
        (Kind::Expression, &expressions),
        (Kind::Clause, &clauses),
    ];
    // what is refused leaves all of the lists alone
    let held = answer.map_or(Shape::default(), |_| job.shape);
    let same = lists.iter().all(|(kind, list)| job.is_in(*kind, list));
    let kept = lists.iter().all(|(kind, list)| is_kept(list, records_size(held.count(*kind))));
    Unpacking {
        reading: Reading(answer),
        same: answer.is_ok().then_some(Same(same)),
        kept: Kept(kept),
    }
}

pub fn unpacked(job: &mut Job, [k, n, e, c, nodes, expressions, clauses]: [u16; 7]) -> Answer {
    job.build(Shape::from([k, n, e, c]));
    Answer::Unpacked(unpack(job, job.stored(), [nodes, expressions, clauses]))
}

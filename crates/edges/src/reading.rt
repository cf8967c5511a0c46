// Reading at its edges: each refusal, and which of several is given.
use crate::job::{Edit, Job};
use crate::packing::read_and_pack;
use crate::shape::{Kind, Record, Shape};
use crate::show::{Answer, Reading};

// What reading bytes answers.
pub fn reading(bytes: &[u8]) -> Reading {
    Reading(jobs::sizes(bytes))
}

// The largest job, with zeros after it.
pub fn length(job: &mut Job, size: usize) -> Answer {
    job.build(Shape::FULL);
    Answer::Read(reading(job.first_bytes(size)))
}

// The job is sealed again, for more blocks may be given than it has.
pub fn sized(job: &mut Job, [k, n, e, c, given]: [u16; 5]) -> Answer {
    job.build(Shape::from([k, n, e, c]));
    job.seal(given);
    Answer::Read(reading(job.first_blocks(given)))
}

pub fn all_zero(job: &mut Job, [from, given]: [u16; 2]) -> Answer {
    job.build(Shape::FULL);
    job.clear_from(from);
    Answer::Read(reading(job.first_blocks(given)))
}

// A bit is flipped, and no check is mended.
pub fn flipped(job: &mut Job, [block, offset]: [u16; 2]) -> Answer {
    job.build(Shape::FULL);
    job.flip(block, offset);
    Answer::Read(reading(job.stored()))
}

// Two words of a block are exchanged, which its check cannot show.
pub fn exchanged(job: &mut Job, [block, a, b]: [u16; 3]) -> Answer {
    job.build(Shape::FULL);
    job.exchange_words(block, a, b);
    Answer::Read(reading(job.stored()))
}

// A byte is put in a block, whose check is then mended.
pub fn edited(job: &mut Job, shape: Shape, edit: [u16; 3]) -> Answer {
    job.build(shape);
    job.edit_mended(Edit::from(edit));
    Answer::Read(reading(job.stored()))
}

// One byte is put at two places, so that a refusal has two places to name.
pub fn edited_twice(job: &mut Job, shape: Shape, edits: [u16; 5]) -> Answer {
    let [block, offset, other_block, other_offset, byte] = edits;
    job.build(shape);
    job.edit_mended(Edit::from([block, offset, byte]));
    job.edit_mended(Edit::from([other_block, other_offset, byte]));
    read_and_pack(job, 16896)
}

// A record of the largest job that keeps or breaks its rule.
pub fn record(job: &mut Job, kind: Kind, [i, code, flag, p, q, r]: [u16; 6]) -> Answer {
    job.build(Shape::FULL);
    job.put_record(kind, i, Record::from([code, flag, p, q, r]));
    job.seal(job.shape.blocks());
    read_and_pack(job, 16896)
}

// What makes a job be refused with each number from 2 on: block, offset, byte, and the block whose check is mended, for 2 another. A
// row each: as an `Edit` and a block it would be five lines.
const WRONGS: [(u16, u16, u8, u16); 9] = [
    (6, 511, 0, 0),
    (5, 0, 9, 5),
    (0, 4, 2, 0),
    (0, 6, 63, 0),
    (6, 3, 2, 6),
    (6, 507, 1, 6),
    (2, 4, 9, 2),
    (3, 500, 7, 3),
    (5, 4, 2, 5),
];

// From 10, with a new job, down to 1: each adds to what is wrong already.
pub fn wrong_from(job: &mut Job, number: usize) -> Answer {
    let Some(index) = number.checked_sub(2) else {
        return Answer::Read(reading(job.first_bytes(3583)));
    };
    let last = WRONGS.len() - 1;
    if index >= last {
        job.build(Shape::SPARE);
    }
    let (block, offset, byte, mended) = WRONGS[index.min(last)];
    job.edit(Edit {
        block,
        offset,
        byte,
    });
    job.mend(mended);
    // the line before may have built another
    job.shape = Shape::SPARE;
    read_and_pack(job, 0)
}

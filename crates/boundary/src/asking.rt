// What is asked of a stored job: its sizes, one case, the whole job. Only the answer is lent.
ghost use Rattle.stored.specs.Reading.{read_answer};
ghost use Rattle.verdicts.specs.Running.{check_answer, one_case_answer};
ghost use Rattle.boundary.specs.Told.{Told};

use crate::telling::tell;
use jobs::sizes;
use runs::{check, one_case};

// DONE with k, n, e, c; or REFUSED with number, block, record.
pub fn kelpanvil_sizes(job: &[u8], answer: &mut [u8]) -> usize
    ensures { Told (read_answer job.now) answer.old answer.new result }
{
    let Some(room) = answer.first_chunk_mut() else {
        return 0;
    };
    tell(sizes(job), room)
}

// PASSES; EMPTY with time, node; FAILS with time, node, wanted, found; or REFUSED with number, block, record.
pub fn kelpanvil_one_case(job: &[u8], case: usize, answer: &mut [u8]) -> usize
    ensures { Told (one_case_answer job.now case) answer.old answer.new result }
{
    let Some(room) = answer.first_chunk_mut() else {
        return 0;
    };
    tell(one_case(job, case), room)
}

// HOLDS, VACANT or FAILS with cases, passing, failing, empty, then VACANT with case, time, node and FAILS
// with case, time, node, wanted, found; or REFUSED with number, block, record.
pub fn kelpanvil_check(job: &[u8], answer: &mut [u8]) -> usize
    ensures { Told (check_answer job.now) answer.old answer.new result }
{
    let Some(room) = answer.first_chunk_mut() else {
        return 0;
    };
    tell(check(job), room)
}

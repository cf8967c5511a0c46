// The row of a case at a time, in a lent output: a byte for each node, 0, 1, or 2 for X.
ghost use Rattle.boundary.specs.Told.{RowTold};

use crate::telling::tell;
use runs::row;

// DONE with the number of bytes written; or REFUSED with number, block, record.
pub fn kelpanvil_row(
    job: &[u8],
    case: usize,
    time: usize,
    out: &mut [u8],
    answer: &mut [u8],
) -> usize
    ensures { RowTold job.now case time out.old answer.old out.new answer.new result }
{
    let Some(room) = answer.first_chunk_mut() else {
        return 0;
    };
    tell(row(job, case, time, out), room)
}

// The records of a stored job, in three lent lists.
ghost use Rattle.boundary.specs.Told.{UnpackTold};

use crate::telling::tell;
use jobs::unpack;

// DONE with k, n, e, c; or REFUSED with number, block, record.
pub fn kelpanvil_unpack(
    job: &[u8],
    nodes: &mut [u8],
    expressions: &mut [u8],
    clauses: &mut [u8],
    answer: &mut [u8],
) -> usize
    ensures { UnpackTold job.now nodes.old expressions.old clauses.old answer.old nodes.new expressions.new clauses.new answer.new result }
{
    let Some(room) = answer.first_chunk_mut() else {
        return 0;
    };
    tell(unpack(job, nodes, expressions, clauses), room)
}

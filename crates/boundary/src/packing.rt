// Records stored as a job, in a lent output.
ghost use Rattle.stored.specs.Operations.{records_for};
ghost use Rattle.boundary.specs.Told.{PackTold};

use crate::telling::tell;
use jobs::pack;

// DONE with the number of bytes written; or REFUSED with number, block, record.
pub fn kelpanvil_pack(
    k: usize,
    nodes: &[u8],
    expressions: &[u8],
    clauses: &[u8],
    out: &mut [u8],
    answer: &mut [u8],
) -> usize
    ensures { PackTold (records_for k nodes.now expressions.now clauses.now) out.old answer.old out.new answer.new result }
{
    let Some(room) = answer.first_chunk_mut() else {
        return 0;
    };
    tell(pack(k, nodes, expressions, clauses, out), room)
}

// An assertion's text read into records, in two lent lists.
ghost use Rattle.boundary.specs.Texts.{TextTold};

use crate::telling::tell;
use assertions::read_text;

// DONE with the counts of expressions and clauses; or REFUSED with number and byte, its low and its high four bytes.
pub fn kelpanvil_text(
    k: usize,
    n: usize,
    text: &[u8],
    expressions: &mut [u8],
    clauses: &mut [u8],
    answer: &mut [u8],
) -> usize
    ensures { TextTold k n text.now expressions.old clauses.old answer.old expressions.new clauses.new answer.new result }
{
    let Some(room) = answer.first_chunk_mut() else {
        return 0;
    };
    tell(read_text(k, n, text, expressions, clauses), room)
}

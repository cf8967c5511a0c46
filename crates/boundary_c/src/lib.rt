// The operations of `boundary` as exports for C, each with the clauses of the function that it calls.
#![tactic(auto)]

ghost use Rattle.stored.specs.Operations.{records_for};
ghost use Rattle.stored.specs.Reading.{read_answer};
ghost use Rattle.verdicts.specs.Running.{check_answer, one_case_answer};
ghost use Rattle.boundary.specs.Texts.{TextTold};
ghost use Rattle.boundary.specs.Told.{PackTold, RowTold, Told, UnpackTold};

use boundary::{asking, packing, rows, unpacking, wordings};

// DONE with k, n, e, c; or REFUSED with number, block, record.
#[unsafe(no_mangle)]
pub extern "C" fn kelpanvil_sizes(job: &[u8], answer: &mut [u8]) -> usize
    ensures { Told (read_answer job.now) answer.old answer.new result }
{
    asking::kelpanvil_sizes(job, answer)
}

// PASSES; EMPTY with time, node; FAILS with time, node, wanted, found; or REFUSED with number, block, record.
#[unsafe(no_mangle)]
pub extern "C" fn kelpanvil_one_case(job: &[u8], case: usize, answer: &mut [u8]) -> usize
    ensures { Told (one_case_answer job.now case) answer.old answer.new result }
{
    asking::kelpanvil_one_case(job, case, answer)
}

// HOLDS, VACANT or FAILS with cases, passing, failing, empty, then VACANT with case, time, node and FAILS
// with case, time, node, wanted, found; or REFUSED with number, block, record.
#[unsafe(no_mangle)]
pub extern "C" fn kelpanvil_check(job: &[u8], answer: &mut [u8]) -> usize
    ensures { Told (check_answer job.now) answer.old answer.new result }
{
    asking::kelpanvil_check(job, answer)
}

// DONE with the number of bytes written; or REFUSED with number, block, record.
#[unsafe(no_mangle)]
pub extern "C" fn kelpanvil_row(
    job: &[u8],
    case: usize,
    time: usize,
    out: &mut [u8],
    answer: &mut [u8],
) -> usize
    ensures { RowTold job.now case time out.old answer.old out.new answer.new result }
{
    rows::kelpanvil_row(job, case, time, out, answer)
}

// DONE with k, n, e, c; or REFUSED with number, block, record.
#[unsafe(no_mangle)]
pub extern "C" fn kelpanvil_unpack(
    job: &[u8],
    nodes: &mut [u8],
    expressions: &mut [u8],
    clauses: &mut [u8],
    answer: &mut [u8],
) -> usize
    ensures { UnpackTold job.now nodes.old expressions.old clauses.old answer.old nodes.new expressions.new clauses.new answer.new result }
{
    unpacking::kelpanvil_unpack(job, nodes, expressions, clauses, answer)
}

// DONE with the number of bytes written; or REFUSED with number, block, record.
#[unsafe(no_mangle)]
pub extern "C" fn kelpanvil_pack(
    k: usize,
    nodes: &[u8],
    expressions: &[u8],
    clauses: &[u8],
    out: &mut [u8],
    answer: &mut [u8],
) -> usize
    ensures { PackTold (records_for k nodes.now expressions.now clauses.now) out.old answer.old out.new answer.new result }
{
    packing::kelpanvil_pack(k, nodes, expressions, clauses, out, answer)
}

// DONE with the counts of expressions and clauses; or REFUSED with number and byte, its low and its high four bytes.
#[unsafe(no_mangle)]
pub extern "C" fn kelpanvil_text(
    k: usize,
    n: usize,
    text: &[u8],
    expressions: &mut [u8],
    clauses: &mut [u8],
    answer: &mut [u8],
) -> usize
    ensures { TextTold k n text.now expressions.old clauses.old answer.old expressions.new clauses.new answer.new result }
{
    wordings::kelpanvil_text(k, n, text, expressions, clauses, answer)
}

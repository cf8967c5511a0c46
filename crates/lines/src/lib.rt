// The line that the check prints for an answer or a refusal: its bytes, with the newline that ends it.
// Pushed piece by piece: no contract says that a `write!` succeeds, and a line that fits has to be given.
#![tactic(auto)]

mod pieces;

ghost use Rattle.std.specs.Prelude.{◌≡◌, ◌++◌, ◌+◌, ◌≤◌, length};
ghost use Rattle.lines.specs.Lines.{counts as counts_text, place, missed, verdict_line, refusal_line};
ghost use Rattle.lines.specs.Written.{Gives};

use crate::pieces::{push_field, push_value};
use meaning::{Counts, JobAnswer};
use stored::Refusal;
use texts::{Line, put_front};

#[tactic(auto, unfolding(crate::specs::Lines::field, crate::specs::Lines::counts))]
fn push_counts(line: &mut Line, counts: Counts)
    requires { length line.old.bytes + 112 ≤ 256 }
    ensures is { line.new.bytes ≡ line.old.bytes ++ counts_text counts }
    ensures short { length (counts_text counts) ≤ 112 }
{
    push_field(line, " cases=", counts.cases);
    push_field(line, " passing=", counts.passing);
    push_field(line, " failing=", counts.failing);
    push_field(line, " empty=", counts.empty);
}

#[tactic(auto, unfolding(crate::specs::Lines::field, crate::specs::Lines::place))]
fn push_place(line: &mut Line, case: usize, time: usize, node: usize)
    requires { length line.old.bytes + 78 ≤ 256 }
    ensures is { line.new.bytes ≡ line.old.bytes ++ place case time node }
    ensures short { length (place case time node) ≤ 78 }
{
    push_field(line, " case=", case);
    push_field(line, " time=", time);
    push_field(line, " node=", node);
}

#[tactic(auto, unfolding(crate::specs::Lines::field, crate::specs::Lines::missed))]
fn push_missed(line: &mut Line, wanted: usize, found: usize)
    requires { length line.old.bytes + 55 ≤ 256 }
    ensures is { line.new.bytes ≡ line.old.bytes ++ missed wanted found }
    ensures short { length (missed wanted found) ≤ 55 }
{
    push_field(line, " wanted=", wanted);
    line.push_str(" found=");
    push_value(line, found);
}

#[tactic(auto, unfolding(crate::specs::Lines::verdict_line))]
fn verdict(a: JobAnswer) -> Line
    ensures { result.bytes ≡ verdict_line a }
{
    let mut line = Line::new();
    match a {
        JobAnswer::Holds(counts) => {
            line.push_str("HOLDS");
            push_counts(&mut line, counts);
        }
        JobAnswer::Fails {
            counts,
            case,
            time,
            node,
            wanted,
            found,
        } => {
            line.push_str("FAILS");
            push_counts(&mut line, counts);
            push_place(&mut line, case, time, node);
            push_missed(&mut line, wanted, found);
        }
        JobAnswer::Vacant {
            counts,
            case,
            time,
            node,
        } => {
            line.push_str("VACANT");
            push_counts(&mut line, counts);
            push_place(&mut line, case, time, node);
        }
    }
    line.push_str("\n");
    line
}

#[tactic(auto, unfolding(crate::specs::Lines::field, crate::specs::Lines::refusal_line))]
fn refusal(r: Refusal) -> Line
    ensures { result.bytes ≡ refusal_line r.number r.block r.«record» }
{
    let mut line = Line::new();
    push_field(&mut line, "REFUSED ", r.number);
    push_field(&mut line, " block=", r.block);
    push_field(&mut line, " record=", r.record);
    line.push_str("\n");
    line
}

// The whole line at the front of `out`, and its length; nothing, and 0, where it does not fit.
fn give(line: &Line, out: &mut [u8]) -> usize
    ensures { Gives line.now.bytes out.old out.new result × (length line.now.bytes ≤ 256) }
{
    if out.len() < line.len() {
        return 0;
    }
    put_front(line.as_str().as_bytes(), out)
}

// The line of an answer, for which 256 bytes are enough.
pub fn verdict_line(a: JobAnswer, out: &mut [u8]) -> usize
    ensures { Gives (verdict_line a) out.old out.new result × (length (verdict_line a) ≤ 256) }
{
    give(&verdict(a), out)
}

// The line of a refusal, for which 256 bytes are enough.
pub fn refusal_line(r: Refusal, out: &mut [u8]) -> usize
    ensures { Gives (refusal_line r.number r.block r.«record») out.old out.new result × (length (refusal_line r.number r.block r.«record») ≤ 256) }
{
    give(&refusal(r), out)
}

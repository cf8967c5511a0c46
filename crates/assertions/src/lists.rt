// Clauses one after the other.
// No struct holds text, at, limits and records: each step has its own `at`, and `records` is lent on.
ghost use Rattle.std.specs.Prelude.{◌≡◌, not, ◌&&◌, ◌≤◌, eqb, length};
ghost use Rattle.grammar.specs.Records.{clause_bytes};
ghost use Rattle.phrases.specs.Places.{is_at, Stands};
ghost use Rattle.assertions.specs.Sides.{side_of};
ghost use Rattle.assertions.specs.ListsRead.{ClauseAsked, ClauseAt, ListAt};

use crate::clauses::said;
use crate::parts::{Limits, TextRecords, Told};
use meaning::Side;
use phrases::guards::guard;
use phrases::items::{Stopped, is_at, skip, spell};
use phrases::records::two_bytes;

// A clause's eight bytes.
fn clause_record(side: Side, told: Told, guard: usize) -> [u8; 8]
    ensures { result ≡ clause_bytes (side_of side) told.value told.node told.time guard }
{
    let value = told.value as u8;
    let [node0, node1] = two_bytes(told.node);
    let [time0, time1] = two_bytes(told.time);
    let [guard0, guard1] = two_bytes(guard);
    [
        side as u8, value, node0, node1, time0, time1, guard0, guard1,
    ]
}

// `when` ends at `at`, and the guard, at q, touches it with neither `!` nor `(`.
fn guard_touches(text: &[u8], at: usize, q: usize) -> bool
    ensures { result ≡ eqb q at && (not (is_at text.now q 33) && not (is_at text.now q 40)) }
{
    q == at && !is_at(text, q, b'!') && !is_at(text, q, b'(')
}

// `when GUARD : NODE is VALUE at TIME ;`, its first letter known to stand.
fn clause(
    text: &[u8],
    at: usize,
    limits: Limits,
    side: Side,
    records: &mut TextRecords,
) -> Result<usize, Stopped>
    requires { ClauseAsked at text.now records.old.expressions records.old.clauses × Stands text.now at 119 }
    ensures { ClauseAt limits.k limits.n (side_of side) at text.now records.old.expressions records.new.expressions records.old.clauses records.new.clauses result }
{
    let end = spell(text, at, b"when")?;
    let from = skip(text, end);
    if guard_touches(text, end, from) {
        return Err(Stopped { at: from });
    }
    let colon = guard(text, from, limits.k, &mut records.expressions)?;
    if !is_at(text, colon, b':') {
        return Err(Stopped { at: colon });
    }
    let told = said(text, colon + 1, limits)?;
    let guard = records.expressions.count() - 1;
    records.clauses.push(clause_record(side, told, guard));
    Ok(told.at)
}

// Clauses as long as another begins.
pub fn list(
    text: &[u8],
    at: usize,
    limits: Limits,
    side: Side,
    records: &mut TextRecords,
) -> Result<usize, Stopped>
    requires { at ≤ length text.now }
    ensures { ListAt limits.k limits.n (side_of side) at text.now records.old.expressions records.new.expressions records.old.clauses records.new.clauses result }
{
    records.are_few();
    let mut q = skip(text, at);
    // A while: it goes on as long as a `w` stands, and counts no index.
    while is_at(text, q, b'w') {
        if !records.has_room() {
            return Err(Stopped { at: q });
        }
        let end = clause(text, q, limits, side, records)?;
        q = skip(text, end);
    }
    Ok(q)
}

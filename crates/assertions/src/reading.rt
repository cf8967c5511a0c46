// A whole text: `given` and its clauses, `expect` and its clauses.
ghost use Rattle.std.specs.Prelude.{◌≡◌, [], ◌&&◌, eqb, ltb, ◌≤◌, length};
ghost use Rattle.phrases.specs.Places.{NoGap, Stands};
ghost use Rattle.assertions.specs.TextsRead.{RestAt, TextAt};

use crate::lists::list;
use crate::parts::{Limits, TextRecords};
use meaning::Side;
use phrases::items::{Stopped, skip, spell};

// A word ends at `at`, and something stands there.
fn touches(at: usize, from: usize, length: usize) -> bool
    ensures { result ≡ eqb from at && ltb at length }
{
    from == at && at < length
}

// `expect` and its list to the end of the text, where no clause begins.
fn expected(
    text: &[u8],
    at: usize,
    limits: Limits,
    records: &mut TextRecords,
) -> Result<(), Stopped>
    requires { (at ≤ length text.now) × NoGap text.now at × (¬ Stands text.now at 119) }
    ensures { RestAt limits.k limits.n at text.now records.old.expressions records.new.expressions records.old.clauses records.new.clauses result }
{
    records.are_few();
    let end = spell(text, at, b"expect")?;
    let from = skip(text, end);
    if touches(end, from, text.len()) {
        return Err(Stopped { at: end });
    }
    let over = list(text, from, limits, Side::Expectation, records)?;
    if over < text.len() {
        return Err(Stopped { at: over });
    }
    Ok(())
}

// The text from its first byte on, where nothing has been read.
pub fn whole_text(text: &[u8], limits: Limits, records: &mut TextRecords) -> Result<(), Stopped>
    requires { (records.old.expressions ≡ []) × (records.old.clauses ≡ []) }
    ensures { TextAt limits.k limits.n text.now records.new.expressions records.new.clauses result }
{
    let end = spell(text, skip(text, 0), b"given")?;
    let from = skip(text, end);
    if from == end {
        return Err(Stopped { at: end });
    }
    let over = list(text, from, limits, Side::Stimulus, records)?;
    expected(text, over, limits, records)
}

// The rest of a clause after its guard: a node, a value and a time.
ghost use Rattle.std.specs.Prelude.{◌≡◌, true, false, [], ◌∷◌, ◌+◌, ◌≤◌, ◌<◌, length, take, MatchResult};
ghost use Rattle.grammar.specs.Points.{below, clause_slots};
ghost use Rattle.phrases.specs.Places.{NoGap};
ghost use Rattle.assertions.specs.ClausesRead.{CountedAt, LabelledAt, ToldAt};

use crate::parts::{Counted, Limits, Told};
use phrases::items::{Stopped, is_at, is_digit, skip, spell};

// No number below 65536 has six digits: it is refused at the sixth, or before.
const FRONT: usize = 6;

// The text up to the sixth byte from here on: what comes after it is not looked at.
fn front(text: &[u8], at: usize) -> &[u8]
    requires { at ≤ length text.now }
    ensures { result.now ≡ take (at + 6) text.now }
{
    &text[..text.len().min(at + FRONT)]
}

// The number counted from one place to its end; none, where no digit stands between them.
fn counted(value: usize, at: usize, end: usize) -> Result<Counted, Stopped>
    ensures { MatchResult result (λ c. (c.value ≡ value) × (c.at ≡ end) × (¬ (end ≡ at))) (λ s. (s.at ≡ at) × (end ≡ at)) }
{
    if end == at {
        return Err(Stopped { at });
    }
    Ok(Counted { value, at: end })
}

// A number below the limit, without zeros in front. Inlined where the limit is a constant.
#[inline(always)]
fn number(text: &[u8], at: usize, limit: usize) -> Result<Counted, Stopped>
    requires { (at ≤ length text.now) × NoGap text.now at × (limit ≤ 65536) }
    ensures { CountedAt text.now false (below limit ∷ []) limit at result }
{
    let digits = front(text, at);
    let mut value = 0;
    for q in at..digits.len() {
        if !is_digit(digits[q]) {
            return counted(value, at, q);
        }
        if q > at && value == 0 {
            return Err(Stopped { at: q });
        }
        value = 10 * value + usize::from(digits[q] - b'0');
        if value >= limit {
            return Err(Stopped { at: q });
        }
    }
    counted(value, at, digits.len())
}

// A word and a number, with gaps before each. Inlined, since word and limit are constants at both calls.
#[inline(always)]
fn labelled(text: &[u8], at: usize, word: &[u8], limit: usize) -> Result<Counted, Stopped>
    requires { (at ≤ length text.now) × (limit ≤ 65536) }
    ensures { LabelledAt text.now word.now limit at result }
{
    let from = skip(text, at);
    if from == at {
        return Err(Stopped { at });
    }
    let end = spell(text, from, word)?;
    let next = skip(text, end);
    if next == end {
        return Err(Stopped { at: end });
    }
    number(text, next, limit)
}

// `NODE is VALUE at TIME ;`
pub fn said(text: &[u8], at: usize, limits: Limits) -> Result<Told, Stopped>
    requires { at ≤ length text.now }
    ensures { ToldAt text.now false (clause_slots limits.n) [] at result }
{
    let node = number(text, skip(text, at), limits.n)?;
    let value = labelled(text, node.at, b"is", 2)?;
    let time = labelled(text, value.at, b"at", 256)?;
    let end = skip(text, time.at);
    if !is_at(text, end, b';') {
        return Err(Stopped { at: end });
    }
    Ok(Told {
        node: node.value,
        value: value.value,
        time: time.value,
        at: end + 1,
    })
}

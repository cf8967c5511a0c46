// Assertions as text: read into the records of a stored job.
#![tactic(auto)]

mod clauses;
mod lists;
mod parts;
mod reading;

ghost use Rattle.std.specs.Prelude.{◌≡◌, ◌&&◌, leb};
ghost use Rattle.grammar.specs.Grammar.{limits};
ghost use Rattle.assertions.specs.Answering.{Answered};
ghost use Rattle.assertions.specs.Refusals.{number_of, byte_of};
ghost use Rattle.assertions.specs.declared.TextRefusal.TheVariants.{Text};

use crate::parts::{Limits, TextRecords};
use crate::reading::whole_text;
use blocks::layout::limits_ok;
use phrases::items::Stopped;
use phrases::records::Records;
use stored::Size;
use texts::put_front;

// The counts of expressions and clauses.
#[derive(Clone, Copy, Debug, PartialEq, Eq)]
pub struct Written {
    pub expressions: usize,
    pub clauses: usize,
}

// Why a text is not read: k or n, the text with the byte where it stops, or a list too short.
#[derive(Clone, Copy, Debug, PartialEq, Eq)]
pub enum TextRefusal {
    Header,
    Text(usize),
    Room,
}

impl TextRefusal {
    pub fn number(self) -> usize
        ensures { result ≡ number_of self }
    {
        match self {
            TextRefusal::Header => 4,
            TextRefusal::Text(_) => 15,
            TextRefusal::Room => 13,
        }
    }

    // The byte where the text stops; 0 where it is not the text, as `boundary` tells 0 where a refusal names no byte.
    pub fn byte(self) -> usize
        ensures { result ≡ byte_of self }
    {
        match self {
            TextRefusal::Text(byte) => byte,
            TextRefusal::Header | TextRefusal::Room => 0,
        }
    }
}

impl From<Stopped> for TextRefusal {
    ghost from_gives = { λ s r. r ≡ Text s.at };

    fn from(stopped: Stopped) -> TextRefusal {
        TextRefusal::Text(stopped.at)
    }
}

// k and n are within the limits of a job; e and c are 0, as no list is there yet to count: each is tested as it grows.
fn in_limits(k: usize, n: usize) -> bool
    ensures { result ≡ limits k n }
{
    limits_ok(Size { k, n, e: 0, c: 0 })
}

// Both lists have room for so many bytes.
fn has_room(es: usize, cs: usize, expressions: usize, clauses: usize) -> bool
    ensures { result ≡ leb es expressions && leb cs clauses }
{
    es <= expressions && cs <= clauses
}

// A text of `given` and `expect` for k variables and n nodes. Numbers and lists stand by themselves, as C hands them.
pub fn read_text(
    k: usize,
    n: usize,
    text: &[u8],
    expressions: &mut [u8],
    clauses: &mut [u8],
) -> Result<Written, TextRefusal>
    ensures { Answered k n text.now expressions.old clauses.old expressions.new clauses.new result }
{
    if !in_limits(k, n) {
        return Err(TextRefusal::Header);
    }
    let mut records = TextRecords {
        expressions: Records::new(),
        clauses: Records::new(),
    };
    whole_text(text, Limits { k, n }, &mut records)?;
    let es = records.expressions.bytes();
    let cs = records.clauses.bytes();
    if !has_room(es.len(), cs.len(), expressions.len(), clauses.len()) {
        return Err(TextRefusal::Room);
    }
    put_front(es, expressions);
    put_front(cs, clauses);
    Ok(Written {
        expressions: records.expressions.count(),
        clauses: records.clauses.count(),
    })
}

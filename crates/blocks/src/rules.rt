// The rules of the records, one function a line of the table, and the first record that breaks its own. Codes are bytes here: one
// that names no gate, op or side is what a rule refuses.
ghost use Rattle.std.specs.Prelude.{◌≡◌, ◌+◌, ◌*◌, ◌^◌, ◌<◌, None, Some};
ghost use Rattle.std.specs.Option.{ForSome};
ghost use Rattle.stored.specs.Rules.{operand_ok, node_ok, first_ok, second_ok, expression_ok, clause_ok};
ghost use Rattle.blocks.specs.Steps.{spot, Follows};

use crate::layout::Layout;
use crate::numbers::{byte_at, u16_at};
use meaning::Gate;
use stored::{Reason, Refusal, Size};

// A record where it stands.
#[derive(Clone, Copy)]
struct Record<'a> {
    bytes: &'a [u8],
    at: usize,
    ghost near: { at < 2 ^ 31 },
}

impl Record<'_> {
    // Operand `i` of a node: below n if its gate has it, else 0.
    #[tactic(auto, unfolding(stored::specs::Rules::operand_ok))]
    fn operand_ok(self, n: usize, i: usize) -> bool
        requires { i < 3 }
        ensures { result ≡ operand_ok n self.entry.bytes.now self.entry.at i }
    {
        let operand = usize::from(u16_at(self.bytes, self.at + 2 + 2 * i));
        if i < Gate::of_code(byte_at(self.bytes, self.at)).arity() {
            operand < n
        } else {
            operand == 0
        }
    }

    #[tactic(auto, unfolding(stored::specs::Rules::node_ok))]
    fn node_ok(self, n: usize) -> bool
        ensures { result ≡ node_ok n self.entry.bytes.now self.entry.at }
    {
        byte_at(self.bytes, self.at) <= 8
            && byte_at(self.bytes, self.at + 1) == 0
            && self.operand_ok(n, 0)
            && self.operand_ok(n, 1)
            && self.operand_ok(n, 2)
    }

    // What `a` of expression `i` may be, by its op.
    #[tactic(auto, unfolding(stored::specs::Rules::first_ok))]
    fn first_ok(self, k: usize, i: usize) -> bool
        ensures { result ≡ first_ok k i self.entry.bytes.now self.entry.at }
    {
        let a = usize::from(u16_at(self.bytes, self.at + 2));
        match byte_at(self.bytes, self.at) {
            0 | 1 => a == 0,
            2 => a < k,
            _ => a < i,
        }
    }

    // What `b` of expression `i` may be, by its op.
    #[tactic(auto, unfolding(stored::specs::Rules::second_ok))]
    fn second_ok(self, i: usize) -> bool
        ensures { result ≡ second_ok i self.entry.bytes.now self.entry.at }
    {
        let b = usize::from(u16_at(self.bytes, self.at + 4));
        if byte_at(self.bytes, self.at) < 4 {
            b == 0
        } else {
            b < i
        }
    }

    #[tactic(auto, unfolding(stored::specs::Rules::expression_ok))]
    fn expression_ok(self, k: usize, i: usize) -> bool
        ensures { result ≡ expression_ok k i self.entry.bytes.now self.entry.at }
    {
        byte_at(self.bytes, self.at) <= 6
            && byte_at(self.bytes, self.at + 1) == 0
            && self.first_ok(k, i)
            && self.second_ok(i)
            && u16_at(self.bytes, self.at + 6) == 0
    }

    #[tactic(auto, unfolding(stored::specs::Rules::clause_ok))]
    fn clause_ok(self, n: usize, e: usize) -> bool
        ensures { result ≡ clause_ok n e self.entry.bytes.now self.entry.at }
    {
        byte_at(self.bytes, self.at) <= 1
            && byte_at(self.bytes, self.at + 1) <= 1
            && usize::from(u16_at(self.bytes, self.at + 2)) < n
            && u16_at(self.bytes, self.at + 4) <= 255
            && usize::from(u16_at(self.bytes, self.at + 6)) < e
    }
}

// Records in bytes: in the blocks from block `first` on, or, with no such block, in a row.
#[derive(Clone, Copy)]
pub struct Listed<'a> {
    pub bytes: &'a [u8],
    pub first: Option<usize>,
    pub ghost near: { ForSome first (λ b. b < 65536) },
}

impl<'a> Listed<'a> {
    pub fn in_row(bytes: &'a [u8]) -> Listed<'a>
        ensures bytes { result.bytes.now ≡ bytes.now }
        ensures first { result.first ≡ None }
    {
        Listed { bytes, first: None }
    }

    pub fn in_blocks(bytes: &'a [u8], first: usize) -> Listed<'a>
        requires { first < 65536 }
        ensures bytes { result.bytes.now ≡ bytes.now }
        ensures first { result.first ≡ Some first }
    {
        Listed {
            bytes,
            first: Some(first),
        }
    }

    // Where record `i` stands.
    pub fn place(self, i: usize) -> usize
        requires { i < 65536 }
        ensures { (result ≡ spot self.entry.first i) × (result < 2 ^ 31) }
    {
        match self.first {
            None => 8 * i,
            Some(first) => 512 * (first + i / 63) + 4 + 8 * (i % 63),
        }
    }

    fn record(self, i: usize) -> Record<'a>
        requires { i < 65536 }
        ensures bytes { result.bytes.now ≡ self.entry.bytes.now }
        ensures place { result.at ≡ spot self.entry.first i }
    {
        Record {
            bytes: self.bytes,
            at: self.place(i),
        }
    }
}

// The rules of all records, in the order of their numbers.
pub fn rules_kept(
    layout: Layout,
    nodes: Listed,
    expressions: Listed,
    clauses: Listed,
) -> Result<(), Refusal>
    ensures { Follows layout.size nodes.entry.bytes.now nodes.entry.first expressions.entry.bytes.now
        expressions.entry.first clauses.entry.bytes.now clauses.entry.first result }
{
    let Size { k, n, e, c } = layout.size;
    Reason::Gate.unless_each_record(1, n, |i| nodes.record(i).node_ok(n))?;
    Reason::Expression.unless_each_record(layout.first_expressions(), e, |i| {
        expressions.record(i).expression_ok(k, i)
    })?;
    Reason::Clause.unless_each_record(layout.first_clauses(), c, |i| {
        clauses.record(i).clause_ok(n, e)
    })
}

// Where a job's blocks begin, and what each block has to be.
ghost use Rattle.std.specs.Prelude.{◌≡◌, ◌^◌, ◌<◌, ◌≤◌};
ghost use Rattle.stored.specs.Layout.{span, first_expressions, first_clauses, blocks_of, kind_of, used_from, used_of, header_sizes};
ghost use Rattle.stored.specs.Rules.{limits_ok};
ghost use Rattle.blocks.specs.Narrow.{Narrow};

use crate::numbers::{byte_at, u16_at};
use stored::Size;

// The kinds of blocks; their numbers stand in the blocks.
#[derive(Clone, Copy, PartialEq, Eq)]
pub enum Kind {
    Header = 1,
    Nodes,
    Expressions,
    Clauses,
}

impl Kind {
    ghost use Rattle.blocks.specs.Kinds.{number_of};

    pub fn number(self) -> u8
        ensures { result ≡ number_of self }
    {
        self as u8
    }
}

// Sizes as 16 bits can say them, and the layout that they give.
#[derive(Clone, Copy)]
pub struct Layout {
    pub size: Size,
    pub ghost narrow: { Narrow size },
}

impl Layout {
    ghost use Rattle.blocks.specs.Kinds.{number_of, Standing};

    // What a job's header says.
    #[tactic(auto, unfolding(stored::specs::Layout::header_sizes))]
    pub fn of_header(s: &[u8]) -> Layout
        ensures { result.size ≡ header_sizes s.now }
    {
        Layout {
            size: Size {
                k: usize::from(byte_at(s, 5)),
                n: usize::from(u16_at(s, 6)),
                e: usize::from(u16_at(s, 8)),
                c: usize::from(u16_at(s, 10)),
            },
        }
    }

    // Each of these three adds the span of one more list to the one before.
    pub fn first_expressions(self) -> usize
        ensures { (result ≡ first_expressions self.size) × (result < 2000) }
    {
        1 + span(self.size.n)
    }

    pub fn first_clauses(self) -> usize
        ensures { (result ≡ first_clauses self.size) × (result < 4000) }
    {
        self.first_expressions() + span(self.size.e)
    }

    pub fn block_count(self) -> usize
        ensures { (result ≡ blocks_of self.size) × (result < 6000) }
    {
        self.first_clauses() + span(self.size.c)
    }

    #[tactic(auto, unfolding(stored::specs::Layout::kind_of))]
    pub fn block_kind(self, b: usize) -> Kind
        ensures number { number_of result ≡ kind_of self.size b }
        ensures standing { Standing self.size b result }
    {
        if b < 1 {
            Kind::Header
        } else if b < self.first_expressions() {
            Kind::Nodes
        } else if b < self.first_clauses() {
            Kind::Expressions
        } else {
            Kind::Clauses
        }
    }

    #[tactic(auto, unfolding(stored::specs::Layout::used_of))]
    pub fn block_used(self, b: usize) -> u8
        requires { b < 2 ^ 54 }
        ensures { result ≡ used_of self.size b }
    {
        match self.block_kind(b) {
            Kind::Header => 1,
            Kind::Nodes => used_from(self.size.n, 1, b),
            Kind::Expressions => used_from(self.size.e, self.first_expressions(), b),
            Kind::Clauses => used_from(self.size.c, self.first_clauses(), b),
        }
    }
}

#[tactic(auto, unfolding(stored::specs::Rules::limits_ok))]
pub fn limits_ok(z: Size) -> bool
    ensures { result ≡ limits_ok z }
{
    z.k <= 12 && 1 <= z.n && z.n <= 1008 && z.e <= 504 && z.c <= 504
}

// The blocks that `m` records take.
fn span(m: usize) -> usize
    requires { m < 65536 }
    ensures { result ≡ span m }
{
    (m + 62) / 63
}

// How many of `m` records that begin in block `first` stand in block `b`.
fn used_from(m: usize, first: usize, b: usize) -> u8
    requires { (first ≤ b) × (b < 2 ^ 54) }
    ensures { result ≡ used_from m first b }
{
    m.saturating_sub(63 * (b - first)).min(63) as u8
}

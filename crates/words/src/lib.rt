// Sixty-four cases in a word, one bit a case. A node has two words: could it be 0, could it be 1.
#![tactic(auto)]

ghost use Rattle.std.specs.Prelude.{◌≡◌, ℕ, ◌<◌};
ghost use Rattle.meaning.specs.Guards.{bit_of};
ghost use Rattle.meaning.specs.Answers.{tally};
ghost use Rattle.meaning.proofs.Tallies.{Least};
ghost use Rattle.words.specs.Places.{Forces, Narrows, Collided, Differs, VariableWord, UsedPlaces, bits_at, not_bits, and_bits, or_bits, xor_bits, mux_bits};

use meaning::Gate;
use std::ops::{BitAnd, BitOr, BitXor, Not};

#[derive(Clone, Copy)]
pub struct Pair {
    pub zeros: u64,
    pub ones: u64,
}

// Every place.
pub const ALL: u64 = u64::MAX;

// The low 2^k places of a word, for k below 6.
const LOW: [u64; 6] = [0x1, 0x3, 0xF, 0xFF, 0xFFFF, 0xFFFF_FFFF];

// The word of a variable below 6: runs of 2^v places, clear and set in turn. All places divided by 2^(2^v) + 1 are the runs that are set, one run
// too low.
fn variable_within(v: usize) -> u64
    requires { v < 6 }
    ensures { (g : ℕ) → VariableWord g v result }
{
    let run = 1u64 << v;
    ALL / ((1u64 << run) + 1) << run
}

// The word of variable `v` in group `g`. From variable 6 on, the whole group agrees on it.
pub fn variable_word(g: usize, v: usize) -> u64
    requires { v < 16 }
    ensures { VariableWord g v result }
{
    if v < 6 {
        return variable_within(v);
    }
    if (g >> (v - 6)) & 1 == 1 { ALL } else { 0 }
}

// The places that stand for a case where there are `k` variables.
pub fn used_places(k: usize) -> u64
    ensures { UsedPlaces k result }
{
    if k < 6 { LOW[k] } else { ALL }
}

// How many places of `x` are set.
pub fn count(x: u64) -> usize
    ensures { result ≡ tally (bit_of x) 64 }
{
    x.count_ones() as usize
}

// The least place of `x` that is set.
pub fn least_place(x: u64) -> usize
    requires { x ≡ 0 → ⊥ }
    ensures { Least (bit_of x) 64 result }
{
    x.trailing_zeros() as usize
}

// The gates, at all places together. NOT exchanges the two words, so no gate needs a complement.
impl Not for Pair {
    type Output = Pair;

    ghost not_gives = { λ p r. (i : ℕ) → bits_at r i ≡ not_bits (bits_at p i) };

    fn not(self) -> Pair {
        Pair {
            zeros: self.ones,
            ones: self.zeros,
        }
    }
}

impl BitAnd for Pair {
    type Output = Pair;

    ghost bitand_gives = { λ p q r. (i : ℕ) → bits_at r i ≡ and_bits (bits_at p i) (bits_at q i) };

    fn bitand(self, q: Pair) -> Pair {
        Pair {
            zeros: self.zeros | q.zeros,
            ones: self.ones & q.ones,
        }
    }
}

impl BitOr for Pair {
    type Output = Pair;

    ghost bitor_gives = { λ p q r. (i : ℕ) → bits_at r i ≡ or_bits (bits_at p i) (bits_at q i) };

    fn bitor(self, q: Pair) -> Pair {
        Pair {
            zeros: self.zeros & q.zeros,
            ones: self.ones | q.ones,
        }
    }
}

impl BitXor for Pair {
    type Output = Pair;

    ghost bitxor_gives = { λ p q r. (i : ℕ) → bits_at r i ≡ xor_bits (bits_at p i) (bits_at q i) };

    fn bitxor(self, q: Pair) -> Pair {
        Pair {
            zeros: (self.zeros & q.zeros) | (self.ones & q.ones),
            ones: (self.zeros & q.ones) | (self.ones & q.zeros),
        }
    }
}

fn mux_pair(p: Pair, q: Pair, r: Pair) -> Pair
    ensures { (i : ℕ) → bits_at result i ≡ mux_bits (bits_at p i) (bits_at q i) (bits_at r i) }
{
    Pair {
        zeros: (p.ones & q.zeros) | (p.zeros & r.zeros),
        ones: (p.ones & q.ones) | (p.zeros & r.ones),
    }
}

// What a gate forces. INPUT forces nothing: it could be either.
pub fn gate_pair(gate: Gate, p: Pair, q: Pair, r: Pair) -> Pair
    ensures { Forces gate p q r result }
{
    match gate {
        Gate::Input => Pair {
            zeros: ALL,
            ones: ALL,
        },
        Gate::Zero => Pair {
            zeros: ALL,
            ones: 0,
        },
        Gate::One => Pair {
            zeros: 0,
            ones: ALL,
        },
        Gate::Buf => p,
        Gate::Not => !p,
        Gate::And => p & q,
        Gate::Or => p | q,
        Gate::Xor => p ^ q,
        Gate::Mux => mux_pair(p, q, r),
    }
}

// A clause joined where its guard is true: what it wants 1 can't be 0 there, and what it wants 0 can't be 1.
pub fn narrow(w: Pair, guard: u64, one: bool) -> Pair
    ensures { Narrows w guard one result }
{
    if one {
        Pair {
            zeros: w.zeros & !guard,
            ones: w.ones,
        }
    } else {
        Pair {
            zeros: w.zeros,
            ones: w.ones & !guard,
        }
    }
}

// Where a node could be neither.
pub fn collided(w: Pair) -> u64
    ensures { Collided w result }
{
    !(w.zeros | w.ones)
}

// Where a node's value is not the one wanted, X included: it could be the other.
pub fn differs(w: Pair, one: bool) -> u64
    ensures { Differs w one result }
{
    if one { w.zeros } else { w.ones }
}

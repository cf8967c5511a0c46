// Records read as values: what the eight bytes of a node, an expression or a clause say.
ghost use Rattle.std.specs.Prelude.{◌≡◌, ◌*◌, ◌^◌, ◌<◌, List, ℕ, [], ◌∷◌, get_or, slice_index_or, length, ◌≤◌};
ghost use Rattle.scans.specs.Lists.{list_of};
ghost use Rattle.stored.specs.Layout.{record_byte};
ghost use Rattle.stored.specs.Decoding.{node_at, expression_at, clause_at};
ghost use Rattle.meaning.specs.declared.Side.TheVariants.{Stimulus, Expectation};
ghost use Rattle.stored.specs.EightBytes.{ByEightBytes};
ghost use Rattle.stored.proofs.EightBytes.{node_by_eight, expression_by_eight, clause_by_eight};

use blocks::numbers::{byte_at, u16_at};
use blocks::rules::Listed;
use meaning::{Clause, Expression, Gate, Node, Side};

// What a list of records is read as.
pub trait Decode {
    // The value of the record that stands at a place.
    ghost value_at: { List ℕ → ℕ → Self };

    ghost laws: { ByEightBytes value_at };

    fn decode(s: &[u8], at: usize) -> Self
        requires { at < 2 ^ 31 }
        ensures { result ≡ value_at s.now at };
}

impl Decode for Node {
    ghost value_at = { node_at };

    ghost laws = { node_by_eight };

    #[tactic(auto, unfolding(stored::specs::Decoding::node_at))]
    fn decode(s: &[u8], at: usize) -> Node {
        Node {
            gate: Gate::of_code(byte_at(s, at)),
            p: u16_at(s, at + 2),
            q: u16_at(s, at + 4),
            r: u16_at(s, at + 6),
        }
    }
}

impl Decode for Expression {
    ghost value_at = { expression_at };

    ghost laws = { expression_by_eight };

    #[tactic(auto, unfolding(stored::specs::Decoding::expression_at))]
    fn decode(s: &[u8], at: usize) -> Expression {
        let a = u16_at(s, at + 2);
        let b = u16_at(s, at + 4);
        let by_op = [
            Expression::False,
            Expression::True,
            Expression::Variable(a),
            Expression::Not(a),
            Expression::And(a, b),
            Expression::Or(a, b),
            Expression::Xor(a, b),
        ];
        by_op
            .get(usize::from(byte_at(s, at)))
            .copied()
            .unwrap_or(Expression::False)
    }
}

// The side that a clause's first byte names.
fn side_of(code: u8) -> Side
    ensures { result ≡ get_or (Stimulus ∷ Expectation ∷ []) code Stimulus }
{
    if code == 1 {
        Side::Expectation
    } else {
        Side::Stimulus
    }
}

impl Decode for Clause {
    ghost value_at = { clause_at };

    ghost laws = { clause_by_eight };

    #[tactic(auto, unfolding(stored::specs::Decoding::clause_at))]
    fn decode(s: &[u8], at: usize) -> Clause {
        Clause {
            side: side_of(byte_at(s, at)),
            value: byte_at(s, at + 1) == 1,
            node: u16_at(s, at + 2),
            time: u16_at(s, at + 4),
            guard: u16_at(s, at + 6),
        }
    }
}

// The block by its number, here and in `decode_list`: a `Listed` may also be a row, of which `record_byte` does not speak.
// Record `i` of those that begin in block `first` of a job.
fn record<R: Decode>(job: &[u8], first: usize, i: usize) -> R
    requires { (first < 65536) × (i < 65536) }
    ensures { (count : ℕ) → i < count → result ≡ R.value_at (list_of (record_byte job.now first) (8 * count)) (8 * i) }
{
    let list = Listed::in_blocks(job, first);
    R::decode(job, list.place(i))
}

// Reads the first of the `count` records that begin there, as many as the list is long; past them all, a record of zeros stays.
// The list is lent, and not returned, since it is large: each return would copy it.
pub fn decode_list<R: Decode + Copy, const N: usize>(
    job: &[u8],
    first: usize,
    count: usize,
    list: &mut [R; N],
)
    requires bounds { (first < 65536) × (N ≤ 65536) }
    requires zeros { (i : ℕ) (d : R) → i < N → slice_index_or list.old i d ≡ R.value_at [] 0 }
    ensures { (i : ℕ) (d : R) → i < N → slice_index_or list.new i d ≡ R.value_at (list_of (record_byte job.now first) (8 * count)) (8 * i) }
{
    for i in 0..count.min(N) {
        list[i] = record(job, first, i);
    }
}

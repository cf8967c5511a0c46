// The three values, what each gate forces from them, and cells: what joining gives.
ghost use Rattle.std.specs.Prelude.{◌≡◌};
ghost use Rattle.meaning.specs.Values.{value, join_cells, bit, has, cell_number};
ghost use Rattle.meaning.specs.Gates.{not_of, and_of, or_of, xor_of, mux_of};
ghost use Rattle.cases.specs.Cells.{value_of, cell_of};

use std::ops::{BitAnd, BitOr, BitXor, Not};

#[derive(Clone, Copy, PartialEq, Eq)]
pub enum Value {
    Zero,
    One,
    X,
}

// What a node has: a value, or none where it has collided.
pub type Cell = Option<Value>;

impl Not for Value {
    type Output = Value;

    ghost not_gives = { λ p r. value_of r ≡ not_of (value_of p) };

    fn not(self) -> Value {
        match self {
            Value::Zero => Value::One,
            Value::One => Value::Zero,
            Value::X => Value::X,
        }
    }
}

// The two-operand rules are tables, a row for each value of the first operand: AND is decided by a 0, OR by a 1, XOR by neither.
const AND: [[Value; 3]; 3] = [
    [Value::Zero, Value::Zero, Value::Zero],
    [Value::Zero, Value::One, Value::X],
    [Value::Zero, Value::X, Value::X],
];

const OR: [[Value; 3]; 3] = [
    [Value::Zero, Value::One, Value::X],
    [Value::One, Value::One, Value::One],
    [Value::X, Value::One, Value::X],
];

const XOR: [[Value; 3]; 3] = [
    [Value::Zero, Value::One, Value::X],
    [Value::One, Value::Zero, Value::X],
    [Value::X, Value::X, Value::X],
];

impl BitAnd for Value {
    type Output = Value;

    ghost bitand_gives = { λ p q r. value_of r ≡ and_of (value_of p) (value_of q) };

    fn bitand(self, q: Value) -> Value {
        AND[self as usize][q as usize]
    }
}

impl BitOr for Value {
    type Output = Value;

    ghost bitor_gives = { λ p q r. value_of r ≡ or_of (value_of p) (value_of q) };

    fn bitor(self, q: Value) -> Value {
        OR[self as usize][q as usize]
    }
}

impl BitXor for Value {
    type Output = Value;

    ghost bitxor_gives = { λ p q r. value_of r ≡ xor_of (value_of p) (value_of q) };

    fn bitxor(self, q: Value) -> Value {
        XOR[self as usize][q as usize]
    }
}

impl Value {
    // q where it equals r, else by this value: q for 1, r for 0.
    pub fn select(self, q: Value, r: Value) -> Value
        ensures { value_of result ≡ mux_of (value_of self) (value_of q) (value_of r) }
    {
        if q == r {
            return q;
        }
        match self {
            Value::Zero => r,
            Value::One => q,
            Value::X => Value::X,
        }
    }
}

impl From<bool> for Value {
    ghost from_gives = { λ b v. value_of v ≡ bit b };

    fn from(one: bool) -> Value {
        if one { Value::One } else { Value::Zero }
    }
}

// X takes the value, the same value stays, and anything else is a collision.
#[tactic(auto, unfolding(meaning::specs::Values::join_cells, meaning::specs::Values::join))]
pub fn joined(cell: Cell, one: bool) -> Cell
    ensures { cell_of result ≡ join_cells (cell_of cell) (value (bit one)) }
{
    match (cell?, one) {
        (Value::X, _) => Some(Value::from(one)),
        (Value::Zero, false) | (Value::One, true) => cell,
        (Value::Zero, true) | (Value::One, false) => None,
    }
}

// Whether the cell has this value. X has neither.
pub fn has(cell: Cell, one: bool) -> bool
    ensures { result ≡ has (cell_of cell) (bit one) }
{
    cell == Some(Value::from(one))
}

// 0, 1, or 2 for X, as rows are promised in bytes. A collision is 3, which no row that is shown has.
pub fn number(cell: Cell) -> u8
    ensures { result ≡ cell_number (cell_of cell) }
{
    match cell {
        Some(Value::Zero) => 0,
        Some(Value::One) => 1,
        Some(Value::X) => 2,
        None => 3,
    }
}

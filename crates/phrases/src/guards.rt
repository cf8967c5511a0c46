// Guards: operands joined by operators, the stronger ones first, down to brackets, inside which stands a whole guard again.
ghost use Rattle.std.specs.Prelude.{◌≡◌, ◌≤◌, true, false, suc, MatchOption, MatchResult};
ghost use Rattle.grammar.specs.Items.{SIGN, mark_byte};
ghost use Rattle.grammar.specs.Guards.{strength};
ghost use Rattle.grammar.specs.Records.{expression_record, op_of};
ghost use Rattle.phrases.specs.Places.{is_at};
ghost use Rattle.phrases.specs.Operators.{operator_of, number_of};
ghost use Rattle.phrases.specs.Operands.{OperandHere, NoOperand, operand_record};
ghost use Rattle.phrases.specs.GuardsRead.{GuardAt, GuardAsked};

use crate::items::{Stopped, is_at, skip};
use crate::records::{Records, two_bytes};

// What stands around an operand: the variables that it may name, the brackets open, and the operators that wait for it.
#[derive(Clone, Copy, Debug, PartialEq, Eq)]
pub struct Nesting {
    pub k: usize,
    pub depth: usize,
    pub pending: usize,
    pub ghost few_variables: { k ≤ 12 },
    pub ghost opened: { depth ≤ 32 },
}

#[derive(Clone, Copy, Debug, PartialEq, Eq)]
enum Operator {
    Or,
    Xor,
    And,
}

impl Operator {
    fn sign(self) -> u8
        ensures { result ≡ mark_byte (SIGN (operator_of self)) }
    {
        match self {
            Operator::Or => b'|',
            Operator::Xor => b'^',
            Operator::And => b'&',
        }
    }

    fn operation(self) -> Operation
        ensures { number_of result ≡ op_of (operator_of self) }
    {
        match self {
            Operator::Or => Operation::Or,
            Operator::Xor => Operation::Xor,
            Operator::And => Operation::And,
        }
    }

    fn next_stronger(self) -> Option<Operator>
        ensures { MatchOption result (strength (operator_of self) ≡ 3) (λ next. strength (operator_of next) ≡ suc (strength (operator_of self))) }
    {
        match self {
            Operator::Or => Some(Operator::Xor),
            Operator::Xor => Some(Operator::And),
            Operator::And => None,
        }
    }
}

// What an expression computes, by its number in the record.
// meaning::Expression holds its operands, as u16: with it the numbers would be written out here, and each place cast.
#[derive(Clone, Copy, Debug, PartialEq, Eq)]
enum Operation {
    False,
    True,
    Variable,
    Not,
    And,
    Or,
    Xor,
}

fn expression(operation: Operation, a: usize, b: usize) -> [u8; 8]
    ensures { result ≡ expression_record (number_of operation) a b }
{
    let [a0, a1] = two_bytes(a);
    let [b0, b1] = two_bytes(b);
    [operation as u8, 0, a0, a1, b0, b1, 0, 0]
}

#[derive(Clone, Copy, Debug, PartialEq, Eq)]
enum Operand {
    False,
    True,
    Variable(u8),
}

impl Operand {
    fn expression(self) -> [u8; 8]
        ensures { result ≡ operand_record self }
    {
        match self {
            Operand::False => expression(Operation::False, 0, 0),
            Operand::True => expression(Operation::True, 0, 0),
            Operand::Variable(v) => expression(Operation::Variable, usize::from(v), 0),
        }
    }
}

const DEPTH: usize = 32;

// A whole guard: the place after it, its records pushed.
pub fn guard(text: &[u8], at: usize, k: usize, es: &mut Records) -> Result<usize, Stopped>
    requires { GuardAsked 0 at text.now es.old × (k ≤ 12) }
    ensures { GuardAt 1 k 0 0 at text.now es.old es.new result }
{
    let outermost = Nesting {
        k,
        depth: 0,
        pending: 0,
    };
    either(text, at, outermost, es)
}

// A guard inside others: with its variables, the brackets open around it, and the operators that wait for it.
pub fn either(text: &[u8], at: usize, around: Nesting, es: &mut Records) -> Result<usize, Stopped>
    requires { GuardAsked around.pending at text.now es.old }
    ensures { GuardAt 1 around.k around.depth around.pending at text.now es.old es.new result }
{
    joined(text, at, around, es, Operator::Or)
}

// side (operator side)*
// No struct holds text, at, around and es: each step has its own `at`, most a new `around`, and `es` is lent on, so each would build it anew.
#[cycle(levels)]
fn joined(
    text: &[u8],
    at: usize,
    around: Nesting,
    es: &mut Records,
    operator: Operator,
) -> Result<usize, Stopped>
    requires { GuardAsked around.pending at text.now es.old }
    ensures { GuardAt (strength (operator_of operator)) around.k around.depth around.pending at text.now es.old es.new result }
{
    let mut end = side(text, at, around, es, operator)?;
    // A while: it goes on as long as the sign stands, and counts no index.
    while is_at(text, end, operator.sign()) {
        if !es.has_room(around.pending + 2) {
            return Err(Stopped { at: end });
        }
        let left = es.count() - 1;
        let mut waiting = around;
        waiting.pending += 1;
        let next = side(text, skip(text, end + 1), waiting, es, operator)?;
        let right = es.count() - 1;
        es.push(expression(operator.operation(), left, right));
        end = next;
    }
    Ok(end)
}

// What the operator joins: what the next stronger one has joined, or a single operand.
#[cycle(levels)]
fn side(
    text: &[u8],
    at: usize,
    around: Nesting,
    es: &mut Records,
    operator: Operator,
) -> Result<usize, Stopped>
    requires { GuardAsked around.pending at text.now es.old }
    ensures { GuardAt (suc (strength (operator_of operator))) around.k around.depth around.pending at text.now es.old es.new result }
{
    match operator.next_stronger() {
        Some(stronger) => joined(text, at, around, es, stronger),
        None => single(text, at, around, es),
    }
}

// '!' and what it negates, a group in brackets, a variable or a constant
#[cycle(levels)]
fn single(text: &[u8], at: usize, around: Nesting, es: &mut Records) -> Result<usize, Stopped>
    requires { GuardAsked around.pending at text.now es.old }
    ensures { GuardAt 4 around.k around.depth around.pending at text.now es.old es.new result }
{
    match text.get(at) {
        Some(b'!') => negated(text, at, around, es),
        Some(b'(') => grouped(text, at, around, es),
        _ => plain(text, at, around, es),
    }
}

// '!' stands at this place.
#[cycle(levels)]
fn negated(text: &[u8], at: usize, around: Nesting, es: &mut Records) -> Result<usize, Stopped>
    requires { GuardAsked around.pending at text.now es.old × (is_at text.now at 33 ≡ true) }
    ensures { GuardAt 4 around.k around.depth around.pending at text.now es.old es.new result }
{
    if !es.has_room(around.pending + 2) {
        return Err(Stopped { at });
    }
    let mut waiting = around;
    waiting.pending += 1;
    let end = single(text, skip(text, at + 1), waiting, es)?;
    let inner = es.count() - 1;
    es.push(expression(Operation::Not, inner, 0));
    Ok(end)
}

// '(' stands at this place.
#[cycle(levels)]
fn grouped(text: &[u8], at: usize, around: Nesting, es: &mut Records) -> Result<usize, Stopped>
    requires { GuardAsked around.pending at text.now es.old × (is_at text.now at 40 ≡ true) }
    ensures { GuardAt 4 around.k around.depth around.pending at text.now es.old es.new result }
{
    if around.depth >= DEPTH {
        return Err(Stopped { at });
    }
    let mut inside = around;
    inside.depth += 1;
    let end = joined(text, skip(text, at + 1), inside, es, Operator::Or)?;
    if !is_at(text, end, b')') {
        return Err(Stopped { at: end });
    }
    Ok(skip(text, end + 1))
}

// A variable or a constant, if one stands here.
fn plain(text: &[u8], at: usize, around: Nesting, es: &mut Records) -> Result<usize, Stopped>
    requires { GuardAsked around.pending at text.now es.old × (is_at text.now at 33 ≡ false) × (is_at text.now at 40 ≡ false) }
    ensures { GuardAt 4 around.k around.depth around.pending at text.now es.old es.new result }
{
    let operand = operand_at(text, at, around.k)?;
    es.push(operand.expression());
    Ok(skip(text, at + 1))
}

// The variable below k or the constant that stands here.
fn operand_at(text: &[u8], at: usize, k: usize) -> Result<Operand, Stopped>
    ensures { MatchResult result (OperandHere k text.now at) (λ s. (s.at ≡ at) × NoOperand k text.now at) }
{
    match text.get(at) {
        Some(b'0') => Ok(Operand::False),
        Some(b'1') => Ok(Operand::True),
        Some(b) if *b >= b'a' && usize::from(*b - b'a') < k => Ok(Operand::Variable(*b - b'a')),
        _ => Err(Stopped { at }),
    }
}

// The guards of sixty-four cases together: a word for each expression, one bit a case.
#![tactic(auto)]

ghost use Rattle.std.specs.Prelude.{◌≡◌, true, false, ℕ, ◌+◌, ◌*◌, ◌<◌, length, map, slice_index_or};
ghost use Rattle.meaning.specs.Guards.{bit_of, truth_given};
ghost use Rattle.decoded.specs.Plans.{names_earlier};
ghost use Rattle.guards.specs.Guarded.{GuardWords};

use decoded::Plan;
use meaning::Expression;
use words::{ALL, variable_word};

fn operand(earlier: &[u64], a: u16) -> u64
    requires { a < length earlier.now }
    ensures { (p : ℕ) → bit_of result p ≡ slice_index_or (map (λ w. bit_of w p) earlier.now) a false }
{
    earlier[usize::from(a)]
}

// The word of an expression in group `g`, from the words of those before it.
fn expression_word(expression: Expression, g: usize, earlier: &[u64]) -> u64
    requires { names_earlier 16 (length earlier.now) expression ≡ true }
    ensures { (p : ℕ) → p < 64 → bit_of result p ≡ truth_given (64 * g + p) (map (λ w. bit_of w p) earlier.now) expression }
{
    match expression {
        Expression::False => 0,
        Expression::True => ALL,
        Expression::Variable(v) => variable_word(g, usize::from(v)),
        Expression::Not(a) => !operand(earlier, a),
        Expression::And(a, b) => operand(earlier, a) & operand(earlier, b),
        Expression::Or(a, b) => operand(earlier, a) | operand(earlier, b),
        Expression::Xor(a, b) => operand(earlier, a) ^ operand(earlier, b),
    }
}

// The words of all expressions in group `g`.
pub fn guard_words(plan: &Plan, g: usize) -> [u64; 504]
    ensures { GuardWords plan.now g result }
{
    let mut words = [0u64; 504];
    for i in 0..plan.size.e {
        words[i] = expression_word(plan.expressions[i], g, &words[..i]);
    }
    words
}

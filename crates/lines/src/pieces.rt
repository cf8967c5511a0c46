// The pieces of a line that name something: each is put at its end.
ghost use Rattle.std.specs.Prelude.{◌≡◌, ◌++◌, ◌+◌, ◌≤◌, length};
ghost use Rattle.texts.specs.Decimals.{decimal};
ghost use Rattle.lines.specs.Lines.{value};

use texts::{Line, push_number};

// A name and a number, which has at most twenty digits.
#[tactic(auto, using(texts::proofs::DecimalLaws::decimal_length))]
pub fn push_field(line: &mut Line, name: &str, x: usize)
    requires { length line.old.bytes + (length name.now + 20) ≤ 256 }
    ensures is { line.new.bytes ≡ line.old.bytes ++ (name.now ++ decimal x) }
    ensures short { length (decimal x) ≤ 20 }
{
    line.push_str(name);
    push_number(line, x);
}

// A value: 0, 1, or X where the number is 2.
#[tactic(auto, using(texts::proofs::DecimalLaws::decimal_length), unfolding(crate::specs::Lines::value))]
pub fn push_value(line: &mut Line, v: usize)
    requires { length line.old.bytes + 20 ≤ 256 }
    ensures is { line.new.bytes ≡ line.old.bytes ++ value v }
    ensures short { length (value v) ≤ 20 }
{
    if v == 2 {
        line.push_str("X");
    } else {
        push_number(line, v);
    }
}

// Texts and numbers put at a place of lent bytes, or pushed at the end of a line; numbers in their decimal digits.
#![tactic(auto)]

ghost use Rattle.std.specs.Prelude.{◌≡◌, ◌++◌, ◌+◌, ◌≤◌, drop, length};
ghost use Rattle.texts.specs.Decimals.{decimal};
ghost use Rattle.texts.specs.Putting.{Puts};

use arrayvec::ArrayString;
use itoa::Buffer;

pub type Line = ArrayString<256>;

// Answers the place after the text; what stands elsewhere in `line` stays.
pub fn put_text(text: &[u8], line: &mut [u8], at: usize) -> usize
    requires { at + length text.now ≤ length line.old }
    ensures { Puts text.now at line.old line.new result }
{
    let end = at + text.len();
    line[at..end].copy_from_slice(text);
    end
}

// Answers the text's length; what `out` had after it stays.
pub fn put_front(text: &[u8], out: &mut [u8]) -> usize
    requires { length text.now ≤ length out.old }
    ensures put { out.new ≡ text.now ++ drop (length text.now) out.old }
    ensures count { result ≡ length text.now }
{
    put_text(text, out, 0)
}

// Answers the place after the digits; what stands elsewhere in `line` stays.
#[tactic(auto, using(crate::proofs::DecimalLaws::std_decimal_is))]
pub fn put_number(x: usize, line: &mut [u8], at: usize) -> usize
    requires { at + length (decimal x) ≤ length line.old }
    ensures { Puts (decimal x) at line.old line.new result }
{
    let mut digits = Buffer::new();
    put_text(digits.format(x).as_bytes(), line, at)
}

// Twenty digits at most.
#[tactic(auto, using(crate::proofs::DecimalLaws::std_decimal_is, crate::proofs::DecimalLaws::decimal_length))]
pub fn push_number(line: &mut Line, x: usize)
    requires { length line.old.bytes + length (decimal x) ≤ 256 }
    ensures is { line.new.bytes ≡ line.old.bytes ++ decimal x }
    ensures short { length (decimal x) ≤ 20 }
{
    let mut digits = Buffer::new();
    line.push_str(digits.format(x));
}

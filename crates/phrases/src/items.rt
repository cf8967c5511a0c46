// Gaps, words and numbers, each from a place on.
// No type holds text and place: each step asks `at` ≤ the text's length by itself, and would take it apart and build it anew.
ghost use Rattle.std.specs.Prelude.{◌≡◌, ℕ, ◌≤◌, Bool, length};
ghost use Rattle.grammar.specs.Spelling.{is_gap};
ghost use Rattle.grammar.specs.Bytewise.{is_digit};
ghost use Rattle.phrases.specs.Places.{Passes, Skips, is_at, SpeltAt};

// The place where the text stops.
#[derive(Clone, Copy, Debug, PartialEq, Eq)]
pub struct Stopped {
    pub at: usize,
}

#[tactic(auto, unfolding(grammar::specs::Spelling::is_gap))]
fn is_gap(b: u8) -> bool
    ensures { result ≡ is_gap b }
{
    matches!(b, b' ' | b'\n' | b'\r')
}

pub fn is_digit(b: u8) -> bool
    ensures { result ≡ is_digit b }
{
    b.is_ascii_digit()
}

// The first place from `at` on whose byte fails the test. By place: iterators cost a long text a twentieth more.
fn skip_while<F: Fn(u8) -> bool>(text: &[u8], at: usize, test: F) -> usize
    requires inside { at ≤ length text.now }
    requires callable { F.IsAlwaysCallable test }
    ensures { (p : ℕ → Bool) → ((b : ℕ) (r : Bool) → F.post test b r → r ≡ p b) → Passes p text.now at result }
{
    for q in at..text.len() {
        if !test(text[q]) {
            return q;
        }
    }
    text.len()
}

// The first place from `at` on that is no gap.
pub fn skip(text: &[u8], at: usize) -> usize
    requires { at ≤ length text.now }
    ensures { Skips text.now at result }
{
    skip_while(text, at, is_gap)
}

pub fn is_at(text: &[u8], at: usize, b: u8) -> bool
    ensures { result ≡ is_at text.now at b }
{
    text.get(at) == Some(&b)
}

// The place after the word, whose letters stand one by one.
pub fn spell(text: &[u8], at: usize, word: &[u8]) -> Result<usize, Stopped>
    requires { at ≤ length text.now }
    ensures { SpeltAt text.now at word.now result }
{
    for (i, letter) in word.iter().enumerate() {
        if !is_at(text, at + i, *letter) {
            return Err(Stopped { at: at + i });
        }
    }
    Ok(at + word.len())
}

// The first place from `at` on that is no digit.
pub fn after_digits(text: &[u8], at: usize) -> usize
    requires { at ≤ length text.now }
    ensures { Passes is_digit text.now at result }
{
    skip_while(text, at, is_digit)
}

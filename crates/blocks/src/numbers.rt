// Numbers in bytes, low byte first. A byte past the end counts as 0, so no index is out of range.
ghost use Rattle.std.specs.Prelude.{◌≡◌, ℕ, ◌+◌, ◌*◌, ◌%◌, ◌^◌, ◌<◌};
ghost use Rattle.stored.specs.Bytes.{byte_at, u16_at, word_of, word_sum, block_from};
ghost use Rattle.blocks.specs.Steps.{word_at};

pub fn byte_at(s: &[u8], i: usize) -> u8
    ensures { result ≡ byte_at s.now i }
{
    s.get(i).copied().unwrap_or(0)
}

pub fn u16_at(s: &[u8], i: usize) -> u16
    requires { i < 2 ^ 63 }
    ensures { result ≡ u16_at s.now i }
{
    u16::from_le_bytes([byte_at(s, i), byte_at(s, i + 1)])
}

fn word_at(s: &[u8], i: usize) -> u32
    requires { i + 2 < 2 ^ 63 }
    ensures { result ≡ word_at s.now i }
{
    u32::from_le_bytes([
        byte_at(s, i),
        byte_at(s, i + 1),
        byte_at(s, i + 2),
        byte_at(s, i + 3),
    ])
}

// The first `count` words, added with wrapping. What is promised is of the bytes that the words are read from.
#[tactic(auto, using(crate::proofs::Words::adding))]
pub fn words_sum<F: Fn(usize) -> u32>(count: usize, word: F) -> u32
    requires { (i : ℕ) → i < count → F.pre word i }
    ensures { (f : ℕ → ℕ) → ((i r : ℕ) → i < count → F.post word i r → r ≡ word_of f i)
        → result ≡ word_sum f count % 2 ^ 32 }
{
    let mut sum: u32 = 0;
    for i in 0..count {
        sum = sum.wrapping_add(word(i));
    }
    sum
}

// The 128 words of a block, added with wrapping.
pub fn block_sum(s: &[u8], b: usize) -> u32
    requires { b < 2 ^ 54 }
    ensures { result ≡ word_sum (block_from s.now b) 128 % 2 ^ 32 }
{
    words_sum(128, |i| word_at(s, 512 * b + 4 * i))
}

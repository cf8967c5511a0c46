// Slices that are lent: their first bytes, and whether they were left alone.
ghost use Rattle.std.specs.Prelude.{◌≡◌, ◌↔◌, ◌+◌, ◌<◌, ℕ, length, take, IsTrue, slice_index};

// What a lent output is filled with before a call.
pub const MARK: u8 = 165;

// The first `n` elements, or all if there are fewer.
pub fn front<T>(s: &[T], n: usize) -> &[T]
    ensures { result.now ≡ take n s.now }
{
    &s[..n.min(s.len())]
}

pub fn front_mut(s: &mut [u8], n: usize) -> &mut [u8]
    ensures { result.now ≡ take n s.old }
{
    let size = n.min(s.len());
    &mut s[..size]
}

// Every byte from `from` on is as it was before the call.
pub fn is_kept(s: &[u8], from: usize) -> bool
    ensures { IsTrue result ↔ ((k : ℕ) → from + k < length s.now → slice_index s.now (from + k) ≡ MARK) }
{
    s.iter().skip(from).all(|b| *b == MARK)
}

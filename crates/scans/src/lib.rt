// Searches, refusals in their order, lists by place: definitions and their laws, and the search that the crates share.
#![tactic(auto)]

ghost use Rattle.std.specs.Prelude.{◌≡◌, ℕ, ◌<◌, Bool};
ghost use Rattle.scans.specs.First.{first_bad, each};

// The first index below `count` that fails the test.
pub fn first_bad<F: Fn(usize) -> bool>(count: usize, test: F) -> Option<usize>
    requires { (i : ℕ) → i < count → F.pre test i }
    ensures { (f : ℕ → Bool) → ((i : ℕ) (r : Bool) → i < count → F.post test i r → r ≡ f i)
        → result ≡ first_bad f count }
{
    // Its clause is written: of itself the closure would ask that the test may be called at every index.
    let fails = |i: &usize|
        requires { F.pre test i.now }
    { !test(*i) };
    (0..count).find(fails)
}

// Whether each index below `count` passes the test.
pub fn each<F: Fn(usize) -> bool>(count: usize, test: F) -> bool
    requires { (i : ℕ) → i < count → F.pre test i }
    ensures { (f : ℕ → Bool) → ((i : ℕ) (r : Bool) → i < count → F.post test i r → r ≡ f i)
        → result ≡ each f count }
{
    first_bad(count, test).is_none()
}

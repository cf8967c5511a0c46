// How many cases of a job fail and how many are empty, and the least of each.
#![tactic(auto)]

ghost use Rattle.std.specs.Prelude.{◌≡◌, Bool, ℕ, ◌+◌, ◌-◌, ◌*◌, ◌<◌, ◌≤◌, min, MatchOption};
ghost use Rattle.meaning.specs.Guards.{bit_of};
ghost use Rattle.meaning.specs.Jobs.{cases};
ghost use Rattle.meaning.specs.Answers.{failing, empty};
ghost use Rattle.meaning.proofs.Tallies.{Least};
ghost use Rattle.decoded.specs.Meant.{job_in};
ghost use Rattle.tallies.specs.Counting.{FoundIn, Covers};

use decoded::Plan;
use groups::{Gates, answer_group};
use words::{count, least_place, used_places};

// How many cases were found, and the least of them.
#[derive(Clone, Copy, Default)]
pub struct Found {
    pub count: usize,
    pub least: Option<usize>,
}

#[derive(Clone, Copy, Default)]
pub struct Counted {
    pub failing: Found,
    pub empty: Found,
}

// The least case of group `g` that has its place in `w`.
fn least_in(g: usize, w: u64) -> Option<usize>
    requires { g < 4294967296 }
    ensures { MatchOption result (w ≡ 0) (λ x. (64 * g ≤ x) × Least (bit_of w) 64 (x - 64 * g)) }
{
    if w == 0 {
        None
    } else {
        Some(64 * g + least_place(w))
    }
}

impl Found {
    // The cases of one more group: those that have their place in `w`.
    fn with(self, g: usize, w: u64) -> Found
        requires { (g < 4294967296) × (self.count < 4294967296) }
        ensures { (f : ℕ → Bool) (cases : ℕ) → 64 * g < cases → FoundIn f (64 * g) self → Covers f cases g w → FoundIn f (min (64 * (g + 1)) cases) result }
    {
        Found {
            count: self.count + count(w),
            least: self.least.or(least_in(g, w)),
        }
    }
}

// All groups of a job. Places that stand for no case, where k is below 6, are masked.
pub fn count_cases(plan: &Plan) -> Counted
    ensures failing { FoundIn (failing (job_in plan.now)) (cases (job_in plan.now)) result.failing }
    ensures empty { FoundIn (empty (job_in plan.now)) (cases (job_in plan.now)) result.empty }
{
    let gates = Gates::new(plan);
    let used = used_places(plan.size.k);
    let cases = plan.cases();
    let mut failing = Found::default();
    let mut empty = Found::default();
    for g in 0..cases.div_ceil(64) {
        let answered = answer_group(&gates, g);
        failing = failing.with(g, answered.failing & used);
        empty = empty.with(g, answered.empty & used);
    }
    Counted { failing, empty }
}

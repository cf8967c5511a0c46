// The clauses of one time, in their order.
ghost use Rattle.std.specs.Prelude.{◌≡◌, true, ◌<◌};
ghost use Rattle.std.specs.Iterator.{item_count, YieldsFirst};
ghost use Rattle.meaning.specs.Jobs.{on};
ghost use Rattle.decoded.specs.Plans.{clause_of};
ghost use Rattle.decoded.specs.Walks.{timed, timed_from};

use crate::Plan;
use meaning::Clause;

#[derive(Drop)]
pub struct ClausesAt<'a> {
    plan: &'a Plan,
    time: usize,
    // The next clause's number, c at the end.
    next: usize,
    ghost on_time: { next < plan.now.size.c → on (clause_of plan.now.clauses next) time ≡ true },
}

impl Plan {
    // A time is no u8: the one after the last may be 256, and each step asks that its own is not.
    pub fn clauses_at(&self, time: usize) -> ClausesAt<'_>
        requires { time < 256 }
        ensures { timed_from result.plan.now.clauses result.plan.now.size.c result.time result.next ≡ timed self.now.clauses self.now.size.c time }
    {
        ClausesAt {
            plan: self,
            time,
            next: usize::from(self.heads[time]),
        }
    }
}

impl<'a> Iterator for ClausesAt<'a> {
    type Item = Clause;

    ghost next_gives = { YieldsFirst (λ s. timed_from s.plan.now.clauses s.plan.now.size.c s.time s.next) };

    ghost remaining = { item_count (λ s. timed_from s.plan.now.clauses s.plan.now.size.c s.time s.next) };

    fn next(&mut self) -> Option<Clause> {
        if self.next >= self.plan.size.c {
            return None;
        }
        let clause = self.plan.clauses[self.next];
        self.next = usize::from(self.plan.nexts[self.next]);
        Some(clause)
    }
}

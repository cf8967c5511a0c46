// The clauses of one time in sixty-four cases. A walk for each side: one for both would take a closure, and would have to say what
// that leaves in the row.
ghost use Rattle.std.specs.Prelude.{[], ◌∷◌, ◌<◌};
ghost use Rattle.groups.specs.Grouped.{job_of, clauses_at, Within};
ghost use Rattle.groups.specs.Held.{Stimulates, Expects};
ghost use Rattle.groups.specs.Steady.{Steady, SteadyBut};

use crate::group::Group;
use crate::rows::Row;
use meaning::{Clause, Side};
use words::{collided, differs, narrow};

impl Group<'_> {
    // One clause of the stimulus: its node is narrowed wherever its guard is true. Where that node then collides is told.
    fn narrow_by(&self, clause: Clause, row: &mut Row) -> u64
        requires { Within self.now clause }
        ensures { Stimulates (job_of self.now) self.now.number clause.time (clause ∷ []) row.old row.new result }
    {
        if clause.side == Side::Expectation {
            return 0;
        }
        let node = usize::from(clause.node);
        let old = row[node];
        let new = narrow(old, self.guards[usize::from(clause.guard)], clause.value);
        row[node] = new;
        collided(new)
    }

    // The stimulus of a time is joined to a row. Where a node then collides is told.
    pub fn stimulate(&self, t: usize, row: &mut Row) -> u64
        requires { t < 256 }
        ensures { Stimulates (job_of self.now) self.now.number t (clauses_at self.now t) row.old row.new result }
    {
        let mut dead = 0;
        for clause in self.gates.plan.clauses_at(t) {
            dead |= self.narrow_by(clause, row);
        }
        dead
    }

    // One clause of the expectation: where its guard is true and its node differs from what it wants, X included.
    fn missed_by(&self, clause: Clause, row: &Row) -> u64
        requires { Within self.now clause }
        ensures { Expects (job_of self.now) self.now.number clause.time (clause ∷ []) row.now result }
    {
        if clause.side == Side::Stimulus {
            return 0;
        }
        let pair = row[usize::from(clause.node)];
        differs(pair, clause.value) & self.guards[usize::from(clause.guard)]
    }

    // Where the expectation of a time is missed is told.
    pub fn expect(&self, t: usize, row: &Row) -> u64
        requires { t < 256 }
        ensures { Expects (job_of self.now) self.now.number t (clauses_at self.now t) row.now result }
    {
        let mut missed = 0;
        for clause in self.gates.plan.clauses_at(t) {
            missed |= self.missed_by(clause, row);
        }
        missed
    }

    // Settles the row of time `t` for the time after next: at the nodes of its clauses; at every node after time 0, when all are X.
    pub fn renew(&self, t: usize, row: &mut Row)
        requires time { t < 256 }
        requires steady_but { 0 < t → SteadyBut (job_of self.now) (clauses_at self.now t) row.old }
        ensures { Steady (job_of self.now) row.new }
    {
        if t == 0 {
            return self.gates.settle(row);
        }
        for clause in self.gates.plan.clauses_at(t) {
            let node = usize::from(clause.node);
            row[node] = self.gates.steady_at(node);
        }
    }
}

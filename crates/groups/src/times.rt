// Sixty-four cases time by time.
ghost use Rattle.std.specs.Prelude.{◌≡◌, suc, ◌<◌, bit_or};
ghost use Rattle.meaning.specs.Jobs.{last_time};
ghost use Rattle.groups.specs.Grouped.{job_of};
ghost use Rattle.groups.specs.Steady.{Steady};
ghost use Rattle.groups.specs.Turns.{Turns, Ran};

use crate::group::Group;
use crate::rows::{Row, UNKNOWN};

// What one time or several tell: where a node collides, and where an expectation is missed.
#[derive(Clone, Copy)]
pub struct Told {
    pub collided: u64,
    pub missed: u64,
}

impl Told {
    // What two times tell together.
    fn with(self, later: Told) -> Told
        ensures { result ≡ (record { collided = bit_or self.collided later.collided; missed = bit_or self.missed later.missed }) }
    {
        Told {
            collided: self.collided | later.collided,
            missed: self.missed | later.missed,
        }
    }
}

impl Group<'_> {
    // One time: the stimulus, the expectation, and the row of the next time in another one.
    fn turn(&self, t: usize, now: &mut Row, next: &mut Row) -> Told
        requires time { t < 256 }
        requires steady { (0 < t → Steady (job_of self.now) now.old) × Steady (job_of self.now) next.old }
        ensures turns { Turns (job_of self.now) self.now.number t now.old next.new result }
        ensures steady { Steady (job_of self.now) now.new × Steady (job_of self.now) next.new }
    {
        let collided = self.stimulate(t, now);
        let missed = self.expect(t, now);
        self.gates.step(now, next);
        self.renew(t, now);
        Told { collided, missed }
    }

    // The times from row 0 with every node X to the last one, two at each turn of the loop, so that two rows take turns. A time past the last
    // one changes no answer.
    pub fn run(&self) -> Told
        ensures { Ran (job_of self.now) self.now.number (suc (last_time (job_of self.now))) result }
    {
        let mut now = [UNKNOWN; 1008];
        let mut next = [UNKNOWN; 1008];
        self.gates.settle(&mut next);
        let mut told = Told {
            collided: 0,
            missed: 0,
        };
        for t in (0..=self.gates.plan.last).step_by(2) {
            let first = self.turn(t, &mut now, &mut next);
            let second = self.turn(t + 1, &mut next, &mut now);
            told = told.with(first).with(second);
        }
        told
    }
}

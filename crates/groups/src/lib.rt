// Sixty-four cases together, over all times.
#![tactic(auto)]

mod clauses;
mod gates;
mod group;
mod rows;
mod times;
mod wires;

ghost use Rattle.decoded.specs.Meant.{job_in};
ghost use Rattle.groups.specs.Turns.{GroupTells};

pub use crate::gates::Gates;
use crate::group::Group;
use guards::guard_words;

// What sixty-four cases are answered.
#[derive(Clone, Copy)]
pub struct Answered {
    pub empty: u64,
    pub failing: u64,
}

pub fn answer_group(gates: &Gates, number: usize) -> Answered
    ensures { GroupTells (job_in gates.now.plan.now) number result }
{
    let guards = guard_words(gates.plan, number);
    let group = Group {
        gates,
        number,
        guards,
    };
    let told = group.run();
    Answered {
        empty: told.collided,
        failing: told.missed & !told.collided,
    }
}

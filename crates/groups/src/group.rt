// Sixty-four cases of a plan.
ghost use Rattle.guards.specs.Guarded.{GuardWords};

use crate::gates::Gates;

// Place i stands for case 64 * number + i.
#[derive(Drop)]
pub struct Group<'a> {
    pub gates: &'a Gates<'a>,
    pub number: usize,
    // Where each expression is true.
    pub guards: [u64; 504],
    ghost guarded: { GuardWords gates.now.plan.now number guards },
}

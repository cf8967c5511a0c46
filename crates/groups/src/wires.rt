// Gates that have operands, and a visit of those of one kind.
ghost use Rattle.std.specs.Prelude.{◌+◌, ◌≤◌, length, All};
ghost use Rattle.decoded.specs.Meant.{job_in};
ghost use Rattle.groups.specs.Wired.{InRow, Visits};
ghost use Rattle.groups.specs.Kinds.{kind, tally, Gathers};

use crate::rows::Row;
use arrayvec::ArrayVec;
use decoded::Plan;
use meaning::Gate;
use words::Pair;

// A node and the nodes of its operands.
#[derive(Clone, Copy, Default)]
pub struct Wire {
    pub node: u16,
    pub p: u16,
    pub q: u16,
    pub r: u16,
}

pub type Wires = ArrayVec<Wire, 1008>;

// The nodes of a plan that have this gate are put behind the wires that are there.
pub fn gather(plan: &Plan, gate: Gate, wires: &mut Wires)
    requires { length wires.old.items + tally (job_in plan.now) plan.now.size.n (kind gate) ≤ 1008 }
    ensures { Gathers (job_in plan.now) plan.now.size.n gate wires.old.items wires.new.items }
{
    for (m, node) in plan.nodes[..plan.size.n].iter().enumerate() {
        if node.gate == gate {
            wires.push(Wire {
                node: m as u16,
                p: node.p,
                q: node.q,
                r: node.r,
            });
        }
    }
}

// What the gates of a kind force from one row is written to another, in a loop that is compiled for that kind.
pub fn visit<F: Fn(Pair, Pair, Pair) -> Pair>(wires: &[Wire], now: &Row, next: &mut Row, force: F)
    requires callable { F.IsAlwaysCallable force }
    requires inside { All InRow wires.now }
    ensures { Visits (F.post force) wires.now now.now next.old next.new }
{
    for wire in wires {
        let p = now[usize::from(wire.p)];
        let q = now[usize::from(wire.q)];
        let r = now[usize::from(wire.r)];
        next[usize::from(wire.node)] = force(p, q, r);
    }
}

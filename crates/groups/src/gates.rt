// The gates of a plan by their kind, and a step that visits them so: one tight loop for each kind.
ghost use Rattle.std.specs.Prelude.{◌≡◌, ◌<◌};
ghost use Rattle.meaning.specs.Gates.{arity};
ghost use Rattle.words.specs.Places.{Forces};
ghost use Rattle.decoded.specs.Meant.{job_in};
ghost use Rattle.groups.specs.Wired.{Steps};
ghost use Rattle.groups.specs.Kinds.{Sorted};
ghost use Rattle.groups.specs.Steady.{SteadyAt, Steady};

use crate::rows::{Row, UNKNOWN};
use crate::wires::{Wires, gather, visit};
use decoded::Plan;
use meaning::Gate::{self, And, Buf, Mux, Not, Or, Xor};
use words::{Pair, gate_pair};

// Made once a job: all gates with operands in one list, kind by kind. The BUFs come first, and each other kind where its field says.
#[derive(Drop)]
pub struct Gates<'a> {
    pub plan: &'a Plan,
    wires: Wires,
    nots: usize,
    ands: usize,
    ors: usize,
    xors: usize,
    muxes: usize,
    ghost sorted: { Sorted (job_in plan.now) plan.now.size.n wires.items nots ands ors xors muxes },
}

// What a gate without operands forces; one that has some is handed nodes that could be either.
fn steady_pair(gate: Gate) -> Pair
    ensures { arity gate ≡ 0 → (p q r : Pair) → Forces gate p q r result }
{
    gate_pair(gate, UNKNOWN, UNKNOWN, UNKNOWN)
}

impl<'a> Gates<'a> {
    pub fn new(plan: &'a Plan) -> Gates<'a>
        ensures { result.plan.now ≡ plan.now }
    {
        let mut wires = Wires::new();
        gather(plan, Buf, &mut wires);
        let nots = wires.len();
        gather(plan, Not, &mut wires);
        let ands = wires.len();
        gather(plan, And, &mut wires);
        let ors = wires.len();
        gather(plan, Or, &mut wires);
        let xors = wires.len();
        gather(plan, Xor, &mut wires);
        let muxes = wires.len();
        gather(plan, Mux, &mut wires);
        Gates {
            plan,
            wires,
            nots,
            ands,
            ors,
            xors,
            muxes,
        }
    }

    // INPUT, ZERO and ONE force the same at every time: what such a node is forced to, and X for the others.
    pub fn steady_at(&self, m: usize) -> Pair
        requires { m < self.now.plan.now.size.n }
        ensures { SteadyAt ((job_in self.now.plan.now).netlist.node m).gate result }
    {
        steady_pair(self.plan.nodes[m].gate)
    }

    // Every node of the job is made steady.
    pub fn settle(&self, row: &mut Row)
        ensures { Steady (job_in self.now.plan.now) row.new }
    {
        for m in 0..self.plan.size.n {
            row[m] = self.steady_at(m);
        }
    }

    // What all gates force from one row is written to another, which has what those without operands force.
    pub fn step(&self, now: &Row, next: &mut Row)
        requires { Steady (job_in self.now.plan.now) next.old }
        ensures steps { Steps (job_in self.now.plan.now) now.now next.new }
        ensures steady { Steady (job_in self.now.plan.now) next.new }
    {
        let wires = self.wires.as_slice();
        let bufs = &wires[..self.nots];
        let nots = &wires[self.nots..self.ands];
        let ands = &wires[self.ands..self.ors];
        let ors = &wires[self.ors..self.xors];
        let xors = &wires[self.xors..self.muxes];
        let muxes = &wires[self.muxes..];
        visit(bufs, now, next, |p, q, r| gate_pair(Buf, p, q, r));
        visit(nots, now, next, |p, q, r| gate_pair(Not, p, q, r));
        visit(ands, now, next, |p, q, r| gate_pair(And, p, q, r));
        visit(ors, now, next, |p, q, r| gate_pair(Or, p, q, r));
        visit(xors, now, next, |p, q, r| gate_pair(Xor, p, q, r));
        visit(muxes, now, next, |p, q, r| gate_pair(Mux, p, q, r));
    }
}

// The rows of a case, one after the other.
ghost use Rattle.std.specs.Prelude.{◌≡◌, ℕ, ◌+◌, ◌%◌, ◌<◌, not, cond, length, slice_index, MatchOption};
ghost use Rattle.scans.specs.First.{first_bad};
ghost use Rattle.meaning.specs.Values.{collides, join_cells, cell_number};
ghost use Rattle.meaning.specs.Cases.{wanted_at};
ghost use Rattle.meaning.specs.Rows.{forces_from, forced, stimulus_at};
ghost use Rattle.decoded.specs.Plans.{node_of, NodeWithin, ClauseWithin};
ghost use Rattle.decoded.specs.Meant.{job_in};
ghost use Rattle.guards.specs.Guarded.{Guarded};
ghost use Rattle.cases.specs.Cells.{cell_of, cell_in, Shows};
ghost use Rattle.cases.specs.Runs.{Before, counts, misses, lowest_missed, judged};

use crate::values::{Cell, Value, has, joined, number};
use decoded::Plan;
use guards::guard_words;
use meaning::{CaseAnswer, Clause, Gate, Node, Side};

pub type Row = [Cell; 1008];

// What a node's gate forces from a row. A gate that would read a collision has nothing to read.
#[tactic(auto, unfolding(meaning::specs::Rows::forces_from, meaning::specs::Gates::gate_forces))]
fn forces_from(node: Node, row: &[Cell]) -> Cell
    requires { NodeWithin (length row.now) node }
    ensures { cell_of result ≡ forces_from node (cell_in row.now) }
{
    let p = row[usize::from(node.p)];
    let q = row[usize::from(node.q)];
    let r = row[usize::from(node.r)];
    Some(match node.gate {
        Gate::Input => Value::X,
        Gate::Zero => Value::Zero,
        Gate::One => Value::One,
        Gate::Buf => p?,
        Gate::Not => !p?,
        Gate::And => p? & q?,
        Gate::Or => p? | q?,
        Gate::Xor => p? ^ q?,
        Gate::Mux => p?.select(q?, r?),
    })
}

// Writes what the gates force from a row.
fn forced_row(plan: &Plan, row: &Row, next: &mut Row)
    ensures { (m : ℕ) → m < plan.now.size.n → cell_in next.new m ≡ forces_from (node_of plan.now.nodes m) (cell_in row.now) }
{
    for (m, node) in plan.nodes[..plan.size.n].iter().enumerate() {
        next[m] = forces_from(*node, row);
    }
}

// A case, and its rows one after the other.
#[derive(Drop)]
pub struct Run<'a> {
    plan: &'a Plan,
    case: usize,
    // The guards' words of the group of 64 cases that this one is in.
    guards: [u64; 504],
    // The time of the next row. At hand is the row before it; at time 0 there is none yet, and `force` asks the time: an Option
    // would make each of the other methods say what it answers without a row.
    next: usize,
    row: Row,
    ghost guarded: { Guarded (job_in plan.now) plan.now.size.e guards (case % 64) case },
    ghost before: { Before plan.now case next row },
}

impl<'a> Run<'a> {
    pub fn new(plan: &'a Plan, case: usize) -> Run<'a>
        ensures plan { result.plan.now ≡ plan.now }
        ensures case { result.case ≡ case }
        ensures next { result.next ≡ 0 }
    {
        Run {
            plan,
            case,
            guards: guard_words(plan, case / 64),
            next: 0,
            row: [Some(Value::X); 1008],
        }
    }

    // Whether the clause is of this side, and its guard true in the case.
    fn counts(&self, side: Side, clause: Clause) -> bool
        requires { clause.guard < self.now.plan.now.size.e }
        ensures { result ≡ counts (job_in self.now.plan.now) self.now.case side clause }
    {
        clause.side == side && (self.guards[usize::from(clause.guard)] >> (self.case % 64)) & 1 == 1
    }

    // The row of the next time: what the gates force from the row before, joined with the stimulus.
    pub fn step(&mut self)
        requires { self.old.next < 256 }
        ensures plan { self.new.plan.now ≡ self.old.plan.now }
        ensures case { self.new.case ≡ self.old.case }
        ensures next { self.new.next ≡ self.old.next + 1 }
    {
        // The gates read the row before while this one is written.
        let mut row = self.row;
        self.force(&mut row);
        self.stimulate(&mut row);
        self.row = row;
        self.next += 1;
    }

    // Writes what the nodes are forced to at the next time. Each starts at X.
    fn force(&self, row: &mut Row)
        ensures { Shows self.now.plan.now.size.n row.new (forced (job_in self.now.plan.now) self.now.case self.now.next) }
    {
        if self.next == 0 {
            row.fill(Some(Value::X));
            return;
        }
        forced_row(self.plan, &self.row, row);
    }

    // Joins a row with the stimulus of the next time.
    fn stimulate(&self, row: &mut Row)
        requires { self.now.next < 256 }
        ensures { (m : ℕ) → m < self.now.plan.now.size.n → cell_in row.new m ≡ join_cells (cell_in row.old m) (stimulus_at (job_in self.now.plan.now) self.now.case self.now.next m) }
    {
        for clause in self.plan.clauses_at(self.next) {
            if self.counts(Side::Stimulus, clause) {
                let cell = &mut row[usize::from(clause.node)];
                *cell = joined(*cell, clause.value);
            }
        }
    }

    // The lowest node that has collided.
    pub fn collided(&self) -> Option<usize>
        ensures { result ≡ first_bad (λ m. not (collides (cell_in self.now.row m))) self.now.plan.now.size.n }
    {
        self.row[..self.plan.size.n]
            .iter()
            .position(|cell| cell.is_none())
    }

    // The row as numbers.
    pub fn numbers(&self) -> [u8; 1008]
        ensures { (m : ℕ) → m < 1008 → slice_index result m ≡ cell_number (cell_in self.now.row m) }
    {
        self.row.map(number)
    }

    // Whether the clause is an expectation, and its guard true in the case, and the row has not its value.
    fn misses(&self, clause: Clause) -> bool
        requires { ClauseWithin self.now.plan.now.size.n self.now.plan.now.size.e clause }
        ensures { result ≡ misses (job_in self.now.plan.now) self.now.case (cell_in self.now.row) clause }
    {
        self.counts(Side::Expectation, clause)
            && !has(self.row[usize::from(clause.node)], clause.value)
    }

    // The lowest node that misses a clause of a time, and what is wanted there: 0 if a missed clause wants 0, else 1.
    fn lowest_miss(&self, time: usize) -> Option<(u16, bool)>
        requires { time < 256 }
        ensures { let j = job_in self.now.plan.now in MatchOption result (lowest_missed j self.now.case time (cell_in self.now.row) ≡ None) (λ p. (p.0 < j.netlist.size) × (lowest_missed j self.now.case time (cell_in self.now.row) ≡ Some p.0) × (wanted_at j self.now.case time p.0 (cell_in self.now.row p.0) ≡ cond p.1 1 0)) }
    {
        let mut lowest: Option<(u16, bool)> = None;
        for clause in self.plan.clauses_at(time) {
            if self.misses(clause) {
                let here = (clause.node, clause.value);
                lowest = Some(lowest.map_or(here, |before| before.min(here)));
            }
        }
        lowest
    }

    // What the expectation of a time says of the row.
    pub fn judged(&self, time: usize) -> CaseAnswer
        requires { time < 256 }
        ensures { result ≡ judged (job_in self.now.plan.now) self.now.case time (cell_in self.now.row) }
    {
        let Some((node, wanted)) = self.lowest_miss(time) else {
            return CaseAnswer::Passes;
        };
        let node = usize::from(node);
        CaseAnswer::Fails {
            time,
            node,
            wanted: usize::from(wanted),
            found: usize::from(number(self.row[node])),
        }
    }
}

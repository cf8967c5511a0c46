// One case at a time, the plain way: its rows one after the other, a cell for each node.
#![tactic(auto)]

mod rows;
mod values;

ghost use Rattle.std.specs.Prelude.{◌≡◌, true, false, suc, ◌<◌, take, MatchOption};
ghost use Rattle.scans.specs.First.{each};
ghost use Rattle.meaning.specs.Rows.{row_clear, row_numbers};
ghost use Rattle.meaning.specs.Cases.{case_answer};
ghost use Rattle.decoded.specs.Meant.{job_in};

use crate::rows::Run;
use decoded::Plan;
use meaning::CaseAnswer;

// The row of a time, a byte for each node, unless a node collides up to then.
pub fn case_row(plan: &Plan, case: usize, time: usize) -> Option<[u8; 1008]>
    requires { time < 256 }
    ensures { let j = job_in plan.now in MatchOption result (each (row_clear j case) (suc time) ≡ false) (λ row. (each (row_clear j case) (suc time) ≡ true) × (take plan.now.size.n row ≡ row_numbers j case time plan.now.size.n)) }
{
    let mut run = Run::new(plan, case);
    for _ in 0..=time {
        run.step();
        if run.collided().is_some() {
            return None;
        }
    }
    Some(run.numbers())
}

// The answer for one case: a collision at any time comes before every miss.
pub fn case_answer(plan: &Plan, case: usize) -> CaseAnswer
    ensures { result ≡ case_answer (job_in plan.now) case }
{
    let mut run = Run::new(plan, case);
    let mut answer = CaseAnswer::Passes;
    for time in 0..=plan.last {
        run.step();
        if let Some(node) = run.collided() {
            return CaseAnswer::Empty { time, node };
        }
        if let CaseAnswer::Passes = answer {
            answer = run.judged(time);
        }
    }
    answer
}

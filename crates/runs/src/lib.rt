// Running stored jobs: the row of a case, the answer for one case, the answer for the whole job.
#![tactic(auto)]

ghost use Rattle.std.specs.Prelude.{◌≡◌, ◌+◌, ◌^◌, ◌≤◌, ltb};
ghost use Rattle.meaning.specs.Answers.{decided_by, job_answer};
ghost use Rattle.scans.specs.Refusals.{whole};
ghost use Rattle.stored.specs.Checked.{checked};
ghost use Rattle.verdicts.specs.Running.{check_answer, one_case_answer, stated_checked, stated_case_checked, GivesRow};
ghost use Rattle.decoded.specs.Meant.{job_in};

use cases::{case_answer, case_row};
use decoded::Plan;
use meaning::{CaseAnswer, Counts, JobAnswer};
use ready::make_ready;
use stored::{Reason, Refusal};
use tallies::{Counted, count_cases};

// Refuses a case that the job does not have.
fn known_case(plan: &Plan, case: usize) -> Result<(), Refusal>
    ensures { result ≡ checked (whole 11 (ltb case (2 ^ plan.now.size.k))) }
{
    Reason::Case.unless(case < plan.cases())
}

// The counts of a job. Every case is passing, failing or empty.
fn counts_of(cases: usize, counted: Counted) -> Counts
    requires { counted.failing.count + counted.empty.count ≤ cases }
    ensures { (result.cases ≡ cases) × (result.passing + (counted.failing.count + counted.empty.count) ≡ cases) × (result.failing ≡ counted.failing.count) × (result.empty ≡ counted.empty.count) }
{
    let failing = counted.failing.count;
    let empty = counted.empty.count;
    Counts {
        cases,
        passing: cases - (failing + empty),
        failing,
        empty,
    }
}

// The job's answer where one case decides it.
fn decided(counts: Counts, case: usize, answer: CaseAnswer) -> JobAnswer
    ensures { result ≡ decided_by counts case answer }
{
    match answer {
        CaseAnswer::Passes => JobAnswer::Holds(counts),
        CaseAnswer::Empty { time, node } => JobAnswer::Vacant {
            counts,
            case,
            time,
            node,
        },
        CaseAnswer::Fails {
            time,
            node,
            wanted,
            found,
        } => JobAnswer::Fails {
            counts,
            case,
            time,
            node,
            wanted,
            found,
        },
    }
}

// The answer for the whole job: counts over all groups of cases, and the place from the case that decides.
fn decide(plan: &Plan) -> JobAnswer
    ensures { result ≡ job_answer (job_in plan.now) }
{
    let counted = count_cases(plan);
    let counts = counts_of(plan.cases(), counted);
    match counted.failing.least.or(counted.empty.least) {
        Some(case) => decided(counts, case, case_answer(plan, case)),
        None => JobAnswer::Holds(counts),
    }
}

// The whole job.
pub fn check(job: &[u8]) -> Result<JobAnswer, Refusal>
    ensures { stated_checked result ≡ check_answer job.now }
{
    Ok(decide(&make_ready(job)?))
}

// One case of a job.
pub fn one_case(job: &[u8], case: usize) -> Result<CaseAnswer, Refusal>
    ensures { stated_case_checked result ≡ one_case_answer job.now case }
{
    let plan = make_ready(job)?;
    known_case(&plan, case)?;
    Ok(case_answer(&plan, case))
}

// The row of a case at a time, also past the job's last one: a byte for each node, 0, 1, or 2 for X. Numbers and room stand by
// themselves, as C hands them.
pub fn row(job: &[u8], case: usize, time: usize, out: &mut [u8]) -> Result<usize, Refusal>
    ensures { GivesRow job.now case time out.old out.new result }
{
    let plan = make_ready(job)?;
    let n = plan.size.n;
    known_case(&plan, case)?;
    Reason::Time.unless(time <= 255)?;
    Reason::Room.unless(n <= out.len())?;
    let Some(row) = case_row(&plan, case, time) else {
        return Err(Refusal::whole(Reason::Empty));
    };
    out[..n].copy_from_slice(&row[..n]);
    Ok(n)
}

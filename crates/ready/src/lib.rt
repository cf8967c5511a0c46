// A job made ready to run: read, and its records decoded into a plan.
#![tactic(auto)]

ghost use Rattle.ready.specs.Readied.{Readied};

use blocks::layout::Layout;
use decoded::{Decode, Plan, decode_list};
use jobs::sizes;
use meaning::{Clause, Expression, Node};
use stored::Refusal;

// The plan of a job that reading accepts.
pub fn make_ready(job: &[u8]) -> Result<Plan, Refusal>
    ensures { Readied job.now result }
{
    let size = sizes(job)?;
    let layout = Layout { size };
    let e1 = layout.first_expressions();
    let c1 = layout.first_clauses();
    let mut nodes = [Node::decode(&[], 0); 1008];
    let mut expressions = [Expression::decode(&[], 0); 504];
    let mut clauses = [Clause::decode(&[], 0); 504];
    decode_list(job, 1, size.n, &mut nodes);
    decode_list(job, e1, size.e, &mut expressions);
    decode_list(job, c1, size.c, &mut clauses);
    Ok(Plan::new(size, nodes, expressions, clauses))
}

// A job decoded once: its records as values, and its clauses chained by their time.
#![tactic(auto)]

mod chains;
mod records;
mod walk;

ghost use Rattle.std.specs.Prelude.{◌≡◌, ◌^◌};
ghost use Rattle.meaning.specs.Jobs.{latest};
ghost use Rattle.decoded.specs.Chains.{Chained};
ghost use Rattle.decoded.specs.Plans.{clause_of, Decoded};

use crate::chains::{chained, last_time};
pub use crate::records::{Decode, decode_list};
pub use crate::walk::ClausesAt;
use meaning::{Clause, Expression, Node};
use stored::Size;

// What running a job looks at, in arrays as long as a job's lists can be, since nothing is allocated: `size`, which callers ask
// for too, says how far each is filled. The clauses of a time are a chain: its first is `heads` of the time, and each clause's
// next is in `nexts`; c, one past the last, stands for none, and what is left of a walk is what stands from its place on.
#[derive(Drop)]
pub struct Plan {
    pub size: Size,
    pub nodes: [Node; 1008],
    pub expressions: [Expression; 504],
    pub clauses: [Clause; 504],
    pub heads: [u16; 256],
    pub nexts: [u16; 504],
    // The largest time of a clause, 0 if there is none.
    pub last: usize,
    ghost decoded: { Decoded size nodes expressions clauses },
    ghost in_chains: { Chained (clause_of clauses) size.c 0 heads nexts },
    ghost last_is: { last ≡ latest (clause_of clauses) size.c },
}

impl Plan {
    pub fn new(
        size: Size,
        nodes: [Node; 1008],
        expressions: [Expression; 504],
        clauses: [Clause; 504],
    ) -> Plan
        requires { Decoded size nodes expressions clauses }
        ensures size { result.size ≡ size }
        ensures nodes { result.nodes ≡ nodes }
        ensures expressions { result.expressions ≡ expressions }
        ensures clauses { result.clauses ≡ clauses }
    {
        let (heads, nexts) = chained(&clauses, size.c);
        let last = last_time(&clauses, size.c);
        Plan {
            size,
            nodes,
            expressions,
            clauses,
            heads,
            nexts,
            last,
        }
    }

    // How many cases the job has.
    pub fn cases(&self) -> usize
        ensures { result ≡ 2 ^ self.now.size.k }
    {
        1 << self.size.k
    }
}

// The clauses by their time.
ghost use Rattle.std.specs.Prelude.{◌≡◌, ℕ, ◌<◌, ◌≤◌, length};
ghost use Rattle.meaning.specs.Jobs.{latest};
ghost use Rattle.decoded.specs.Chains.{Chained};
ghost use Rattle.decoded.specs.Plans.{clause_of};

use meaning::Clause;

// Each time's first clause, and each clause's next of the same time; c, one past the last, stands for none.
pub fn chained(clauses: &[Clause], c: usize) -> ([u16; 256], [u16; 504])
    requires bound { (c ≤ 504) × (c ≤ length clauses.now) }
    requires times { (i : ℕ) → i < c → (clause_of clauses.now i).time < 256 }
    ensures { Chained (clause_of clauses.now) c 0 result.0 result.1 }
{
    let none = c as u16;
    let mut heads = [none; 256];
    let mut nexts = [none; 504];
    for i in (0..c).rev() {
        let t = usize::from(clauses[i].time);
        nexts[i] = heads[t];
        heads[t] = i as u16;
    }
    (heads, nexts)
}

// The largest time of the first c clauses, 0 if there is none.
pub fn last_time(clauses: &[Clause], c: usize) -> usize
    requires { c ≤ length clauses.now }
    ensures { result ≡ latest (clause_of clauses.now) c }
{
    let mut last: usize = 0;
    for clause in &clauses[..c] {
        last = last.max(usize::from(clause.time));
    }
    last
}

// What reading and packing a stored job answer, or why they refuse it. What the bytes of a job mean stands in specs/.
#![tactic(auto)]

ghost use Rattle.std.specs.Prelude.{◌≡◌, ℕ, ◌+◌, ◌/◌, ◌%◌, ◌<◌, Bool};
ghost use Rattle.scans.specs.Refusals.{whole};
ghost use Rattle.stored.specs.Reasons.{number_of};
ghost use Rattle.stored.specs.Reading.{per_block, per_record};
ghost use Rattle.stored.specs.Checked.{checked};

use scans::first_bad;

// k, and how many nodes, expressions and clauses a job has.
#[derive(Clone, Copy)]
pub struct Size {
    pub k: usize,
    pub n: usize,
    pub e: usize,
    pub c: usize,
}

// What is wrong with a job or a request, in the order of the rules' table.
#[derive(Clone, Copy, PartialEq, Eq)]
pub enum Reason {
    Length = 1,
    Check,
    Number,
    Header,
    Count,
    Block,
    Rest,
    Gate,
    Expression,
    Clause,
    Case,
    Time,
    Room,
    Empty,
}

impl Reason {
    pub fn number(self) -> usize
        ensures { result ≡ number_of self }
    {
        self as usize
    }

    // Refuses for this reason, unless the test was passed.
    #[tactic(auto, unfolding(crate::specs::Checked::checked, scans::specs::Refusals::unless_at, scans::specs::First::first_bad))]
    pub fn unless(self, passed: bool) -> Result<(), Refusal>
        ensures { result ≡ checked (whole (number_of self) passed) }
    {
        if passed {
            Ok(())
        } else {
            Err(Refusal::whole(self))
        }
    }

    // Refuses the first block below `count` that fails the test.
    // Not written by one function over a closure that makes the refusal, for blocks and records: its clause would be longer than both bodies.
    pub fn unless_each_block<F: Fn(usize) -> bool>(
        self,
        count: usize,
        test: F,
    ) -> Result<(), Refusal>
        requires { (i : ℕ) → i < count → F.pre test i }
        ensures { (f : ℕ → Bool) → ((i : ℕ) (r : Bool) → i < count → F.post test i r → r ≡ f i)
            → result ≡ checked (per_block (number_of self) count f) }
    {
        match first_bad(count, test) {
            None => Ok(()),
            Some(b) => Err(Refusal::in_block(self, b)),
        }
    }

    // Refuses the first record below `count` that fails the test, of records that begin in block `first`.
    pub fn unless_each_record<F: Fn(usize) -> bool>(
        self,
        first: usize,
        count: usize,
        test: F,
    ) -> Result<(), Refusal>
        requires first_bound { first < 65536 }
        requires callable { (i : ℕ) → i < count → F.pre test i }
        ensures { (f : ℕ → Bool) → ((i : ℕ) (r : Bool) → i < count → F.post test i r → r ≡ f i)
            → result ≡ checked (per_record (number_of self) first count f) }
    {
        match first_bad(count, test) {
            None => Ok(()),
            Some(i) => Err(Refusal::in_record(self, first, i)),
        }
    }
}

// A refusal's number and place; block and record are 0 where it names none. The number is no Reason: `refusal_line` is promised
// for every number.
#[derive(Clone, Copy)]
pub struct Refusal {
    pub number: usize,
    pub block: usize,
    pub record: usize,
}

impl Refusal {
    // A refusal of a block.
    pub fn in_block(reason: Reason, block: usize) -> Refusal
        ensures { result ≡ (record { number = number_of reason; block = block; «record» = 0 }) }
    {
        Refusal {
            number: reason.number(),
            block,
            record: 0,
        }
    }

    // A refusal that names no place.
    pub fn whole(reason: Reason) -> Refusal
        ensures { result ≡ (record { number = number_of reason; block = 0; «record» = 0 }) }
    {
        Refusal::in_block(reason, 0)
    }

    // A refusal of record `i` of those that begin in block `first`, 63 to a block.
    pub fn in_record(reason: Reason, first: usize, i: usize) -> Refusal
        requires { first < 65536 }
        ensures { result ≡ (record { number = number_of reason; block = first + i / 63; «record» = i % 63 }) }
    {
        Refusal {
            number: reason.number(),
            block: first + i / 63,
            record: i % 63,
        }
    }
}

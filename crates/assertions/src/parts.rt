// What a text is made of: its limits, its lists, and what is read of them.
ghost use Rattle.std.specs.Prelude.{◌≡◌, ◌↔◌, ◌≤◌, ◌<◌, IsTrue};
ghost use Rattle.phrases.specs.GuardsRead.{records_in};

use phrases::records::Records;

// How many variables and nodes there are.
#[derive(Clone, Copy, Debug, PartialEq, Eq)]
pub struct Limits {
    pub k: usize,
    pub n: usize,
    pub ghost few_variables: { k ≤ 12 },
    pub ghost few_nodes: { n ≤ 65536 },
}

// What was read so far: the clauses, and the expressions of their guards.
#[derive(Drop)]
pub struct TextRecords {
    pub expressions: Records,
    pub clauses: Records,
}

impl TextRecords {
    // For another clause, and its guard.
    pub fn has_room(&self) -> bool
        ensures { IsTrue result ↔ ((records_in self.now.expressions < 504) × (records_in self.now.clauses < 504)) }
    {
        self.expressions.has_room(1) && self.clauses.has_room(1)
    }

    // No list has more than a job holds. It does nothing: it is called for what it ensures.
    pub fn are_few(&self)
        ensures { (records_in self.now.expressions ≤ 504) × (records_in self.now.clauses ≤ 504) }
    {
        self.expressions.count();
        self.clauses.count();
    }
}

// A number and the place after it.
#[derive(Clone, Copy, Debug, PartialEq, Eq)]
pub struct Counted {
    pub value: usize,
    pub at: usize,
}

// What a clause says, and the place after it. The value is read as a number, and becomes a byte of the record.
#[derive(Clone, Copy, Debug, PartialEq, Eq)]
pub struct Told {
    pub node: usize,
    pub value: usize,
    pub time: usize,
    pub at: usize,
    pub ghost binary: { value < 2 },
    pub ghost in_time: { time < 256 },
}

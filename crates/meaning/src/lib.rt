// A job's parts, and what a case and a whole job are answered. What they mean stands in specs/.
#![tactic(auto)]

ghost use Rattle.std.specs.Prelude.{◌≡◌};
ghost use Rattle.meaning.specs.Gates.{arity, gate_of_code};

// The gates, in the order of their codes.
#[derive(Clone, Copy, PartialEq, Eq)]
pub enum Gate {
    Input,
    Zero,
    One,
    Buf,
    Not,
    And,
    Or,
    Xor,
    Mux,
}

const BY_CODE: [Gate; 9] = [
    Gate::Input,
    Gate::Zero,
    Gate::One,
    Gate::Buf,
    Gate::Not,
    Gate::And,
    Gate::Or,
    Gate::Xor,
    Gate::Mux,
];

impl Gate {
    // The gate of a code from 0 to 8.
    pub fn of_code(code: u8) -> Gate
        ensures { result ≡ gate_of_code code }
    {
        BY_CODE
            .get(usize::from(code))
            .copied()
            .unwrap_or(Gate::Input)
    }

    // How many of p, q and r it has.
    pub fn arity(self) -> usize
        ensures { result ≡ arity self }
    {
        match self {
            Gate::Input | Gate::Zero | Gate::One => 0,
            Gate::Buf | Gate::Not => 1,
            Gate::And | Gate::Or | Gate::Xor => 2,
            Gate::Mux => 3,
        }
    }
}

// A gate and the nodes of its operands; one that the gate lacks is not looked at.
#[derive(Clone, Copy)]
pub struct Node {
    pub gate: Gate,
    pub p: u16,
    pub q: u16,
    pub r: u16,
}

// A guard over the variables. From Not on, the operands are earlier expressions, by their place in the list.
#[derive(Clone, Copy)]
pub enum Expression {
    False,
    True,
    Variable(u16),
    Not(u16),
    And(u16, u16),
    Or(u16, u16),
    Xor(u16, u16),
}

#[derive(Clone, Copy, PartialEq, Eq)]
pub enum Side {
    Stimulus,
    Expectation,
}

// At its time, where its guard is true, its node has its value.
#[derive(Clone, Copy)]
pub struct Clause {
    pub side: Side,
    pub value: bool,
    pub node: u16,
    pub time: u16,
    pub guard: u16,
}

// What a case is answered. Values are numbers here, 0, 1, and 2 for X: `verdict_line` is promised for every number.
#[derive(Clone, Copy)]
pub enum CaseAnswer {
    Passes,
    Empty {
        time: usize,
        node: usize,
    },
    Fails {
        time: usize,
        node: usize,
        wanted: usize,
        found: usize,
    },
}

#[derive(Clone, Copy)]
pub struct Counts {
    pub cases: usize,
    pub passing: usize,
    pub failing: usize,
    pub empty: usize,
}

// What a whole job is answered: the counts, and the case and place that decide it, each by its name for those who match it.
#[derive(Clone, Copy)]
pub enum JobAnswer {
    Holds(Counts),
    Fails {
        counts: Counts,
        case: usize,
        time: usize,
        node: usize,
        wanted: usize,
        found: usize,
    },
    Vacant {
        counts: Counts,
        case: usize,
        time: usize,
        node: usize,
    },
}

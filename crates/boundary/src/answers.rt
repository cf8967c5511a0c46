// Each answer in ten numbers: its word's number, its own numbers, then zeros.
ghost use Rattle.std.specs.Prelude.{◌≡◌, ◌≤◌};
ghost use Rattle.meaning.specs.Stated.{Stated, state, stated_case, stated_job};
ghost use Rattle.stored.specs.Packing.{written};
ghost use Rattle.stored.specs.Reading.{accepted_as, stated_by};
ghost use Rattle.boundary.specs.Answer.{ten_numbers};
ghost use Rattle.boundary.specs.Texts.{stated_text};
ghost use Rattle.boundary.specs.Words.{meant, word_number};

use assertions::{TextRefusal, Written};
use meaning::{CaseAnswer, JobAnswer};
use stored::{Refusal, Size};

// The word of an answer, numbered as include/kelpanvil.h has it.
#[derive(Clone, Copy)]
enum Word {
    Done = 1,
    Refused,
    Passes,
    Empty,
    Fails,
    Holds,
    Vacant,
}

impl Word {
    fn number(self) -> usize
        ensures { result ≡ word_number (meant self) }
    {
        self as usize
    }

    // The ten numbers of an answer of this word and these numbers.
    fn with<const N: usize>(self, numbers: [usize; N]) -> [usize; 10]
        requires { N ≤ 9 }
        ensures { result ≡ ten_numbers (state (meant self) numbers.entry) }
    {
        let mut ten = [0; 10];
        ten[0] = self.number();
        ten[1..=N].copy_from_slice(&numbers);
        ten
    }
}

// What an operation answers, in the ten numbers by which it is told.
pub trait Answer {
    ghost stated: { Self → Stated };

    fn numbers(self) -> [usize; 10]
        ensures { result ≡ ten_numbers (stated self) };
}

impl Answer for Size {
    ghost stated = { accepted_as };

    fn numbers(self) -> [usize; 10] {
        Word::Done.with([self.k, self.n, self.e, self.c])
    }
}

// The number of bytes written.
impl Answer for usize {
    ghost stated = { written };

    fn numbers(self) -> [usize; 10] {
        Word::Done.with([self])
    }
}

impl Answer for CaseAnswer {
    ghost stated = { stated_case };

    fn numbers(self) -> [usize; 10] {
        match self {
            CaseAnswer::Passes => Word::Passes.with([]),
            CaseAnswer::Empty { time, node } => Word::Empty.with([time, node]),
            CaseAnswer::Fails {
                time,
                node,
                wanted,
                found,
            } => Word::Fails.with([time, node, wanted, found]),
        }
    }
}

impl Answer for JobAnswer {
    ghost stated = { stated_job };

    fn numbers(self) -> [usize; 10] {
        match self {
            JobAnswer::Holds(c) => Word::Holds.with([c.cases, c.passing, c.failing, c.empty]),
            JobAnswer::Fails {
                counts: c,
                case,
                time,
                node,
                wanted,
                found,
            } => Word::Fails.with([
                c.cases, c.passing, c.failing, c.empty, case, time, node, wanted, found,
            ]),
            JobAnswer::Vacant {
                counts: c,
                case,
                time,
                node,
            } => Word::Vacant.with([c.cases, c.passing, c.failing, c.empty, case, time, node]),
        }
    }
}

impl<T: Answer> Answer for Result<T, Refusal> {
    ghost stated = { stated_by T.stated };

    fn numbers(self) -> [usize; 10] {
        match self {
            Ok(answer) => answer.numbers(),
            Err(r) => Word::Refused.with([r.number, r.block, r.record]),
        }
    }
}

impl Answer for Result<Written, TextRefusal> {
    ghost stated = { stated_text };

    fn numbers(self) -> [usize; 10] {
        match self {
            Ok(written) => Word::Done.with([written.expressions, written.clauses]),
            Err(refusal) => {
                // in two parts of 32 bits
                let byte = refusal.byte();
                Word::Refused.with([refusal.number(), byte % 4294967296, byte / 4294967296])
            }
        }
    }
}

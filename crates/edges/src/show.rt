// What the tests answer, and how a line of output tells it.
use std::fmt;
use stored::{Refusal, Size};

// Each number after a space, in pieces of their own: where standard output refuses a piece, no more than that is lost.
#[derive(Clone, Copy)]
struct Numbers<const N: usize>([usize; N]);

impl<const N: usize> fmt::Display for Numbers<N> {
    fn fmt<W: fmt::Write>(&self, f: &mut fmt::Formatter<W>) -> fmt::Result {
        for number in self.0 {
            write!(f, " {number}")?;
        }
        Ok(())
    }
}

#[derive(Clone, Copy)]
struct Refused(Refusal);

impl fmt::Display for Refused {
    fn fmt<W: fmt::Write>(&self, f: &mut fmt::Formatter<W>) -> fmt::Result {
        let Refusal {
            number,
            block,
            record,
        } = self.0;
        write!(f, " refused{}", Numbers([number, block, record]))
    }
}

// What reading a job answered.
#[derive(Clone, Copy)]
pub struct Reading(pub Result<Size, Refusal>);

impl fmt::Display for Reading {
    fn fmt<W: fmt::Write>(&self, f: &mut fmt::Formatter<W>) -> fmt::Result {
        match self.0 {
            Ok(Size { k, n, e, c }) => write!(f, " sizes{}", Numbers([k, n, e, c])),
            Err(refusal) => write!(f, "{}", Refused(refusal)),
        }
    }
}

// Whether bytes are those that they should be. A type of its own, as `Kept` is, so that neither is told in the other's words.
#[derive(Clone, Copy)]
pub struct Same(pub bool);

impl fmt::Display for Same {
    fn fmt<W: fmt::Write>(&self, f: &mut fmt::Formatter<W>) -> fmt::Result {
        f.write_str(if self.0 { " same" } else { " differs" })
    }
}

// Whether what was lent was left alone past what was written.
#[derive(Clone, Copy)]
pub struct Kept(pub bool);

impl fmt::Display for Kept {
    fn fmt<W: fmt::Write>(&self, f: &mut fmt::Formatter<W>) -> fmt::Result {
        f.write_str(if self.0 { " kept" } else { " changed" })
    }
}

// What packing answered.
#[derive(Clone, Copy)]
pub struct Packing {
    pub answer: Result<usize, Refusal>,
    pub kept: Kept,
}

impl fmt::Display for Packing {
    fn fmt<W: fmt::Write>(&self, f: &mut fmt::Formatter<W>) -> fmt::Result {
        let kept = self.kept;
        match self.answer {
            Ok(size) => write!(f, " written{}{kept}", Numbers([size])),
            Err(refusal) => write!(f, "{}{kept}", Refused(refusal)),
        }
    }
}

// What unpacking answered; once accepted, the lists also have the records or not.
#[derive(Clone, Copy)]
pub struct Unpacking {
    pub reading: Reading,
    pub same: Option<Same>,
    pub kept: Kept,
}

impl fmt::Display for Unpacking {
    fn fmt<W: fmt::Write>(&self, f: &mut fmt::Formatter<W>) -> fmt::Result {
        let (reading, kept) = (self.reading, self.kept);
        match self.same {
            Some(same) => write!(f, "{reading}{same}{kept}"),
            None => write!(f, "{reading}{kept}"),
        }
    }
}

// What packing a job's records answered; once written, it is the job or not, and is unpacked.
#[derive(Clone, Copy)]
pub struct RoundTrip {
    pub packing: Packing,
    pub back: Option<(Same, Unpacking)>,
}

impl fmt::Display for RoundTrip {
    fn fmt<W: fmt::Write>(&self, f: &mut fmt::Formatter<W>) -> fmt::Result {
        let packing = self.packing;
        match self.back {
            Some((same, unpacking)) => write!(f, "{packing}{same} unpack{unpacking}"),
            None => write!(f, "{packing}"),
        }
    }
}

// What a test answers.
#[derive(Clone, Copy)]
pub enum Answer {
    Read(Reading),
    ReadAndPacked(Reading, Packing),
    Packed(Packing),
    RoundTrip(RoundTrip),
    Flag(Reading, RoundTrip),
    Unpacked(Unpacking),
}

impl fmt::Display for Answer {
    fn fmt<W: fmt::Write>(&self, f: &mut fmt::Formatter<W>) -> fmt::Result {
        match self {
            Answer::Read(reading) => write!(f, "{reading}"),
            Answer::ReadAndPacked(reading, packing) => write!(f, " read{reading} pack{packing}"),
            Answer::Packed(packing) => write!(f, "{packing}"),
            Answer::RoundTrip(trip) => write!(f, "{trip}"),
            // the flag job is packed in a line of its own
            Answer::Flag(reading, trip) => {
                writeln!(f, "{reading}")?;
                write!(f, "repack 1 2 2 4 2048:{trip}")
            }
            Answer::Unpacked(unpacking) => write!(f, "{unpacking}"),
        }
    }
}

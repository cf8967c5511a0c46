// The lines of tests: what a line asks, and its numbers.
use crate::shape::{Kind, Shape};

// What a line asks.
#[derive(Clone, Copy)]
pub enum Test {
    Length,
    Sized,
    AllZeroBlock,
    Flipped,
    Exchanged,
    Edited(Shape),
    EditedTwice(Shape),
    WrongFrom,
    Record(Kind),
    PackVariables,
    Pack,
    Repack,
    Flag,
    Unpack,
}

// What a line begins with; of two names that fit, the first counts.
const NAMES: [(&[u8], Test); 18] = [
    (b"length ", Test::Length),
    (b"job ", Test::Sized),
    (b"all-zero-block ", Test::AllZeroBlock),
    (b"flipped ", Test::Flipped),
    (b"exchanged ", Test::Exchanged),
    (b"full ", Test::Edited(Shape::FULL)),
    (b"spare ", Test::Edited(Shape::SPARE)),
    (b"twice full ", Test::EditedTwice(Shape::FULL)),
    (b"twice spare ", Test::EditedTwice(Shape::SPARE)),
    (b"wrong-from ", Test::WrongFrom),
    (b"node ", Test::Record(Kind::Node)),
    (b"expression ", Test::Record(Kind::Expression)),
    (b"clause ", Test::Record(Kind::Clause)),
    (b"pack k ", Test::PackVariables),
    (b"pack ", Test::Pack),
    (b"repack ", Test::Repack),
    (b"flag", Test::Flag),
    (b"unpack ", Test::Unpack),
];

impl Test {
    pub fn of(line: &[u8]) -> Option<Test> {
        NAMES
            .iter()
            .find(|(name, _)| line.starts_with(name))
            .map(|(_, test)| *test)
    }
}

// The last numbers of a line by their low sixteen bits, with zeros before them where the line has fewer.
pub fn numbers<const N: usize>(line: &[u8]) -> [u16; N] {
    let mut numbers = [0; N];
    for (number, word) in numbers.iter_mut().rev().zip(line.rsplit(|b| *b == b' ')) {
        *number = (number_of(word) % 65536) as u16;
    }
    numbers
}

// The last number of a line, which may not fit sixteen bits.
pub fn last_number(line: &[u8]) -> usize {
    line.rsplit(|b| *b == b' ').next().map_or(0, number_of)
}

// The number that the digits of a word make, other bytes passed over, so that `parse` would not do; one too large begins anew.
fn number_of(word: &[u8]) -> usize {
    word.iter()
        .filter(|b| b.is_ascii_digit())
        .fold(0, |number: usize, digit| {
            let tens = number.checked_mul(10);
            tens.map_or(0, |tens| tens.wrapping_add(usize::from(*digit % 16)))
        })
}

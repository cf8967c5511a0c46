// Where document 01 puts a job's blocks and records, and records that keep its rules. Nothing here is of the library under test,
// so codes are 01's numbers.
ghost use Rattle.std.specs.Prelude.{◌≡◌, ◌+◌, ◌-◌, ◌*◌, ◌/◌, ◌%◌, ◌<◌, ◌≤◌, ℕ, drop, slice_index};

// The kinds of blocks and of their records, as they are numbered.
#[derive(Clone, Copy)]
pub enum Kind {
    Header = 1,
    Node = 2,
    Expression = 3,
    Clause = 4,
}

impl Kind {
    pub const ALL: [Kind; 4] = [Kind::Header, Kind::Node, Kind::Expression, Kind::Clause];
}

// A record, the header's too: two bytes, and three numbers of two bytes.
#[derive(Clone, Copy)]
pub struct Record {
    pub code: u8,
    pub flag: u8,
    pub operands: [u16; 3],
}

impl Record {
    pub fn to_bytes(self) -> [u8; 8]
        ensures code { slice_index result 0 ≡ self.code }
        ensures flag { slice_index result 1 ≡ self.flag }
        ensures operands { (i : ℕ) → i < 3 → slice_index result (2 + 2 * i) + 256 * slice_index result (3 + 2 * i) ≡ slice_index self.operands i }
    {
        let [p, q, r] = self.operands.map(u16::to_le_bytes);
        [self.code, self.flag, p[0], p[1], q[0], q[1], r[0], r[1]]
    }
}

// The first two numbers give their low bytes.
impl From<[u16; 5]> for Record {
    ghost from_gives = { λ numbers r. (r.code ≡ slice_index numbers 0 % 256) × (r.flag ≡ slice_index numbers 1 % 256) ×
        (r.operands ≡ drop 2 numbers) };

    fn from([code, flag, p, q, r]: [u16; 5]) -> Record {
        Record {
            code: low_byte(code),
            flag: low_byte(flag),
            operands: [p, q, r],
        }
    }
}

pub fn low_byte(x: u16) -> u8
    ensures { result ≡ x % 256 }
{
    (x % 256) as u8
}

// A job's sizes.
#[derive(Clone, Copy, Default)]
pub struct Shape {
    pub k: u16,
    pub n: u16,
    pub e: u16,
    pub c: u16,
}

impl From<[u16; 4]> for Shape {
    ghost from_gives = { λ sizes z. (z.k ≡ slice_index sizes 0) × (z.n ≡ slice_index sizes 1) ×
        (z.e ≡ slice_index sizes 2) × (z.c ≡ slice_index sizes 3) };

    fn from([k, n, e, c]: [u16; 4]) -> Shape {
        Shape { k, n, e, c }
    }
}

impl Shape {
    // The largest job: nodes in blocks 1 to 16, expressions in 17 to 24, clauses in 25 to 32.
    pub const FULL: Shape = Shape {
        k: 12,
        n: 1008,
        e: 504,
        c: 504,
    };

    // A job with a full block and a block of one record of each kind, so that blocks 0, 2, 4 and 6 have unused bytes.
    pub const SPARE: Shape = Shape {
        k: 2,
        n: 64,
        e: 64,
        c: 64,
    };

    pub fn count(self, kind: Kind) -> u16
        ensures header { kind ≡ Kind.Header → result ≡ 1 }
        ensures nodes { kind ≡ Kind.Node → result ≡ self.n }
        ensures expressions { kind ≡ Kind.Expression → result ≡ self.e }
        ensures clauses { kind ≡ Kind.Clause → result ≡ self.c }
    {
        match kind {
            Kind::Header => 1,
            Kind::Node => self.n,
            Kind::Expression => self.e,
            Kind::Clause => self.c,
        }
    }

    // The block in which the records of a kind begin.
    pub fn first_block(self, kind: Kind) -> u16
        ensures header { kind ≡ Kind.Header → result ≡ 0 }
        ensures nodes { kind ≡ Kind.Node → result ≡ 1 }
        ensures expressions { kind ≡ Kind.Expression → result ≡ 1 + (self.n + 62) / 63 }
        ensures clauses { kind ≡ Kind.Clause → result ≡ 1 + (self.n + 62) / 63 + (self.e + 62) / 63 }
        ensures small { result < 4096 }
    {
        match kind {
            Kind::Header => 0,
            Kind::Node => 1,
            Kind::Expression => 1 + span(self.n),
            Kind::Clause => 1 + span(self.n) + span(self.e),
        }
    }

    pub fn blocks(self) -> u16
        ensures { result ≡ 1 + (self.n + 62) / 63 + (self.e + 62) / 63 + (self.c + 62) / 63 }
    {
        1 + span(self.n) + span(self.e) + span(self.c)
    }

    // Record `i` of a kind, which keeps its rule wherever the shape allows.
    pub fn sample(self, kind: Kind, i: u16) -> Record {
        match kind {
            Kind::Header => Record::from([1, self.k, self.n, self.e, self.c]),
            Kind::Node => self.node(i),
            Kind::Expression => self.expression(i),
            Kind::Clause => self.clause(i),
        }
    }

    fn node(self, i: u16) -> Record {
        let code = i % 9;
        let [p, q, r] = match code {
            0..=2 => [0; 3],
            3 | 4 => [back(i, self.n), 0, 0],
            5..=7 => [back(i, self.n), i / 2, 0],
            _ => [back(i, self.n), i / 2, i / 3],
        };
        Record::from([code, 0, p, q, r])
    }

    fn expression(self, i: u16) -> Record {
        let op = i % 7;
        let [a, b] = match op {
            0 | 1 => [0; 2],
            2 => [back(i, self.k), 0],
            3 => [i / 2, 0],
            _ => [i / 2, i / 3],
        };
        Record::from([op, 0, a, b, 0])
    }

    fn clause(self, i: u16) -> Record {
        Record::from([i % 2, i / 2 % 2, back(i, self.n), i % 256, back(i, self.e)])
    }
}

// The blocks that `count` records fill.
fn span(count: u16) -> u16
    ensures blocks { result ≡ (count + 62) / 63 }
    ensures small { result ≤ 1041 }
{
    count.div_ceil(63)
}

// Counts back from the last of `count`.
fn back(i: u16, count: u16) -> u16
    ensures { result ≡ count - 1 - i }
{
    count.saturating_sub(1).saturating_sub(i)
}

pub fn place(block: u16, offset: u16) -> usize
    ensures { result ≡ 512 * block + offset }
{
    512 * usize::from(block) + usize::from(offset)
}

// Where a word of a block stands.
pub fn word_place(block: u16, word: u16) -> usize
    ensures { result ≡ 512 * block + 4 * word }
{
    512 * usize::from(block) + 4 * usize::from(word)
}

// Where record `i` of a kind stands that begins in block `first`.
pub fn spot(first: u16, i: u16) -> usize
    ensures { result ≡ 512 * (first + i / 63) + 4 + 8 * (i % 63) }
{
    512 * (usize::from(first) + usize::from(i / 63)) + 4 + 8 * usize::from(i % 63)
}

// The size of a list of records.
pub fn records_size(count: u16) -> usize
    ensures { result ≡ 8 * count }
{
    8 * usize::from(count)
}

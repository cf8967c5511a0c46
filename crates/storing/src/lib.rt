// Storing records: the bytes of a job, each worked out from its place.
#![tactic(auto)]

ghost use Rattle.storing.specs.Counted.{Counted};

use blocks::layout::{Kind, Layout};
use blocks::numbers::{byte_at, words_sum};
use stored::Size;

// Records that are to be stored, and the layout that their sizes give.
#[derive(Clone, Copy)]
pub struct Records<'a> {
    pub layout: Layout,
    pub nodes: &'a [u8],
    pub expressions: &'a [u8],
    pub clauses: &'a [u8],
    pub ghost counted: { Counted layout.size nodes.now expressions.now clauses.now },
}

impl Records<'_> {
    ghost use Rattle.std.specs.Prelude.{◌≡◌, ◌+◌, ◌*◌, ◌/◌, ◌%◌, ◌<◌, ◌≤◌, ◌++◌, length, drop};
    ghost use Rattle.scans.specs.Lists.{list_of};
    ghost use Rattle.stored.specs.Bytes.{word_of};
    ghost use Rattle.stored.specs.Layout.{sizes_of, blocks_of, header_record, plain_byte, check_word, block_byte, stored};
    ghost use Rattle.storing.specs.Steps.{records_in};

    fn header_record(&self) -> [u8; 8]
        ensures { result ≡ header_record self.now.layout.size }
    {
        let Size { k, n, e, c } = self.layout.size;
        let [n0, n1] = (n as u16).to_le_bytes();
        let [e0, e1] = (e as u16).to_le_bytes();
        let [c0, c1] = (c as u16).to_le_bytes();
        [1, k as u8, n0, n1, e0, e1, c0, c1]
    }

    // Byte `o` of the room for records in block `b`.
    #[tactic(auto, using(crate::proofs::Rooms::rooms))]
    fn room_byte(&self, b: u16, o: usize) -> u8
        requires { o < 504 }
        ensures { result ≡ plain_byte (records_in self.now) b (o + 4) }
    {
        let b = usize::from(b);
        match self.layout.block_kind(b) {
            Kind::Header => byte_at(&self.header_record(), o),
            Kind::Nodes => byte_at(self.nodes, 504 * (b - 1) + o),
            Kind::Expressions => {
                byte_at(
                    self.expressions,
                    504 * (b - self.layout.first_expressions()) + o,
                )
            }
            Kind::Clauses => byte_at(self.clauses, 504 * (b - self.layout.first_clauses()) + o),
        }
    }

    // Byte `o` of block `b`, the check left out.
    #[tactic(auto, unfolding(stored::specs::Layout::plain_byte))]
    fn plain_byte(&self, b: u16, o: usize) -> u8
        requires { o < 508 }
        ensures { result ≡ plain_byte (records_in self.now) b o }
    {
        let [low, high] = b.to_le_bytes();
        match o {
            0 => low,
            1 => high,
            2 => self.layout.block_kind(usize::from(b)).number(),
            3 => self.layout.block_used(usize::from(b)),
            _ => self.room_byte(b, o - 4),
        }
    }

    fn plain_word(&self, b: u16, i: usize) -> u32
        requires { i < 127 }
        ensures { result ≡ word_of (plain_byte (records_in self.now) b) i }
    {
        u32::from_le_bytes([
            self.plain_byte(b, 4 * i),
            self.plain_byte(b, 4 * i + 1),
            self.plain_byte(b, 4 * i + 2),
            self.plain_byte(b, 4 * i + 3),
        ])
    }

    // The check: what the other 127 words, added with wrapping, leave to 4,294,967,295.
    #[tactic(auto, unfolding(stored::specs::Layout::check_word))]
    fn check_word(&self, b: u16) -> u32
        ensures { result ≡ check_word (plain_byte (records_in self.now) b) }
    {
        u32::MAX - words_sum(127, |i| self.plain_word(b, i))
    }

    // Byte `o` of block `b`, whose check is handed over where the byte is one of its own.
    #[tactic(auto, unfolding(stored::specs::Layout::block_byte))]
    fn block_byte(&self, b: u16, o: usize, check: u32) -> u8
        requires within { o < 512 }
        requires checked { 508 ≤ o → check ≡ check_word (plain_byte (records_in self.now) b) }
        ensures { result ≡ block_byte (records_in self.now) b o }
    {
        if o < 508 {
            self.plain_byte(b, o)
        } else {
            check.to_le_bytes()[o - 508]
        }
    }

    // How many bytes the stored job has.
    pub fn size(&self) -> usize
        ensures { (result ≡ 512 * blocks_of (sizes_of (records_in self.now))) × (result < 16777216) }
    {
        512 * self.layout.block_count()
    }

    // The first `size` bytes of the stored job, and of blocks after it where it has fewer. A block's check is worked out once.
    pub fn write_front(&self, size: usize, out: &mut [u8])
        requires { (size ≤ length out.old) × (size < 16777216) }
        ensures { out.new ≡ list_of (λ j. block_byte (records_in self.now) (j / 512) (j % 512)) size ++ drop size out.old }
    {
        let mut check = 0;
        for j in 0..size {
            let b = (j / 512) as u16;
            let o = j % 512;
            if o == 508 {
                check = self.check_word(b);
            }
            out[j] = self.block_byte(b, o, check);
        }
    }

    #[tactic(auto, unfolding(stored::specs::Layout::stored))]
    pub fn write(&self, out: &mut [u8])
        requires { 512 * blocks_of (sizes_of (records_in self.now)) ≤ length out.old }
        ensures { out.new ≡ stored (records_in self.now) ++ drop (512 * blocks_of (sizes_of (records_in self.now))) out.old }
    {
        self.write_front(self.size(), out);
    }
}

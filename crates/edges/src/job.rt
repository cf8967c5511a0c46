// A job built by document 01's layout alone. What lies outside its bytes reads as 0 and is not stored.
ghost use Rattle.std.specs.Prelude.{◌≡◌, ◌+◌, ◌<◌, ◌≤◌, ◌++◌, ◌%◌, length, take, drop, replicate, slice_index};

use crate::bytes::front;
use crate::shape::{Kind, Record, Shape, low_byte, place, spot, word_place};

// A byte to be put in a block.
#[derive(Clone, Copy)]
pub struct Edit {
    pub block: u16,
    pub offset: u16,
    pub byte: u8,
}

impl From<[u16; 3]> for Edit {
    ghost from_gives = { λ numbers edit. (edit.block ≡ slice_index numbers 0) × (edit.offset ≡ slice_index numbers 1) ×
        (edit.byte ≡ slice_index numbers 2 % 256) };

    fn from([block, offset, byte]: [u16; 3]) -> Edit {
        Edit {
            block,
            offset,
            byte: low_byte(byte),
        }
    }
}

// The sizes that a job was built with, and its bytes: 128 blocks, for a length that does not fit sixteen bits.
#[derive(Drop)]
pub struct Job {
    pub shape: Shape,
    bytes: [u8; 65536],
}

impl Job {
    pub fn new() -> Job {
        Job {
            shape: Shape::default(),
            bytes: [0; 65536],
        }
    }

    // A job of a shape, with zeros after it.
    pub fn build(&mut self, shape: Shape) {
        self.shape = shape;
        self.bytes.fill(0);
        for kind in Kind::ALL {
            self.lay(kind);
        }
        self.seal(shape.blocks());
    }

    // The records of a kind, with their blocks' kind and used counts: the last record of a block leaves the right count.
    fn lay(&mut self, kind: Kind) {
        let shape = self.shape;
        let first = shape.first_block(kind);
        for i in 0..shape.count(kind) {
            let block = first + i / 63;
            self.put_record(kind, i, shape.sample(kind, i));
            self.put(place(block, 2), [kind as u8, (i % 63 + 1) as u8]);
        }
    }

    // Numbers the blocks, and makes the words of each add up.
    pub fn seal(&mut self, blocks: u16) {
        for block in 0..blocks {
            self.put(place(block, 0), block.to_le_bytes());
            self.mend(block);
        }
    }

    // Makes a block's words add up.
    pub fn mend(&mut self, block: u16) {
        let from = place(block, 0);
        let Some(bytes) = self.bytes.get_mut(from..from + 512) else {
            return;
        };
        let (words, _) = bytes.as_chunks_mut::<4>();
        if let Some((check, words)) = words.split_last_mut() {
            let sum = words.iter().fold(0u32, |sum, word| {
                sum.wrapping_add(u32::from_le_bytes(*word))
            });
            *check = (u32::MAX - sum).to_le_bytes();
        }
    }

    fn put<const N: usize>(&mut self, at: usize, bytes: [u8; N])
        ensures inside { at + N ≤ length self.old.bytes →
            self.new.bytes ≡ take at self.old.bytes ++ bytes.entry ++ drop (at + N) self.old.bytes }
        ensures outside { length self.old.bytes < at + N → self.new.bytes ≡ self.old.bytes }
        ensures shape { self.new.shape ≡ self.old.shape }
    {
        let size = self.bytes.len();
        if N <= size && at <= size - N {
            self.bytes[at..at + N].copy_from_slice(&bytes);
        }
    }

    fn bytes_at<const N: usize>(&self, at: usize) -> [u8; N]
        ensures inside { at + N ≤ length self.now.bytes → result ≡ take N (drop at self.now.bytes) }
        ensures outside { length self.now.bytes < at + N → result ≡ replicate N 0 }
    {
        if let Some(rest) = self.bytes.get(at..)
            && let Some(bytes) = rest.first_chunk()
        {
            return *bytes;
        }
        [0; N]
    }

    pub fn edit(&mut self, edit: Edit) {
        self.put(place(edit.block, edit.offset), [edit.byte]);
    }

    // A byte put in a block, whose check is then mended.
    pub fn edit_mended(&mut self, edit: Edit) {
        self.edit(edit);
        self.mend(edit.block);
    }

    pub fn flip(&mut self, block: u16, offset: u16) {
        if let Some(byte) = self.bytes.get_mut(place(block, offset)) {
            *byte ^= 1;
        }
    }

    pub fn exchange_words(&mut self, block: u16, a: u16, b: u16) {
        let (a, b) = (word_place(block, a), word_place(block, b));
        let was: [u8; 4] = self.bytes_at(a);
        let other: [u8; 4] = self.bytes_at(b);
        self.put(a, other);
        self.put(b, was);
    }

    // Every byte from a block on becomes 0.
    pub fn clear_from(&mut self, block: u16) {
        if let Some(rest) = self.bytes.get_mut(place(block, 0)..) {
            rest.fill(0);
        }
    }

    pub fn put_record(&mut self, kind: Kind, i: u16, record: Record) {
        self.put(spot(self.shape.first_block(kind), i), record.to_bytes());
    }

    pub fn record(&self, kind: Kind, i: u16) -> [u8; 8] {
        self.bytes_at(spot(self.shape.first_block(kind), i))
    }

    // The records of a kind, in a list by themselves.
    pub fn records<const N: usize>(&self, kind: Kind) -> [[u8; 8]; N] {
        let mut list = [[0; 8]; N];
        for (to, i) in list.iter_mut().zip(0..self.shape.count(kind)) {
            *to = self.record(kind, i);
        }
        list
    }

    // A list begins with the records of a kind.
    pub fn is_in(&self, kind: Kind, list: &[u8]) -> bool {
        let count = self.shape.count(kind);
        let (records, _) = list.as_chunks();
        records.len() >= usize::from(count)
            && records
                .iter()
                .zip(0..count)
                .all(|(record, i)| *record == self.record(kind, i))
    }

    pub fn first_bytes(&self, size: usize) -> &[u8] {
        front(&self.bytes, size)
    }

    pub fn first_blocks(&self, blocks: u16) -> &[u8] {
        self.first_bytes(place(blocks, 0))
    }

    pub fn stored(&self) -> &[u8] {
        self.first_blocks(self.shape.blocks())
    }

    // The flag job's used bytes and checks, as document 01 has them.
    pub fn build_flag(&mut self) {
        self.shape = Shape::from([1, 2, 2, 4]);
        self.bytes.fill(0);
        self.put_block(
            0,
            *b"\0\0\x01\x01\x01\x01\x02\0\x02\0\x04\0",
            *b"\xFC\xFE\xF8\xFE",
        );
        self.put_block(
            1,
            *b"\x01\0\x02\x02\0\0\0\0\0\0\0\0\x06\0\0\0\x01\0\0\0",
            *b"\xF7\xFF\xFD\xFD",
        );
        self.put_block(
            2,
            *b"\x02\0\x03\x02\x02\0\0\0\0\0\0\0\x03\0\0\0\0\0\0\0",
            *b"\xF8\xFF\xFC\xFD",
        );
        self.put_block(
            3,
            *b"\x03\0\x04\x04\0\x01\0\0\0\0\0\0\0\0\0\0\0\0\x01\0\x01\x01\x01\0\x01\0\0\0\x01\0\x01\0\x01\0\x01\0",
            *b"\xF8\xFD\xF7\xFB",
        );
    }

    fn put_block<const N: usize>(&mut self, block: u16, used: [u8; N], check: [u8; 4]) {
        self.put(place(block, 0), used);
        self.put(place(block, 508), check);
    }
}

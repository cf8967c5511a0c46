// A row of sixty-four cases: each node's two words.
use words::{ALL, Pair};

pub type Row = [Pair; 1008];

// It could be either, at every place.
pub const UNKNOWN: Pair = Pair {
    zeros: ALL,
    ones: ALL,
};

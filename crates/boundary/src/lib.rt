// The operations for C and Rust: numbers and byte slices only.
#![tactic(auto, using(crate::proofs::TellingLaws::telling))]

mod answers;
pub mod asking;
pub mod packing;
pub mod rows;
mod telling;
pub mod unpacking;
pub mod wordings;

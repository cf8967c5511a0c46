// Gaps, words and guards, each from a place of a text on.
#![tactic(auto)]

pub mod guards;
pub mod items;
pub mod records;

// The blocks of a stored job: numbers in bytes, where blocks and records stand, and the records' rules.
#![tactic(auto)]

pub mod layout;
pub mod numbers;
pub mod rules;

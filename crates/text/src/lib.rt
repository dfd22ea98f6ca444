// Lines, words and decimal numbers in bytes.
#![tactic(auto)]

pub mod lines;
pub mod words;

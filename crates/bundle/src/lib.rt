// A bundle: a directory of pairs of offset and length, and the records that they tell of.
#![tactic(auto)]

pub mod check;
pub mod fault;
pub mod laws;
mod pairs;
pub mod records;

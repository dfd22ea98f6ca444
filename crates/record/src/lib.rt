// Noted records: the claim, the rounds and the last pair of one case, written one behind the other.
#![tactic(auto)]

pub mod check;
pub mod fault;
mod fields;
mod noted;
mod opening;
pub mod part;
pub mod reading;
pub mod round;
mod whole;

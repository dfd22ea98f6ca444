// A writer of proofs: claims, messages and folds of two lists of scalars.
#![tactic(auto)]

pub mod admit;
pub mod calls;
mod commitments;
pub mod fault;
mod folds;
mod halves;
mod laying;
mod rounds;
mod rows;
mod scrub;
pub mod whole;

// The station: tokens that move, one case at most, a page of four counts, and replay over lists of calls.
#![tactic(auto)]

pub mod call;
pub mod case;
pub mod replay;
pub mod state;
pub mod tokens;

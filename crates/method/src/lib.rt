// Checking methods: whether a last pair passes, for lists folded by a table of challenges.
#![tactic(auto)]

pub mod admit;
pub mod bases;
pub mod commitments;
pub mod fault;
pub mod halving;
pub mod last_pair;
pub mod method;
pub mod multiplying;
pub mod quick;
pub mod table;
pub mod tables;
pub mod theorems;
pub mod weights;

// Kinds of element: commutative groups of prime order whose elements have plain entries in lists.
#![tactic(auto)]

pub mod bench;
pub mod bytes;
pub mod checked;
pub mod clear;
pub mod clears;
pub mod entries;
pub mod fault;
pub mod folds;
pub mod kind;
pub mod modular;
pub mod pair;
pub mod pairs;
pub mod products;
pub mod residue;
pub mod residues;
pub mod side;
pub mod written;

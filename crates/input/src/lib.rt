// A program's whole input. It is part of the programs: they alone use it, since it allocates.
#![tactic(auto)]

pub mod reading;

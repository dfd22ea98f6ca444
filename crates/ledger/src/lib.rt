// The ledger of a station: what it would write down, call by call, the promise over whole runs, and how its values are printed. No
// call of a station works here.
#![tactic(auto)]

pub mod fault;
pub mod parts;
pub mod printed;
pub mod promise;

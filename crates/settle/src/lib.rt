// The two ends meet: records and cases of a writer, checked by a record call and by a station.
#![tactic(auto)]

pub mod play;
pub mod records;
pub mod theorems;

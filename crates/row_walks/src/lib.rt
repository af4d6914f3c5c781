// The walk along the rows after the first, by words.
// For the crates of this project; a caller has checked what a function asks of it.

#![tactic(auto)]

pub mod later;
pub mod row;

// The search through beginnings in dictionary order.
// For the crates of this project; a caller has checked what a function asks of it.

#![tactic(auto)]

pub mod explore;
pub mod masks;

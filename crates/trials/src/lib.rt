// Whether an arrangement still wins where only the entries that stay are known.
// For the crates of this project; a caller has checked what a function asks of it.

#![tactic(auto)]

pub mod after;

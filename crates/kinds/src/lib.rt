// What the pass that writes a clause tells of a pair: its kind, and the columns of a row that are looked at.
// For the crates of this project; a caller has checked what a function asks of it.

#![tactic(auto)]

pub mod columns;
pub mod kind;

// Rows of 32 words: what a graph's code needs before there is a graph value.
// For the crates of this project; a caller has checked what a function asks of it.

#![tactic(auto)]

pub mod entries;
pub mod fits;

// The first certificate, its winning pair and its clause.
// For the crates of this project; a caller has checked what a function asks of it.

#![tactic(auto)]

pub mod certificate;
pub mod written;

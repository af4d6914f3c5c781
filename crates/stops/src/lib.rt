// A vertex tried at a place: row 1 by masks, and then the rows after it.
// For the crates of this project; a caller has checked what a function asks of it.

#![tactic(auto)]

pub mod stops;
pub mod tried;

// Arrangements of 32 places, and what they do to rows.
// For the crates of this project; a caller has checked what a function asks of it.

#![tactic(auto)]

pub mod moved;
pub mod permitted;
pub mod places;
pub mod reordering;

// What a pair does in the walk of a path, on rows, and which pair comes next.
// For the crates of this project; a caller has checked what a function asks of it.

#![tactic(auto)]

pub mod before;
pub mod next;
pub mod path;
pub mod spot;
pub mod turn;
pub mod walked;

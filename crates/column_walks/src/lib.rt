// A vertex tried at a place by columns: its pairs with the vertices before it, and what they come to.
// For the crates of this project; a caller has checked what a function asks of it.

#![tactic(auto)]

pub mod column;
pub mod tried;

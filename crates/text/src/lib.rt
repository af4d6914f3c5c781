// Text: bytes, decimal numbers and lists of numbers put into a lent buffer.

#![tactic(auto)]

pub mod decimal;
pub mod parts;
pub mod writer;

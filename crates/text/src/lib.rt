// Text: its lines and their words found, and a text of fixed room that words, numbers and floats are written to.
#![tactic(auto)]

pub mod float;
pub mod words;
pub mod written;

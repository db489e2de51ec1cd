// A board's visiting list, its late wires and its tail.
#![tactic(auto)]

pub mod graph;
pub mod tail;

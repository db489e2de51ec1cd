// A board's visiting list and late wires as text, for the programs that show them.
#![tactic(auto)]

pub mod lines;

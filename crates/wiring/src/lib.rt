// Wires added to a board and pulled from it while it plays: the two calls on lent bytes.
#![tactic(auto)]

pub mod rewire;

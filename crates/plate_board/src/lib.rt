// The plate as a board: its nodes and wires, and the writer of its bytes.
#![tactic(auto)]

pub mod writer;

// Block runs whose blocks hold converter words of 24 bits.
#![tactic(auto)]

pub mod block24;

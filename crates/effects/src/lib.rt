// Two types that remember earlier samples in their cell, the delay and the one-pole, each a block over its
// own lent cell.
#![tactic(auto)]

pub mod delayn;
pub mod onepole;

// A board carried to another block size.
#![tactic(auto)]

pub mod resize;

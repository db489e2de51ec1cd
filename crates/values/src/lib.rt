// Numbers and floats in lent bytes, and what is asked of a float: its pattern, its range, its floor.
#![tactic(auto)]

pub mod bytes;
pub mod float;
pub mod lanes;

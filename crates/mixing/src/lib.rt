// The mix message of the plate.
#![tactic(auto)]

pub mod mix;

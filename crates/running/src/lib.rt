// The stages of a block run, of which the calls that run blocks are made.
#![tactic(auto)]

pub mod run;

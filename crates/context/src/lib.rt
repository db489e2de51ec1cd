// The block run on a board's bytes and its memory.
#![tactic(auto)]

pub mod block;

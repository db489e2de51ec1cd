// A board's memory: the board opened for a call, fresh memory and the number message.
#![tactic(auto)]

pub mod fresh;
pub mod message;
pub mod open;

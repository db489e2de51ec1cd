// Boards: read from their bytes and judged (refusals 1 to 6).
#![tactic(auto)]

pub mod board;
pub mod judge;
pub mod nodes;
pub mod read;

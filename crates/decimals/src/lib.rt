// Numbers in text: whole numbers, decimals and the floats nearest to them, read from words.
#![tactic(auto)]

pub mod big;
pub mod decimal;
pub mod nearest;
pub mod number;

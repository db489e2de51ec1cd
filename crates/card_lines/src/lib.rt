// A line of a card: its words, the name before it, the record that it says or what is wrong with it.
#![tactic(auto)]

pub mod labels;
pub mod lengths;
pub mod line;
pub mod names;
pub mod reason;

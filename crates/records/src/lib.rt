// A board's records, found in its bytes and written, and the answers of the calls.
#![tactic(auto)]

pub mod answer;
pub mod reader;
pub mod record;
pub mod writer;

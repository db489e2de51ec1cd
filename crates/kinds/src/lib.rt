// The ten node types: what a record's fields may say, a node's cell in the lent memory and its judged
// values. Document 01's table, the rules by sample and their laws stand in specs/ and proofs/.
#![tactic(auto)]

pub mod cell;
pub mod kind;
pub mod types;

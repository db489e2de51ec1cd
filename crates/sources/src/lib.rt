// The table of each node's sources, wire by wire.
#![tactic(auto)]

pub mod sources;

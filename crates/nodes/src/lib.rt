// A node's block run: its sources' blocks fetched, then its type's loop over its own lent cell. Nothing
// here knows of wires: a node is told where its sources' samples lie.
#![tactic(auto)]

pub mod node;

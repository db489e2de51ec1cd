// The all-pass, plain and modulated: a block over its own lent cell.
#![tactic(auto)]

pub mod apfmsgain;

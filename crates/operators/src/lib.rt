// The types that remember no earlier samples, each a block over its own lent cell: operators, sums and
// the sine; and blocks fetched from memory and put into a cell.
#![tactic(auto)]

pub mod block;
pub mod operator;
pub mod sin_osc;
pub mod sum;

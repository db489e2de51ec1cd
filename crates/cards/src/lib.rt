// Cards, boards written as text: a line for each record. The board that a card says, or what is wrong
// with it. docs/CARD.md describes them.
#![tactic(auto)]

pub mod board;

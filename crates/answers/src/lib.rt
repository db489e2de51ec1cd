// Answers in words: what is wrong with a board, by its refusal, and with a card, by its line. docs/CARD.md
// has them.
#![tactic(auto)]

pub mod answer;
pub mod card;
pub mod fault;
pub mod kind;

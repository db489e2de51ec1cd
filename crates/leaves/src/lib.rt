// The leaves of the plate tank: the one-pole, the oscillator's phase and sine, lengths from
// milliseconds, and where a modulated all-pass reads; and a converter's words.
#![tactic(auto)]

pub mod converter;
pub mod lengths;
pub mod noise;
pub mod onepole;
pub mod phase;
pub mod position;
pub mod sine;

// A sound in a WAV file, looked over from its start to its end before anything is played, and what is said
// of it and of other files: lines for a person.
#![tactic(auto)]

pub mod error;
pub mod say;
pub mod source;

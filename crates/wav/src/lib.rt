// WAV files, as a sound is read from one and written to one: chunks, formats, samples, and the blocks
// that a board takes and gives. Every function works on lent bytes; a program reads and writes them.
#![tactic(auto)]

pub mod block;
pub mod chunk;
pub mod format;
pub mod header;
pub mod level;
pub mod sample;

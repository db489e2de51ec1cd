// The visiting list of a board with a wire more or less, carried over from the board's before the change.
#![tactic(auto)]

pub mod carried;

//! The tests of a board by its public calls. They stand in a crate of their own so that the board is not proved once
//! more with them; nothing else is in it.
#![tactic(auto)]

#[cfg(test)]
mod boards;
#[cfg(test)]
mod moments;
#[cfg(test)]
mod tables;

//! The tests of a service's lines and numbers by their public calls. They stand in a crate of their own so that the crate is
//! not proved once more with them; nothing else is in it.
#![tactic(auto)]

#[cfg(test)]
mod lines;
#[cfg(test)]
mod numbers;

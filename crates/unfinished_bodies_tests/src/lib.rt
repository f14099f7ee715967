//! The tests of the table of half-read bodies, and of the lists of turns, by their public calls. They stand in a crate of
//! their own so that neither is proved once more with them; nothing else is in it.
#![tactic(auto)]

#[cfg(test)]
mod rows;
#[cfg(test)]
mod steps;
#[cfg(test)]
mod turns;

//! The tests of the steps by their public calls. They stand in a crate of their own so that the steps are not proved
//! once more with them; nothing else is in it.
#![tactic(auto)]

#[cfg(test)]
mod tests;

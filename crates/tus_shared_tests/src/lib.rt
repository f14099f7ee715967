//! The tests of desks by their public calls. They stand in a crate of their own so that the desks are not proved
//! once more with them; nothing else is in it.
#![tactic(auto)]

#[cfg(test)]
mod tests;

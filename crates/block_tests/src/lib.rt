//! The tests of pools and of bodies by their public calls. They stand in a crate of their own, over libraries that are
//! proved already; nothing else is in it.
#![tactic(auto)]

#[cfg(test)]
mod bodies;
#[cfg(test)]
mod pools;

//! The tests of connections at desks, by the workers' public calls: conversations over readers and writers in memory, and
//! over sockets. They stand in a crate of their own so that the workers are not proved once more with them; nothing else
//! is in it.
#![tactic(auto)]

#[cfg(test)]
mod tests;

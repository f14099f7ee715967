//! The tests of the wire by its public calls: conversations from bytes to bytes over readers and writers in memory,
//! beside a plain, slow program of a conversation. They stand in a crate of their own so that the wire is not proved
//! once more with them; nothing else is in it.
#![tactic(auto)]

#[cfg(test)]
mod tests;

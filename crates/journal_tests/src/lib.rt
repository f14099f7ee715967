//! The tests of the journal's crates by their public calls, over a disk that tears, loses and fills up. They stand in a crate
//! of their own, over libraries that are proved already; nothing else is in it.
#![tactic(auto)]

#[cfg(test)]
mod tests;

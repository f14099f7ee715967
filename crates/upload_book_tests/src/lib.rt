//! The tests of the book by its public calls, beside a plain, slow program of a book. They stand in a crate of
//! their own so that the book is not proved once more with them; nothing else is in it.
#![tactic(auto)]

#[cfg(test)]
mod tests;

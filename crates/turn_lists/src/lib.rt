//! The lists on which the clients of a worker stand whose next turn needs no event.
#![tactic(auto)]

mod lists;
mod queue;
mod queues;

pub use lists::{TurnList, TurnLists};

//! The keeper of a journal for several desks.

mod location;
mod requests;
mod scenes;
mod small;
mod stage;
mod steps;

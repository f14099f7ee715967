//! Each module tests a part, or helps those that do.

mod batches;
mod journal;
mod openings;
mod requests;
mod stage;
mod steps;
mod stops;
mod uploads;

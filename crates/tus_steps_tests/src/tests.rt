//! Each module tests a part, or helps those that do.

mod asked;
mod books;
mod heads;
mod ranges;
mod requests;
mod rows;
mod runs;
mod steps;
mod told;

//! Each module tests a part, or helps those that do.

mod at_once;
mod client_connection;
mod connections;
mod held_back;
mod opening;
mod paces;
mod script;
mod serving;
mod streams;
mod texts;

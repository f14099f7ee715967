//! Each module tests a part, or helps those that do.

mod bodies_in_pieces;
mod checksums;
mod concatenations;
mod connections;
mod conversations;
mod creations;
mod driven;
mod faults;
mod files;
mod hostile;
mod limits;
mod malformed;
mod memory;
mod message_parts;
mod methods;
mod plain;
mod ranges;
mod replies;
mod rows;
mod spoken;
mod wanted;
mod wires;

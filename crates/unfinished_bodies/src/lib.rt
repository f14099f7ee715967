//! The bodies that are half read at all workers of a server, each with the connection that it comes on.
#![tactic(auto)]

mod bodies;
mod chains;

pub use bodies::{Body, BodyPlace, Holder, Unfinished, UploadName};

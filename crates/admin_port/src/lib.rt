//! The port at which a server is asked for its numbers, for its health and for a stop: a listener beside the clients of a worker.
#![tactic(auto)]

mod metrics_door;
mod question;

pub use metrics_door::{ASKERS_MAX, Asked, MetricsDoor, reply_with};
pub use question::{Question, question_in};

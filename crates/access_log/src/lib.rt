//! The access log of a server: what its workers see of requests and connections, the lines and the counts that come of it, and
//! the thread that writes the lines.
#![tactic(auto)]

mod log_writer;
mod resident;
mod seen;
mod watch;
mod watching;

pub use log_writer::LogTarget;
pub use seen::{Seen, SeenReply, SeenRequest};
pub use watch::Watch;
pub use watching::Watching;

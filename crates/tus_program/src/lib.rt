//! What the program `tus-server` does, over streams, sockets and folders: its commands, from the words of the command line to
//! the exit status.
#![tactic(auto)]

mod at_journal;
mod blanks;
mod conversation;
mod keeping;
mod kept_serve;
mod kept_talk;
mod lines;
mod program;
mod program_fault;
mod progress;
mod report;
mod serve;
mod started;
mod talk;
mod work;

pub use program::run;
pub use report::{is_watched, report_fault};

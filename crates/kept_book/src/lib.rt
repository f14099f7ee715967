//! A book that outlives its process: each change stands in a journal, synced, before any reply tells of it.
#![tactic(auto)]

mod done;
mod fault;
mod keeping;
mod kept;
mod log;
mod opening;
mod reopening;
mod session;

pub use fault::{AnswerFault, NotKept, OpenFault};
pub use kept::KeptBook;
pub use opening::open_or_create;
pub use reopening::crash_and_open;
pub use session::{SessionReplies, answer_all};

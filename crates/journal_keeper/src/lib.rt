//! The keeper of a store's journal: it writes and syncs the records that desks queue, tells desks how far these are kept,
//! grants them room for more, keeps the file small, and makes a store again of the records of its journal.
#![tactic(auto)]

mod compacting;
mod compaction;
mod fault;
mod granting;
mod journalled;
mod keeper;
mod keeping;
pub mod laws;
mod numbers;
mod opening;
mod progress;
mod shared_keeper;
mod taking;
mod told;

pub use compacting::Compacted;
pub use fault::{KeepFault, ReopenFault};
pub use journalled::Journalled;
pub use keeper::Keeper;
pub use numbers::{KeeperNumbers, SyncCounts};
pub use opening::{Reopened, reopen};
pub use progress::Progress;
pub use shared_keeper::SharedKeeper;

//! A book that is made again of records: each is read, tested and made on the book that the ones before it left. And the
//! records of a book's snapshot, of which it is made again.
#![tactic(auto)]

mod fault;
mod fitting;
mod laws;
mod made;
mod replaying;
mod snapshot;

pub use fault::{ReplayFault, SnapshotFault};
pub use fitting::tell_fits;
pub use laws::{events_are_replayed, replays_tell_events};
pub use made::can_be_made;
pub use replaying::replay;
pub use snapshot::snapshot_records;

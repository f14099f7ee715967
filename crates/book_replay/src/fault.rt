ghost use Rattle.std.specs.Prelude.{◌≡◌};
ghost use Rattle.book_replay.specs.declared.fault.ReplayFault.TheVariants as faults;
ghost use Rattle.book_replay.specs.declared.fault.SnapshotFault.TheVariants as snapshot_faults;

use std::alloc::AllocError;
use thiserror::Error;

/// Why no book is made of records.
#[derive(Debug, Drop, Error)]
pub enum ReplayFault {
    /// The record of this number, counted from 1, is none of a change that this book accepts.
    #[error("record {0} is none of a change that the book accepts")]
    Record(u64),
    /// There is no memory.
    #[error("out of memory")]
    Memory,
}

impl From<AllocError> for ReplayFault {
    ghost from_gives = { λ _ why. why ≡ faults.Memory };

    fn from(_: AllocError) -> ReplayFault {
        ReplayFault::Memory
    }
}

/// Why the records of a snapshot are not made.
#[derive(Debug, Drop, Error)]
pub enum SnapshotFault {
    /// There is no memory.
    #[error("out of memory")]
    Memory,
    /// A record is longer than a frame holds. No book has so large an upload.
    #[error("an upload is larger than a frame holds")]
    Record,
}

impl From<AllocError> for SnapshotFault {
    ghost from_gives = { λ _ why. why ≡ snapshot_faults.Memory };

    fn from(_: AllocError) -> SnapshotFault {
        SnapshotFault::Memory
    }
}

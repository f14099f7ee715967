ghost use Rattle.std.specs.Prelude.{◌≡◌};
ghost use Rattle.journal_keeper.specs.declared.fault.KeepFault.TheVariants as keeps;

use journal_file::JournalError;
use thiserror::Error;

/// Why nothing more is kept. What the file holds is to be opened again.
#[derive(Debug, Drop, Error)]
pub enum KeepFault {
    /// A write or a sync of the journal failed, or there was no room for what waited.
    #[error("the journal: {0}")]
    Journal(JournalError),
    /// Keeping has failed before. Nothing was asked of the disk.
    #[error("keeping has failed before")]
    Ended,
    /// The records that wait do not begin behind those that are kept, or end before what the desk has seen. It comes in no
    /// run where one keeper alone takes the records of the store.
    #[error("the records that wait do not follow those that are kept")]
    Queue,
    /// A record is longer than a frame holds. No desk queues such a one.
    #[error("a record is longer than a frame holds")]
    Frame,
    /// The desk was told of more than is kept. It comes in no run where one keeper alone tells the desks.
    #[error("the desk was told of more than is kept")]
    Desk,
    /// A new journal was to take the place of the one before, and it is not known which of the two a crash leaves there. Both
    /// have all that is kept.
    #[error("it is not known which journal stands in its place")]
    Place,
}

impl From<JournalError> for KeepFault {
    ghost from_gives = { λ error why. why ≡ keeps.Journal error };

    fn from(error: JournalError) -> KeepFault {
        KeepFault::Journal(error)
    }
}

/// Why no store is made again of the records of a journal.
#[derive(Debug, Drop, Error)]
pub enum ReopenFault {
    /// The record of this number, counted from 1, is none of a change that a book of these settings takes there.
    #[error("record {0} is none of a change that the book accepts")]
    Record(u64),
    /// There is no memory.
    #[error("out of memory")]
    Memory,
    /// Records wait to be written. It comes in no run where the store is new.
    #[error("records of the store wait to be written")]
    Waiting,
}

ghost use Rattle.std.specs.Prelude.{◌≡◌};
ghost use Rattle.kept_book.specs.declared.fault.AnswerFault.TheVariants as keeps;
ghost use Rattle.kept_book.specs.declared.fault.OpenFault.TheVariants as opens;

use book_replay::ReplayFault;
use journal_file::JournalError;
use sqlite_disk::Disk;
use std::alloc::AllocError;
use thiserror::Error;

/// Why a kept book answers nothing more. What its file holds is to be opened again.
#[derive(Debug, Drop, Error)]
pub enum AnswerFault {
    /// A write or a sync of the journal failed.
    #[error("the journal: {0}")]
    Journal(JournalError),
    /// One has failed before. Nothing was asked of the disk.
    #[error("a write or a sync of the journal has failed before")]
    Ended,
}

impl From<JournalError> for AnswerFault {
    ghost from_gives = { λ error why. why ≡ keeps.Journal error };

    fn from(error: JournalError) -> AnswerFault {
        AnswerFault::Journal(error)
    }
}

/// Why a kept book was not made or opened.
#[derive(Debug, Drop, Error)]
pub enum OpenFault {
    /// The journal was not made or opened.
    #[error("the journal: {0}")]
    Journal(JournalError),
    /// The book was not made again of the records that it holds.
    #[error("{0}")]
    Replay(ReplayFault),
    /// There is no memory.
    #[error("out of memory")]
    Memory,
}

impl From<JournalError> for OpenFault {
    ghost from_gives = { λ error why. why ≡ opens.Journal error };

    fn from(error: JournalError) -> OpenFault {
        OpenFault::Journal(error)
    }
}

impl From<AllocError> for OpenFault {
    ghost from_gives = { λ _ why. why ≡ opens.Memory };

    fn from(_: AllocError) -> OpenFault {
        OpenFault::Memory
    }
}

/// Why a kept book was not opened, and its disk.
#[derive(Drop)]
pub struct NotKept<D: Disk> {
    pub why: OpenFault,
    pub disk: D,
}

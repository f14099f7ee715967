ghost use Rattle.std.specs.Prelude.{◌≡◌};
ghost use Rattle.journal_file.specs.declared.error.JournalError.TheVariants as errors;

use std::alloc::AllocError;
use std::io;
use thiserror::Error;

/// Where a file is not what a crash leaves of a journal under its key.
#[derive(Clone, Copy, Debug, PartialEq, Eq)]
pub struct Damage {
    /// The place, in bytes from 0, of the first frame that is none: so many bytes are whole frames.
    pub at: usize,
    /// How many bytes the file has.
    pub len: usize,
}

/// Why a call of a journal failed.
#[derive(Debug, Drop, Error)]
pub enum JournalError {
    /// The room ahead is too small. Nothing was asked of the disk.
    #[error("the room ahead is too small")]
    NoRoom,
    /// A sync has failed before, after which nothing may be asked of the disk. Nothing was.
    #[error("a sync has failed before")]
    Unusable,
    /// A crash of this disk may leave other bytes than those that were there and those that were written. Nothing was
    /// asked of it.
    #[error("the disk does not leave each byte old or new")]
    NotMixing,
    /// The file is not one that a crash leaves of a journal under this key.
    #[error("the file is damaged, or of another key, at byte {} of {}", .0.at, .0.len)]
    Damaged(Damage),
    /// There is no memory.
    #[error("out of memory")]
    Memory,
    /// A call of the disk failed. What a crash leaves is known, and nothing else: open the file again.
    #[error("the disk: {0}")]
    Disk(io::Error),
}

impl From<Damage> for JournalError {
    ghost from_gives = { λ damage why. why ≡ errors.Damaged damage };

    fn from(damage: Damage) -> JournalError {
        JournalError::Damaged(damage)
    }
}

impl From<AllocError> for JournalError {
    ghost from_gives = { λ _ why. why ≡ errors.Memory };

    fn from(_: AllocError) -> JournalError {
        JournalError::Memory
    }
}

impl From<io::Error> for JournalError {
    ghost from_gives = { λ error why. why ≡ errors.Disk error };

    fn from(error: io::Error) -> JournalError {
        JournalError::Disk(error)
    }
}

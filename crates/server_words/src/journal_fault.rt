//! Why a journal can't be had, or failed.
ghost use Rattle.std.specs.Prelude.{◌≡◌, ◌≤◌, length};
ghost use Rattle.server_words.specs.JournalFault.{journal_word};

use crate::difference::Difference;
use crate::shortage::Shortage;

/// What is wrong with a journal.
#[derive(Clone, Copy, Debug, PartialEq, Eq)]
pub enum JournalFault {
    /// Its folder can't be made, or its file or its lock can't be opened or made, or its file is a link, or no regular file with
    /// one name.
    File,
    /// What stands at the path of its folder is none.
    NoFolder,
    /// There is no folder at the path, or no file in it that can be read as a journal's.
    NoJournal,
    /// Another process has its folder.
    Busy,
    /// The settings that stand beside it, or its uploads, don't go with the settings of the options.
    Settings(Mismatch),
    /// Its file, which has `len` bytes, is damaged, or is no journal, from the place `at` on.
    Damaged { at: usize, len: usize },
    /// The record of this number, counted from 1, is of no change that a book of the settings takes.
    Record(u64),
    /// A read, a write or a sync of its file, or of its settings, failed; or it is not known whether a smaller one got its name.
    Disk,
    /// It has no such upload.
    Upload(NoUpload),
}

/// Why a journal has no upload of a word TENANT/ID.
#[derive(Clone, Copy, Debug, PartialEq, Eq)]
pub enum NoUpload {
    /// The word is not a tenant's name, `/` and a number.
    Name,
    /// The settings beside the journal have no such tenant.
    Tenant,
    /// The tenant was never given this id.
    Unknown,
    /// The upload has ended.
    Gone,
}

/// Why a journal is not opened with the settings of the options.
#[derive(Clone, Copy, Debug, PartialEq, Eq)]
pub enum Mismatch {
    /// The journal has bytes, and there are no settings beside it.
    Missing,
    /// The text beside it gives no settings.
    Unreadable,
    /// The settings of the options may not follow those beside it.
    Differs(Difference),
    /// What stands in the journal is more than the settings of the options allow.
    TooSmall(Shortage),
}

impl JournalFault {
    /// The word that names it.
    pub fn word(&self) -> &'static str
        ensures word { result.now ≡ journal_word self.now }
        ensures short { length result.now ≤ 10 }
    {
        match self {
            JournalFault::File | JournalFault::NoFolder | JournalFault::NoJournal => "file",
            JournalFault::Busy => "busy",
            JournalFault::Settings(_) => "settings",
            JournalFault::Damaged { .. } => "damaged",
            JournalFault::Record(_) => "record",
            JournalFault::Disk => "disk",
            JournalFault::Upload(_) => "upload",
        }
    }
}

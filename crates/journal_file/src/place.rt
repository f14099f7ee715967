//! Where the file of a journal stands.
ghost use Rattle.std.specs.Prelude.{List, ℕ, []};
ghost use Rattle.journal_file.specs.Journal.{IsJournal};

use crate::journal::Journal;
use sqlite_disk::Disk;

/// Where the file of a journal stands, with room beside it for a new one. No contract says what becomes of the files.
pub trait JournalPlace<D: Disk> {
    /// A file beside that of the journal, whatever it holds; it may be one that was the journal's before. What another call gave
    /// before may be lost. `None` where there can't be one.
    fn open_beside(&self) -> Option<D>;

    /// Takes away what stands beside the journal's file, if anything does, so that it fills no disk: one that was opened, and one
    /// that is kept. The blocks of the latter are free when this returns.
    fn give_up(&self);

    /// Puts the file that was opened last beside that of the journal in its place, so that no crash undoes it. It is that of
    /// this journal, all of whose records are synced. `Err` where that failed.
    fn put_in_place(&self, journal: &Journal<D>) -> Result<(), PlaceFault>
        requires { (payloads : List (List ℕ)) × IsJournal journal.now payloads [] };

    /// Lets go of the disk of a journal whose place another one has taken. Where its file has at most so many bytes it may be kept,
    /// to be given again. Else that may take as long as to write it did, so it may still be under way when this returns.
    fn let_go(&self, old: D, most: u64);

    /// Lets the file go that is kept, if there is one, where it has more bytes than these.
    fn keep_at_most(&self, most: u64);

    /// Notes beside the file of the journal that its first bytes, so many, are synced. No crash tears a frame among these.
    fn mark(&self, bytes: u64);
}

/// Why a new file has not taken the place of a journal's.
#[derive(Clone, Copy, Debug, PartialEq, Eq)]
pub enum PlaceFault {
    /// The old one stands there as it did.
    Stays,
    /// After a crash either may stand there.
    Unsure,
}

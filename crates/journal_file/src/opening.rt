//! A journal that is opened, or made where there is none.
ghost use Rattle.std.specs.Prelude.{◌≡◌, ℕ, List, [], IsTrue, IfErr, IfOk};
ghost use Rattle.journal_frames.specs.Frames.{recovered};
ghost use Rattle.journal_file.specs.Journal.{disk_of, key_of, IsJournal};
ghost use Rattle.journal_file.specs.JournalError.{TellsDamage};

use crate::error::JournalError;
use crate::journal::{Journal, NotOpened, Opened};
use sqlite_disk::Disk;
use std::alloc::Global;

// The room of a new journal, in bytes.
const FIRST_ROOM: usize = 1 << 20;

impl<D: Disk> Journal<D> {
    /// Opens the journal that the file of a disk holds under this key, as [`Journal::open`] does, with the frames of all its
    /// payloads; or, where the file has no byte, makes one without a payload. It may crash meanwhile, and be called again.
    ///
    /// `Err` as of `Journal::open` and [`Journal::create`], or Disk where the disk does not tell how long the file is. Where it
    /// is Damaged, its place is that of the damage, if the disk told no lie.
    pub fn open_or_create(alloc: Global, mut disk: D, key: u64) -> Result<Opened<D>, JournalError>
    where
        D: Drop,
        // Where the disk told no lie.
        ensures journal { IfOk result (λ it. IsTrue (D.is_clean (disk_of it.journal))
            → IsJournal it.journal (recovered key it.frames.items) []) }
        ensures all { IfOk result (λ it. IsTrue (D.is_clean (disk_of it.journal))
            → recovered key it.frames.items ≡ recovered key (D.seen disk)) }
        ensures key { IfOk result (λ it. key_of it.journal ≡ key) }
        ensures damaged { IfErr result (TellsDamage D.seen D.is_clean key disk) }
    {
        if !disk.may_be_used() {
            return Err(JournalError::Unusable);
        }
        let len = disk.len()?;
        if len == 0 {
            let journal = Journal::create(disk, key, FIRST_ROOM)?;
            return Ok(Opened {
                journal,
                frames: Vec::new(alloc),
            });
        }
        match Journal::open(alloc, disk, key) {
            Ok(opened) => Ok(opened),
            Err(not) => {
                let NotOpened { why, disk: _ } = not;
                Err(why)
            }
        }
    }
}

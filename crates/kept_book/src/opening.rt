ghost use Rattle.std.specs.Prelude.{◌≡◌, ℕ, false, List, IfErr, IfOk};
ghost use Rattle.kept_book.specs.Kept.{has_failed, key_in, IsOpened};
ghost use Rattle.kept_book.specs.OpenFault.{TellsPlace};

use crate::fault::{NotKept, OpenFault};
use crate::kept::KeptBook;
use journal_file::Journal;
use sqlite_disk::Disk;
use std::alloc::Global;
use upload_book::Settings;

/// Opens the book that the file of a disk holds, as [`KeptBook::open`] does; or, where the file is empty, makes one without
/// an upload over a new journal.
///
/// `Err` is Journal with the error of [`Journal::open_or_create`], or Replay. Where it is Damaged, its place is that of the
/// damage, if the disk told no lie.
pub fn open_or_create<D: Disk>(
    alloc: Global,
    settings: Settings,
    disk: D,
    key: u64,
) -> Result<KeptBook<D>, OpenFault>
where
    D: Drop,
    ensures opened { IfOk result (IsOpened settings key disk) }
    ensures key { IfOk result (λ kept. key_in kept ≡ key) }
    ensures works { IfOk result (λ kept. has_failed kept ≡ false) }
    ensures damaged { IfErr result (TellsPlace D.seen D.is_clean key disk) }
{
    let opened = Journal::open_or_create(alloc, disk, key)?;
    match KeptBook::of_opened(alloc, settings, opened, key) {
        Ok(kept) => Ok(kept),
        Err(not) => {
            let NotKept { why, disk: _ } = not;
            Err(why)
        }
    }
}

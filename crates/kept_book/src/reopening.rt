ghost use Rattle.std.specs.Prelude.{◌≡◌, ℕ, false, List, IsTrue, IfErr, IfOk};
ghost use Rattle.kept_book.specs.Answer.{GoesOn};
ghost use Rattle.kept_book.specs.Kept.{disk_in, has_failed, IsLeftWithOneMore};
ghost use Rattle.kept_book.specs.OpenFault.{IsOutsideFile};
ghost use Rattle.upload_book.specs.Events.{ChangeEvent};

use crate::fault::NotKept;
use crate::kept::KeptBook;
use sqlite_disk::Crash;
use std::alloc::Global;
use upload_book::Settings;

/// Lets the machine crash, and opens the book that is left, with the same settings and the same key. Where a crash leaves
/// all that was kept, the book that is opened has all of it, whatever the crash has lost.
///
/// `Err` as of [`KeptBook::open`], and then the file is neither called damaged nor one of its records refused.
pub fn crash_and_open<D: Crash>(
    alloc: Global,
    settings: Settings,
    kept: KeptBook<D>,
    key: u64,
) -> Result<KeptBook<D>, NotKept<D>>
    ensures opened { (events : List ChangeEvent)
        → ((c : List ℕ) → D.Disk.may_leave (disk_in kept) c → IsLeftWithOneMore key settings events c)
        → IfOk result (λ after. IsTrue (D.Disk.is_clean (disk_in after)) → GoesOn after settings events) }
    ensures works { IfOk result (λ after. has_failed after ≡ false) }
    // Then the error is none of the file.
    ensures accepts { (events : List ChangeEvent)
        → ((c : List ℕ) → D.Disk.may_leave (disk_in kept) c → IsLeftWithOneMore key settings events c)
        → IfErr result (λ not. IsTrue (D.Disk.is_clean not.disk) → IsOutsideFile not.why) }
{
    let mut disk = kept.into_disk();
    disk.crash();
    KeptBook::open(alloc, settings, disk, key)
}

//! A disk that is synced, and zeros that are written to it.
ghost use Rattle.std.specs.Prelude.{◌≡◌, ◌+◌, ◌^◌, ◌<◌, ℕ, List, true, length, replicate, IsTrue, IfErr, OnOk};
ghost use Rattle.sqlite_disk.specs.Disk.{CountsFault, Follows, Holds, Mixed, MoreFaults, Only, Torn};
ghost use Rattle.journal_file.specs.JournalError.{IsReason, IsRefusal};
ghost use Rattle.journal_file.specs.Journal.{LeavesOldOr};

use crate::error::JournalError;
use sqlite_disk::Disk;
use std::io;

// Whether the disk may be written to as a journal does.
pub(crate) fn check_disk<D: Disk>(disk: &D) -> Result<(), JournalError>
    ensures usable { OnOk result (IsTrue (D.is_usable disk.now)) }
    ensures mixing { OnOk result (IsTrue (D.is_mixing disk.now)) }
    ensures why { IfErr result (IsReason (record {
      no_room = ⊥;
      is_usable = D.is_usable disk.now;
      is_mixing = D.is_mixing disk.now;
      damaged = λ _. ⊥;
      memory = ⊥;
      disk = ⊥;
    })) }
    ensures refusal { IfErr result IsRefusal }
{
    if !disk.may_be_used() {
        return Err(JournalError::Unusable);
    }
    if !disk.mixes() {
        return Err(JournalError::NotMixing);
    }
    Ok(())
}

// Syncs all that was written.
pub(crate) fn sync_disk<D: Disk>(disk: &mut D) -> Result<(), JournalError>
    ensures synced { OnOk result (Only (D.seen disk.old) (D.may_leave disk.new)) }
    ensures seen { D.seen disk.new ≡ D.seen disk.old }
    ensures usable { OnOk result (IsTrue (D.is_usable disk.new)) }
    ensures crash { (c : List ℕ) → D.may_leave disk.new c → D.may_leave disk.old c }
    ensures clean { D.is_clean disk.new ≡ D.is_clean disk.old }
    ensures faults { OnOk result (D.faults disk.new ≡ D.faults disk.old) }
    ensures why { IfErr result (IsReason (record {
      no_room = ⊥;
      is_usable = D.is_usable disk.old;
      is_mixing = true;
      damaged = λ _. ⊥;
      memory = ⊥;
      disk = MoreFaults (D.faults disk.old) (D.faults disk.new);
    })) }
{
    if !disk.may_be_used() {
        return Err(JournalError::Unusable);
    }
    disk.sync()?;
    Ok(())
}

// How many zeros are written at a time: so few that they stay in a cache.
const PIECE: usize = 65_536;

// Writes so many zeros at a place, and syncs.
pub(crate) fn fill<D: Disk>(disk: &mut D, at: usize, len: usize) -> Result<(), JournalError>
    requires usable { IsTrue (D.is_usable disk.old) }
    requires mixing { IsTrue (D.is_mixing disk.old) }
    requires fits { at + len < 2 ^ 64 }
    ensures usable { OnOk result (IsTrue (D.is_usable disk.new)) }
    ensures filled { OnOk result (0 < len → Holds (D.seen disk.new) at (replicate len 0)) }
    ensures others { Torn at len (D.seen disk.old) (D.seen disk.new) }
    ensures synced { OnOk result (Only (D.seen disk.new) (D.may_leave disk.new)) }
    ensures crash { LeavesOldOr (Mixed at (replicate len 0)) (D.may_leave disk.old) (D.may_leave disk.new) }
    ensures clean { D.is_clean disk.new ≡ D.is_clean disk.old }
    ensures why { IfErr result (IsReason (record {
      no_room = ⊥;
      is_usable = true;
      is_mixing = true;
      damaged = λ _. ⊥;
      memory = ⊥;
      disk = MoreFaults (D.faults disk.old) (D.faults disk.new);
    })) }
{
    write_zeros(disk, at, len, &[0u8; PIECE])?;
    sync_disk(disk)
}

// Writes so many zeros at a place, as many at a time as these are.
fn write_zeros<D: Disk>(disk: &mut D, at: usize, len: usize, zeros: &[u8]) -> io::Result<()>
    requires usable { IsTrue (D.is_usable disk.old) }
    requires mixing { IsTrue (D.is_mixing disk.old) }
    requires fits { at + len < 2 ^ 64 }
    requires zeros { zeros.now ≡ replicate (length zeros.now) 0 }
    requires some { 0 < length zeros.now }
    ensures usable { IsTrue (D.is_usable disk.new) }
    ensures filled { OnOk result (0 < len → Holds (D.seen disk.new) at (replicate len 0)) }
    ensures others { Torn at len (D.seen disk.old) (D.seen disk.new) }
    ensures crash { Follows (Mixed at (replicate len 0)) (D.may_leave disk.old) (D.may_leave disk.new) }
    ensures clean { D.is_clean disk.new ≡ D.is_clean disk.old }
    ensures faults { CountsFault result (D.faults disk.old) (D.faults disk.new) }
{
    let mut done: usize = 0;
    'pieces: while done < len {
        let piece = (len - done).min(zeros.len());
        disk.write_at(at + done, &zeros[..piece])?;
        done += piece;
    }
    Ok(())
}

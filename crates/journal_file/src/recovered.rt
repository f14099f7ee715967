ghost use Rattle.std.specs.Prelude.{◌≡◌, ◌≢◌, ◌⊎◌, ◌+◌, ◌^◌, ◌<◌, ◌≤◌, ℕ, List, true, false, length, ⊤, IsTrue, IfErr, IfOk, IsErrOf, OnErr, OnOk};
ghost use Rattle.sqlite_disk.specs.Disk.{MoreFaults, Only};
ghost use Rattle.journal_frames.specs.Frames.{recovered, tail_of};
ghost use Rattle.journal_frames.specs.declared.tail.Tail.TheVariants.{Torn};
ghost use Rattle.journal_file.specs.JournalError.{IsDamagedAt, IsReason};
ghost use Rattle.journal_file.specs.declared.error.Damage.{Damage};
ghost use Rattle.journal_file.specs.Recovered.{EndsAt, IsRecovered};

use crate::error::{Damage, JournalError};
use crate::filling::{check_disk, fill, sync_disk};
use journal_frames::{Frames, Tail};
use sqlite_disk::Disk;
use std::alloc::Global;

// How many zeros are written behind the frames of a file that is opened, at most. A file that once had more frames than it has
// now is long, and nothing is to be gained by clearing all of it.
const CLEARED: usize = 4 << 20;

/// What was found in a file that a crash may have left.
#[derive(Drop)]
pub struct Recovered {
    /// The frames of all payloads that are recovered of the file.
    pub frames: Vec<u8>,
    /// How many zeros stand behind them now.
    pub blank: usize,
}

/// Reads the file of a journal under this key, writes zeros behind its whole frames, over what a crash left there, and syncs:
/// as many as the file has bytes there, and at most 4 MiB. What stands behind these may be anything. It may crash too, and be
/// called again.
///
/// `Err` is Unusable; Damaged with the place, where no crash leaves such a file of a journal under this key; NotMixing;
/// Memory; or Disk. Where it is Damaged nothing was written.
pub fn recover<D: Disk>(alloc: Global, disk: &mut D, key: u64) -> Result<Recovered, JournalError>
    // Where the disk told no lie, these are all payloads that are recovered of the file.
    ensures recovered { IfOk result (λ found. IsTrue (D.is_clean disk.new)
        → IsRecovered key (D.seen disk.old) (D.seen disk.new) found) }
    ensures synced { OnOk result (Only (D.seen disk.new) (D.may_leave disk.new)) }
    ensures usable { OnOk result (IsTrue (D.is_usable disk.new)) }
    ensures room { IfOk result (λ found. 16 ≤ found.blank) }
    ensures few { IfOk result (λ found. found.blank ≤ 4194304) }
    // A damaged file is left as it reads.
    ensures damaged { (damage : Damage) → IsErrOf result (JournalError.Damaged damage) → D.seen disk.new ≡ D.seen disk.old }
    // A crash meanwhile leaves what one could have left before, or the same payloads.
    ensures any_crash { IsTrue (D.is_clean disk.new)
        → (c : List ℕ) → D.may_leave disk.new c
        → D.may_leave disk.old c ⊎ (recovered key c ≡ recovered key (D.seen disk.old)) }
    ensures clean { IsTrue (D.is_clean disk.new) → IsTrue (D.is_clean disk.old) }
    ensures why { IfErr result (IsReason (record {
      no_room = ⊥;
      is_usable = D.is_usable disk.old;
      is_mixing = false;
      damaged = λ damage. IsTrue (D.is_clean disk.new) → IsDamagedAt key (D.seen disk.old) damage;
      memory = ⊤;
      disk = MoreFaults (D.faults disk.old) (D.faults disk.new);
    })) }
{
    let mut frames = read_synced(alloc, disk)?;
    let found = whole_frames(key, &frames)?;
    let end = found.end;
    let blank = (frames.len() - end).min(CLEARED);
    check_disk(disk)?;
    fill(disk, end, blank)?;
    frames.truncate(end);
    Ok(Recovered { frames, blank })
}

// Syncs the file and reads all of it.
fn read_synced<D: Disk>(alloc: Global, disk: &mut D) -> Result<Vec<u8>, JournalError>
    ensures bytes { IfOk result (λ file. IsTrue (D.is_clean disk.new) → file.items ≡ D.seen disk.old) }
    ensures seen { D.seen disk.new ≡ D.seen disk.old }
    ensures usable { OnOk result (IsTrue (D.is_usable disk.new)) }
    ensures synced { OnOk result (Only (D.seen disk.old) (D.may_leave disk.new)) }
    ensures crash { (c : List ℕ) → D.may_leave disk.new c → D.may_leave disk.old c }
    ensures clean { IsTrue (D.is_clean disk.new) → IsTrue (D.is_clean disk.old) }
    ensures faults { OnOk result (D.faults disk.new ≡ D.faults disk.old) }
    ensures why { IfErr result (IsReason (record {
      no_room = ⊥;
      is_usable = D.is_usable disk.old;
      is_mixing = true;
      damaged = λ _. ⊥;
      memory = ⊤;
      disk = MoreFaults (D.faults disk.old) (D.faults disk.new);
    })) }
{
    sync_disk(disk)?;
    let len = disk.len()?;
    let mut file = vec![in alloc; 0u8; len]?;
    disk.read_at(0, &mut file)?;
    Ok(file)
}

/// The whole frames that stand first in a file.
#[derive(Clone, Copy, Debug, PartialEq, Eq)]
pub struct WholeFrames {
    /// How many there are.
    pub count: usize,
    /// How many bytes they have: the place, from 0, where a torn tail begins.
    pub end: usize,
}

/// Reads the bytes of a journal's file under its key, frame by frame, up to the torn tail that a crash leaves, or zeros. It
/// takes no memory, and nothing is required of the bytes.
///
/// `Err` is the place of the damage, where no crash leaves such a file of a journal under this key.
pub fn whole_frames(key: u64, file: &[u8]) -> Result<WholeFrames, Damage>
    ensures end { IfOk result (λ found. EndsAt key file.now found.end) }
    ensures count { IfOk result (λ found. found.count ≡ length (recovered key file.now)) }
    ensures room { IfOk result (λ found. found.end + 16 ≤ length file.now) }
    ensures damaged { IfErr result (IsDamagedAt key file.now) }
{
    let mut frames = Frames::new(key, file);
    let mut count: usize = 0;
    'frames: loop {
        match frames.next() {
            Ok(_) => count += 1,
            Err(Tail::Torn) => {
                let end = file.len() - frames.rest.len();
                return Ok(WholeFrames { count, end });
            }
            Err(_) => {
                let at = file.len() - frames.rest.len();
                return Err(Damage {
                    at,
                    len: file.len(),
                });
            }
        }
    }
}

//! Room for a record, and the record synced.
ghost use Rattle.std.specs.Prelude.{◌≡◌, ◌≤◌, ℕ, List, [], ◌∷◌, ◌++◌, if◌then◌else◌, IsTrue, IfOk};
ghost use Rattle.journal_file.specs.Journal.{disk_of, key_of, room_of, IsJournal};
ghost use Rattle.journal_frames.specs.Crash.{Leaves};
ghost use Rattle.journal_frames.specs.Frames.{frames, Fits};

use journal_file::{Journal, JournalError};
use sqlite_disk::Disk;
use std::slice::from_ref;

// How many bytes of room are made at once, where a record does not take more.
const ROOM_STEP: usize = 1 << 20;

/// Keeps a record, which is framed under the journal's key: where there is room for it, or room can be made, it is
/// appended and synced. Whether it is kept. Where it is not, the journal has the payloads that it had.
///
/// `Err` where a write or a sync failed, after which the journal is to be opened again.
pub(crate) fn keep<D: Disk>(journal: &mut Journal<D>, frame: &Vec<u8>) -> Result<bool, JournalError>
    ensures kept { (payloads : List (List ℕ)) (payload : List ℕ)
        → IsJournal journal.old payloads []
        → Fits payload
        → frame.now.items ≡ frames (key_of journal.old) (payload ∷ [])
        → IfOk result (λ kept. IsJournal journal.new (if kept then payloads ++ payload ∷ [] else payloads) []) }
    // Whatever it answers, a crash leaves all payloads, and this one or not.
    ensures crash { (payloads : List (List ℕ)) (payload : List ℕ)
        → IsJournal journal.old payloads []
        → Fits payload
        → frame.now.items ≡ frames (key_of journal.old) (payload ∷ [])
        → (c : List ℕ) → D.may_leave (disk_of journal.new) c → Leaves (key_of journal.old) payloads (payload ∷ []) c }
    ensures key { key_of journal.new ≡ key_of journal.old }
{
    if !has_room(journal, frame.len())? {
        return Ok(false);
    }
    journal.append_synced(from_ref(frame))?;
    Ok(true)
}

// Whether there is room for so many bytes, or could be made. `Err` where a sync failed.
fn has_room<D: Disk>(journal: &mut Journal<D>, len: usize) -> Result<bool, JournalError>
    ensures stays { (payloads : List (List ℕ)) → IsJournal journal.old payloads [] → IsJournal journal.new payloads [] }
    ensures room { IfOk result (λ is_there. IsTrue is_there → len ≤ room_of journal.new) }
    ensures key { key_of journal.new ≡ key_of journal.old }
{
    let Err(why) = journal.make_room(len, len.max(ROOM_STEP)) else {
        return Ok(true);
    };
    if journal.disk().may_be_used() {
        Ok(false)
    } else {
        Err(why)
    }
}

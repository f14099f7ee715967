//! Records that waited, appended to a journal and synced.
ghost use Rattle.std.specs.Prelude.{◌≡◌, ◌+◌, ◌-◌, ◌^◌, ◌≤◌, ℕ, List, [], ◌∷◌, ◌++◌, map, min, IsErrOf, IsTrue, OnOk};
ghost use Rattle.std.specs.List.{AllByRecursion};
ghost use Rattle.journal_file.specs.Appending.{frames_each, total_len};
ghost use Rattle.journal_file.specs.Journal.{disk_of, key_of, room_of, IsJournal};
ghost use Rattle.journal_frames.specs.Crash.{Leaves};
ghost use Rattle.journal_frames.specs.Frames.{frames, Fits};

use crate::fault::KeepFault;
use journal_file::Journal;
use journal_frames::{HEADER_LEN, PAYLOAD_MAX};
use sqlite_disk::Disk;

/// Keeps payloads, each framed under the journal's key: where the room does not suffice there is made more, then each frame is
/// appended, and then they are synced, once. `Err` where one of these failed, or a frame is longer than one may be; then none is
/// appended.
pub(crate) fn keep_frames<D: Disk>(
    journal: &mut Journal<D>,
    waiting: &[Vec<u8>],
) -> Result<(), KeepFault>
    ensures kept { (payloads more : List (List ℕ))
        → IsJournal journal.old payloads []
        → map (λ frame. frame.items) waiting.now ≡ frames_each (key_of journal.old) more
        → OnOk result (IsJournal journal.new (payloads ++ more) []) }
    // Whatever it answers, a crash leaves all that was kept, and the first so many of these.
    ensures crash { (payloads more : List (List ℕ))
        → IsJournal journal.old payloads []
        → map (λ frame. frame.items) waiting.now ≡ frames_each (key_of journal.old) more
        → (c : List ℕ) → D.may_leave (disk_of journal.new) c → Leaves (key_of journal.old) payloads more c }
    ensures key { key_of journal.new ≡ key_of journal.old }
    ensures room { OnOk result
        (room_of journal.old ≤ room_of journal.new + total_len (map (λ frame. frame.items) waiting.now)) }
    ensures fit { (more : List (List ℕ))
        → map (λ frame. frame.items) waiting.now ≡ frames_each (key_of journal.old) more
        → OnOk result (AllByRecursion Fits more) }
    ensures sure { ¬ (IsErrOf result KeepFault.Place) }
{
    if !are_frames(waiting) {
        return Err(KeepFault::Frame);
    }
    journal.make_room(len_of_all(waiting) as usize, 0)?;
    journal.append_synced(waiting)?;
    Ok(())
}

// Whether none of these frames is longer than one may be.
fn are_frames(waiting: &[Vec<u8>]) -> bool
    ensures { IsTrue result → (key : ℕ) (more : List (List ℕ))
        → map (λ frame. frame.items) waiting.now ≡ frames_each key more
        → AllByRecursion Fits more }
{
    for frame in waiting {
        if !is_frame(frame) {
            return false;
        }
    }
    true
}

// Whether a frame is no longer than one may be.
fn is_frame(frame: &[u8]) -> bool
    ensures { IsTrue result → (key : ℕ) (payload : List ℕ) → frame.now ≡ frames key (payload ∷ []) → Fits payload }
{
    frame.len() <= HEADER_LEN + PAYLOAD_MAX
}

/// How many bytes the frames have together, as far as a word tells.
pub(crate) fn len_of_all(frames: &[Vec<u8>]) -> u64
    ensures { result ≡ min (total_len (map (λ frame. frame.items) frames.now)) (2 ^ 64 - 1) }
{
    let mut total: u64 = 0;
    for frame in frames {
        total = total.saturating_add(frame.len() as u64);
    }
    total
}

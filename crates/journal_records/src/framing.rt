//! The frame of a record.
ghost use Rattle.std.specs.Prelude.{◌≡◌, ◌+◌, ◌^◌, ◌≤◌, [], ◌∷◌, length, drop, IfSome, IsTrue};
ghost use Rattle.journal_frames.specs.Frames.{frames, Fits};
ghost use Rattle.journal_records.specs.Records.{record_bytes};

use crate::writer::with_record;
use journal_frames::{HEADER_LEN, PAYLOAD_MAX, close_frame, open_frame};
use upload_book::{Change, Moment};

/// The frame of the record of a change and its moment under the key of a journal, in this room, whatever that had
/// before. `None` where memory is lacking, or where the record is longer than a frame holds; then the room is let go.
pub fn frame_of(mut room: Vec<u8>, key: u64, now: Moment, change: &Change) -> Option<Vec<u8>>
    ensures frame { IfSome result (λ frame. frame.items ≡ frames key (record_bytes now change.now ∷ [])) }
    ensures fits { IfSome result (λ _. Fits (record_bytes now change.now)) }
{
    room.clear();
    if open_frame(&mut room).is_err() {
        return None;
    }
    let Ok(mut bytes) = with_record(room, now, change) else {
        return None;
    };
    if !fits(&bytes) {
        return None;
    }
    close_frame(&mut bytes, 0, key);
    Some(bytes)
}

// Whether what stands behind room for a header fits a frame.
fn fits(bytes: &[u8]) -> bool
    ensures short { IsTrue result → length bytes.now ≤ 24 + 2 ^ 32 }
    ensures fits { IsTrue result → Fits (drop 24 bytes.now) }
{
    bytes.len() <= HEADER_LEN + PAYLOAD_MAX
}

//! How many frames a file has, and what stands behind them.
use journal_frames::{Frames, Tail};
use std::process::Abort;

// How many whole frames stand first in a file, and what stands behind them.
fn count_frames(key: u64, file: &[u8]) -> (usize, Tail) {
    let mut frames = Frames::new(key, file);
    for count in 0..=file.len() {
        if let Err(tail) = frames.next() {
            return (count, tail);
        }
    }
    (file.len(), Tail::Damaged)
}

/// So many whole frames stand first in the file, and this behind them.
pub(crate) fn assert_frames(rt: &impl Abort, key: u64, file: &[u8], frames: usize, tail: Tail) {
    let (count, found) = count_frames(key, file);
    assert!(rt; count == frames, "{count} frames, not {frames}");
    assert!(rt; found == tail, "{found:?} behind them");
}

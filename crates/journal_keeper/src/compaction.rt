//! A journal that is made small: a new one is written beside it, slice by slice, while the old one goes on.
ghost use Rattle.std.specs.Prelude.{◌≡◌, ◌<◌, ℕ, List, [], ◌++◌, map, None, false, IfNone, IfOk, IfSome, IsTrue, OnOk};
ghost use Rattle.std.specs.List.{AllByRecursion};
ghost use Rattle.book_replay.specs.Snapshot.{behind_room};
ghost use Rattle.journal_file.specs.Draft.{draft_key, IsDraft};
ghost use Rattle.journal_file.specs.Journal.{key_of, room_of, IsJournal};
ghost use Rattle.journal_frames.specs.Frames.{Fits};
ghost use Rattle.journal_keeper.specs.Compaction.{waiting_in, WillHave};
ghost use Rattle.journal_file.specs.Appending.{frames_each};

use crate::keeping::len_of_all;
use journal_file::{Draft, Journal, JournalError};
use journal_frames::close_frame;
use sqlite_disk::Disk;
use std::alloc::{AllocError, Global};
use std::collections::VecDeque;

// How many bytes are written and synced at a time, at least.
const SLICE: u64 = 1 << 20;

// How many bytes are written at least for each that was kept since, so that an end is reached however fast records come.
const AHEAD: u64 = 4;

/// A new journal, as far as it is written, and what it is still to have.
#[derive(Drop)]
pub(crate) struct Compaction<D: Disk> {
    draft: Draft<D>,
    // The records of the pieces of a snapshot that are to be written, each behind room for the header of its frame.
    pieces: VecDeque<Vec<u8>>,
    // The frames of the records that were kept since.
    since: VecDeque<Vec<u8>>,
    // How many bytes are to be written for those that were kept since the last slice.
    owed: u64,
    // How many bytes its file may have, where that is more than those of the frames and the zeros.
    longest: u64,
}

impl<D: Disk + Drop> Compaction<D> {
    /// A new journal of which nothing is written, and which is to have the records of a snapshot. Its file has at most so many
    /// bytes, where these take no more.
    pub(crate) fn new(
        alloc: Global,
        draft: Draft<D>,
        snapshot: Vec<Vec<u8>>,
        longest: u64,
    ) -> Compaction<D>
        ensures { (records : List (List ℕ))
            → IsDraft draft []
            → map (λ room. room.items) snapshot.items ≡ map behind_room records
            → AllByRecursion Fits records
            → WillHave result (draft_key draft) records }
    {
        Compaction {
            draft,
            pieces: VecDeque::from(snapshot),
            since: VecDeque::new(alloc),
            owed: 0,
            longest,
        }
    }

    // From now on it is to have records more, whose frames were just kept. `Err` where there is no memory; then it stays.
    fn push(&mut self, frames: Vec<Vec<u8>>) -> Result<(), AllocError>
        ensures { (key : ℕ) (records more : List (List ℕ))
            → WillHave self.old key records
            → map (λ frame. frame.items) frames.items ≡ frames_each key more
            → AllByRecursion Fits more
            → OnOk result (WillHave self.new key (records ++ more)) }
    {
        let bytes = len_of_all(&frames).saturating_mul(AHEAD);
        self.since.append(&mut VecDeque::from(frames))?;
        self.owed = self.owed.saturating_add(bytes);
        Ok(())
    }

    /// Whether records were kept since the last slice.
    pub(crate) fn owes(&self) -> bool {
        self.owed > 0
    }

    /// Writes some of what is left, frame by frame, and syncs: at least 1 MiB, and at least four times as much as was kept
    /// since the last time. `Err` where a write or a sync failed.
    pub(crate) fn write_slice(&mut self) -> Result<(), JournalError>
        requires { (key : ℕ) × (records : List (List ℕ)) × WillHave self.old key records }
        ensures { (key : ℕ) (records : List (List ℕ)) → WillHave self.old key records → OnOk result (WillHave self.new key records) }
    {
        let mut left = self.owed.max(SLICE);
        self.owed = 0;
        'slice: while left > 0 && !self.is_written() {
            let len = self.write_next()?;
            left = left.saturating_sub(len as u64);
        }
        self.draft.sync()
    }

    // Writes the next frame, where one is left, and tells how many bytes it has.
    fn write_next(&mut self) -> Result<usize, JournalError>
        requires { (key : ℕ) × (records : List (List ℕ)) × WillHave self.old key records }
        ensures have { (key : ℕ) (records : List (List ℕ)) → WillHave self.old key records → OnOk result (WillHave self.new key records) }
        ensures fewer { OnOk result (0 < waiting_in self.old → waiting_in self.new < waiting_in self.old) }
    {
        let Some(mut piece) = self.pieces.pop_front() else {
            return self.write_kept();
        };
        close_frame(&mut piece, 0, self.draft.key());
        self.draft.append(&piece)?;
        Ok(piece.len())
    }

    // The same, where all pieces are written.
    fn write_kept(&mut self) -> Result<usize, JournalError>
        requires { self.old.pieces.items ≡ [] }
        ensures have { (key : ℕ) (records : List (List ℕ)) → WillHave self.old key records → OnOk result (WillHave self.new key records) }
        ensures fewer { OnOk result (0 < waiting_in self.old → waiting_in self.new < waiting_in self.old) }
    {
        let Some(frame) = self.since.pop_front() else {
            return Ok(0);
        };
        self.draft.append(&frame)?;
        Ok(frame.len())
    }

    /// How many bytes its file may have, where its frames and zeros have fewer.
    pub(crate) fn longest(&self) -> u64 {
        self.longest
    }

    /// Whether all is written.
    pub(crate) fn is_written(&self) -> bool
        ensures written { IsTrue result → (self.now.pieces.items ≡ []) × (self.now.since.items ≡ []) }
        ensures waits { result ≡ false → 0 < waiting_in self.now }
    {
        self.pieces.is_empty() && self.since.is_empty()
    }

    /// The new journal, with all of its records, synced, and so much room. `Err` where a write or a sync failed.
    pub(crate) fn finish(self, room: usize) -> Result<Journal<D>, JournalError>
        requires pieces { self.pieces.items ≡ [] }
        requires since { self.since.items ≡ [] }
        ensures journal { (key : ℕ) (records : List (List ℕ)) → WillHave self key records
            → IfOk result (λ journal. IsJournal journal records []) }
        ensures key { IfOk result (λ journal. key_of journal ≡ draft_key self.draft) }
        ensures room { IfOk result (λ journal. room_of journal ≡ room) }
    {
        let Compaction { draft, .. } = self;
        draft.finish(room)
    }
}

/// A compaction that is to have records more, whose frames were just kept; none, where there was none, or no memory.
pub(crate) fn with_kept<D: Disk + Drop>(
    compaction: Option<Compaction<D>>,
    frames: Vec<Vec<u8>>,
) -> Option<Compaction<D>>
    ensures more { (key : ℕ) (records more : List (List ℕ))
        → IfSome compaction (λ c. WillHave c key records)
        → map (λ frame. frame.items) frames.items ≡ frames_each key more
        → AllByRecursion Fits more
        → IfSome result (λ c. WillHave c key (records ++ more)) }
    ensures none { IfNone compaction (result ≡ None) }
{
    let mut compaction = compaction?;
    match compaction.push(frames) {
        Ok(()) => Some(compaction),
        Err(_) => None,
    }
}

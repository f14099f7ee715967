//! A journal of records, each framed in one place.
ghost use Rattle.std.specs.Prelude.{◌≡◌, ◌≤◌, ℕ, List, [], ◌∷◌, ◌++◌, true, false, if◌then◌else◌, IsTrue, IfOk, IsErrOf, OnOk, OnErr};
ghost use Rattle.journal_file.specs.Journal.{disk_of, key_of};
ghost use Rattle.journal_frames.specs.Crash.{Leaves};
ghost use Rattle.journal_records.specs.Records.{record_bytes};
ghost use Rattle.kept_book.specs.Kept.{HasFrame, IsRecordLog};

use crate::fault::AnswerFault;
use crate::keeping::keep;
use journal_file::Journal;
use journal_records::frame_of;
use sqlite_disk::Disk;
use std::alloc::Global;
use std::mem::replace;
use upload_book::{Change, Moment};

// The journal under its key, the place of a frame, and whether a write or a sync has failed.
#[derive(Drop)]
pub(crate) struct RecordLog<D: Disk> {
    pub(crate) journal: Journal<D>,
    pub(crate) key: u64,
    pub(crate) frame: Vec<u8>,
    pub(crate) has_failed: bool,
    pub(crate) alloc: Global,
}

impl<D: Disk> RecordLog<D> {
    // The log of a journal under this key.
    pub(crate) fn new(alloc: Global, journal: Journal<D>, key: u64) -> RecordLog<D>
        ensures journal { result.journal ≡ journal }
        ensures key { result.key ≡ key }
        ensures works { result.has_failed ≡ false }
    {
        RecordLog {
            journal,
            key,
            frame: Vec::new(alloc),
            has_failed: false,
            alloc,
        }
    }

    // The disk, as it is.
    pub(crate) fn into_disk(self) -> D
        ensures { result ≡ disk_of self.journal }
    {
        let RecordLog { journal, .. } = self;
        journal.into_disk()
    }

    // Makes the frame of a change's record, in the place of the frame before. Whether there was memory for it.
    pub(crate) fn frame(&mut self, change: &Change, now: Moment) -> bool
        ensures framed { IsTrue result → HasFrame self.new (record_bytes now change.now) }
        ensures journal { self.new.journal ≡ self.old.journal }
        ensures key { self.new.key ≡ self.old.key }
        ensures same { self.new.has_failed ≡ self.old.has_failed }
    {
        let room = replace(&mut self.frame, Vec::new(self.alloc));
        let Some(frame) = frame_of(room, self.key, now, change) else {
            return false;
        };
        self.frame = frame;
        true
    }

    // Keeps the record whose frame was made last: it is appended and synced, where there is room for it or room can be made.
    // Whether it is kept; where it is not, nothing is kept that was not before.
    //
    // `Err` where a write or a sync failed, and then it has failed.
    pub(crate) fn keep(&mut self) -> Result<bool, AnswerFault>
        ensures kept { (payloads : List (List ℕ)) (payload : List ℕ)
            → IsRecordLog self.old payloads
            → HasFrame self.old payload
            → IfOk result (λ kept. IsRecordLog self.new (if kept then payloads ++ payload ∷ [] else payloads)) }
        ensures crash { (payloads : List (List ℕ)) (payload : List ℕ)
            → IsRecordLog self.old payloads
            → HasFrame self.old payload
            → (c : List ℕ) → D.may_leave (disk_of self.new.journal) c
            → Leaves (key_of self.old.journal) payloads (payload ∷ []) c }
        ensures key { key_of self.new.journal ≡ key_of self.old.journal }
        ensures failed { OnErr result (self.new.has_failed ≡ true) }
        ensures works { OnOk result (self.old.has_failed ≡ false → self.new.has_failed ≡ false) }
        ensures fault { IsErrOf result AnswerFault.Ended → ⊥ }
    {
        self.has_failed = true;
        let kept = keep(&mut self.journal, &self.frame)?;
        self.has_failed = false;
        Ok(kept)
    }
}

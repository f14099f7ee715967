ghost use Rattle.std.specs.Prelude.{◌≡◌, ◌+◌, ◌^◌, ◌<◌, ◌≤◌, ◌↔◌, ℕ, List, [], ◌++◌, true, length, ⊤, IfErr, IfOk, IsErrOf, IsTrue, OnOk};
ghost use Rattle.std.specs.List.{AllByRecursion};
ghost use Rattle.sqlite_disk.specs.Disk.{MoreFaults, Only};
ghost use Rattle.journal_frames.specs.Frames.{frames, Fits};
ghost use Rattle.journal_file.specs.JournalError.{IsReason, IsRefusal};

use crate::error::JournalError;
use crate::filling::{check_disk, fill, sync_disk};
use crate::journal::{Journal, LEN_MAX, MARGIN};
use sqlite_disk::Disk;

/// A journal that is written beside another one, and takes its place once it is finished. Its file begins with whole frames.
/// What else it holds is never read, so it may be one that was a journal's before: a disk that has its blocks already is asked
/// for no others. No zeros are written ahead, so each byte is written once.
///
/// It counts once [`Draft::finish`] was `Ok`. A crash before that may leave any file, which is thrown away, and so is a
/// draft of which a call of the disk failed.
#[derive(Drop)]
pub struct Draft<D: Disk> {
    disk: D,
    key: u64,
    // how many bytes its frames have: the next one goes there
    end: usize,
    ghost in_range: { end ≤ 2 ^ 62 },
}

impl<D: Disk> Draft<D> {
    ghost use Rattle.journal_file.specs.Draft.{draft_disk, draft_end, draft_key, IsDraft};
    ghost use Rattle.journal_file.specs.Journal.{disk_of, end_of, key_of, room_of, IsJournal};

    /// Begins a draft under this key in a file, whatever that holds. What it has beyond so many bytes is cut off.
    ///
    /// `Err`, at which the disk is let go, is Unusable, NotMixing, or Disk.
    pub fn new(mut disk: D, key: u64, longest: usize) -> Result<Draft<D>, JournalError>
    where
        D: Drop,
        ensures begun { IfOk result (λ draft. IsDraft draft []) }
        // Where the disk told no lie.
        ensures short { IfOk result (λ draft. IsTrue (D.is_clean (draft_disk draft))
            → length (D.seen (draft_disk draft)) ≤ longest) }
        ensures key { IfOk result (λ draft. draft_key draft ≡ key) }
        ensures clean { IfOk result (λ draft. IsTrue (D.is_clean (draft_disk draft)) → IsTrue (D.is_clean disk)) }
        ensures why { IfErr result (IsReason (record {
          no_room = ⊥;
          is_usable = D.is_usable disk;
          is_mixing = D.is_mixing disk;
          damaged = λ _. ⊥;
          memory = ⊥;
          disk = ⊤;
        })) }
    {
        check_disk(&disk)?;
        if disk.len()? > longest {
            disk.set_len(longest)?;
        }
        Ok(Draft { disk, key, end: 0 })
    }

    /// The key of its frames.
    pub fn key(&self) -> u64
        ensures { result ≡ draft_key self.now }
    {
        self.key
    }

    /// How many bytes its frames have.
    pub fn frames_len(&self) -> usize
        ensures value { result ≡ draft_end self.now }
        ensures frames { (payloads : List (List ℕ))
            → IsDraft self.now payloads
            → result ≡ length (frames (draft_key self.now) payloads) }
    {
        self.end
    }

    /// Appends whole frames, in one write, without a sync. The key of the frames is the draft's.
    ///
    /// `Err` is NoRoom where the file would have more than 2^62 bytes, Unusable, NotMixing, or Disk. After Disk nothing is
    /// known of the draft.
    pub fn append(&mut self, bytes: &[u8]) -> Result<(), JournalError>
        // The payloads stand behind the others.
        ensures appended { (payloads more : List (List ℕ))
            → IsDraft self.old payloads
            → AllByRecursion Fits more
            → bytes.now ≡ frames (draft_key self.old) more
            → OnOk result (IsDraft self.new (payloads ++ more)) }
        ensures no_room { IsErrOf result JournalError.NoRoom ↔ (2 ^ 62 < draft_end self.old + length bytes.now) }
        ensures key { draft_key self.new ≡ draft_key self.old }
        ensures end { OnOk result (draft_end self.new ≡ draft_end self.old + length bytes.now) }
        ensures clean { D.is_clean (draft_disk self.new) ≡ D.is_clean (draft_disk self.old) }
        ensures refused { IfErr result (λ why. IsRefusal why → self.new ≡ self.old) }
        ensures why { IfErr result (IsReason (record {
          no_room = 2 ^ 62 < draft_end self.old + length bytes.now;
          is_usable = D.is_usable (draft_disk self.old);
          is_mixing = D.is_mixing (draft_disk self.old);
          damaged = λ _. ⊥;
          memory = ⊥;
          disk = MoreFaults (D.faults (draft_disk self.old)) (D.faults (draft_disk self.new));
        })) }
    {
        if bytes.len() > LEN_MAX - self.end {
            return Err(JournalError::NoRoom);
        }
        check_disk(&self.disk)?;
        self.disk.write_at(self.end, bytes)?;
        self.end += bytes.len();
        Ok(())
    }

    /// Syncs what was appended, so that [`Draft::finish`] has less to wait for.
    ///
    /// `Err` is Unusable, or Disk: then nothing more can be asked of this disk.
    pub fn sync(&mut self) -> Result<(), JournalError>
        ensures stays { (payloads : List (List ℕ)) → IsDraft self.old payloads → IsDraft self.new payloads }
        // A crash now leaves the file as it is.
        ensures synced { OnOk result (Only (D.seen (draft_disk self.old)) (D.may_leave (draft_disk self.new))) }
        ensures key { draft_key self.new ≡ draft_key self.old }
        ensures end { draft_end self.new ≡ draft_end self.old }
        ensures clean { D.is_clean (draft_disk self.new) ≡ D.is_clean (draft_disk self.old) }
        ensures why { IfErr result (IsReason (record {
          no_room = ⊥;
          is_usable = D.is_usable (draft_disk self.old);
          is_mixing = true;
          damaged = λ _. ⊥;
          memory = ⊥;
          disk = MoreFaults (D.faults (draft_disk self.old)) (D.faults (draft_disk self.new));
        })) }
    {
        sync_disk(&mut self.disk)
    }

    /// The journal of all that was appended: zeros for so much room are written behind the frames, and all is synced.
    ///
    /// `Err`, at which the disk is let go, is NoRoom where the frames and the zeros would have more than 2^62 bytes, Unusable,
    /// NotMixing, or Disk.
    pub fn finish(self, room: usize) -> Result<Journal<D>, JournalError>
    where
        D: Drop,
        ensures finished { (payloads : List (List ℕ))
            → IsDraft self payloads
            → IfOk result (λ journal. IsJournal journal payloads []) }
        ensures key { IfOk result (λ journal. key_of journal ≡ draft_key self) }
        ensures room { IfOk result (λ journal. room_of journal ≡ room) }
        ensures end { IfOk result (λ journal. end_of journal ≡ draft_end self) }
        ensures clean { IfOk result (λ journal. D.is_clean (disk_of journal) ≡ D.is_clean (draft_disk self)) }
        ensures why { IfErr result (IsReason (record {
          no_room = 2 ^ 62 < draft_end self + room + 16;
          is_usable = D.is_usable (draft_disk self);
          is_mixing = D.is_mixing (draft_disk self);
          damaged = λ _. ⊥;
          memory = ⊥;
          disk = ⊤;
        })) }
    {
        let Draft { mut disk, key, end } = self;
        if room > LEN_MAX - MARGIN || end > LEN_MAX - MARGIN - room {
            return Err(JournalError::NoRoom);
        }
        check_disk(&disk)?;
        let blank = room + MARGIN;
        fill(&mut disk, end, blank)?;
        Ok(Journal {
            disk,
            key,
            end,
            blank,
        })
    }
}

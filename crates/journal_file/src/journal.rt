ghost use Rattle.std.specs.Prelude.{◌≡◌, ◌≢◌, ◌⊎◌, ◌+◌, ◌-◌, ◌^◌, ◌<◌, ◌≤◌, ◌↔◌, ℕ, List, [], ◌++◌, true, false, length, ⊤, IsTrue, IfErr, IfOk, IsErrOf, OnErr, OnOk};
ghost use Rattle.std.specs.List.{AllByRecursion};
ghost use Rattle.sqlite_disk.specs.Disk.{MoreFaults};
ghost use Rattle.journal_frames.specs.Crash.{Leaves};
ghost use Rattle.journal_frames.specs.Frames.{frames, recovered, tail_of, Fits};
ghost use Rattle.journal_frames.specs.declared.tail.Tail.TheVariants.{Torn};
ghost use Rattle.journal_file.specs.JournalError.{IsDamagedAt, IsReason, IsRefusal};

use crate::error::JournalError;
use crate::filling::{check_disk, fill, sync_disk};
use crate::recovered::recover;
use sqlite_disk::Disk;
use std::alloc::Global;

// How many zeros stay behind the last frame.
pub(crate) const MARGIN: usize = 16;

// How long a file may be.
pub(crate) const LEN_MAX: usize = 1 << 62;

/// A journal over a disk. Its payloads are those that were synced, and behind them those that were not.
#[derive(Drop)]
pub struct Journal<D: Disk> {
    pub(crate) disk: D,
    pub(crate) key: u64,
    // where the next frame goes
    pub(crate) end: usize,
    // how many zeros stand from there on; what stands behind these may be anything
    pub(crate) blank: usize,
    ghost in_range: { end + blank ≤ 2 ^ 62 },
    ghost margin: { 16 ≤ blank },
}

/// A journal that was opened.
#[derive(Drop)]
pub struct Opened<D: Disk> {
    /// The journal, all of whose payloads are synced.
    pub journal: Journal<D>,
    /// The frames of these payloads.
    pub frames: Vec<u8>,
}

/// Why a journal was not opened, and its disk.
#[derive(Drop)]
pub struct NotOpened<D: Disk> {
    pub why: JournalError,
    pub disk: D,
}

impl<D: Disk> Journal<D> {
    ghost use Rattle.journal_file.specs.Journal.{disk_of, end_of, key_of, len_of, room_of, IsJournal};

    /// Makes an empty journal under this key with so much room, over whatever the file held. A crash before it is `Ok` may
    /// leave any file.
    ///
    /// `Err` is NoRoom where the file would have more than 2^62 bytes, Unusable, NotMixing, or Disk.
    pub fn create(mut disk: D, key: u64, room: usize) -> Result<Journal<D>, JournalError>
    where
        D: Drop,
        ensures created { IfOk result (λ journal. IsJournal journal [] []) }
        ensures key { IfOk result (λ journal. key_of journal ≡ key) }
        ensures room { IfOk result (λ journal. room_of journal ≡ room) }
        ensures clean { IfOk result (λ journal. D.is_clean (disk_of journal) ≡ D.is_clean disk) }
        ensures why { IfErr result (IsReason (record {
          no_room = 2 ^ 62 < room + 16;
          is_usable = D.is_usable disk;
          is_mixing = false;
          damaged = λ _. ⊥;
          memory = ⊥;
          disk = ⊤;
        })) }
    {
        if room > LEN_MAX - MARGIN {
            return Err(JournalError::NoRoom);
        }
        if !disk.may_be_used() {
            return Err(JournalError::Unusable);
        }
        disk.set_len(0)?;
        check_disk(&disk)?;
        let blank = room + MARGIN;
        fill(&mut disk, 0, blank)?;
        Ok(Journal {
            disk,
            key,
            end: 0,
            blank,
        })
    }

    /// Opens a journal under this key, with all that [`recover`] finds of it.
    ///
    /// `Err` gives the disk back, with the error of `recover`, or NoRoom where the file has more than 2^62 bytes.
    pub fn open(alloc: Global, mut disk: D, key: u64) -> Result<Opened<D>, NotOpened<D>>
        // Where the disk told no lie.
        ensures opened { IfOk result (λ it. IsTrue (D.is_clean (disk_of it.journal))
            → IsJournal it.journal (recovered key (D.seen disk)) []) }
        ensures frames { IfOk result (λ it. IsTrue (D.is_clean (disk_of it.journal))
            → it.frames.items ≡ frames key (recovered key (D.seen disk))) }
        ensures key { IfOk result (λ it. key_of it.journal ≡ key) }
        // A crash meanwhile leaves what one could have left before, or the same payloads.
        ensures any_crash { IfErr result (λ not. IsTrue (D.is_clean not.disk)
            → (c : List ℕ) → D.may_leave not.disk c
            → D.may_leave disk c ⊎ (recovered key c ≡ recovered key (D.seen disk))) }
        ensures why { IfErr result (λ not. IsReason (record {
          no_room = IsTrue (D.is_clean not.disk) → 2 ^ 62 < length (D.seen not.disk);
          is_usable = D.is_usable disk;
          is_mixing = false;
          damaged = λ damage. IsTrue (D.is_clean not.disk) → IsDamagedAt key (D.seen disk) damage;
          memory = ⊤;
          disk = MoreFaults (D.faults disk) (D.faults not.disk);
        }) not.why) }
    {
        let found = match recover(alloc, &mut disk, key) {
            Ok(found) => found,
            Err(why) => return Err(NotOpened { why, disk }),
        };
        let end = found.frames.len();
        if found.blank > LEN_MAX || end > LEN_MAX - found.blank {
            let why = JournalError::NoRoom;
            return Err(NotOpened { why, disk });
        }
        let journal = Journal {
            disk,
            key,
            end,
            blank: found.blank,
        };
        Ok(Opened {
            journal,
            frames: found.frames,
        })
    }

    /// Tells what a crash leaves of a journal: all payloads that were synced, the first so many others, and no damage.
    pub fn tell_crash(&self)
        ensures { (synced unsynced : List (List ℕ))
            → IsJournal self.now synced unsynced
            → (c : List ℕ) → D.may_leave (disk_of self.now) c → Leaves (key_of self.now) synced unsynced c }
    {}

    /// The disk, lent.
    pub fn disk(&self) -> &D
        ensures { result.now ≡ disk_of self.now }
    {
        &self.disk
    }

    /// The disk, as it is.
    pub fn into_disk(self) -> D
        ensures { result ≡ disk_of self }
    {
        let Journal { disk, .. } = self;
        disk
    }

    /// The key of its frames.
    pub fn key(&self) -> u64
        ensures { result ≡ key_of self.now }
    {
        self.key
    }

    /// How many bytes may be appended before there has to be more room.
    pub fn room(&self) -> usize
        ensures { result ≡ room_of self.now }
    {
        self.blank - MARGIN
    }

    /// How many bytes its frames have, those that were not synced too.
    pub fn frames_len(&self) -> usize
        ensures value { result ≡ end_of self.now }
        ensures frames { (synced unsynced : List (List ℕ))
            → IsJournal self.now synced unsynced
            → result ≡ length (frames (key_of self.now) (synced ++ unsynced)) }
    {
        self.end
    }

    /// How many bytes its frames and the zeros behind them have. A file that could not be made longer, or that was longer
    /// before, may have more.
    pub fn file_len(&self) -> usize
        ensures value { result ≡ len_of self.now }
        ensures zeros { result ≡ end_of self.now + room_of self.now + 16 }
    {
        self.end + self.blank
    }

    /// Appends whole frames, in one write, without a sync. The key of the frames is the journal's.
    ///
    /// `Err` is NoRoom where they are more bytes than there is room, Unusable, NotMixing, or Disk.
    pub fn append(&mut self, bytes: &[u8]) -> Result<(), JournalError>
        // The payloads stand behind the others.
        ensures appended { (synced unsynced more : List (List ℕ))
            → IsJournal self.old synced unsynced
            → AllByRecursion Fits more
            → bytes.now ≡ frames (key_of self.old) more
            → OnOk result (IsJournal self.new synced (unsynced ++ more)) }
        // Whatever it answers, a crash leaves all that was synced, and the first so many others, of these too.
        ensures any_crash { (synced unsynced more : List (List ℕ))
            → IsJournal self.old synced unsynced
            → AllByRecursion Fits more
            → bytes.now ≡ frames (key_of self.old) more
            → (c : List ℕ) → D.may_leave (disk_of self.new) c → Leaves (key_of self.old) synced (unsynced ++ more) c }
        ensures no_room { IsErrOf result JournalError.NoRoom ↔ (room_of self.old < length bytes.now) }
        ensures key { key_of self.new ≡ key_of self.old }
        ensures room { OnOk result (room_of self.new + length bytes.now ≡ room_of self.old) }
        ensures refused { IfErr result (λ why. IsRefusal why → self.new ≡ self.old) }
        ensures why { IfErr result (IsReason (record {
          no_room = room_of self.old < length bytes.now;
          is_usable = D.is_usable (disk_of self.old);
          is_mixing = D.is_mixing (disk_of self.old);
          damaged = λ _. ⊥;
          memory = ⊥;
          disk = MoreFaults (D.faults (disk_of self.old)) (D.faults (disk_of self.new));
        })) }
    {
        if bytes.len() > self.room() {
            return Err(JournalError::NoRoom);
        }
        check_disk(&self.disk)?;
        self.disk.write_at(self.end, bytes)?;
        self.end += bytes.len();
        self.blank -= bytes.len();
        Ok(())
    }

    /// Syncs what was appended. After it, a crash leaves all of it.
    ///
    /// `Err` is Unusable, or Disk: then nothing more can be asked of this disk.
    pub fn sync(&mut self) -> Result<(), JournalError>
        ensures synced { (synced unsynced : List (List ℕ))
            → IsJournal self.old synced unsynced
            → OnOk result (IsJournal self.new (synced ++ unsynced) []) }
        ensures any_crash { (synced unsynced : List (List ℕ))
            → IsJournal self.old synced unsynced
            → (c : List ℕ) → D.may_leave (disk_of self.new) c → Leaves (key_of self.old) synced unsynced c }
        ensures key { key_of self.new ≡ key_of self.old }
        ensures room { room_of self.new ≡ room_of self.old }
        ensures why { IfErr result (IsReason (record {
          no_room = ⊥;
          is_usable = D.is_usable (disk_of self.old);
          is_mixing = true;
          damaged = λ _. ⊥;
          memory = ⊥;
          disk = MoreFaults (D.faults (disk_of self.old)) (D.faults (disk_of self.new));
        })) }
    {
        sync_disk(&mut self.disk)
    }

    /// Cuts off what the file has behind the zeros, as one that was longer before may have. Where it fails, the journal is the one
    /// that it was, and goes on as long as its disk may be used.
    ///
    /// `Err` is Unusable, or Disk.
    pub fn shorten(&mut self) -> Result<(), JournalError>
        ensures stays { (synced unsynced : List (List ℕ))
            → IsJournal self.old synced unsynced
            → IsJournal self.new synced unsynced }
        ensures short { OnOk result (length (D.seen (disk_of self.new)) ≡ len_of self.new) }
        ensures key { key_of self.new ≡ key_of self.old }
        ensures end { end_of self.new ≡ end_of self.old }
        ensures room { room_of self.new ≡ room_of self.old }
        ensures refused { IfErr result (λ why. IsRefusal why → self.new ≡ self.old) }
        ensures why { IfErr result (IsReason (record {
          no_room = ⊥;
          is_usable = D.is_usable (disk_of self.old);
          is_mixing = true;
          damaged = λ _. ⊥;
          memory = ⊥;
          disk = MoreFaults (D.faults (disk_of self.old)) (D.faults (disk_of self.new));
        })) }
    {
        if !self.disk.may_be_used() {
            return Err(JournalError::Unusable);
        }
        self.disk.set_len(self.end + self.blank)?;
        Ok(())
    }

    /// Makes more room: so many zeros behind the others, which are synced with all that was appended. Where it fails, the
    /// journal is the one that it was, and goes on as long as its disk may be used.
    ///
    /// `Err` is NoRoom where the zeros would reach past 2^62 bytes, Unusable, NotMixing, or Disk.
    pub fn extend(&mut self, more: usize) -> Result<(), JournalError>
        ensures extended { (synced unsynced : List (List ℕ))
            → IsJournal self.old synced unsynced
            → OnOk result (IsJournal self.new (synced ++ unsynced) []) }
        ensures stays { (synced unsynced : List (List ℕ))
            → IsJournal self.old synced unsynced
            → OnErr result (IsJournal self.new synced unsynced) }
        ensures any_crash { (synced unsynced : List (List ℕ))
            → IsJournal self.old synced unsynced
            → (c : List ℕ) → D.may_leave (disk_of self.new) c → Leaves (key_of self.old) synced unsynced c }
        ensures key { key_of self.new ≡ key_of self.old }
        ensures room { OnOk result (room_of self.new ≡ room_of self.old + more) }
        ensures same_room { OnErr result (room_of self.new ≡ room_of self.old) }
        ensures refused { IfErr result (λ why. IsRefusal why → self.new ≡ self.old) }
        ensures why { IfErr result (IsReason (record {
          no_room = 2 ^ 62 < len_of self.old + more;
          is_usable = D.is_usable (disk_of self.old);
          is_mixing = D.is_mixing (disk_of self.old);
          damaged = λ _. ⊥;
          memory = ⊥;
          disk = MoreFaults (D.faults (disk_of self.old)) (D.faults (disk_of self.new));
        })) }
    {
        let len = self.end + self.blank;
        if more > LEN_MAX - len {
            return Err(JournalError::NoRoom);
        }
        check_disk(&self.disk)?;
        fill(&mut self.disk, len, more)?;
        self.blank += more;
        Ok(())
    }
}

//! Room that is made where it lacks, and frames that are appended and synced at once.
ghost use Rattle.std.specs.Prelude.{◌≡◌, ◌+◌, ◌-◌, ◌^◌, ◌<◌, ◌≤◌, ℕ, List, [], ◌++◌, map, max, true, false, ⊤, IsErrOf, IsOk, IfErr, OnErr, OnOk};
ghost use Rattle.std.specs.List.{AllByRecursion};
ghost use Rattle.sqlite_disk.specs.Disk.{MoreFaults};
ghost use Rattle.journal_frames.specs.Crash.{Leaves};
ghost use Rattle.journal_frames.specs.Frames.{Fits};
ghost use Rattle.journal_file.specs.JournalError.{IsReason, IsRefusal};

use crate::error::JournalError;
use crate::journal::Journal;
use sqlite_disk::Disk;

impl<D: Disk> Journal<D> {
    ghost use Rattle.journal_file.specs.Appending.{frames_each, total_len};
    ghost use Rattle.journal_file.specs.Journal.{disk_of, key_of, len_of, room_of, IsJournal};

    /// Makes room for so many bytes, where there is less: `least` bytes more, or as many as lack. Where it fails, the journal is
    /// the one that it was, and goes on as long as its disk may be used.
    ///
    /// `Err` as of [`Journal::extend`].
    pub fn make_room(&mut self, len: usize, least: usize) -> Result<(), JournalError>
        ensures stays { (synced : List (List ℕ)) → IsJournal self.old synced [] → IsJournal self.new synced [] }
        ensures any_crash { (synced unsynced : List (List ℕ))
            → IsJournal self.old synced unsynced
            → (c : List ℕ) → D.may_leave (disk_of self.new) c → Leaves (key_of self.old) synced unsynced c }
        ensures key { key_of self.new ≡ key_of self.old }
        ensures there { len ≤ room_of self.old → IsOk result × (self.new ≡ self.old) }
        ensures made { room_of self.old < len
            → OnOk result (room_of self.new ≡ room_of self.old + max (len - room_of self.old) least) }
        ensures covers { OnOk result (len ≤ room_of self.new) }
        ensures grows { room_of self.old ≤ room_of self.new }
        ensures same_room { OnErr result (room_of self.new ≡ room_of self.old) }
        ensures refused { IfErr result (λ why. IsRefusal why → self.new ≡ self.old) }
        ensures why { IfErr result (IsReason (record {
          no_room = 2 ^ 62 < len_of self.old + max (len - room_of self.old) least;
          is_usable = D.is_usable (disk_of self.old);
          is_mixing = D.is_mixing (disk_of self.old);
          damaged = λ _. ⊥;
          memory = ⊥;
          disk = MoreFaults (D.faults (disk_of self.old)) (D.faults (disk_of self.new));
        })) }
    {
        let room = self.room();
        if len > room {
            self.extend((len - room).max(least))?;
        }
        Ok(())
    }

    /// Appends whole frames in their order, each in a write of its own, and syncs them, once. The key of the frames is the
    /// journal's.
    ///
    /// `Err` as of [`Journal::append`] and [`Journal::sync`]; then the first so many frames may have been appended.
    pub fn append_synced(&mut self, frames: &[Vec<u8>]) -> Result<(), JournalError>
        ensures appended { (synced unsynced more : List (List ℕ))
            → IsJournal self.old synced unsynced
            → AllByRecursion Fits more
            → map (λ frame. frame.items) frames.now ≡ frames_each (key_of self.old) more
            → OnOk result (IsJournal self.new (synced ++ (unsynced ++ more)) []) }
        // Whatever it answers, a crash leaves all that was synced, and the first so many others, of these too.
        ensures any_crash { (synced unsynced more : List (List ℕ))
            → IsJournal self.old synced unsynced
            → AllByRecursion Fits more
            → map (λ frame. frame.items) frames.now ≡ frames_each (key_of self.old) more
            → (c : List ℕ) → D.may_leave (disk_of self.new) c → Leaves (key_of self.old) synced (unsynced ++ more) c }
        ensures key { key_of self.new ≡ key_of self.old }
        ensures room { OnOk result (room_of self.new + total_len (map (λ frame. frame.items) frames.now) ≡ room_of self.old) }
        ensures no_room { IsErrOf result JournalError.NoRoom → room_of self.old < total_len (map (λ frame. frame.items) frames.now) }
    {
        self.append_each(frames)?;
        self.sync()
    }

    // Appends frames in their order, without a sync.
    fn append_each(&mut self, frames: &[Vec<u8>]) -> Result<(), JournalError>
        ensures appended { (synced unsynced more : List (List ℕ))
            → IsJournal self.old synced unsynced
            → AllByRecursion Fits more
            → map (λ frame. frame.items) frames.now ≡ frames_each (key_of self.old) more
            → OnOk result (IsJournal self.new synced (unsynced ++ more)) }
        ensures any_crash { (synced unsynced more : List (List ℕ))
            → IsJournal self.old synced unsynced
            → AllByRecursion Fits more
            → map (λ frame. frame.items) frames.now ≡ frames_each (key_of self.old) more
            → (c : List ℕ) → D.may_leave (disk_of self.new) c → Leaves (key_of self.old) synced (unsynced ++ more) c }
        ensures key { key_of self.new ≡ key_of self.old }
        ensures room { OnOk result (room_of self.new + total_len (map (λ frame. frame.items) frames.now) ≡ room_of self.old) }
        ensures no_room { IsErrOf result JournalError.NoRoom → room_of self.old < total_len (map (λ frame. frame.items) frames.now) }
    {
        for frame in frames {
            self.append(frame)?;
        }
        Ok(())
    }
}

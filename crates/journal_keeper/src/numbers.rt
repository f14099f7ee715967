//! The numbers of a keeper: what it has synced, and how large its journal is.
ghost use Rattle.std.specs.Prelude.{◌≡◌, ◌≤◌, ◌<◌, ◌↔◌, ◌+◌, ◌*◌, ◌-◌, ◌^◌, min, IsTrue};
ghost use Rattle.journal_keeper.specs.Numbers.{no_syncs, synced_with};

use std::time;
use std::time::Instant;

/// With how many bytes of frames a journal is small, however few bytes are held.
pub(crate) const ALWAYS_SMALL: u64 = 48 << 20;

/// How many bytes the file of a journal has at most, where so many are held: three times these, and 64 MiB.
pub(crate) fn longest_for(held: u64) -> u64
    ensures { result ≡ min (3 * held + 67108864) (2 ^ 64 - 1) }
{
    held.saturating_mul(3).saturating_add(64 << 20)
}

/// How many bytes a file has at most that is kept for the next journal, where that of this one may have so many: twice these, so
/// that it is not let go each time somewhat less is held.
pub(crate) fn spare_for(longest: u64) -> u64
    ensures { result ≡ min (2 * longest) (2 ^ 64 - 1) }
{
    longest.saturating_mul(2)
}

/// What a keeper has synced since it was made. Each number stays at 2^64 - 1 once it is there.
#[derive(Clone, Copy)]
pub struct SyncCounts {
    /// How often records were synced. Syncs that failed are left out, and so are those of more room.
    pub syncs: u64,
    /// How many records became kept by these syncs.
    pub records: u64,
    /// The microseconds that appending and syncing these records took.
    pub micros: u64,
}

impl SyncCounts {
    /// Nothing was synced yet.
    pub(crate) fn none() -> SyncCounts
        ensures { result ≡ no_syncs }
    {
        SyncCounts {
            syncs: 0,
            records: 0,
            micros: 0,
        }
    }

    /// One sync more, of so many records, that took so many microseconds.
    pub(crate) fn with(self, records: u64, micros: u64) -> SyncCounts
        ensures value { result ≡ synced_with records micros self }
        ensures longer { self.micros ≤ result.micros }
    {
        SyncCounts {
            syncs: self.syncs.saturating_add(1),
            records: self.records.saturating_add(records),
            micros: self.micros.saturating_add(micros),
        }
    }
}

/// What a keeper has synced, and how large its journal is.
#[derive(Clone, Copy)]
pub struct KeeperNumbers {
    /// What was synced since the keeper was made.
    pub synced: SyncCounts,
    /// The bytes of the journal's file that records fill.
    pub bytes: u64,
    /// These bytes and those of the zeros ahead. A file that was another journal's before may be longer.
    pub file_bytes: u64,
    // Beyond how many bytes of records a look after a sync is due.
    pub(crate) due_beyond: u64,
}

impl KeeperNumbers {
    /// Whether a look at its size is due after a sync. Whoever asks next is told no, until the keeper tells its numbers again.
    pub(crate) fn take_due(&mut self) -> bool
        ensures due { IsTrue result ↔ (self.old.due_beyond < self.old.bytes) }
        ensures taken { self.new ≡ record self.old { due_beyond = self.new.due_beyond } }
    {
        if self.bytes <= self.due_beyond {
            return false;
        }
        self.due_beyond = u64::MAX;
        true
    }
}

/// The microseconds since then; 0 where the machine's clock can't be read.
pub(crate) fn micros_since<H: time::Clock>(rt: &H, start: &Option<Instant>) -> u64 {
    let Some(start) = start else {
        return 0;
    };
    match start.elapsed(rt) {
        Ok(elapsed) => elapsed
            .as_secs()
            .saturating_mul(1_000_000)
            .saturating_add(u64::from(elapsed.subsec_micros())),
        Err(_) => 0,
    }
}

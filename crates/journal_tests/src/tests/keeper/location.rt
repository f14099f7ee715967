//! Where a journal stands, and what becomes of a new one.
use crate::tests::torn_disk::TornDisk;
use journal_file::{Journal, JournalPlace, PlaceFault};
use std::alloc::Global;
use std::sync::atomic::{AtomicBool, AtomicU64, Ordering};

/// What becomes of a new journal.
#[derive(Clone, Copy)]
pub(crate) enum Ends {
    /// It takes the place of the old one.
    InPlace,
    /// It stays beside it.
    Beside,
    /// Nobody knows which of the two stands there.
    Unsure,
    /// There is no file for it.
    Nowhere,
    /// Its disk is full at once.
    Full,
    /// Its disk fails after so many calls.
    FailsAfter(u64),
}

/// Where the journal stands, whether what stood beside it was taken away, whether one that was large was let go, how many bytes
/// one may have to be kept, and how many were marked.
#[derive(Drop)]
pub(crate) struct Location {
    alloc: Global,
    ends: Ends,
    was_taken_away: AtomicBool,
    was_let_go: AtomicBool,
    kept_at_most: AtomicU64,
    marked: AtomicU64,
}

impl Location {
    /// One where a new journal ends so.
    pub(crate) fn new(alloc: Global, ends: Ends) -> Location {
        Location {
            alloc,
            ends,
            was_taken_away: AtomicBool::new(false),
            was_let_go: AtomicBool::new(false),
            kept_at_most: AtomicU64::new(0),
            marked: AtomicU64::new(0),
        }
    }

    /// Whether what stood beside the journal was taken away.
    pub(crate) fn was_taken_away(&self) -> bool {
        self.was_taken_away.load(Ordering::Relaxed)
    }

    /// Whether a journal of more than 48 MiB was let go.
    pub(crate) fn was_let_go(&self) -> bool {
        self.was_let_go.load(Ordering::Relaxed)
    }

    /// How many bytes a file may have to be kept.
    pub(crate) fn kept_at_most(&self) -> u64 {
        self.kept_at_most.load(Ordering::Relaxed)
    }

    /// How many bytes were marked.
    pub(crate) fn marked(&self) -> u64 {
        self.marked.load(Ordering::Relaxed)
    }
}

impl JournalPlace<TornDisk> for Location {
    fn open_beside(&self) -> Option<TornDisk> {
        match self.ends {
            Ends::Nowhere => None,
            Ends::Full => Some(TornDisk::new(self.alloc, 10, u64::MAX)),
            Ends::FailsAfter(calls) => Some(TornDisk::new(self.alloc, usize::MAX, calls)),
            Ends::InPlace => used_disk(self.alloc),
            Ends::Beside | Ends::Unsure => Some(TornDisk::sound(self.alloc)),
        }
    }

    fn give_up(&self) {
        self.was_taken_away.store(true, Ordering::Relaxed);
    }

    fn put_in_place(&self, _journal: &Journal<TornDisk>) -> Result<(), PlaceFault> {
        match self.ends {
            Ends::Beside => Err(PlaceFault::Stays),
            Ends::Unsure => Err(PlaceFault::Unsure),
            _ => Ok(()),
        }
    }

    fn let_go(&self, old: TornDisk, most: u64) {
        self.was_let_go
            .store(old.bytes().len() > 48 << 20, Ordering::Relaxed);
        self.keep_at_most(most);
    }

    fn keep_at_most(&self, most: u64) {
        self.kept_at_most.store(most, Ordering::Relaxed);
    }

    fn mark(&self, bytes: u64) {
        self.marked.store(bytes, Ordering::Relaxed);
    }
}

// A file of 66 MiB that was a journal's before; None where there is no memory for it.
fn used_disk(alloc: Global) -> Option<TornDisk> {
    let bytes = vec![in alloc; 1u8; 66 << 20].ok()?;
    let mut disk = TornDisk::sound(alloc);
    disk.put(0, &bytes).then_some(disk)
}

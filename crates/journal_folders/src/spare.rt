//! The file that was a journal's before, which stays open to be used again.

use std::fs;
use std::fs::Metadata;
use std::os::unix::fs::MetadataExt;
use std::sync::Mutex;

/// Which file stands somewhere: the numbers of its device and of its inode. No other file has these as long as it is open.
#[derive(Clone, Copy, PartialEq, Eq, Drop)]
pub struct FileId {
    device: u64,
    inode: u64,
}

impl FileId {
    /// That of what was found.
    pub fn of(found: &Metadata) -> FileId {
        FileId {
            device: found.dev(),
            inode: found.ino(),
        }
    }

    /// That at a path, of a link the link itself; None where nothing stands there, or it can't be told.
    pub fn at(rt: &HostRuntime, path: &str) -> Option<FileId> {
        Some(FileId::of(&fs::symlink_metadata(rt, path).ok()?))
    }
}

/// Whether this file stands at a path, and at no other: who has given it a second name, as to copy it, is to find in it what it
/// held.
pub fn is_alone_at(rt: &HostRuntime, path: &str, id: FileId) -> bool {
    match fs::symlink_metadata(rt, path) {
        Ok(found) => FileId::of(&found) == id && found.nlink() == 1,
        Err(_) => false,
    }
}

/// An open file, and which one it is.
#[derive(Drop)]
pub struct SpareFile<D> {
    pub disk: D,
    pub id: FileId,
}

// Which files stand in a journal's folder, as far as is known.
#[derive(Drop)]
struct Known {
    journal: Option<FileId>,
    // The one beside it.
    new: Option<FileId>,
    // The one that was the journal's before.
    old: Option<FileId>,
}

/// Which files stand in the folder of a journal, and the one that was the journal's before, as long as it is open. Only one at a
/// time asks: who has the journal's keeper, or before there is one who opens the folder. Did another ask meanwhile, nothing would
/// be noted, and there would be no such file.
#[derive(Drop)]
pub struct Spare<D> {
    known: Mutex<Known>,
    disk: Mutex<Option<D>>,
}

impl<D: Drop> Spare<D> {
    /// No file is known.
    pub fn new() -> Spare<D> {
        Spare {
            known: Mutex::new(Known {
                journal: None,
                new: None,
                old: None,
            }),
            disk: Mutex::new(None),
        }
    }

    /// The journal's file is this one.
    pub fn note_journal(&self, journal: Option<FileId>) {
        if let Some(mut known) = self.known.try_lock() {
            known.journal = journal;
        }
    }

    /// The file beside the journal's is this one.
    pub fn note_new(&self, new: Option<FileId>) {
        if let Some(mut known) = self.known.try_lock() {
            known.new = new;
        }
    }

    /// The file beside the journal's has taken its place.
    pub fn note_exchange(&self) {
        if let Some(mut known) = self.known.try_lock() {
            known.old = known.journal;
            known.journal = known.new;
            known.new = None;
        }
    }

    /// Which file was the journal's before, as far as is known.
    pub fn old(&self) -> Option<FileId> {
        self.known.try_lock()?.old
    }

    /// Keeps the disk of the file that was the journal's before.
    pub fn keep(&self, disk: D) {
        if let Some(mut kept) = self.disk.try_lock() {
            *kept = Some(disk);
        }
    }

    /// The file that was the journal's before, if it is open and known. From then on it is not kept.
    pub fn take(&self) -> Option<SpareFile<D>> {
        let disk = self.disk.try_lock()?.take()?;
        let id = self.old()?;
        Some(SpareFile { disk, id })
    }
}

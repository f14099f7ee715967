//! Marks beside journals: how much of one is synced for sure.
ghost use Rattle.std.specs.Prelude.{◌≡◌, ◌⊎◌, ◌<◌, length, IfErr};
ghost use Rattle.journal_file.specs.JournalError.{IsDamagedAt};
ghost use Rattle.journal_file.specs.Recovered.{EndsAt};
ghost use Rattle.server_words.specs.JournalFault.{IsOfJournal};

use crate::journals::{JOURNAL_KEY, disk_fault, read_journal};
use crate::program_fault::fault_of_damage;
use journal_file::{Damage, whole_frames};
use server_words::RunFault;
use std::alloc::AllocError;
use std::fs::File;
use std::io::{ErrorKind, Read, Write};
use std::os::unix::fs::MetadataExt;
use std::sync::atomic::{AtomicU64, Ordering};
use std::{fs, io, str};

/// The mark beside the journal in a folder of this machine: which file is the journal's, by its inode's number, and how many of
/// its first bytes are synced, as two numbers in a text. No crash tears a frame among these. The text is put without a sync, so
/// after a crash it may be an older one, a prefix of one, or none; each of these tells of no more bytes. It is taken away, and the
/// folder synced, where another file takes the journal's place, so none of an earlier time of that file comes back.
#[derive(Drop)]
pub struct Mark<'a> {
    rt: &'a HostRuntime,
    journal: String,
    text: String,
    new_text: String,
    // How many bytes were marked last; 0 where it is not known.
    bytes: AtomicU64,
}

impl<'a> Mark<'a> {
    /// That of the journal in the folder at a path.
    pub fn of(rt: &'a HostRuntime, path: &str) -> Result<Mark<'a>, AllocError> {
        let alloc = rt.alloc();
        Ok(Mark {
            rt,
            journal: format!(in alloc; "{path}/journal")?,
            text: format!(in alloc; "{path}/journal.mark")?,
            new_text: format!(in alloc; "{path}/journal.mark.new")?,
            bytes: AtomicU64::new(0),
        })
    }

    /// Holds the journal to its mark. A mark of another file is passed over, and so is a text that is none.
    ///
    /// The error is Damaged, with the place of the first frame that is none, where that stands among the bytes that are marked;
    /// NoJournal or Disk where the journal or the mark can't be read; or Memory.
    pub fn hold_to(&self) -> Result<(), RunFault>
        ensures { IfErr result IsOfJournal }
    {
        let Some(marked) = self.marked()? else {
            return Ok(());
        };
        let file = read_journal(self.rt, self.journal.as_str())?;
        judge(&file, marked).map_err(fault_of_damage)
    }

    /// Marks that so many bytes are synced, unless these were marked last. Where that fails, the mark that was there stays.
    pub fn put(&self, bytes: u64) {
        if self.bytes.load(Ordering::Relaxed) != bytes && self.write(bytes).is_ok() {
            self.bytes.store(bytes, Ordering::Relaxed);
        }
    }

    /// Takes the mark away, before another file takes the place of the journal's. Where it fails there may be one still.
    pub fn remove(&self) -> io::Result<()> {
        self.bytes.store(0, Ordering::Relaxed);
        match fs::remove_file(self.rt, self.text.as_str()) {
            Err(error) if error.kind() != ErrorKind::NotFound => Err(error),
            _ => Ok(()),
        }
    }

    // Writes a new text beside the old one, and gives it the name of that.
    fn write(&self, bytes: u64) -> io::Result<()> {
        let inode = fs::metadata(self.rt, self.journal.as_str())?.ino();
        let text = format!(in self.rt.alloc(); "{inode} {bytes}\n")?;
        File::create(self.rt, self.new_text.as_str())?.write_all(text.as_bytes())?;
        fs::rename(self.rt, self.new_text.as_str(), self.text.as_str())
    }

    // How many bytes of the journal's file are marked; None where there is no mark of that file.
    fn marked(&self) -> Result<Option<u64>, RunFault>
        ensures { IfErr result IsOfJournal }
    {
        let mut file = match File::open(self.rt, self.text.as_str()) {
            Ok(file) => file,
            Err(error) if error.kind() == ErrorKind::NotFound => return Ok(None),
            Err(error) => return Err(disk_fault(error)),
        };
        let mut text = Vec::new(self.rt.alloc());
        file.read_to_end(&mut text).map_err(disk_fault)?;
        let found = fs::metadata(self.rt, self.journal.as_str()).map_err(disk_fault)?;
        Ok(marked_in(&text, found.ino()))
    }
}

// How many bytes a text marks of the file with this inode; None where it marks none of that.
fn marked_in(text: &[u8], inode: u64) -> Option<u64> {
    let (marked, bytes) = str::from_utf8(text).ok()?.trim_end().split_once(' ')?;
    if marked.parse::<u64>().ok()? != inode {
        return None;
    }
    bytes.parse::<u64>().ok()
}

// Judges the file of a journal of which so many bytes are synced. The error is the first frame that is none, where that stands
// among these.
fn judge(file: &[u8], synced: u64) -> Result<(), Damage>
    ensures before { IfErr result (λ damage. damage.at < synced) }
    ensures damaged { IfErr result (λ damage. IsDamagedAt 8391740119571199346 file.now damage
        ⊎ (EndsAt 8391740119571199346 file.now damage.at × (damage.len ≡ length file.now))) }
{
    let damage = match whole_frames(JOURNAL_KEY, file) {
        Ok(found) => Damage {
            at: found.end,
            len: file.len(),
        },
        Err(damage) => damage,
    };
    if (damage.at as u64) < synced {
        Err(damage)
    } else {
        Ok(())
    }
}

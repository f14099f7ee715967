//! Where journals lie: each in a folder, beside the settings that it is of.
ghost use Rattle.std.specs.Prelude.{◌≡◌, List, ℕ, Option, Some, Result, Ok, Err, IfErr, IfOk, OnOk, option_map, ⊤};
ghost use Rattle.std.specs.Borrow.{Bor};
ghost use Rattle.server_words.specs.JournalFault.{IsOfJournal, IsOfSystem, IsUnread};
ghost use Rattle.server_words.specs.declared.fault.RunFault.{RunFault};

use crate::closing::close_beside;
use crate::mark::Mark;
use crate::program_fault::fault_of_file;
use crate::spare::{FileId, Spare, SpareFile, is_alone_at};
use journal_file::{Journal, JournalPlace, PlaceFault, whole_frames};
use server_words::{JournalFault, Mismatch, RunFault};
use sqlite_disk::{Disk, Unknown};
use sqlite_std_file::File as DiskFile;
use std::fs::{File, Metadata, OpenFile, OpenOptions, TryLockError};
use std::io::{ErrorKind, Read, Write};
use std::os::fd::AsRawFd;
use std::os::unix::fs::{MetadataExt, OpenOptionsExt, PermissionsExt, fchown};
use std::thread::Threads;
use std::{fs, io};

/// The key under which the journals of the program are. It keeps what is no journal from being taken for one.
pub const JOURNAL_KEY: u64 = 8_391_740_119_571_199_346;

/// The most bytes of a text of settings: those of a journal have less than 2,048.
const SETTINGS_MAX: u64 = 65_536;

/// How many bytes of a journal are read again at a time.
const PIECE: usize = 65_536;

/// How often a journal is read while its settings change, or its file.
const READINGS: u64 = 8;

/// What opens the folders of journals.
pub trait Journals {
    type Disk: Disk + Drop;

    type File: SettingsFile + Drop;

    type Place: JournalPlace<Self::Disk> + Sync + Drop;

    /// What comes of reading the folder at a path: the bytes of its journal's file, and the text of the settings beside it; or
    /// this fault.
    ghost finds: { Self → List ℕ → Result (List ℕ × List ℕ) RunFault → Type 0 };

    /// The journal in the folder at a path, and the settings beside it. The folder is made where there is none, and so is the
    /// journal's file, without a byte. No other process can have the folder until its place is let go. Beside the journal stand
    /// two files without a byte: `lock`, and one whose name ends in `-wal`. What a crash has left of a smaller journal is
    /// removed, and so is a file that was the journal's before.
    ///
    /// The error is NoFolder where something else stands at the path; File where the folder can't be made, or the lock's or the
    /// journal's file can't be opened or made, or the journal's is no regular file with one name, as a symbolic link, which a
    /// smaller journal would replace; Busy where another process has the folder; Settings with Unreadable where the settings
    /// are far too long; Disk where they or the journal's mark can't be read; Damaged where more of the journal was synced, by
    /// its mark, than its whole frames have; or Memory.
    fn open(&self, path: &str) -> Result<Folder<Self::Disk, Self::File, Self::Place>, RunFault>
        ensures { IfErr result IsOfJournal };

    /// Reads the journal in the folder at a path, and the settings beside it. Nothing is made or written, and no lock is taken:
    /// another process may have the journal, and write to it meanwhile.
    ///
    /// The error is NoJournal where there is no folder, or no file for the journal in it, or one that can't be opened, or is no
    /// regular file; Settings with Missing where no settings stand beside it, or with Unreadable where they are far too long;
    /// Disk where a read fails, or other settings or another journal are put again and again; or Memory.
    fn read(&self, path: &str) -> Result<JournalFiles, RunFault>
        ensures read { IfOk result (λ files. finds self.now path.now (Ok (files.journal.items, files.settings.items))) }
        ensures fault { IfErr result (λ fault. finds self.now path.now (Err fault)) }
        ensures unread { IfErr result IsUnread };
}

/// What was read of the folder of a journal.
#[derive(Drop)]
pub struct JournalFiles {
    /// The bytes of the journal's file.
    pub journal: Vec<u8>,
    /// The text of the settings beside it.
    pub settings: Vec<u8>,
}

/// The folder of a journal.
#[derive(Drop)]
pub struct Folder<D: Disk, F: SettingsFile, P> {
    /// The journal's file.
    pub disk: D,
    /// The settings that it is of.
    pub file: F,
    /// Where its file stands. Who has it has the folder, whichever file is the journal's.
    pub place: P,
}

/// The file with the settings of a journal.
pub trait SettingsFile {
    /// Its text, where there is such a file.
    ghost text_in: { Self → Option (List ℕ) };

    /// Its text, lent; None where there is no such file.
    fn text(&self) -> Option<&[u8]>
        ensures { option_map (λ (text : Bor (List ℕ)). text.now) result ≡ text_in self.now };

    /// Puts a text in the place of the one that is there. A crash meanwhile leaves the one or the other, whole.
    ///
    /// The error is Disk where it could not be written, synced or put in its place, or Memory; either text may be there then.
    fn put(&mut self, text: Vec<u8>) -> Result<(), RunFault>
        ensures put { OnOk result (text_in self.new ≡ Some text.items) }
        ensures fault { IfErr result IsOfSystem };
}

/// The folders of this machine.
#[derive(Clone, Copy)]
pub struct MachineJournals<'a, T> {
    pub rt: &'a HostRuntime,
    /// What starts the threads in which files are let go.
    pub threads: T,
}

impl<'a, T: Threads + Copy + Sync> Journals for MachineJournals<'a, T> {
    type Disk = DiskFile;

    type File = MachineSettings<'a>;

    type Place = MachinePlace<'a, T, DiskFile>;

    ghost finds = { λ _ _ _. ⊤ };

    fn open(
        &self,
        path: &str,
    ) -> Result<Folder<DiskFile, MachineSettings<'a>, MachinePlace<'a, T, DiskFile>>, RunFault> {
        make_folder(self.rt, path)?;
        let place = MachinePlace::open(self.rt, self.threads, path)?;
        // A crash may have left the journal's file with a second name, under which it can't be opened.
        place.give_up();
        let journal = place.journal.as_str();
        let files = sqlite_std_file::open(self.rt, journal, Unknown).map_err(fault_of_file)?;
        place.spare.note_journal(FileId::at(self.rt, journal));
        let file = MachineSettings::open(self.rt, path)?;
        // A folder without settings is new, whatever stood there before.
        if file.text.is_some() {
            place.mark.hold_to()?;
        } else {
            let _ = place.mark.remove();
        }
        Ok(Folder {
            disk: files.db,
            file,
            place,
        })
    }

    fn read(&self, path: &str) -> Result<JournalFiles, RunFault> {
        let alloc = self.rt.alloc();
        let file = format!(in alloc; "{path}/journal")?;
        let settings = format!(in alloc; "{path}/settings")?;
        // A start with other settings puts the journal back first, and then its settings. So the journal is of those that stood
        // before it was read, where the same stand there after. And a server that makes it smaller may write to the file that
        // was the journal's when it was opened: so that has to be the journal's still, and is read again, to see that its records
        // stand there.
        for _ in 0..READINGS {
            let before = read_text(self.rt, settings.as_str());
            let (journal, id) = read_journal_of(self.rt, file.as_str())?;
            let Some(settings) = read_text(self.rt, settings.as_str())? else {
                return Err(RunFault::Journal(JournalFault::Settings(Mismatch::Missing)));
            };
            if is_text(&before, settings.as_slice())
                && still_begins(self.rt, file.as_str(), id, &journal).map_err(disk_fault)?
            {
                return Ok(JournalFiles { journal, settings });
            }
        }
        Err(RunFault::Journal(JournalFault::Disk))
    }
}

/// Whether this text was read.
fn is_text(read: &Result<Option<Vec<u8>>, RunFault>, text: &[u8]) -> bool {
    match read {
        Ok(Some(read)) => read.as_slice() == text,
        _ => false,
    }
}

/// The settings in a folder of this machine, as they were when it was opened or as they were put last.
#[derive(Drop)]
pub struct MachineSettings<'a> {
    rt: &'a HostRuntime,
    folder: String,
    text: Option<Vec<u8>>,
}

impl<'a> MachineSettings<'a> {
    /// Reads the settings in a folder. Where there are none, the folder is synced as one of its parent, so that no crash
    /// takes it away with what is put there.
    fn open(rt: &'a HostRuntime, path: &str) -> Result<MachineSettings<'a>, RunFault>
        ensures { IfErr result IsOfJournal }
    {
        let text = read_text(rt, format!(in rt.alloc(); "{path}/settings")?.as_str())?;
        if text.is_none() {
            sync_parent(rt, path).map_err(file_fault)?;
        }
        Ok(MachineSettings {
            rt,
            folder: String::from_str(rt.alloc(), path)?,
            text,
        })
    }
}

impl<'a> SettingsFile for MachineSettings<'a> {
    ghost text_in = { λ s. option_map (λ text. text.items) s.text };

    fn text(&self) -> Option<&[u8]> {
        match &self.text {
            Some(text) => Some(text.as_slice()),
            None => None,
        }
    }

    fn put(&mut self, text: Vec<u8>) -> Result<(), RunFault> {
        match write_text(self.rt, self.folder.as_str(), &text) {
            Ok(()) => {
                self.text = Some(text);
                Ok(())
            }
            Err(error) => Err(disk_fault(error)),
        }
    }
}

/// Where the file of a journal stands in a folder of this machine. No other process has the folder meanwhile. Once another
/// folder stands at its path, as where this one was moved away, nothing is done there.
#[derive(Drop)]
pub struct MachinePlace<'a, T, D> {
    rt: &'a HostRuntime,
    threads: T,
    // Held for its lock alone.
    _lock: File,
    // Open, so that it can be told from another one at its path, and the change of a name can be synced where no descriptor is
    // left.
    folder: File,
    path: String,
    journal: String,
    // The file beside it, which may take its place, and the one without a byte that stands beside that.
    new: String,
    new_log: String,
    // The name of the file that was the journal's before, which is used again, and that file.
    spare_name: String,
    spare: Spare<D>,
    mark: Mark<'a>,
}

impl<'a, T: Threads + Copy> MachinePlace<'a, T, DiskFile> {
    /// That of the journal in a folder, once no other process has this.
    fn open(
        rt: &'a HostRuntime,
        threads: T,
        path: &str,
    ) -> Result<MachinePlace<'a, T, DiskFile>, RunFault>
        ensures { IfErr result IsOfJournal }
    {
        let alloc = rt.alloc();
        let place = MachinePlace {
            rt,
            threads,
            _lock: lock_folder(rt, path)?,
            folder: File::open(rt, path).map_err(file_fault)?,
            path: String::from_str(alloc, path)?,
            journal: format!(in alloc; "{path}/journal")?,
            new: format!(in alloc; "{path}/journal.new")?,
            new_log: format!(in alloc; "{path}/journal.new-wal")?,
            spare_name: format!(in alloc; "{path}/journal.spare")?,
            spare: Spare::new(),
            mark: Mark::of(rt, path)?,
        };
        if is_link(rt, place.journal.as_str()) {
            return Err(RunFault::Journal(JournalFault::File));
        }
        Ok(place)
    }

    /// Whether its folder stands at its path still.
    fn is_there(&self) -> bool {
        match (
            self.folder.metadata(),
            fs::metadata(self.rt, self.path.as_str()),
        ) {
            (Ok(own), Ok(found)) => own.dev() == found.dev() && own.ino() == found.ino(),
            _ => false,
        }
    }

    /// Takes away the file beside that of the journal, if there is one. Nobody waits until its blocks are free.
    fn remove_new(&self) {
        if !self.is_there() {
            return;
        }
        let file = File::open(self.rt, self.new.as_str());
        let _ = fs::remove_file(self.rt, self.new.as_str());
        let _ = fs::remove_file(self.rt, self.new_log.as_str());
        if let Ok(file) = file {
            close_beside(&self.threads, file);
        }
    }

    /// Gives the file that was the journal's before the name of the one beside it, with the rights, the group and the owner that
    /// the journal's has now; None where there is none, another one has its name, or it has a further one.
    fn take_spare(&self) -> Option<DiskFile> {
        let SpareFile { disk, id } = self.spare.take()?;
        if self.is_there() && self.rename_spare(id).is_ok() {
            return Some(disk);
        }
        close_beside(&self.threads, disk);
        None
    }

    /// Gives what has the name of the file that was the journal's before the name of the one beside it, and the rights of the
    /// journal's. The error is one of these calls, or InvalidInput where it is not this file, or has a further name.
    fn rename_spare(&self, id: FileId) -> io::Result<()> {
        let found = fs::metadata(self.rt, self.journal.as_str())?;
        fs::rename(self.rt, self.spare_name.as_str(), self.new.as_str())?;
        if !is_alone_at(self.rt, self.new.as_str(), id) {
            return Err(ErrorKind::InvalidInput.into());
        }
        copy_access(&found, &File::open(self.rt, self.new.as_str())?)
    }

    /// Gives the journal's file a second name, under which it stays once another one has taken its place. Where the file system
    /// has no second names, the file is gone then.
    fn name_spare(&self) {
        self.remove_spare();
        let _ = fs::hard_link(self.rt, self.journal.as_str(), self.spare_name.as_str());
    }

    /// Takes the second name away.
    fn remove_spare(&self) {
        let _ = fs::remove_file(self.rt, self.spare_name.as_str());
    }

    /// Whether this file has the name of the one that was the journal's before, and no other, and at most so many bytes.
    fn is_spare(&self, id: FileId, most: u64) -> bool {
        is_alone_at(self.rt, self.spare_name.as_str(), id)
            && match fs::symlink_metadata(self.rt, self.spare_name.as_str()) {
                Ok(found) => found.len() <= most,
                Err(_) => false,
            }
    }

    /// A file beside that of the journal that has not a byte.
    fn open_new(&self) -> Option<DiskFile> {
        self.remove_new();
        self.make_new().ok()?;
        let files = sqlite_std_file::open(self.rt, self.new.as_str(), Unknown).ok()?;
        Some(files.db)
    }

    /// Makes the file beside that of the journal anew, with the rights, the group and the owner of that.
    fn make_new(&self) -> io::Result<()> {
        if !self.is_there() {
            return Err(ErrorKind::NotFound.into());
        }
        let found = fs::metadata(self.rt, self.journal.as_str())?;
        let new = OpenOptions::new()
            .read(true)
            .write(true)
            .create_new(true)
            .mode(0o600)
            .open(self.rt, self.new.as_str())?;
        copy_access(&found, &new)
    }
}

impl<'a, T: Threads + Copy> JournalPlace<DiskFile> for MachinePlace<'a, T, DiskFile> {
    fn open_beside(&self) -> Option<DiskFile> {
        self.remove_new();
        let disk = match self.take_spare() {
            Some(disk) => disk,
            None => self.open_new()?,
        };
        self.spare.note_new(FileId::at(self.rt, self.new.as_str()));
        Some(disk)
    }

    fn give_up(&self) {
        self.remove_new();
        if self.is_there() {
            self.remove_spare();
        }
        drop(self.spare.take());
    }

    fn put_in_place(&self, journal: &Journal<DiskFile>) -> Result<(), PlaceFault> {
        if !self.is_there() {
            return Err(PlaceFault::Stays);
        }
        // The new file may have been the journal's before, with the same inode: so no mark of that time is to stand beside it.
        if self.mark.remove().is_err() {
            return Err(PlaceFault::Stays);
        }
        self.name_spare();
        if fs::rename(self.rt, self.new.as_str(), self.journal.as_str()).is_err() {
            // The journal's file is to have one name.
            self.remove_spare();
            return Err(unmoved(self.rt, self.new.as_str()));
        }
        if self.folder.sync_all().is_err() {
            return Err(PlaceFault::Unsure);
        }
        let _ = fs::remove_file(self.rt, self.new_log.as_str());
        self.mark.put(journal.frames_len() as u64);
        self.spare.note_exchange();
        Ok(())
    }

    fn let_go(&self, old: DiskFile, most: u64) {
        match self.spare.old() {
            Some(id) if self.is_spare(id, most) => self.spare.keep(old),
            _ => {
                self.remove_spare();
                close_beside(&self.threads, old);
            }
        }
    }

    fn keep_at_most(&self, most: u64) {
        let Some(SpareFile { disk, id }) = self.spare.take() else {
            return;
        };
        if self.is_there() && self.is_spare(id, most) {
            self.spare.keep(disk);
        } else {
            self.remove_spare();
            close_beside(&self.threads, disk);
        }
    }

    fn mark(&self, bytes: u64) {
        if self.is_there() {
            self.mark.put(bytes);
        }
    }
}

/// What it is to a journal that a new file did not get its name: where that has its own still, it got no other.
fn unmoved(rt: &HostRuntime, new: &str) -> PlaceFault {
    match fs::symlink_metadata(rt, new) {
        Ok(_) => PlaceFault::Stays,
        Err(_) => PlaceFault::Unsure,
    }
}

/// Takes the lock of a folder, which has a file of its own, since that of the journal is replaced.
fn lock_folder(rt: &HostRuntime, path: &str) -> Result<File, RunFault>
    ensures { IfErr result IsOfJournal }
{
    let name = format!(in rt.alloc(); "{path}/lock")?;
    let mut lock = OpenOptions::new()
        .read(true)
        .write(true)
        .create(true)
        .mode(0o600)
        .open(rt, name.as_str())
        .map_err(file_fault)?;
    // What is meant for a standard stream that was closed is not to be written there.
    if lock.as_raw_fd() <= 2 {
        lock = lock.try_clone().map_err(file_fault)?;
    }
    match lock.try_lock() {
        Ok(()) => Ok(lock),
        Err(TryLockError::WouldBlock) => Err(RunFault::Journal(JournalFault::Busy)),
        Err(TryLockError::Error(error)) => Err(file_fault(error)),
    }
}

/// Whether a symbolic link stands at a path.
fn is_link(rt: &HostRuntime, path: &str) -> bool {
    match fs::symlink_metadata(rt, path) {
        Ok(found) => found.is_symlink(),
        Err(_) => false,
    }
}

/// Gives a file the rights of one that was found, and its group and owner where this process may.
fn copy_access(found: &Metadata, file: &File) -> io::Result<()> {
    // Only root sets the owner, and a member of the group may still set that.
    let has_group = is_allowed(fchown(file, None, Some(found.gid())))?;
    is_allowed(fchown(file, Some(found.uid()), None))?;
    // Another group does not get the rights of this one.
    let rights = if has_group { 0o777 } else { 0o707 };
    file.set_permissions(fs::Permissions::from_mode(found.mode() & rights))
}

/// Whether a change of a file was allowed to this process. The error is any other.
fn is_allowed(outcome: io::Result<()>) -> io::Result<bool> {
    match outcome {
        Ok(()) => Ok(true),
        Err(error) if error.kind() == ErrorKind::PermissionDenied => Ok(false),
        Err(error) => Err(error),
    }
}

/// Makes a folder at this path, where there is nothing.
fn make_folder(rt: &HostRuntime, path: &str) -> Result<(), RunFault>
    ensures { IfErr result IsOfJournal }
{
    let Err(error) = fs::create_dir(rt, path) else {
        return Ok(());
    };
    if error.kind() != ErrorKind::AlreadyExists {
        return Err(file_fault(error));
    }
    if fs::metadata(rt, path).map_err(file_fault)?.is_dir() {
        Ok(())
    } else {
        Err(RunFault::Journal(JournalFault::NoFolder))
    }
}

/// Syncs the entry of a folder in its parent.
fn sync_parent(rt: &HostRuntime, path: &str) -> io::Result<()> {
    let mut parent = fs::canonicalize(rt, path)?;
    parent.pop();
    sync_folder(rt, parent.as_str())
}

/// The bytes of a journal's file.
pub fn read_journal(rt: &HostRuntime, path: &str) -> Result<Vec<u8>, RunFault>
    ensures of_journal { IfErr result IsOfJournal }
    ensures unread { IfErr result IsUnread }
{
    let (bytes, _) = read_journal_of(rt, path)?;
    Ok(bytes)
}

/// The bytes of a journal's file, and which file that is.
fn read_journal_of(rt: &HostRuntime, path: &str) -> Result<(Vec<u8>, FileId), RunFault>
    ensures of_journal { IfErr result IsOfJournal }
    ensures unread { IfErr result IsUnread }
{
    let found = fs::metadata(rt, path).map_err(no_journal)?;
    if !found.is_file() {
        return Err(RunFault::Journal(JournalFault::NoJournal));
    }
    let mut file = File::open(rt, path).map_err(no_journal)?;
    let mut bytes = Vec::with_capacity(rt.alloc(), found.len() as usize)?;
    file.read_to_end(&mut bytes).map_err(disk_fault)?;
    let id = FileId::of(&file.metadata().map_err(disk_fault)?);
    Ok((bytes, id))
}

/// Whether this is the file of a journal still, and begins with all whole frames that it had when it was read.
fn still_begins(rt: &HostRuntime, path: &str, id: FileId, read: &[u8]) -> io::Result<bool> {
    let end = match whole_frames(JOURNAL_KEY, read) {
        Ok(found) => found.end,
        Err(damage) => damage.at,
    };
    let mut file = File::open(rt, path)?;
    if FileId::of(&file.metadata()?) != id {
        return Ok(false);
    }
    let (front, _) = read.split_at(end.min(read.len()));
    begins_with(&mut file, front)
}

/// Whether what is read of a file begins with these bytes.
fn begins_with(file: &mut File, front: &[u8]) -> io::Result<bool> {
    let mut left = front;
    let mut piece = [0; PIECE];
    for _ in 0..u64::MAX {
        if left.is_empty() {
            return Ok(true);
        }
        let got = file.read(&mut piece)?;
        let (here, behind) = left.split_at(got.min(left.len()));
        if got == 0 || !piece.starts_with(here) {
            return Ok(false);
        }
        left = behind;
    }
    Ok(false)
}

/// What it is to the program that a journal's file can't be read at all.
fn no_journal(error: io::Error) -> RunFault
    ensures of_journal { IsOfJournal result }
    ensures unread { IsUnread result }
{
    if error.kind() == ErrorKind::OutOfMemory {
        RunFault::Memory
    } else {
        RunFault::Journal(JournalFault::NoJournal)
    }
}

/// The text of a file; None where there is no such file.
fn read_text(rt: &HostRuntime, path: &str) -> Result<Option<Vec<u8>>, RunFault>
    ensures of_journal { IfErr result IsOfJournal }
    ensures unread { IfErr result IsUnread }
{
    let mut file = match File::open(rt, path) {
        Ok(file) => file,
        Err(error) if error.kind() == ErrorKind::NotFound => return Ok(None),
        Err(error) => return Err(disk_fault(error)),
    };
    if file.metadata().map_err(disk_fault)?.len() > SETTINGS_MAX {
        return Err(RunFault::Journal(JournalFault::Settings(Mismatch::Unreadable)));
    }
    let mut text = Vec::new(rt.alloc());
    file.read_to_end(&mut text).map_err(disk_fault)?;
    Ok(Some(text))
}

/// Puts a text in the place of the settings in a folder: it is written beside them, synced, and takes their name.
fn write_text(rt: &HostRuntime, folder: &str, text: &[u8]) -> io::Result<()> {
    let new = format!(in rt.alloc(); "{folder}/settings.new")?;
    let settings = format!(in rt.alloc(); "{folder}/settings")?;
    let mut file = File::create(rt, new.as_str())?;
    file.write_all(text)?;
    file.sync_all()?;
    fs::rename(rt, new.as_str(), settings.as_str())?;
    sync_folder(rt, folder)
}

/// Syncs the entries of a folder.
fn sync_folder(rt: &HostRuntime, path: &str) -> io::Result<()> {
    File::open(rt, path)?.sync_all()
}

/// What it is to the program that a folder or a file can't be had.
fn file_fault(error: io::Error) -> RunFault
    ensures { IsOfJournal result }
{
    if error.kind() == ErrorKind::OutOfMemory {
        RunFault::Memory
    } else {
        RunFault::Journal(JournalFault::File)
    }
}

/// What it is to the program that a journal's file or its mark can't be read, or settings can't be read or written.
pub fn disk_fault(error: io::Error) -> RunFault
    ensures { IsOfSystem result }
{
    if error.kind() == ErrorKind::OutOfMemory {
        RunFault::Memory
    } else {
        RunFault::Journal(JournalFault::Disk)
    }
}

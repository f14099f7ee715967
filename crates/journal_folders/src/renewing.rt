//! A journal that gets other settings: it is put back under these as a snapshot of its book.
ghost use Rattle.std.specs.Prelude.{◌≡◌, ◌++◌, ℕ, List, [], length, map, Some, IfErr, IfOk, OnOk};
ghost use Rattle.std.specs.List.{AllByRecursion};
ghost use Rattle.book_replay.specs.Snapshot.{behind_room};
ghost use Rattle.journal_file.specs.Journal.{IsJournal};
ghost use Rattle.journal_frames.specs.Frames.{Fits, frame, frames};
ghost use Rattle.journal_folders.specs.Renewed.{HaveTheirPlaces, IsFaultOfRenewing, IsNotRenewed, IsRenewed, IsSnapshotOf};
ghost use Rattle.server_words.specs.JournalFault.{IsOfJournal, IsOfSystem};

use crate::journal_folder::journal_settings;
use crate::journals::{Folder, JOURNAL_KEY, JournalFiles, Journals, SettingsFile};
use crate::program_fault::fault_of_replay;
use crate::reading::make_of;
use crate::shortage::shortage_in;
use book_replay::{replay, snapshot_records};
use journal_file::{Draft, Journal, JournalError, JournalPlace};
use journal_frames::{Frames, HEADER_LEN, push_frame};
use server_words::{JournalFault, Mismatch, RunFault, renewing_difference, settings_text};
use sqlite_disk::Disk;
use std::alloc::{AllocError, Global};
use upload_book::{Moment, Settings};

/// The folder of the journal at a path, for these settings. Where others stand beside it, the journal is first put back under
/// these: a snapshot of its book takes its place, and then these settings take that of the others. So it counts what stands, and
/// not what once stood, and each upload has the end that it had.
///
/// The error is that of [`Journals::open`] or [`Journals::read`], or what is wrong with the files
/// ([`crate::reading::make_of`]). It is Settings with Differs where finished uploads stay by these settings and end by
/// themselves in the journal, or a tenant of the journal has not its place in these settings, and with TooSmall where more stands than these allow; both leave all as it was. It is Disk where the snapshot could not be
/// written and put in place, or the settings not put: then the journal makes the same uploads as before, under either settings.
pub fn open_renewed<J: Journals>(
    journals: &J,
    alloc: Global,
    path: &str,
    settings: &Settings,
) -> Result<Folder<J::Disk, J::File, J::Place>, RunFault>
    ensures { IfErr result IsOfJournal }
{
    let mut folder = journals.open(path)?;
    let text = settings_text(alloc, settings)?;
    let has_others = match folder.file.text() {
        Some(old) => old != text.as_slice(),
        None => false,
    };
    if !has_others {
        return Ok(folder);
    }
    renew(
        journals,
        alloc,
        path,
        settings,
        text,
        &mut folder.file,
        &folder.place,
    )?;
    // Who has the folder has its lock.
    drop(folder);
    journals.open(path)
}

/// Puts the journal at a path, whose file stands at this place, back under these settings, and then these, which are this text,
/// in the place of those beside it.
///
/// The error is that of [`Journals::read`] or of [`renewed`], and then all is as it was; or Disk or Memory, where what was to be
/// put could not be.
fn renew<J: Journals>(
    journals: &J,
    alloc: Global,
    path: &str,
    settings: &Settings,
    text: Vec<u8>,
    file: &mut J::File,
    place: &J::Place,
) -> Result<(), RunFault>
    ensures put { OnOk result (J.File.text_in file.new ≡ Some text.items) }
    ensures why { IfErr result (IsFaultOfRenewing (J.finds journals.now path.now) settings.now) }
    ensures fault { IfErr result IsOfJournal }
{
    let files = journals.read(path)?;
    let frames = renewed(alloc, &files, settings)?;
    put_in_place(place, frames.as_slice())?;
    file.put(text)
}

/// The frames of the snapshot of the book that the files of a journal make ([`snapshot_of`]), once it was tried that a book of
/// these settings takes them.
///
/// The error is that of `snapshot_of`, Record with the number of a record of the snapshot that no book of these settings takes,
/// or `RunFault::Memory`.
fn renewed(alloc: Global, files: &JournalFiles, settings: &Settings) -> Result<Vec<u8>, RunFault>
    ensures renewed { IfOk result (λ bytes. IsRenewed files.now.journal.items files.now.settings.items settings.now bytes.items) }
    ensures fault { IfErr result (IsNotRenewed files.now.journal.items files.now.settings.items settings.now) }
    ensures of_journal { IfErr result IsOfJournal }
{
    let bytes = snapshot_of(alloc, files, settings)?;
    let records = Frames::new(JOURNAL_KEY, &bytes);
    replay(alloc, settings.copied(), records).map_err(fault_of_replay)?;
    Ok(bytes)
}

/// The frames of the snapshot of the book that the files of a journal make, where these settings allow what stands in it.
///
/// The error is that of [`make_of`], Settings with Differs or TooSmall, or `RunFault::Memory`.
fn snapshot_of(
    alloc: Global,
    files: &JournalFiles,
    settings: &Settings,
) -> Result<Vec<u8>, RunFault>
    ensures tenants { OnOk result (HaveTheirPlaces files.now.journal.items files.now.settings.items settings.now) }
    ensures snapshot { IfOk result (λ bytes. IsSnapshotOf files.now.journal.items files.now.settings.items bytes.items) }
    ensures fault { IfErr result (IsNotRenewed files.now.journal.items files.now.settings.items settings.now) }
    ensures of_journal { IfErr result IsOfJournal }
{
    let old = journal_settings(alloc, &files.settings)?;
    if let Some(difference) = renewing_difference(&old, settings) {
        return Err(RunFault::Journal(JournalFault::Settings(Mismatch::Differs(difference))));
    }
    let made = make_of(alloc, files)?;
    if let Some(shortage) = shortage_in(&made.book, settings) {
        return Err(RunFault::Journal(JournalFault::Settings(Mismatch::TooSmall(shortage))));
    }
    let Some(start) = Moment::new(0) else {
        unreachable!("dates can name the first second");
    };
    let Ok(rooms) = snapshot_records(alloc, &made.book, start) else {
        return Err(RunFault::Memory);
    };
    Ok(frames_of(alloc, rooms.as_slice())?)
}

/// The frames of records, each of which stands behind room for the header of its frame. The error is that there is no memory.
fn frames_of(alloc: Global, rooms: &[Vec<u8>]) -> Result<Vec<u8>, AllocError>
    requires { (records : List (List ℕ)) × (map (λ room. room.items) rooms.now ≡ map behind_room records) × AllByRecursion Fits records }
    ensures { (records : List (List ℕ)) → map (λ room. room.items) rooms.now ≡ map behind_room records
        → IfOk result (λ bytes. bytes.items ≡ frames 8391740119571199346 records) }
{
    let mut bytes = Vec::with_capacity(alloc, len_of(rooms))?;
    for room in rooms {
        push_behind_room(&mut bytes, room)?;
    }
    Ok(bytes)
}

/// How many bytes these have together: as many as the frames that they become.
fn len_of(rooms: &[Vec<u8>]) -> usize {
    let mut len: usize = 0;
    for room in rooms {
        len = len.saturating_add(room.len());
    }
    len
}

/// Adds the frame of a record that stands behind room for its header.
fn push_behind_room(bytes: &mut Vec<u8>, room: &[u8]) -> Result<(), AllocError>
    requires { (payload : List ℕ) × (room.now ≡ behind_room payload) × Fits payload }
    ensures { (payload : List ℕ) → room.now ≡ behind_room payload
        → OnOk result (bytes.new.items ≡ bytes.old.items ++ frame 8391740119571199346 payload) }
{
    let (_, payload) = room.split_at(HEADER_LEN);
    push_frame(bytes, JOURNAL_KEY, payload)
}

/// Puts a journal of these frames in the place of the one that stands there. The error is Disk.
fn put_in_place<D: Disk, P: JournalPlace<D>>(place: &P, bytes: &[u8]) -> Result<(), RunFault>
where
    D: Drop,
    requires { (records : List (List ℕ)) × (bytes.now ≡ frames 8391740119571199346 records) × AllByRecursion Fits records }
    ensures { IfErr result IsOfSystem }
{
    let Some(disk) = place.open_beside() else {
        return Err(RunFault::Journal(JournalFault::Disk));
    };
    let put = match written(disk, bytes) {
        Ok(journal) => place.put_in_place(&journal).is_ok(),
        Err(_) => false,
    };
    // The file of before is of no use to a start.
    place.give_up();
    if put {
        Ok(())
    } else {
        Err(RunFault::Journal(JournalFault::Disk))
    }
}

/// A journal of these frames on a disk, whatever it held, all synced, with no room for more.
fn written<D: Disk>(disk: D, bytes: &[u8]) -> Result<Journal<D>, JournalError>
where
    D: Drop,
    ensures { (records : List (List ℕ)) → bytes.now ≡ frames 8391740119571199346 records → AllByRecursion Fits records
        → IfOk result (λ journal. IsJournal journal records []) }
{
    let mut draft = Draft::new(disk, JOURNAL_KEY, bytes.len())?;
    draft.append(bytes)?;
    draft.finish(0)
}

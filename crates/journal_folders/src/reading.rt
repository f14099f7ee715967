//! The book that the files of a journal make again, in memory alone.
ghost use Rattle.std.specs.Prelude.{◌≡◌, ◌≢◌, ◌≤◌, ◌↔◌, [], length, take, Ok, IfErr, IfOk, IsTrue};
ghost use Rattle.journal_file.specs.JournalError.{IsDamagedAt};
ghost use Rattle.journal_folders.specs.ReadJournal.{IsFaultOfFiles, IsReadTo, IsTornTo, IsUpToLast, Makes};
ghost use Rattle.upload_book.specs.Book.{plain_of};

use crate::journal_folder::journal_settings;
use crate::journals::{JOURNAL_KEY, JournalFiles};
use crate::program_fault::{fault_of_damage, fault_of_replay};
use book_replay::replay;
use journal_file::{Damage, WholeFrames, whole_frames};
use journal_frames::Frames;
use server_words::RunFault;
use std::alloc::Global;
use upload_book::Book;

/// What the files of a journal make.
#[derive(Drop)]
pub struct MadeOf {
    /// The book of all its records.
    pub book: Book,
    /// The whole frames of its file, one a record.
    pub frames: WholeFrames,
}

/// Makes the book of the settings beside a journal, and on it all changes again whose records the journal's file has. What a
/// crash has left behind these is passed over, and a file without a byte has none.
///
/// The error is Settings with Unreadable, Damaged with the place, Record with the first record that is of no change which
/// the book takes, counted from 1, or `RunFault::Memory`.
pub fn make_of(alloc: Global, files: &JournalFiles) -> Result<MadeOf, RunFault>
    ensures made { IfOk result (λ it. Makes files.now.journal.items files.now.settings.items (Ok (plain_of it.book))) }
    ensures frames { IfOk result (λ it. IsReadTo files.now.journal.items it.frames) }
    ensures within { IfOk result (λ it. it.frames.end ≤ length files.now.journal.items) }
    ensures fault { IfErr result (IsFaultOfFiles files.now.journal.items files.now.settings.items) }
{
    let settings = journal_settings(alloc, &files.settings)?;
    let frames = frames_of(&files.journal).map_err(fault_of_damage)?;
    let records = Frames::new(JOURNAL_KEY, &files.journal);
    let book = replay(alloc, settings, records).map_err(fault_of_replay)?;
    Ok(MadeOf { book, frames })
}

/// The whole frames that stand first in a journal's file. The error is the place of its damage.
fn frames_of(file: &[u8]) -> Result<WholeFrames, Damage>
    ensures frames { IfOk result (IsReadTo file.now) }
    ensures within { IfOk result (λ found. found.end ≤ length file.now) }
    ensures some { IfErr result (λ damage. file.now ≢ []) }
    ensures damaged { IfErr result (IsDamagedAt 8391740119571199346 file.now) }
{
    if file.is_empty() {
        return Ok(WholeFrames { count: 0, end: 0 });
    }
    whole_frames(JOURNAL_KEY, file)
}

/// How many of the bytes behind the records of a journal's file a crash has left of a record: none where 16 zeros stand there,
/// and else those up to the last one that is not 0. A file that was a longer journal's before has bytes of that behind the zeros.
pub fn torn_len(tail: &[u8]) -> usize
    ensures { IsTornTo tail.now result }
{
    if is_blank(tail) {
        return 0;
    }
    len_to_last(tail)
}

/// Whether no frame begins there: the first 16 bytes are zeros.
fn is_blank(tail: &[u8]) -> bool
    ensures { IsTrue result ↔ IsUpToLast (take 16 tail.now) 0 }
{
    match tail.split_at_checked(16) {
        Some((header, _)) => len_to_last(header) == 0,
        None => len_to_last(tail) == 0,
    }
}

/// How many bytes there are up to the last one that is not 0.
fn len_to_last(bytes: &[u8]) -> usize
    ensures { IsUpToLast bytes.now result }
{
    let mut len = 0;
    for place in 0..bytes.len() {
        if bytes[place] != 0 {
            len = place + 1;
        }
    }
    len
}

//! The command `journal check`.
ghost use Rattle.std.specs.Prelude.{◌≡◌, ◌≤◌, false, length};
ghost use Rattle.journal_folders.specs.StreamUse.{used};
ghost use Rattle.journal_folders.specs.ReadJournal.{IsChecked, IsFaultOfFiles, IsLineOf, LookEnds, checked_text};
ghost use Rattle.upload_book.specs.Book.{plain_of};

use crate::held::{Held, held_in};
use crate::journals::Journals;
use crate::line::put_number;
use crate::printing::print;
use crate::reading::{MadeOf, make_of, torn_len};
use arrayvec::ArrayString;
use http_wire::Sink;
use journal_file::WholeFrames;
use server_words::RunFault;
use std::alloc::Global;

/// The most bytes of the line: six numbers of 20 digits, and the words between them.
const LINE_MAX: usize = 192;

/// Tells on `writer` what is in the journal in the folder at a path: one line ([`checked_line`]). All changes are made again in
/// memory. Nothing of the folder is changed, and no lock is taken.
///
/// The error is why the files were not read ([`Journals::read`]), what is wrong with them ([`make_of`]), both of which leave
/// `writer` untouched, or `RunFault::Wire` with Output where that has failed.
pub fn check<J: Journals, W: Sink>(
    journals: &J,
    alloc: Global,
    path: &str,
    writer: &mut W,
) -> Result<(), RunFault>
    requires { W.has_failed writer.old ≡ false }
    ensures { LookEnds (J.finds journals.now path.now) IsChecked IsFaultOfFiles
        (used W.contents W.has_failed writer.old writer.new) result }
{
    let files = journals.read(path)?;
    let made = make_of(alloc, &files)?;
    print(line_of(&files.journal, &made).as_bytes(), writer)
}

/// The line that tells what these bytes of a journal's file are, and what they make.
fn line_of(file: &[u8], made: &MadeOf) -> ArrayString<LINE_MAX>
    requires { made.now.frames.end ≤ length file.now }
    ensures { IsLineOf file.now made.now.frames (plain_of made.now.book) result.bytes }
{
    let (_, tail) = file.split_at(made.frames.end);
    checked_line(made.frames, held_in(&made.book), file.len(), torn_len(tail))
}

/// The line that tells how many records a journal has, what their book holds, how many bytes the file has, how many of them
/// the records take, and how many a crash has left behind these.
fn checked_line(frames: WholeFrames, held: Held, len: usize, torn: usize) -> ArrayString<LINE_MAX>
    ensures { result.bytes ≡ checked_text frames.count held len frames.end torn }
{
    let mut line = ArrayString::new();
    put_number(&mut line, frames.count, " records, ");
    put_number(&mut line, held.uploads, " uploads, ");
    put_number(&mut line, held.bytes, " bytes; file: ");
    put_number(&mut line, len, " bytes, ");
    put_number(&mut line, frames.end, " of records, ");
    put_number(&mut line, torn, " torn\n");
    line
}

//! The command `journal export`.
ghost use Rattle.std.specs.Prelude.{◌≡◌, Ok, false, option_map, MatchResult};
ghost use Rattle.journal_folders.specs.StreamUse.{used};
ghost use Rattle.journal_folders.specs.Export.{exported, name_and_id, upload_named, IsExported, IsFaultOfExport, IsNoUpload};
ghost use Rattle.journal_folders.specs.ReadJournal.{LookEnds};
ghost use Rattle.tus_text.specs.Path.{id_of};
ghost use Rattle.upload_book.specs.Book.{plain_of};

use crate::journals::Journals;
use crate::printing::print;
use crate::reading::make_of;
use http_wire::Sink;
use server_words::{ExportOptions, JournalFault, NoUpload, RunFault};
use std::alloc::Global;
use tus_text::read_number;
use upload_book::{Book, Content, Moment, Name, Refusal};

/// Writes the bytes of an upload to `writer`, and nothing else: those that it has in the book that the journal of the options
/// makes, whether these are all of them or not. Nothing of the folder is changed, and no lock is taken.
///
/// The error is why the files were not read ([`Journals::read`]), what is wrong with them ([`make_of`]), or Upload where they
/// have no such upload, all of which leave `writer` untouched; or `RunFault::Wire` with Output where that has failed.
pub fn export<J: Journals, W: Sink>(
    journals: &J,
    alloc: Global,
    options: &ExportOptions,
    writer: &mut W,
) -> Result<(), RunFault>
    requires { W.has_failed writer.old ≡ false }
    ensures { LookEnds (J.finds journals.now options.now.folder.now) (IsExported options.now.upload.now)
        (IsFaultOfExport options.now.upload.now) (used W.contents W.has_failed writer.old writer.new) result }
{
    let files = journals.read(options.folder)?;
    let made = make_of(alloc, &files)?;
    let bytes = bytes_of(&made.book, options.upload)?;
    print(bytes.as_slice(), writer)
}

/// The bytes that a book has of the upload of a word TENANT/ID. The error is Upload with what is not so, or `RunFault::Memory`.
fn bytes_of(book: &Book, word: &str) -> Result<Content, RunFault>
    ensures { MatchResult result (λ bytes. exported (plain_of book.now) word.now ≡ Ok bytes)
        (λ fault. IsNoUpload (exported (plain_of book.now) word.now) fault) }
{
    let Some((tenant, id)) = upload_named(word) else {
        return Err(RunFault::Journal(JournalFault::Upload(NoUpload::Name)));
    };
    let Some(place) = book.settings().tenant(tenant) else {
        return Err(RunFault::Journal(JournalFault::Upload(NoUpload::Tenant)));
    };
    let Some(start) = Moment::new(0) else {
        unreachable!("dates can name the first second");
    };
    let name = Name { tenant: place, id };
    match book.so_far(&name, start, book.no_room()) {
        Ok(bytes) => Ok(bytes),
        Err(Refusal::Memory) => Err(RunFault::Memory),
        Err(Refusal::Unknown) => Err(RunFault::Journal(JournalFault::Upload(NoUpload::Unknown))),
        Err(_) => Err(RunFault::Journal(JournalFault::Upload(NoUpload::Gone))),
    }
}

/// The tenant's name and the id of a word TENANT/ID, which is cut at its first `/`.
#[tactic(auto, using(crate::proofs::ExportLemmas::no_slash))]
fn upload_named(word: &str) -> Option<(&[u8], u64)>
    ensures { option_map name_and_id result ≡ upload_named word.now }
{
    let (tenant, id) = word.split_once('/')?;
    let id = read_id(id.as_bytes())?;
    Some((tenant.as_bytes(), id))
}

/// The number of an id's digits, of which the first is not `0`: no path has another.
fn read_id(text: &[u8]) -> Option<u64>
    ensures { result ≡ id_of text.now }
{
    if text.starts_with(b"0") {
        return None;
    }
    read_number(text)
}

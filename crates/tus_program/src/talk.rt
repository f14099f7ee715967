//! The command `talk`, after its command line was read.
ghost use Rattle.std.specs.Prelude.{◌≡◌, false, Ok, IfOk, IfErr};
ghost use Rattle.upload_book.specs.Book.{plain_of};
ghost use Rattle.upload_book.specs.PlainBook.{opening_book};
ghost use Rattle.server_words.specs.Arguments.{talk_arguments_of};
ghost use Rattle.server_words.specs.Fault.{IsFaultOf};
ghost use Rattle.server_words.specs.Settings.{talk_settings};
ghost use Rattle.journal_folders.specs.StreamUse.{used};
ghost use Rattle.tus_program.specs.Talk.{TalkEnds};

use crate::conversation::hold_conversation;
use crate::program_fault::fault_of_wire;
use http_wire::{Sink, Source};
use server_words::{RunFault, TalkOptions, settings_with};
use std::alloc::Global;
use std::sync::Wait;
use upload_book::Book;

/// Holds one conversation over `reader` and `writer`, on a new book with the settings of the options, as [`hold_conversation`]
/// says: bodies are gathered, or come in pieces where the options have a size for them.
///
/// It is `Ok` where the conversation ended, in whatever way. The error is the fault of the settings, and then both streams
/// are untouched, `RunFault::Wire` with the stream where a read or a write failed, or `RunFault::Memory` where memory was
/// lacking to begin with, and then nothing was read or written.
pub fn talk<T: Wait, R: Source, W: Sink>(
    rt: &T,
    alloc: Global,
    options: &TalkOptions,
    reader: &mut R,
    writer: &mut W,
) -> Result<(), RunFault>
    requires reader { R.has_failed reader.old ≡ false }
    requires writer { W.has_failed writer.old ≡ false }
    ensures { TalkEnds (talk_arguments_of options.now)
        (used R.remaining R.has_failed reader.old reader.new)
        (used W.contents W.has_failed writer.old writer.new) result }
{
    let mut book = new_book(alloc, options)?;
    hold_conversation(rt, alloc, options, reader, writer, &mut book).map_err(fault_of_wire)
}

/// The new book with the settings of the options, or their first fault, or `RunFault::Memory`.
fn new_book(alloc: Global, options: &TalkOptions) -> Result<Book, RunFault>
    ensures settings { IfOk result (λ book. talk_settings (talk_arguments_of options.now) ≡ Ok (plain_of book).settings) }
    ensures new { IfOk result (λ book. plain_of book ≡ opening_book (plain_of book).settings) }
    ensures fault { IfErr result (IsFaultOf (talk_settings (talk_arguments_of options.now))) }
{
    let settings = settings_with(alloc, options.bounds(), options.numbers, options.tenants)?;
    Ok(Book::new(alloc, settings)?)
}

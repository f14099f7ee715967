//! The command `talk` with a journal.
ghost use Rattle.std.specs.Prelude.{◌≡◌, false};
ghost use Rattle.server_words.specs.Arguments.{talk_arguments_of};
ghost use Rattle.journal_folders.specs.StreamUse.{used};
ghost use Rattle.tus_program.specs.KeptTalk.{KeptTalkEnds};

use crate::at_journal::AtJournal;
use crate::conversation::hold_conversation;
use crate::program_fault::fault_of_wire;
use http_wire::{Sink, Source};
use journal_folders::{Folder, Journals, open_kept, open_renewed};
use server_words::{JournalFault, RunFault, TalkOptions, settings_with};
use sqlite_disk::Disk;
use std::alloc::Global;
use std::sync::Wait;

/// Holds one conversation over `reader` and `writer`, on the book that the journal in the folder at `path` keeps, with the
/// settings of the options: where others stand beside it, it is put back under these first ([`open_renewed`]). Bodies are gathered,
/// or come in pieces where the options have a size for them ([`hold_conversation`]). No reply tells of a change before the journal
/// has it, so a crash at any moment loses nothing of what was told.
///
/// It is `Ok` where the conversation ended, in whatever way. The error is the fault of the settings, or the journal's, and then
/// both streams are untouched; `RunFault::Wire` with the stream where a read or a write failed; or `RunFault::Memory` where
/// memory was lacking to begin with, and then nothing was read or written. Where a read, a write or a sync of the file fails
/// later, that change and all after it are refused as where memory lacks, and the error is the journal's, `JournalFault::Disk`,
/// once the conversation has ended.
pub fn talk_kept<T: Wait, D: Disk, J: Journals<Disk = D>, R: Source, W: Sink>(
    rt: &T,
    journals: &J,
    alloc: Global,
    options: &TalkOptions,
    path: &str,
    reader: &mut R,
    writer: &mut W,
) -> Result<(), RunFault>
where
    D: Drop,
    requires reader { R.has_failed reader.old ≡ false }
    requires writer { W.has_failed writer.old ≡ false }
    ensures { KeptTalkEnds D.seen D.may_leave D.is_clean (talk_arguments_of options.now)
        (used R.remaining R.has_failed reader.old reader.new)
        (used W.contents W.has_failed writer.old writer.new) result }
{
    let settings = settings_with(alloc, options.bounds(), options.numbers, options.tenants)?;
    let folder = open_renewed(journals, alloc, path, &settings)?;
    let Folder {
        disk,
        mut file,
        place: _place,
    } = folder;
    let kept = open_kept(alloc, &mut file, disk, settings)?;
    let mut at = AtJournal {
        kept,
        has_failed: false,
    };
    hold_conversation(rt, alloc, options, reader, writer, &mut at).map_err(fault_of_wire)?;
    if at.has_failed {
        return Err(RunFault::Journal(JournalFault::Disk));
    }
    Ok(())
}

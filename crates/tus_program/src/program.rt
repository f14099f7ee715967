//! The program over streams and words, from its command line to its exit status.
ghost use Rattle.std.specs.Prelude.{◌≡◌, ◌≢◌, false, map};
ghost use Rattle.clap.specs.Values.{kind_of};
ghost use Rattle.clap.specs.Words.{subcommand_rows_of};
ghost use Rattle.server_words.specs.Arguments.{arguments_entered};
ghost use Rattle.journal_folders.specs.StreamUse.{used};
ghost use Rattle.tus_program.specs.Run.{Explains, Performs, RunEnds, Tells};
ghost use Rattle.tus_program.specs.Sockets.{sockets};

use crate::kept_talk::talk_kept;
use crate::report::{put_or_fail, report, report_fault};
use crate::serve::serve;
use crate::talk::talk;
use clap::ArgMatches;
use clap::error::ErrorKind;
use http_wire::{Sink, Source, put_all};
use journal_folders::{Journals, check, export};
use server_words::{
    Cause, CommandOptions, OUTPUT, RunFault, UNTOLD, WORDS_MEMORY, command_options, parsed,
};
use sqlite_disk::Disk;
use std::alloc::Global;
use std::convert::AsStr;
use std::fs::{File, Files};
use std::io::Eprint;
use std::net::{Net, TcpListener, TcpStream};
use std::sync::Wait;
use std::thread::Threads;
use std::time;
use tus_workers::Listener;

/// The exit status where the command line is refused.
const REFUSED: u8 = 2;

/// Does what the words of the command line ask for, over these streams, and gives the exit status. The first word is
/// the program's name.
///
/// The status is 0 where all was done, 2 where the words, the settings or the address are refused, 3 where a read or a write
/// failed, or of `serve` a socket, 4 where there was no memory to begin with, and 5 where a journal can't be had. Words that
/// are not taken are answered on `errors`, and help on `writer`. At 3, 4 and 5, and at 2 for words that were taken, the line
/// that names the fault is written to `errors`, whose own faults are passed over; a sentence on it follows where `errors` is
/// watched, or where the command asks for more than the least.
pub fn run<
    L: Listener,
    S: AsStr,
    D: Disk,
    H: Threads
        + Wait
        + Net<Stream = TcpStream, Listener = TcpListener>
        + time::Clock
        + Eprint
        + Files<File = File>
        + Sync
        + Send
        + Copy
        + 'static,
    J: Journals<Disk = D>,
    R: Source,
    W: Sink,
    E: Sink,
>(
    rt: &H,
    journals: &J,
    alloc: Global,
    words: &[S],
    is_watched: bool,
    reader: &mut R,
    writer: &mut W,
    errors: &mut E,
) -> u8
where
    D: Send + Drop,
    L: Drop,
    L::Acceptor: Send + Drop,
    requires reader { R.has_failed reader.old ≡ false }
    requires writer { W.has_failed writer.old ≡ false }
    requires errors { E.has_failed errors.old ≡ false }
    ensures { RunEnds (sockets L.asked L.place L.Acceptor.accepted L.Acceptor.has_failed L.Acceptor.is_stopped)
        D.seen D.may_leave D.is_clean (J.finds journals.now) is_watched result
        (used R.remaining R.has_failed reader.old reader.new)
        (used W.contents W.has_failed writer.old writer.new)
        (used E.contents E.has_failed errors.old errors.new) (map S.text words.now) }
{
    match parsed(alloc, words) {
        Ok(matches) => perform::<L, D, H, J, R, W, E>(
            rt, journals, alloc, &matches, is_watched, reader, writer, errors,
        ),
        Err(error) => explain(alloc, &error, is_watched, writer, errors),
    }
}

/// Does the command that was found in the command line, and gives the exit status. Where none was found, that is
/// [`REFUSED`], and the streams are untouched.
fn perform<
    L: Listener,
    D: Disk,
    H: Threads
        + Wait
        + Net<Stream = TcpStream, Listener = TcpListener>
        + time::Clock
        + Eprint
        + Files<File = File>
        + Sync
        + Send
        + Copy
        + 'static,
    J: Journals<Disk = D>,
    R: Source,
    W: Sink,
    E: Sink,
>(
    rt: &H,
    journals: &J,
    alloc: Global,
    matches: &ArgMatches,
    is_watched: bool,
    reader: &mut R,
    writer: &mut W,
    errors: &mut E,
) -> u8
where
    D: Send + Drop,
    L: Drop,
    L::Acceptor: Send + Drop,
    requires reader { R.has_failed reader.old ≡ false }
    requires writer { W.has_failed writer.old ≡ false }
    requires errors { E.has_failed errors.old ≡ false }
    ensures { Performs (sockets L.asked L.place L.Acceptor.accepted L.Acceptor.has_failed L.Acceptor.is_stopped)
        D.seen D.may_leave D.is_clean (J.finds journals.now) is_watched result
        (used R.remaining R.has_failed reader.old reader.new)
        (used W.contents W.has_failed writer.old writer.new)
        (used E.contents E.has_failed errors.old errors.new)
        (arguments_entered (subcommand_rows_of matches.now)) }
{
    match command_options(matches) {
        Some(CommandOptions::Talk(options)) => {
            let outcome = match options.journal {
                Some(path) => talk_kept(rt, journals, alloc, &options, path, reader, writer),
                None => talk(rt, alloc, &options, reader, writer),
            };
            report(outcome, &CommandOptions::Talk(options), is_watched, errors)
        }
        Some(CommandOptions::Serve(options)) => {
            let outcome = serve::<L, D, H, J, W>(rt, journals, alloc, &options, writer);
            report(outcome, &CommandOptions::Serve(options), is_watched, errors)
        }
        Some(CommandOptions::Check(folder)) => {
            let outcome = check(journals, alloc, folder, writer);
            report(outcome, &CommandOptions::Check(folder), is_watched, errors)
        }
        Some(CommandOptions::Export(options)) => {
            let outcome = export(journals, alloc, &options, writer);
            report(
                outcome,
                &CommandOptions::Export(options),
                is_watched,
                errors,
            )
        }
        None => REFUSED,
    }
}

/// Answers words that are not taken, and gives the exit status. Where memory lacks for the text of a refusal, the lines of
/// [`RunFault::Words`] stand for it.
fn explain<W: Sink, E: Sink>(
    alloc: Global,
    error: &clap::Error,
    is_watched: bool,
    writer: &mut W,
    errors: &mut E,
) -> u8
    requires writer { W.has_failed writer.old ≡ false }
    requires errors { E.has_failed errors.old ≡ false }
    ensures { Explains (kind_of error.now) is_watched result
        (used W.contents W.has_failed writer.old writer.new)
        (used E.contents E.has_failed errors.old errors.new) }
{
    if error.kind() == ErrorKind::OutOfMemory {
        return report_fault(&RunFault::Memory, WORDS_MEMORY, is_watched, errors);
    }
    match error.to_string(alloc) {
        Ok(text) => tell(error, text.as_bytes(), is_watched, writer, errors),
        Err(_) if error.use_stderr() => report_fault(&RunFault::Words, UNTOLD, is_watched, errors),
        Err(_) => report_fault(&RunFault::Memory, WORDS_MEMORY, is_watched, errors),
    }
}

/// Tells the text for words that are not taken, and gives the exit status: why they are refused goes to `errors`, and
/// help to `writer`.
fn tell<W: Sink, E: Sink>(
    error: &clap::Error,
    text: &[u8],
    is_watched: bool,
    writer: &mut W,
    errors: &mut E,
) -> u8
    requires memory { kind_of error.now ≢ ErrorKind.OutOfMemory }
    requires writer { W.has_failed writer.old ≡ false }
    requires errors { E.has_failed errors.old ≡ false }
    ensures { Tells (kind_of error.now) is_watched result
        (used W.contents W.has_failed writer.old writer.new)
        (used E.contents E.has_failed errors.old errors.new) text.now }
{
    if error.use_stderr() {
        put_or_fail(text, errors);
        return REFUSED;
    }
    match put_all(writer, text) {
        Ok(()) => 0,
        Err(_) => report_fault(&RunFault::Wire(Cause::Output), OUTPUT, is_watched, errors),
    }
}

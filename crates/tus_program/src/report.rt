//! The end of a command as it is reported: its exit status, and the line of its fault with what explains it.
ghost use Rattle.std.specs.Prelude.{◌≡◌, ◌++◌, false};
ghost use Rattle.journal_folders.specs.StreamUse.{WritesOrFails, used};
ghost use Rattle.server_words.specs.Arguments.{arguments_of};
ghost use Rattle.server_words.specs.Explained.{told_if};
ghost use Rattle.server_words.specs.Fault.{status_of};
ghost use Rattle.tus_program.specs.Report.{Reports, WritesLines};

use http_wire::{Sink, put_all};
use server_words::{CommandOptions, RunFault};

/// Whether standard error is a terminal.
pub fn is_watched() -> bool {
    libc::isatty(libc::STDERR_FILENO) == 1
}

/// Gives the exit status of a command that ended so, and writes the line of its fault, if any, to `errors`, whose own faults
/// are passed over. A sentence behind it explains the fault where standard error is watched, or where the command asks for more
/// than the least.
pub fn report<E: Sink>(
    outcome: Result<(), RunFault>,
    command: &CommandOptions,
    is_watched: bool,
    errors: &mut E,
) -> u8
    requires { E.has_failed errors.old ≡ false }
    ensures { Reports is_watched (arguments_of command.now) outcome result
        (used E.contents E.has_failed errors.old errors.new) }
{
    match outcome {
        Ok(()) => 0,
        Err(fault) => {
            let is_told = is_watched || command.asks_more();
            report_fault(&fault, fault.sentence(command).as_str(), is_told, errors)
        }
    }
}

/// Writes the line that names the fault to `errors`, and behind it the sentence where that is to be told, and gives the exit
/// status. Faults of `errors` are passed over.
pub fn report_fault<E: Sink>(fault: &RunFault, sentence: &str, is_told: bool, errors: &mut E) -> u8
    requires { E.has_failed errors.old ≡ false }
    ensures status { result ≡ status_of fault.now }
    ensures lines { WritesLines (used E.contents E.has_failed errors.old errors.new) fault.now
        (told_if is_told sentence.now) }
{
    let line = fault.line();
    let text = told_if(is_told, sentence);
    put_both(line.as_bytes(), text.as_bytes(), errors);
    fault.status()
}

/// The text, where it is to be told, and else none.
fn told_if(is_told: bool, text: &str) -> &str
    ensures { result.now ≡ told_if is_told text.now }
{
    if is_told { text } else { "" }
}

/// Writes one text and then another, or a prefix of both where the stream fails.
fn put_both<E: Sink>(first: &[u8], second: &[u8], errors: &mut E)
    requires { E.has_failed errors.old ≡ false }
    ensures { WritesOrFails (E.contents errors.old) (E.contents errors.new)
        (E.has_failed errors.new) (first.now ++ second.now) }
{
    match put_all(errors, first) {
        Ok(()) => put_or_fail(second, errors),
        Err(_) => {}
    }
}

/// Writes the text, or a prefix of it where the stream fails.
pub fn put_or_fail<E: Sink>(text: &[u8], errors: &mut E)
    requires { E.has_failed errors.old ≡ false }
    ensures { WritesOrFails (E.contents errors.old) (E.contents errors.new)
        (E.has_failed errors.new) text.now }
{
    let _ = put_all(errors, text);
}

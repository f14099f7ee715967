//! The line that tells what a start has read of its journal.
ghost use Rattle.std.specs.Prelude.{◌≡◌};
ghost use Rattle.tus_program.specs.Lines.{started_text};

use arrayvec::ArrayString;
use journal_folders::{Held, held_in, put_number};
use std::io::Eprint;
use std::time;
use std::time::Instant;
use upload_book::Book;

/// The most bytes of the line: four numbers of 20 digits, and the words between them.
const LINE_MAX: usize = 160;

/// Tells on standard error how many records a journal has, what its book holds, and how long it took to read since `start`.
/// Where standard error fails, or the machine's clock can't be read, nothing is told.
pub fn tell_started<H: Eprint + time::Clock>(
    rt: &H,
    start: &Option<Instant>,
    records: u64,
    book: &Book,
) {
    let Some(start) = start else {
        return;
    };
    let Some(millis) = millis_since(rt, start) else {
        return;
    };
    let _ = rt.eprint(started_line(records, held_in(book), millis).as_str());
}

/// How many milliseconds have passed since then; `None` where the machine's clock can't be read.
pub fn millis_since<H: time::Clock>(rt: &H, start: &Instant) -> Option<u64> {
    let taken = start.elapsed(rt).ok()?;
    let whole = taken.as_secs().saturating_mul(1000);
    Some(whole.saturating_add(u64::from(taken.subsec_millis())))
}

/// The line that tells how many records were read, what their book holds, and how many milliseconds it took.
fn started_line(records: u64, held: Held, millis: u64) -> ArrayString<LINE_MAX>
    ensures { result.bytes ≡ started_text records held millis }
{
    let mut line = ArrayString::new();
    line.push_str("tus-server: journal: ");
    put_number(&mut line, records, " records, ");
    put_number(&mut line, held.uploads, " uploads, ");
    put_number(&mut line, held.bytes, " bytes, read in ");
    put_number(&mut line, millis, " ms\n");
    line
}

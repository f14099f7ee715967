//! The line that tells how far a start has come with its journal, where someone watches.
ghost use Rattle.std.specs.Prelude.{◌≡◌};
ghost use Rattle.tus_program.specs.Lines.{progress_text};

use crate::report::is_watched;
use crate::started::millis_since;
use arrayvec::ArrayString;
use journal_folders::put_number;
use journal_keeper::Progress;
use std::io::Eprint;
use std::time;
use std::time::Instant;

/// The most bytes of the line: four numbers of 20 digits, and the words between them.
const LINE_MAX: usize = 160;

/// How many milliseconds a line stands at least.
const PAUSE: u64 = 250;

/// How many bytes are read before the clock is asked again. A record counts for 4 KiB more than it has, so that the clock is
/// asked for few of the small ones.
const STRETCH: usize = 1 << 20;

/// Tells on standard error how far a start has come with its journal: at most four times a second, each time over the line that
/// stands there. Where standard error is no terminal, or the machine's clock can't be read, it tells nothing.
#[derive(Drop)]
pub struct ProgressLine<'a, H> {
    rt: &'a H,
    // When the start began; `None` where nothing is to be told.
    start: Option<&'a Instant>,
    all: usize,
    read: usize,
    records: u64,
    // How many bytes are still read before the clock is asked, and how many milliseconds after the start a line is told next.
    ahead: usize,
    next: u64,
    has_told: bool,
}

impl<'a, H: Eprint + time::Clock> ProgressLine<'a, H> {
    /// Tells of a start that began then, of a journal whose frames have so many bytes.
    pub fn new(rt: &'a H, start: &'a Option<Instant>, all: usize) -> ProgressLine<'a, H> {
        ProgressLine {
            rt,
            start: if is_watched() { start.as_ref() } else { None },
            all,
            read: 0,
            records: 0,
            ahead: STRETCH,
            next: PAUSE,
            has_told: false,
        }
    }

    /// Takes the line away, where one stands.
    pub fn clear(&mut self) {
        if self.has_told {
            self.has_told = false;
            let _ = self.rt.eprint("\r\x1b[K");
        }
    }

    // Tells how far it has come, where a line may be told by now.
    fn tell(&mut self, start: &Instant) {
        let Some(millis) = millis_since(self.rt, start) else {
            return;
        };
        if millis < self.next {
            return;
        }
        self.next = millis.saturating_add(PAUSE);
        self.has_told = true;
        let line = progress_line(self.records, self.read, self.all, millis);
        let _ = self.rt.eprint(line.as_str());
    }
}

impl<'a, H: Eprint + time::Clock> Progress for ProgressLine<'a, H> {
    fn note(&mut self, bytes: usize) {
        let Some(start) = self.start else {
            return;
        };
        self.records = self.records.saturating_add(1);
        self.read = self.read.saturating_add(bytes);
        let weight = bytes.saturating_add(4096);
        if weight < self.ahead {
            self.ahead -= weight;
            return;
        }
        self.ahead = STRETCH;
        self.tell(start);
    }
}

/// The line that tells how many records were made again, how many MiB they have of how many, and for how many seconds that
/// has lasted. It takes the place of the one that stands there, and ends none.
fn progress_line(records: u64, read: usize, all: usize, millis: u64) -> ArrayString<LINE_MAX>
    ensures { result.bytes ≡ progress_text records read all millis }
{
    let mut line = ArrayString::new();
    line.push_str("\r\x1b[K");
    line.push_str("tus-server: journal: ");
    put_number(&mut line, records, " records, ");
    put_number(&mut line, read >> 20, " of ");
    put_number(&mut line, all >> 20, " MiB, ");
    put_number(&mut line, millis / 1000, " s");
    line
}

ghost use Rattle.std.specs.Prelude.{◌≡◌, false, true, IfNone, IfOk, IfSome, Ok, Some};
ghost use mathlib.Core.List.{IsPrefix};
ghost use Rattle.head_board.specs.Board.{ReadsHead, ReadsProgress, ReadsTotals, SeesNoneExpired, progress_read, row_read};
ghost use Rattle.head_board.specs.Events.{HaveHappened, book_at};
ghost use Rattle.head_board.specs.Expired.{NoneHasExpired};
ghost use Rattle.head_board.specs.Totals.{totals_of};
ghost use Rattle.head_board.specs.inside.EventLog.{IsMore};
ghost use Rattle.head_board.specs.inside.LastChanges.{last_of};
ghost use Rattle.head_board.specs.inside.Showing.{log_of};
ghost use Rattle.left_right.specs.Sides.{view as known_at};
ghost use Rattle.upload_book.specs.Heads.{heads_of, shown};
ghost use Rattle.upload_book.specs.Lawful.{IsLawful};
ghost use Rattle.upload_book.specs.Look.{look_answer};
ghost use Rattle.upload_book.specs.PlainBook.{answer_of};

use crate::board_copy::BoardCopy;
use crate::entering::{Missed, enter};
use crate::event_log::SeenEvents;
use crate::showing::BoardReader;
use crate::totals::Totals;
use core::mem::replace_with;
use std::marker::Model;
use upload_book::{HeadRow, Moment, Name, Progress, Refusal};

/// A reader of the heads that a board shows, which needs no lock. A contract sees the settings of the book, which log
/// the events of the board are in, whether the reader has missed the board, and the events that it has seen: all that it
/// reads is at least as new as these.
#[derive(Drop)]
pub struct HeadReader {
    seat: Seat,
    seen: SeenEvents,
    missed: Option<Missed>,
}

impl Model for HeadReader {
    ghost use Rattle.std.specs.Prelude.{◌≡◌, is_some, true};
    ghost use Rattle.head_board.specs.Board.{ReaderView};
    ghost use Rattle.head_board.specs.inside.Showing.{log_of};
    ghost use Rattle.left_right.specs.Sides.{view as known_at};

    ghost Value = { ReaderView };

    ghost view = { λ r. record {
      settings = (known_at r.seat.reader.place).settings;
      log = r.seen.book;
      events = r.seen.events;
      missed = is_some r.missed;
    } };

    ghost invariant = { λ r. ((known_at r.seat.reader.place).knows ≡ true) × (log_of (known_at r.seat.reader.place).log ≡ r.seen.book) };
}

// Where a reader reads: its place at the board, and a place for the row that it reads there.
#[derive(Drop)]
struct Seat {
    reader: BoardReader,
    row: Box<HeadRow>,
}

// What is asked: after which events, of which upload, and when.
#[derive(Drop)]
struct HeadQuery {
    seen: SeenEvents,
    name: Name,
    moment: Moment,
}

// What is asked: after which events, and whether an upload has expired when.
#[derive(Drop)]
struct EndQuery {
    seen: SeenEvents,
    moment: Moment,
}

// What is found: whether a row was read, and the events on which that rests.
#[derive(Drop)]
struct Found {
    read: Result<(), Refusal>,
    seen: SeenEvents,
}

// What is found: how far an upload is, and the events on which that rests.
#[derive(Drop)]
struct FoundProgress {
    progress: Result<Progress, Refusal>,
    seen: SeenEvents,
}

// What is found: totals, and the events on which they rest.
#[derive(Drop)]
struct FoundTotals {
    totals: Totals,
    seen: SeenEvents,
}

impl HeadReader {
    /// A reader at a place that knows its board, which has seen these events, and has not missed the board; with a place
    /// for a row.
    pub(crate) fn new(reader: BoardReader, row: Box<HeadRow>, seen: SeenEvents) -> HeadReader
        requires knows { (known_at reader.place).knows ≡ true }
        requires log { log_of (known_at reader.place).log ≡ seen.book }
        ensures { result ≡ record { settings = (known_at reader.place).settings; log = seen.book; events = seen.events; missed = false } }
    {
        HeadReader {
            seat: Seat { reader, row },
            seen,
            missed: None,
        }
    }

    /// The events that it has seen.
    pub fn seen(&self) -> &SeenEvents
        ensures { result.now ≡ record { book = self.now.log; events = self.now.events } }
    {
        &self.seen
    }

    /// From now on it has seen these events.
    pub(crate) fn learn(&mut self, seen: SeenEvents)
        requires { seen.book ≡ self.old.log }
        ensures { self.new ≡ record self.old { events = seen.events } }
    {
        self.seen = seen;
    }

    /// Reads what the board tells of an upload at this moment: Unknown where the name's tenant is not there or never had
    /// the id, Gone where the upload has ended or expired, and else its row, which is put to `row`. Without a row, `row`
    /// stays. The answer is at least as new as what the reader has seen, and the reader has seen the events of the answer
    /// then. It takes no lock and no memory, and waits for nobody.
    ///
    /// `None` says that the reader has missed the board: an entry found that it has been let go, or, as no run does, that it
    /// shows fewer events than the reader has seen. All else of the reader is as it was.
    pub fn look(
        &mut self,
        name: &Name,
        now: Moment,
        row: &mut HeadRow,
    ) -> Option<Result<(), Refusal>>
        ensures reads { IfSome result (λ read.
            ReadsHead self.old.settings self.old.events self.new.events name.now now (row_read read row.new)) }
        ensures sees { IfSome result (λ read. self.new ≡ record self.old { events = self.new.events }) }
        ensures misses { IfNone result (self.new ≡ record self.old { missed = true }) }
        ensures row { ¬ (result ≡ Some (Ok tt)) → row.new ≡ row.old }
    {
        let query = HeadQuery {
            seen: self.seen.again(),
            name: *name,
            moment: now,
        };
        match replace_with(&mut self.seat, query, read_head) {
            Ok(found) => {
                self.seen = found.seen;
                if found.read.is_ok() {
                    row.set(&self.seat.row.lent());
                }
                Some(found.read)
            }
            Err(missed) => {
                self.missed = Some(missed);
                None
            }
        }
    }

    /// Reads on the board how far an upload is at this moment: what [`HeadReader::look`] reads but the texts. The reader has seen
    /// the events of the answer then. It takes no lock and no memory, and waits for nobody.
    ///
    /// `None` says that the reader has missed the board, as [`HeadReader::look`] does. All else of the reader is as it was.
    pub fn progress(&mut self, name: &Name, now: Moment) -> Option<Result<Progress, Refusal>>
        ensures reads { IfSome result (ReadsProgress self.old.settings self.old.events self.new.events name.now now) }
        ensures sees { IfSome result (λ progress. self.new ≡ record self.old { events = self.new.events }) }
        ensures misses { IfNone result (self.new ≡ record self.old { missed = true }) }
    {
        let query = HeadQuery {
            seen: self.seen.again(),
            name: *name,
            moment: now,
        };
        match replace_with(&mut self.seat, query, read_progress) {
            Ok(so_far) => {
                self.seen = so_far.seen;
                Some(so_far.progress)
            }
            Err(missed) => {
                self.missed = Some(missed);
                None
            }
        }
    }

    /// Whether an upload of the book may have expired at this moment. If not, none has after events that begin with those
    /// which the reader has seen, and it has seen these then. If one may, it has seen no more than it had, and may have
    /// missed the board. It takes no lock and no memory, waits for nobody, and looks at one number.
    pub fn may_expire(&mut self, now: Moment) -> bool
        ensures none { result ≡ false → SeesNoneExpired self.old.settings self.old.events self.new.events now }
        ensures sees { result ≡ false → self.new ≡ record self.old { events = self.new.events } }
        ensures stays { result ≡ true → self.new ≡ record self.old { missed = self.new.missed } }
        ensures missed { self.old.missed ≡ true → self.new.missed ≡ true }
    {
        let query = EndQuery {
            seen: self.seen.again(),
            moment: now,
        };
        match replace_with(&mut self.seat, query, read_ends) {
            Ok(Some(seen)) => {
                self.seen = seen;
                false
            }
            Ok(None) => true,
            Err(missed) => {
                self.missed = Some(missed);
                true
            }
        }
    }

    /// Reads what the board tells of all tenants: what is charged and paid, and how many uploads each has. It is at least as
    /// new as what the reader has seen, and the reader has seen the events on which it rests then. It takes no lock and no
    /// memory, waits for nobody, and looks at no row.
    ///
    /// `None` says that the reader has missed the board, as [`HeadReader::look`] does. All else of the reader is as it was.
    pub fn totals(&mut self) -> Option<Totals>
        ensures reads { IfSome result (ReadsTotals self.old.settings self.old.events self.new.events) }
        ensures sees { IfSome result (λ totals. self.new ≡ record self.old { events = self.new.events }) }
        ensures misses { IfNone result (self.new ≡ record self.old { missed = true }) }
    {
        match replace_with(&mut self.seat, self.seen.again(), read_totals) {
            Ok(
                FoundTotals {
                    totals,
                    seen: shown,
                },
            ) => {
                self.seen = shown;
                Some(totals)
            }
            Err(missed) => {
                self.missed = Some(missed);
                None
            }
        }
    }
}

// Enters the board, and reads what it shows, with the row put to its place. The place at the board is the same after it.
fn read_head(seat: Seat, query: HeadQuery) -> (Seat, Result<Found, Missed>)
    requires knows { (known_at seat.reader.place).knows ≡ true }
    requires log { log_of (known_at seat.reader.place).log ≡ query.seen.book }
    ensures place { known_at result.0.reader.place ≡ known_at seat.reader.place }
    ensures found { IfOk result.1 (λ found.
        (found.seen.book ≡ query.seen.book)
        × IsPrefix query.seen.events found.seen.events
        × HaveHappened (known_at seat.reader.place).settings found.seen.events
        × IsLawful (book_at (known_at seat.reader.place).settings found.seen.events)
        × (row_read found.read result.0.row.value
        ≡ answer_of (book_at (known_at seat.reader.place).settings found.seen.events) query.name.tenant (look_answer query.name.id query.moment))) }
{
    let Seat { reader, mut row } = seat;
    match enter(reader, &query.seen) {
        Ok(reading) => {
            let found = found_on(reading.get(), &query, &mut row);
            let reader = reading.leave();
            (Seat { reader, row }, Ok(found))
        }
        Err((reader, missed)) => (Seat { reader, row }, Err(missed)),
    }
}

// What a copy tells, with the row put to its place.
fn found_on(copy: &BoardCopy, query: &HeadQuery, row: &mut HeadRow) -> Found
    requires { (last_of copy.now.last_changes query.now.name.id).book ≡ query.now.seen.book }
    ensures seen { IsMore (last_of copy.now.last_changes query.now.name.id) query.now.seen result.seen }
    ensures row { row_read result.read row.new ≡ shown copy.now.table query.now.name query.now.moment }
{
    let read = match copy.table.look(&query.name, query.moment) {
        Ok(told) => {
            row.set(&told);
            Ok(())
        }
        Err(refusal) => Err(refusal),
    };
    Found {
        read,
        seen: events_told(copy, query),
    }
}

// The events on which rests what a copy tells of an upload. They are those up to the last one that changed it, and what the
// reader had seen, and need not be all that the copy has.
fn events_told(copy: &BoardCopy, query: &HeadQuery) -> SeenEvents
    requires { (last_of copy.now.last_changes query.now.name.id).book ≡ query.now.seen.book }
    ensures { IsMore (last_of copy.now.last_changes query.now.name.id) query.now.seen result }
{
    let last_change = copy.last_changes.of(query.name.id);
    last_change.more(&query.seen)
}

// Enters the board, and reads how far an upload is. The place is the same after it.
fn read_progress(seat: Seat, query: HeadQuery) -> (Seat, Result<FoundProgress, Missed>)
    requires knows { (known_at seat.reader.place).knows ≡ true }
    requires log { log_of (known_at seat.reader.place).log ≡ query.seen.book }
    ensures place { known_at result.0.reader.place ≡ known_at seat.reader.place }
    ensures found { IfOk result.1 (λ found.
        (found.seen.book ≡ query.seen.book)
        × IsPrefix query.seen.events found.seen.events
        × HaveHappened (known_at seat.reader.place).settings found.seen.events
        × IsLawful (book_at (known_at seat.reader.place).settings found.seen.events)
        × (found.progress
        ≡ progress_read (answer_of (book_at (known_at seat.reader.place).settings found.seen.events) query.name.tenant (look_answer query.name.id query.moment)))) }
{
    let Seat { reader, row } = seat;
    match enter(reader, &query.seen) {
        Ok(reading) => {
            let found = progress_on(reading.get(), &query);
            let reader = reading.leave();
            (Seat { reader, row }, Ok(found))
        }
        Err((reader, missed)) => (Seat { reader, row }, Err(missed)),
    }
}

// How far a copy tells that an upload is.
fn progress_on(copy: &BoardCopy, query: &HeadQuery) -> FoundProgress
    requires { (last_of copy.now.last_changes query.now.name.id).book ≡ query.now.seen.book }
    ensures seen { IsMore (last_of copy.now.last_changes query.now.name.id) query.now.seen result.seen }
    ensures progress { result.progress ≡ progress_read (shown copy.now.table query.now.name query.now.moment) }
{
    let progress = match copy.table.look(&query.name, query.moment) {
        Ok(row) => Ok(row.progress()),
        Err(refusal) => Err(refusal),
    };
    FoundProgress {
        progress,
        seen: events_told(copy, query),
    }
}

// Enters the board, and tells the events after which no upload has expired, where it shows that. The place is the same
// after it.
fn read_ends(seat: Seat, query: EndQuery) -> (Seat, Result<Option<SeenEvents>, Missed>)
    requires knows { (known_at seat.reader.place).knows ≡ true }
    requires log { log_of (known_at seat.reader.place).log ≡ query.seen.book }
    ensures place { known_at result.0.reader.place ≡ known_at seat.reader.place }
    ensures none { IfOk result.1 (λ seen. IfSome seen (λ seen.
        (seen.book ≡ query.seen.book)
        × IsPrefix query.seen.events seen.events
        × HaveHappened (known_at seat.reader.place).settings seen.events
        × IsLawful (book_at (known_at seat.reader.place).settings seen.events)
        × NoneHasExpired query.moment (heads_of (book_at (known_at seat.reader.place).settings seen.events)))) }
{
    let Seat { reader, row } = seat;
    match enter(reader, &query.seen) {
        Ok(reading) => {
            let seen = seen_unexpired(reading.get(), query.moment);
            let reader = reading.leave();
            (Seat { reader, row }, Ok(seen))
        }
        Err((reader, missed)) => (Seat { reader, row }, Err(missed)),
    }
}

// The events of a copy, if no upload has expired by them.
fn seen_unexpired(copy: &BoardCopy, now: Moment) -> Option<SeenEvents>
    ensures { IfSome result (λ seen. (seen ≡ copy.now.seen) × NoneHasExpired now copy.now.table) }
{
    if copy.table.may_expire(now) {
        return None;
    }
    Some(copy.seen.again())
}

// Enters the board, and tells the totals that it shows. The place is the same after it.
fn read_totals(seat: Seat, seen: SeenEvents) -> (Seat, Result<FoundTotals, Missed>)
    requires knows { (known_at seat.reader.place).knows ≡ true }
    requires log { log_of (known_at seat.reader.place).log ≡ seen.book }
    ensures place { known_at result.0.reader.place ≡ known_at seat.reader.place }
    ensures found { IfOk result.1 (λ found.
        (found.seen.book ≡ seen.book)
        × IsPrefix seen.events found.seen.events
        × HaveHappened (known_at seat.reader.place).settings found.seen.events
        × IsLawful (book_at (known_at seat.reader.place).settings found.seen.events)
        × (found.totals ≡ totals_of (heads_of (book_at (known_at seat.reader.place).settings found.seen.events)))) }
{
    let Seat { reader, row } = seat;
    match enter(reader, &seen) {
        Ok(reading) => {
            let found = totals_on(reading.get());
            let reader = reading.leave();
            (Seat { reader, row }, Ok(found))
        }
        Err((reader, missed)) => (Seat { reader, row }, Err(missed)),
    }
}

// The totals of a copy, and the events on which they rest.
fn totals_on(copy: &BoardCopy) -> FoundTotals
    ensures seen { result.seen ≡ copy.now.seen }
    ensures totals { result.totals ≡ totals_of copy.now.table }
{
    let seen = copy.seen.again();
    FoundTotals {
        totals: copy.table.totals(),
        seen,
    }
}

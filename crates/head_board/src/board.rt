ghost use Rattle.std.specs.Prelude.{◌≡◌, ◌+◌, ◌<◌, ◌≤◌, ◌^◌, ◌++◌, ◌∷◌, [], drop, fold, length, IfOk, true};
ghost use mathlib.Core.List.{IsPrefix};
ghost use Rattle.head_board.specs.Board.{BoardView, new_reader};
ghost use Rattle.head_board.specs.declared.board_copy.Note.TheVariants.{More};
ghost use Rattle.head_board.specs.declared.coming_texts.ComingTexts.{ComingTexts};
ghost use Rattle.head_board.specs.Events.{IsNoteOfEvent, book_at, event_of};
ghost use Rattle.head_board.specs.inside.BoardRule.{IsAtRest, IsBegun};
ghost use Rattle.head_board.specs.inside.ComingTexts.{text_in, text_room};
ghost use Rattle.head_board.specs.inside.Showing.{change_with, noted, view_of, with_note, Fits, IsCurrent, IsNext, WithTexts};
ghost use Rattle.left_right.specs.Sides.{view as known_at};
ghost use Rattle.upload_book.specs.Change.{CanBeMade};

use crate::board_copy::{Added, BoardCopy, Note, SmallChange};
use crate::coming_texts::{ComingTexts, PIECE, TextField};
use crate::event::Coming;
use crate::event_log::{LogWord, Opened, SeenEvents};
use crate::head_reader::HeadReader;
use crate::head_table::HeadTable;
use crate::last_changes::LastChanges;
use crate::showing::{Begins, BoardWriter, Learns, Publishes, Tells};
use core::mem::replace_with;
use std::alloc::{AllocError, Global};
use std::marker::Model;
use std::sync::Wait;
use tus_text::Text;
use upload_book::{HeadNote, HeadRow, NotedChange, RowRef, Settings, SharedRow, SharedRowRef};

/// The heads of a book as they are shown to readers, who need no lock. This is the writer's side. A contract sees the
/// settings of the book, which log its events are in, and all events that were shown.
pub struct Board<W: Wait + Drop> {
    rt: W,
    word: LogWord,
    seen: SeenEvents,
    writer: BoardWriter,
}

impl<W: Wait + Drop> Model for Board<W> {
    ghost use Rattle.std.specs.Prelude.{drop};
    ghost use Rattle.head_board.specs.Board.{BoardView};
    ghost use Rattle.head_board.specs.inside.BoardRule.{IsBoard};
    ghost use Rattle.left_right.specs.Sides.{view as known_at};

    ghost Value = { BoardView };

    ghost view = { λ b. record {
      settings = b.writer.desk.shown.value.table.settings;
      log = b.seen.book;
      events = b.seen.events;
    } };

    ghost invariant = { λ b. IsBoard b.writer.desk.shown.value (known_at b.writer.desk.place)
        (drop b.writer.behind b.writer.log.items) b.seen b.word };
}

impl<W: Wait + Drop> Board<W> {
    /// A board that shows the heads of a new book of these settings, with room for so many readers. All memory is taken
    /// here, that for the notes of later lines too; the error is that there was too little.
    pub fn new(
        alloc: Global,
        rt: W,
        settings: &Settings,
        readers: usize,
        opened: Opened,
    ) -> Result<Board<W>, AllocError>
        requires { (0 < readers) × (readers < 2 ^ 32) }
        ensures { IfOk result (λ b. b ≡ record { settings = settings.now; log = opened.seen.book; events = [] }) }
    {
        // the contract of this call tells that the settings have no fault
        let _sound = settings.numbers();
        let Opened { word, seen } = opened;
        let first = BoardCopy {
            table: HeadTable::new(alloc, settings)?,
            seen: seen.again(),
            last_changes: LastChanges::new(alloc, &seen)?,
            coming: ComingTexts::new(),
        };
        let second = BoardCopy {
            table: HeadTable::new(alloc, settings)?,
            seen: seen.again(),
            last_changes: LastChanges::new(alloc, &seen)?,
            coming: ComingTexts::new(),
        };
        let writer = BoardWriter::new(alloc, first, second, readers)?;
        let (writer, begun) = begun(&rt, writer);
        if !begun {
            drop(writer.take(&rt));
            return Err(AllocError);
        }
        Ok(Board {
            rt,
            word,
            seen,
            writer,
        })
    }

    /// Shows what will have happened once a change is made that the book may be asked for and is ready for, by the note of what
    /// it changes of the heads: who reads from now on sees it. It waits for readers that still read the older copy.
    ///
    /// Nothing is shown in part, and no memory is taken: room for the notes of two events was made by [`Board::new`], and
    /// there are never more; and where there is no box for the texts of a new upload, its note shares them. Were a note or one
    /// more owner of these texts refused all the same, it would wait until there is room for it, and it waits until the log has
    /// no more events than the board. No run waits for any of it, but no contract of the log, of the list of notes or of
    /// `Arc` tells that.
    pub fn show(&mut self, coming: &Coming, note: &HeadNote)
        requires asked { CanBeMade (length self.old.settings.tenants) (event_of coming.now).change }
        requires note { IsNoteOfEvent (book_at self.old.settings self.old.events) (event_of coming.now) note.now }
        ensures { self.new ≡ record self.old { events = self.old.events ++ event_of coming.now ∷ [] } }
    {
        let after = self.seen.with(&self.rt, &self.word, coming);
        let next = after.again();
        let work = Work {
            rt: &self.rt,
            note,
            after,
        };
        replace_with(&mut self.writer, work, shown);
        self.seen = next;
    }

    /// The events that were shown.
    pub fn seen(&self) -> &SeenEvents
        ensures { result.now ≡ record { book = self.now.log; events = self.now.events } }
    {
        &self.seen
    }

    /// Shows a reader of this board all events that were shown so far. It waits until these begin with those that the
    /// reader has seen. No run has to wait for that, since a reader sees only what was shown.
    pub fn show_to(&self, reader: &mut HeadReader)
        requires { reader.old.log ≡ self.now.log }
        ensures begins { IsPrefix reader.old.events self.now.events }
        ensures seen { reader.new ≡ record reader.old { events = self.now.events } }
    {
        self.wait_for(reader.seen());
        reader.learn(self.seen.again());
    }

    // Waits until the events that were shown begin with these.
    fn wait_for(&self, seen: &SeenEvents)
        requires { seen.now.book ≡ self.now.log }
        ensures { IsPrefix seen.now.events self.now.events }
    {
        for _ in self.rt.forever() {
            if seen.begins(&self.seen) {
                return;
            }
        }
        unreachable!()
    }

    /// A new reader of the board, which has seen all events that were shown, and has not missed the board; with a place for
    /// the rows that it reads. The error is that there are as many readers as there is room for, or that memory was lacking.
    pub fn reader(&mut self, row: Box<HeadRow>) -> Result<HeadReader, AllocError>
        ensures reader { IfOk result (λ r. r ≡ new_reader self.old) }
        ensures board { self.new ≡ self.old }
    {
        let mut reader = self.writer.factory().reader()?;
        reader.learn::<Learns>(self.writer.tell::<Tells>());
        Ok(HeadReader::new(reader, row, self.seen.again()))
    }
}

impl<W: Wait + Drop> Drop for Board<W> {
    fn drop(self) {
        let Self {
            rt,
            word: _,
            seen: _,
            writer,
        } = self;
        drop(writer.take(&rt));
    }
}

// The most notes of one event: the texts of a new upload come in pieces, the last of which may be short, after a note
// that begins them and before the change.
const MOST_NOTES: usize = 4 + 1024 / PIECE + 2048 / PIECE;

// Shows the first copy twice more: so the writer knows which board it is, and has room for the notes of two events. Says
// whether it did.
fn begun<R: Wait>(rt: &R, writer: BoardWriter) -> (BoardWriter, bool)
    requires current { IsCurrent writer.desk.shown.value }
    requires pending { drop writer.behind writer.log.items ≡ [] }
    ensures { IsBegun result.1 writer.desk.shown.value result.0.desk.shown.value (known_at result.0.desk.place)
        (drop result.0.behind result.0.log.items) }
{
    let (mut writer, done) = shown_first(rt, writer);
    if !done {
        return (writer, false);
    }
    if !make_room(&mut writer) {
        return (writer, false);
    }
    (published(rt, writer), true)
}

// Shows the first copy once more, so that the writer knows which board it is. Says whether it did.
fn shown_first<R: Wait>(rt: &R, mut writer: BoardWriter) -> (BoardWriter, bool)
    requires current { IsCurrent writer.desk.shown.value }
    requires pending { drop writer.behind writer.log.items ≡ [] }
    ensures { IsBegun result.1 writer.desk.shown.value result.0.desk.shown.value (known_at result.0.desk.place)
        (drop result.0.behind result.0.log.items) }
{
    if !make_room(&mut writer) {
        return (writer, false);
    }
    let (writer, published) = writer.publish_as::<Begins, R>(rt);
    (writer, published.is_ok())
}

// Adds notes of nothing to those that are to be shown, as many as an event has at most. Says whether it added all.
fn make_room(writer: &mut BoardWriter) -> bool
    ensures desk { writer.new.desk ≡ writer.old.desk }
    ensures next { fold noted writer.new.desk.shown.value (drop writer.new.behind writer.new.log.items)
        ≡ fold noted writer.old.desk.shown.value (drop writer.old.behind writer.old.log.items) }
{
    for _ in 0..MOST_NOTES {
        if writer.append(Note::Nothing).is_err() {
            return false;
        }
    }
    true
}

// What an event changes and the events with it, and the handle by which the writer waits.
struct Work<'a, 'b, R> {
    rt: &'a R,
    note: &'a HeadNote<'b>,
    after: SeenEvents,
}

// Notes for both copies what an event changes, and shows the one with it.
fn shown<R: Wait>(mut writer: BoardWriter, work: Work<'_, '_, R>) -> (BoardWriter, ())
    requires rest { IsAtRest writer.desk.shown.value (known_at writer.desk.place) (drop writer.behind writer.log.items) }
    requires next { (texts : ComingTexts) → IsNext writer.desk.shown.value
        (record (with_note writer.desk.shown.value work.note.now work.after) { coming = texts }) }
    ensures rest { IsAtRest result.0.desk.shown.value (known_at result.0.desk.place) (drop result.0.behind result.0.log.items) }
    ensures next { IsNext writer.desk.shown.value result.0.desk.shown.value }
    ensures seen { result.0.desk.shown.value.seen ≡ work.entry.after }
{
    let Work { rt, note, after } = work;
    let change = note_change(rt, &mut writer, &note.change);
    let added = Added {
        change,
        accounts: note.accounts,
        after,
    };
    note_down(rt, &mut writer, Note::Adds(added));
    (published(rt, writer), ())
}

// A change without its texts, of which both copies are told before.
fn note_change<R: Wait>(rt: &R, writer: &mut BoardWriter, change: &NotedChange) -> SmallChange
    ensures desk { writer.new.desk ≡ writer.old.desk }
    ensures same { WithTexts (fold noted writer.old.desk.shown.value (drop writer.old.behind writer.old.log.items))
        (fold noted writer.new.desk.shown.value (drop writer.new.behind writer.new.log.items)) }
    ensures change { change_with (fold noted writer.new.desk.shown.value (drop writer.new.behind writer.new.log.items)).coming
        result ≡ change.now }
{
    match change {
        NotedChange::Created(tenant, row) => {
            note_texts(rt, writer, row);
            SmallChange::Created(*tenant, row.kind(), row.growth())
        }
        NotedChange::Shared(tenant, row) => SmallChange::Shared(*tenant, owned(rt, row)),
        NotedChange::Grown(name, growth) => SmallChange::Grown(*name, *growth),
        NotedChange::Gone(name) => SmallChange::Gone(*name),
        NotedChange::Swept(now) => SmallChange::Swept(*now),
        NotedChange::Next(name) => SmallChange::Next(*name),
        NotedChange::Totals => SmallChange::Totals,
    }
}

// The row of a new upload as one more owner of its texts, as soon as there may be one.
fn owned<R: Wait>(rt: &R, row: &SharedRowRef) -> SharedRow
    ensures { result ≡ row.now }
{
    for _ in rt.forever() {
        if let Ok(owned) = row.owned() {
            return owned;
        }
    }
    unreachable!()
}

// Tells both copies the texts of a new upload.
fn note_texts<R: Wait>(rt: &R, writer: &mut BoardWriter, row: &RowRef)
    ensures desk { writer.new.desk ≡ writer.old.desk }
    ensures texts { fold noted writer.new.desk.shown.value (drop writer.new.behind writer.new.log.items)
        ≡ record (fold noted writer.old.desk.shown.value (drop writer.old.behind writer.old.log.items)) {
          coming = record { metadata = row.now.metadata; concat = row.now.concat };
        } }
{
    note_down(rt, writer, Note::NoTexts);
    note_text(rt, writer, TextField::Metadata, row.metadata());
    note_text(rt, writer, TextField::Concat, row.concat());
}

// Tells both copies one of the texts, piece by piece.
fn note_text<R: Wait>(rt: &R, writer: &mut BoardWriter, field: TextField, text: &[u8])
    requires { length (text_in (fold noted writer.old.desk.shown.value (drop writer.old.behind writer.old.log.items)).coming field)
        + length text.now ≤ text_room field }
    ensures desk { writer.new.desk ≡ writer.old.desk }
    ensures text { fold noted writer.new.desk.shown.value (drop writer.new.behind writer.new.log.items)
        ≡ noted (fold noted writer.old.desk.shown.value (drop writer.old.behind writer.old.log.items)) (More field text.now) }
{
    let mut rest = text;
    while !rest.is_empty() {
        let (piece, more) = rest.split_at(rest.len().min(PIECE));
        note_down(rt, writer, Note::More(field, Text::of(piece)));
        rest = more;
    }
}

// Adds a note to those that are to be shown, as soon as there is room for it.
fn note_down<R: Wait>(rt: &R, writer: &mut BoardWriter, mut note: Note)
    ensures desk { writer.new.desk ≡ writer.old.desk }
    ensures next { fold noted writer.new.desk.shown.value (drop writer.new.behind writer.new.log.items)
        ≡ noted (fold noted writer.old.desk.shown.value (drop writer.old.behind writer.old.log.items)) note }
{
    for _ in rt.forever() {
        match writer.append(note) {
            Ok(()) => return,
            Err(refused) => note = refused,
        }
    }
    unreachable!()
}

// Shows the copy with what was noted, as soon as both copies could do it.
fn published<R: Wait>(rt: &R, mut writer: BoardWriter) -> BoardWriter
    requires knows { (known_at writer.desk.place).knows ≡ true }
    requires fits { Fits (known_at writer.desk.place) writer.desk.shown.value }
    requires next { IsNext writer.desk.shown.value (fold noted writer.desk.shown.value (drop writer.behind writer.log.items)) }
    ensures rest { IsAtRest result.desk.shown.value (known_at result.desk.place) (drop result.behind result.log.items) }
    ensures value { result.desk.shown.value ≡ fold noted writer.desk.shown.value (drop writer.behind writer.log.items) }
{
    for _ in rt.forever() {
        let (shown, published) = writer.publish_as::<Publishes, R>(rt);
        if published.is_ok() {
            return shown;
        }
        writer = shown;
    }
    unreachable!()
}

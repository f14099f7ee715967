//! A board and its readers.

ghost use Rattle.std.specs.Prelude.{◌≡◌, ◌<◌, ◌^◌, ℕ};
ghost use Rattle.head_board.specs.Events.{book_at};
ghost use Rattle.upload_book.specs.Book.{plain_of};
ghost use Rattle.upload_book.specs.Change.{CanBeMade};

use crate::moments::moment;
use crate::tables::{assert_shown, name, narrow};
use head_board::{Board, Coming, HeadReader, Opened, SeenEvents};
use std::alloc::{AllocError, Global};
use std::process::Abort;
use std::sync::Wait;
use std::test::Fail;
use upload_book::{Book, Change, FirstChunk, HeadRow, NewUpload, Payload, Refusal, Settings};
use worked_example::settings;

// A place for the rows of a reader.
fn place(alloc: Global) -> Result<Box<HeadRow>, AllocError> {
    Ok(Box::new(alloc, HeadRow::empty())?)
}

// A new book of these settings, and its board with room for so many readers.
fn opened<'a, W: Wait + Abort>(
    rt: &'a W,
    alloc: Global,
    settings: Settings,
    readers: usize,
) -> (Board<&'a W>, Book)
    requires { (0 < readers) × (readers < 2 ^ 32) }
    ensures { plain_of result.1 ≡ book_at result.0.settings result.0.events }
{
    let board = Board::new(alloc, rt, &settings, readers, Opened::new());
    let board = board.expect(rt, "a board");
    let book = Book::new(alloc, settings).expect(rt, "a book");
    (board, book)
}

// A reader finds the offset of acme's first upload, or why there is none.
fn assert_seen(rt: &impl Abort, reader: &mut HeadReader, expected: Result<u64, Refusal>) {
    let mut row = HeadRow::empty();
    let read = reader.look(&name(0, 1), moment(rt, 1000), &mut row);
    let progress = reader.progress(&name(0, 1), moment(rt, 1000));
    let so_far = progress.expect(rt, "entered");
    assert!(rt; so_far.map(|progress| progress.offset) == expected);
    let expected = expected.map(|offset| (offset, &b""[..]));
    let found = read.expect(rt, "entered").map(|()| row.lent());
    assert_shown(rt, &found, expected);
}

// The creation of an upload that begins with five bytes.
fn creation() -> Change<'static>
    ensures { (tenants : ℕ) → 0 < tenants → CanBeMade tenants result }
{
    let new = NewUpload {
        partial: false,
        length: Some(10),
        metadata: b"",
        concat: b"",
    };
    let first = FirstChunk {
        typed: true,
        check: None,
        bytes: Payload::new(b"hello"),
        more: 0,
    };
    Change::Create {
        tenant: 0,
        new,
        first,
    }
}

// Makes a change of a book whose board has shown all that happened to it, and shows it.
fn make<W: Wait + Drop>(
    rt: &impl Abort,
    board: &mut Board<W>,
    book: &mut Book,
    change: Change,
    secs: u64,
)
    requires can { (tenants : ℕ) → 0 < tenants → CanBeMade tenants change }
    requires book { plain_of book.old ≡ book_at board.old.settings board.old.events }
    ensures book { plain_of book.new ≡ book_at board.new.settings board.new.events }
    ensures log { board.new.log ≡ board.old.log }
{
    assert!(rt; book.settings().tenant_count() > 0);
    let ready = book.prepare(change, moment(rt, secs));
    let ready = ready.expect(rt, "a book with room");
    let note = ready.note(book);
    board.show(
        &Coming {
            desk: 0,
            ready: &ready,
        },
        &note,
    );
    let _ = book.commit(ready);
}

// Makes two uploads of acme, and gives what had happened once the first was made.
fn make_two<W: Wait + Drop>(rt: &impl Abort, board: &mut Board<W>, book: &mut Book) -> SeenEvents
    requires { plain_of book.old ≡ book_at board.old.settings board.old.events }
    ensures book { plain_of book.new ≡ book_at board.new.settings board.new.events }
    ensures log { board.new.log ≡ board.old.log }
    ensures first { result.book ≡ board.old.log }
{
    make(rt, board, book, creation(), 1000);
    let first = board.seen().again();
    make(rt, board, book, creation(), 1000);
    first
}

// After a look at an upload of acme a reader has seen these events, no fewer and no more.
fn assert_rests(rt: &impl Abort, reader: &mut HeadReader, id: u64, expected: &SeenEvents)
    requires { expected.now.book ≡ reader.old.log }
    ensures { reader.new.log ≡ reader.old.log }
{
    let read = reader.look(&name(0, id), moment(rt, 1000), &mut HeadRow::empty());
    assert!(rt; read.is_some());
    assert!(rt; reader.seen().begins(expected));
    assert!(rt; expected.begins(reader.seen()));
}

#[test]
fn readers_see_what_is_shown(rt: HostRuntime) -> Result<(), Fail> {
    let (mut board, mut book) = opened(&rt, rt.alloc(), settings()?, 2);
    let mut one = board.reader(place(rt.alloc())?)?;
    let mut other = board.reader(place(rt.alloc())?)?;
    assert_seen(&rt, &mut one, Err(Refusal::Unknown));
    make(&rt, &mut board, &mut book, creation(), 1000);
    assert_seen(&rt, &mut one, Ok(5));
    assert_seen(&rt, &mut other, Ok(5));
    assert!(rt; !one.may_expire(moment(&rt, 4599)));
    assert!(rt; one.may_expire(moment(&rt, 4600)));
    let totals = one.totals().expect(&rt, "entered");
    assert!(rt; totals.uploads[0] == 1);
    assert!(rt; totals.accounts.charge[0] == 2);
    assert!(rt; totals.accounts.charged == 2);
    drop(board);
    assert!(rt; one.totals().is_none());
    assert!(rt;
        one.look(&name(0, 1), moment(&rt, 1000), &mut HeadRow::empty())
            .is_none()
    );
    assert!(rt; one.progress(&name(0, 1), moment(&rt, 1000)).is_none());
    Ok(())
}

#[test]
fn readers_see_uploads_without_a_box(rt: HostRuntime) -> Result<(), Fail> {
    let (mut board, mut book) = opened(&rt, rt.alloc(), narrow(65, 9)?, 1);
    let mut reader = board.reader(place(rt.alloc())?)?;
    make_two(&rt, &mut board, &mut book);
    assert_seen(&rt, &mut reader, Ok(5));
    drop(book);
    assert_seen(&rt, &mut reader, Ok(5));
    Ok(())
}

#[test]
fn a_look_rests_on_what_changed_its_upload(rt: HostRuntime) -> Result<(), Fail> {
    let (mut board, mut book) = opened(&rt, rt.alloc(), settings()?, 1);
    let mut reader = board.reader(place(rt.alloc())?)?;
    let first = make_two(&rt, &mut board, &mut book);
    assert!(rt; !board.seen().begins(&first));
    assert_rests(&rt, &mut reader, 1, &first);
    assert_rests(&rt, &mut reader, 2, board.seen());
    Ok(())
}

#[test]
fn a_look_sees_that_its_upload_has_ended(rt: HostRuntime) -> Result<(), Fail> {
    let (mut board, mut book) = opened(&rt, rt.alloc(), settings()?, 1);
    let mut reader = board.reader(place(rt.alloc())?)?;
    make_two(&rt, &mut board, &mut book);
    make(
        &rt,
        &mut board,
        &mut book,
        Change::Terminate(name(0, 2)),
        1000,
    );
    assert_rests(&rt, &mut reader, 2, board.seen());
    make(&rt, &mut board, &mut book, Change::Sweep, 4600);
    assert_rests(&rt, &mut reader, 1, board.seen());
    Ok(())
}

// There is room for one more reader of a board.
fn has_room<W: Wait + Drop>(alloc: Global, board: &mut Board<W>) -> Result<bool, AllocError> {
    Ok(board.reader(place(alloc)?).is_ok())
}

#[test]
fn a_board_has_room_for_its_readers(rt: HostRuntime) -> Result<(), Fail> {
    let mut board = Board::new(rt.alloc(), &rt, &settings()?, 1, Opened::new())?;
    let reader = board.reader(place(rt.alloc())?)?;
    assert!(rt; !has_room(rt.alloc(), &mut board)?);
    drop(reader);
    assert!(rt; has_room(rt.alloc(), &mut board)?);
    Ok(())
}

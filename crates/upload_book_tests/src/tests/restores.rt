//! A book that is put back, piece by piece, beside the one that it was.

ghost use Rattle.std.specs.Prelude.{◌≡◌, ℕ, ◌<◌, List, [], ◌∷◌, Some, length};
ghost use Rattle.upload_book.specs.Book.{plain_of};
ghost use Rattle.upload_book.specs.declared.head_row.Kind.TheVariants.{Final};
ghost use Rattle.upload_book.specs.snapshot.Restore.{CanBePutBack, HasSegments, IsRestorable};

use crate::tests::books::{ACME, acme, create, end, join, moment, new_book, numbers, part, send};
use crate::tests::plain::PlainRow;
use crate::tests::restores::Piece::{Joined, Next, Own, Totals};
use std::alloc::Global;
use std::process::Abort;
use tus_text::{Concat, read_concat};
use upload_book::{
    Accounts, BoardLine, Book, ByteSpan, Change, HeadChange, HeadRow, Kind, Moment, Numbers,
    Outcome, Refusal, Restored, RestoredSegment, RestoredUpload,
};
use worked_example::NUMBERS;

/// A piece that is put back.
enum Piece {
    /// An upload of acme's own: its id, whether it is a part, its length, its bytes and the second at which it expires.
    Own(u64, bool, Option<u64>, &'static [u8], Option<u64>),
    /// A final upload of acme of two parts: its id, its length, both parts, and the second at which it expires.
    Joined(u64, u64, Part, Part, Option<u64>),
    /// Acme's next id.
    Next(u64),
    /// How many blocks were released.
    Totals(u64),
}

/// A part: its id, and the bytes that it brings.
type Part = (u64, Option<&'static [u8]>);

/// A piece, and why it is not put back, if it is not.
type Step = (Piece, Option<Refusal>);

// An upload of its own that is put back with this segment, without metadata.
fn own_upload<'a>(
    partial: bool,
    id: u64,
    declared: Option<u64>,
    segments: &'a [RestoredSegment<'a>],
    expires: Option<Moment>,
) -> RestoredUpload<'a>
    requires { (bytes : List ℕ) × (segments.now ≡ record { origin = id; bytes = Some bytes } ∷ []) }
    ensures { IsRestorable result }
{
    if partial {
        RestoredUpload {
            id,
            kind: Kind::Partial,
            declared,
            segments,
            metadata: b"",
            concat: b"partial",
            expires,
        }
    } else {
        RestoredUpload {
            id,
            kind: Kind::Plain,
            declared,
            segments,
            metadata: b"",
            concat: b"",
            expires,
        }
    }
}

// Puts back a piece, where it is not refused. Its line tells before what HEADs tell then, and what is charged.
fn put_back(rt: &impl Abort, book: &mut Book, piece: Restored) -> Result<(), Refusal>
    requires { CanBePutBack (length (plain_of book.old).settings.tenants) piece }
{
    match book.prepare(Change::Restore(piece), moment(rt, 1000)) {
        Ok(ready) => {
            let line = ready.line(book);
            assert!(rt; book.commit(ready) == Outcome::Restored);
            assert_told(rt, book, line);
            Ok(())
        }
        Err(refused) => {
            assert!(rt; refused.expires.is_none());
            Err(refused.refusal)
        }
    }
}

// The book has the accounts of a line, and a HEAD tells the row that it puts.
fn assert_told(rt: &impl Abort, book: &Book, line: BoardLine) {
    assert!(rt; book.accounts() == line.accounts);
    if let HeadChange::Put(name, row) = line.change {
        let told = book.look(&name, moment(rt, 1000)).expect(rt, "a row");
        assert_row(rt, &told, &row);
    }
}

// Asserts that a HEAD told this row.
fn assert_row(rt: &impl Abort, told: &HeadRow, row: &HeadRow) {
    assert!(rt;
        (told.kind, told.offset, told.declared, told.expires)
            == (row.kind, row.offset, row.declared, row.expires)
    );
    assert!(rt; told.metadata.as_slice() == row.metadata.as_slice());
    assert!(rt; told.concat.as_slice() == row.concat.as_slice());
}

// Puts back an upload of acme's own.
fn restore_own(
    rt: &impl Abort,
    book: &mut Book,
    id: u64,
    partial: bool,
    declared: Option<u64>,
    bytes: &[u8],
    expires: Option<u64>,
) -> Result<(), Refusal> {
    let tenant = book.settings().tenant(ACME).expect(rt, "acme");
    let segments = [RestoredSegment {
        origin: id,
        bytes: Some(bytes),
    }];
    let expires = expires.and_then(Moment::new);
    let upload = own_upload(partial, id, declared, &segments, expires);
    put_back(rt, book, Restored::Upload { tenant, upload })
}

// The segment of a part of a final upload of this id.
fn part_segment(rt: &impl Abort, id: u64, part: Part) -> RestoredSegment<'static>
    ensures some { 0 < result.origin }
    ensures earlier { result.origin < id }
{
    let (origin, bytes) = part;
    assert!(rt; 0 < origin && origin < id);
    RestoredSegment { origin, bytes }
}

// Puts back a final upload of acme.
fn restore_final(
    rt: &impl Abort,
    book: &mut Book,
    id: u64,
    declared: u64,
    first: Part,
    second: Part,
    expires: Option<u64>,
) -> Result<(), Refusal> {
    let tenant = book.settings().tenant(ACME).expect(rt, "acme");
    let segments = [part_segment(rt, id, first), part_segment(rt, id, second)];
    let expires = expires.and_then(Moment::new);
    let upload = final_upload(rt, id, declared, &segments, expires);
    put_back(rt, book, Restored::Upload { tenant, upload })
}

// Puts back acme's next id.
fn restore_next(rt: &impl Abort, book: &mut Book, next: u64) -> Result<(), Refusal> {
    let tenant = book.settings().tenant(ACME).expect(rt, "acme");
    put_back(rt, book, Restored::Next { tenant, next })
}

fn restore(rt: &impl Abort, book: &mut Book, piece: &Piece) -> Result<(), Refusal> {
    match piece {
        Own(id, partial, declared, bytes, expires) => {
            restore_own(rt, book, *id, *partial, *declared, bytes, *expires)
        }
        Joined(id, declared, first, second, expires) => {
            restore_final(rt, book, *id, *declared, *first, *second, *expires)
        }
        Next(next) => restore_next(rt, book, *next),
        Totals(released) => put_back(
            rt,
            book,
            Restored::Totals {
                released: *released,
            },
        ),
    }
}

// Whether a piece is put back, or not, as the step says. What is refused changes neither what HEADs tell nor the accounts.
fn goes(rt: &impl Abort, book: &mut Book, step: &Step) -> bool {
    let before = seen(rt, book);
    let (piece, refusal) = step;
    let refused = restore(rt, book, piece).err();
    refused == *refusal && (refused.is_none() || seen(rt, book) == before)
}

// Takes a book through these steps.
fn take_steps(rt: &impl Abort, book: &mut Book, steps: &[Step]) {
    for (place, step) in steps.iter().enumerate() {
        assert!(rt; goes(rt, book, step), "piece {place}");
    }
}

// A new book after these steps.
fn book_after(rt: &impl Abort, alloc: Global, numbers: Numbers, steps: &[Step]) -> Book {
    let mut book = new_book(rt, alloc, numbers);
    take_steps(rt, &mut book, steps);
    book
}

// Takes a new book through these steps.
fn run(rt: &impl Abort, alloc: Global, numbers: Numbers, steps: &[Step]) {
    book_after(rt, alloc, numbers, steps);
}

// What HEADs tell at second 1000 of acme's first uploads, without their texts.
fn told(rt: &impl Abort, book: &Book) -> [Result<PlainRow, Refusal>; 7] {
    let mut rows = [Err(Refusal::Unknown); 7];
    for place in 0..7 {
        rows[place] = match book.look(&acme(place as u64), moment(rt, 1000)) {
            Ok(row) => {
                let expires = row.expires.map(Moment::secs);
                Ok((row.kind, row.offset, row.declared, expires))
            }
            Err(refusal) => Err(refusal),
        };
    }
    rows
}

// The same, and the accounts.
fn seen(rt: &impl Abort, book: &Book) -> ([Result<PlainRow, Refusal>; 7], Accounts) {
    (told(rt, book), book.accounts())
}

// A book of acme with uploads of each kind of its own, of which the second has ended.
pub(crate) fn requested(rt: &impl Abort, alloc: Global) -> Book {
    let mut book = new_book(rt, alloc, NUMBERS);
    for length in [Some(10), Some(4), None, Some(2)] {
        create(rt, &mut book, ACME, length);
    }
    send(rt, &mut book, 1, b"hello");
    send(rt, &mut book, 2, b"gone");
    send(rt, &mut book, 4, b"hi");
    end(rt, &mut book, 2);
    part(rt, &mut book, b"abcde");
    book
}

// What puts it back.
static PIECES: [Step; 10] = [
    (Next(1), None),
    (Own(1, false, Some(10), b"hello", Some(4600)), None),
    (Next(3), None),
    (Own(3, false, None, b"", Some(4600)), None),
    (Next(4), None),
    (Own(4, false, Some(2), b"hi", None), None),
    (Next(5), None),
    (Own(5, true, Some(5), b"abcde", Some(4600)), None),
    (Next(6), None),
    (Totals(1), None),
];

// Asserts that HEADs tell the same of both books, and that these have the same accounts, ends and free blocks.
fn assert_alike(rt: &impl Abort, book: &Book, was: &Book) {
    assert!(rt; told(rt, book) == told(rt, was));
    assert!(rt; book.accounts() == was.accounts());
    assert!(rt; book.expiries() == was.expiries());
    assert!(rt; book.free_blocks() == was.free_blocks());
}

// Asserts that a book is put back by these steps.
fn assert_put_back(rt: &impl Abort, alloc: Global, was: &Book, steps: &[Step]) {
    let book = book_after(rt, alloc, NUMBERS, steps);
    assert_alike(rt, &book, was);
}

#[test]
fn a_book_is_put_back(rt: HostRuntime) {
    let was = requested(&rt, rt.alloc());
    assert_put_back(&rt, rt.alloc(), &was, &PIECES);
}

// What is not put back where acme may have two uploads, ids up to 9, and as many blocks charged in all.
static REFUSED: [Step; 17] = [
    (Own(1, false, None, b"", Some(4600)), None),
    (Own(1, false, None, b"", Some(4600)), Some(Refusal::Field)),
    (
        Own(2, false, Some(2), b"hi", Some(4600)),
        Some(Refusal::Field),
    ),
    (Own(2, false, Some(3), b"hi", None), Some(Refusal::Field)),
    (Own(2, true, Some(2), b"hi", None), Some(Refusal::Field)),
    (
        Own(2, false, Some(1), b"hi", Some(4600)),
        Some(Refusal::TooLong),
    ),
    (
        Own(2, false, Some(65), b"hi", Some(4600)),
        Some(Refusal::TooLong),
    ),
    (Own(3, false, None, b"hi", Some(4600)), Some(Refusal::Field)),
    (
        Own(
            2,
            false,
            None,
            b"0123456789012345678901234567890123",
            Some(4600),
        ),
        Some(Refusal::Quota),
    ),
    // next ids and totals, and the last total, which is put back
    (Next(1), Some(Refusal::Field)),
    (Next(11), Some(Refusal::Spent)),
    (Totals(10), Some(Refusal::Spent)),
    (Totals(9), None),
    (Totals(8), Some(Refusal::Field)),
    (Own(2, false, None, b"x", Some(4600)), Some(Refusal::Spent)),
    (Own(2, false, None, b"", Some(4600)), None),
    (Own(3, false, None, b"", Some(4600)), Some(Refusal::Uploads)),
];

#[test]
fn what_is_not_put_back(rt: HostRuntime) {
    run(
        &rt,
        rt.alloc(),
        numbers!(uploads: 2, last_id: 9, last_total: 9),
        &REFUSED,
    );
}

// The last id is 9.
static LAST_IDS: [Step; 4] = [
    (Own(10, false, None, b"", Some(4600)), Some(Refusal::Field)),
    (Next(10), None),
    (Own(10, false, None, b"", Some(4600)), Some(Refusal::Spent)),
    (Next(9), Some(Refusal::Field)),
];

#[test]
fn ids_that_are_not_put_back(rt: HostRuntime) {
    run(&rt, rt.alloc(), numbers!(last_id: 9), &LAST_IDS);
}

// A final upload that is put back with these segments, without metadata. The book keeps its text, and does not read it.
fn final_upload<'a>(
    rt: &impl Abort,
    id: u64,
    declared: u64,
    segments: &'a [RestoredSegment<'a>],
    expires: Option<Moment>,
) -> RestoredUpload<'a>
    requires { HasSegments Final id segments.now }
    ensures form { IsRestorable result }
    ensures kind { result.kind ≡ Final }
{
    let concat = b"final;/files/acme/1";
    let Some(Concat::Final(_)) = read_concat(concat) else {
        panic!(rt; "a concat text");
    };
    RestoredUpload {
        id,
        kind: Kind::Final,
        declared: Some(declared),
        segments,
        metadata: b"",
        concat,
        expires,
    }
}

// A book of acme with a final upload of one part twice and one of it and another, whose parts have ended, and with one of a
// part that stands.
pub(crate) fn joined(rt: &impl Abort, alloc: Global) -> Book {
    let mut book = new_book(rt, alloc, NUMBERS);
    part(rt, &mut book, b"abcde");
    part(rt, &mut book, b"fg");
    for parts in [[Some(1), Some(1)], [Some(1), Some(2)]] {
        join(rt, &mut book, &parts);
    }
    end(rt, &mut book, 1);
    end(rt, &mut book, 2);
    part(rt, &mut book, b"hi");
    join(rt, &mut book, &[Some(5), Some(5)]);
    book
}

// What puts it back: of each part that has ended the bytes come once.
static FINAL_PIECES: [Step; 8] = [
    (Next(3), None),
    (Joined(3, 10, (1, Some(b"abcde")), (1, None), None), None),
    (Next(4), None),
    (Joined(4, 7, (1, None), (2, Some(b"fg")), None), None),
    (Own(5, true, Some(2), b"hi", Some(4600)), None),
    (Joined(6, 4, (5, None), (5, None), None), None),
    (Next(7), None),
    (Totals(0), None),
];

// How many uploads acme has.
fn count(rt: &impl Abort, book: &Book) -> u64 {
    let acme = book.settings().tenant(ACME).expect(rt, "acme");
    book.upload_count(acme)
}

// Asserts that an upload has the same bytes in both books, in blocks that as many hold.
fn assert_same(rt: &impl Abort, book: &Book, was: &Book, id: u64) {
    let name = acme(id);
    let now = moment(rt, 1000);
    let all = ByteSpan::front(u64::MAX);
    let bytes = book.content(&name, now, all, book.none_begun());
    let bytes = bytes.expect(rt, "bytes");
    let before = was.content(&name, now, all, was.none_begun());
    let before = before.expect(rt, "bytes");
    assert!(rt; bytes.as_slice() == before.as_slice());
    assert!(rt; book.holders(&name, 0, 0) == was.holders(&name, 0, 0));
    assert!(rt; book.holders(&name, 1, 0) == was.holders(&name, 1, 0));
}

// Asserts that a book with four finals and parts is put back by these steps.
fn assert_finals_put_back(rt: &impl Abort, alloc: Global, was: &Book, steps: &[Step]) {
    let book = book_after(rt, alloc, NUMBERS, steps);
    assert_alike(rt, &book, was);
    assert!(rt; count(rt, &book) == 4);
    for id in 3..7 {
        assert_same(rt, &book, was, id);
    }
}

#[test]
fn finals_are_put_back(rt: HostRuntime) {
    let was = joined(&rt, rt.alloc());
    assert_finals_put_back(&rt, rt.alloc(), &was, &FINAL_PIECES);
}

// Acme's part 1 of 5 bytes and its part 2, which lacks some. Behind them 4 is the next id.
static PARTS: [Step; 3] = [
    (Own(1, true, Some(5), b"abcde", Some(4600)), None),
    (Own(2, true, Some(9), b"fg", Some(4600)), None),
    (Next(4), None),
];

// Takes a new book through these steps, behind these parts.
fn run_behind_parts(rt: &impl Abort, alloc: Global, numbers: Numbers, steps: &[Step]) {
    let mut book = book_after(rt, alloc, numbers, &PARTS);
    take_steps(rt, &mut book, steps);
}

static REFUSED_FINALS: [Step; 9] = [
    (
        Joined(5, 10, (1, None), (1, None), None),
        Some(Refusal::Field),
    ),
    (
        Joined(4, 10, (1, None), (1, Some(b"abcde")), None),
        Some(Refusal::Part),
    ),
    (
        Joined(4, 10, (1, None), (3, None), None),
        Some(Refusal::Part),
    ),
    (
        Joined(4, 11, (1, None), (1, None), None),
        Some(Refusal::Field),
    ),
    (
        Joined(4, 10, (1, None), (1, None), Some(4600)),
        Some(Refusal::Field),
    ),
    (
        Joined(
            4,
            66,
            (3, Some(b"012345678901234567890123456789012")),
            (3, None),
            None,
        ),
        Some(Refusal::TooLong),
    ),
    (
        Joined(4, 7, (1, None), (2, None), None),
        Some(Refusal::PartOpen),
    ),
    (
        Joined(
            4,
            29,
            (1, None),
            (3, Some(b"012345678901234567890123")),
            None,
        ),
        Some(Refusal::Quota),
    ),
    (Joined(4, 10, (1, None), (1, None), None), None),
];

#[test]
fn finals_that_are_not_put_back(rt: HostRuntime) {
    run_behind_parts(&rt, rt.alloc(), NUMBERS, &REFUSED_FINALS);
}

// Where finished uploads end by themselves, one may have an end, and one may be of before that.
static FINISHED: [Step; 6] = [
    (Own(4, false, Some(1), b"x", None), None),
    (Joined(5, 10, (1, None), (1, None), None), None),
    (Joined(6, 10, (1, None), (1, None), Some(1100)), None),
    (Own(7, false, Some(1), b"x", Some(1100)), None),
    (Own(8, false, Some(2), b"x", None), Some(Refusal::Field)),
    (Own(8, false, Some(2), b"x", Some(4600)), None),
];

#[test]
fn finished_uploads_are_put_back(rt: HostRuntime) {
    run_behind_parts(&rt, rt.alloc(), numbers!(finished_lifetime: 100), &FINISHED);
}

// There may be two uploads.
static TWO_UPLOADS: [Step; 1] = [(
    Joined(4, 10, (1, None), (1, None), None),
    Some(Refusal::Uploads),
)];

// Four blocks may be charged in all.
static FOUR_BLOCKS: [Step; 2] = [
    (
        Joined(4, 10, (1, None), (3, Some(b"01234")), None),
        Some(Refusal::Spent),
    ),
    (Joined(4, 9, (1, None), (3, Some(b"0123")), None), None),
];

#[test]
fn finals_past_the_last(rt: HostRuntime) {
    run_behind_parts(&rt, rt.alloc(), numbers!(uploads: 2), &TWO_UPLOADS);
    run_behind_parts(&rt, rt.alloc(), numbers!(last_total: 4), &FOUR_BLOCKS);
}

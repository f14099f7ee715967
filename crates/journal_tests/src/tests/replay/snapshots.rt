//! The records of a book's snapshot, and the book that is made again of them.
use crate::tests::KEY;
use crate::tests::replay::changes::{
    acme, at, creation, deferred, joined, patch, put, replayed, replayed_in, settings, settings_of,
};
use book_replay::snapshot_records;
use journal_frames::close_frame;
use std::alloc::Global;
use std::process::Abort;
use upload_book::{Book, ByteSpan, Change, Kind, Moment, Name, Refusal};

// acme has an upload with two of its five bytes, a part, and a final upload of this and of one that has ended since. beta has
// an upload, behind which one has ended.
fn put_changes(rt: &impl Abort, alloc: Global, out: &mut Vec<u8>) {
    let plain = creation(0, false, b"name YQ==", b"", b"he");
    put(rt, alloc, out, 1000, &plain);
    let part = creation(0, true, b"", b"partial", b"hello");
    put(rt, alloc, out, 1001, &part);
    let part = creation(0, true, b"", b"partial", b"world");
    put(rt, alloc, out, 1002, &part);
    let whole = joined(0, &[Some(2), Some(3)], b"", CONCAT);
    put(rt, alloc, out, 1003, &whole);
    put(rt, alloc, out, 1004, &Change::Terminate(acme(3)));
    let plain = creation(1, false, b"", b"", b"x");
    put(rt, alloc, out, 1005, &plain);
    let plain = creation(1, false, b"", b"", b"y");
    put(rt, alloc, out, 1006, &plain);
    let last = Name { tenant: 1, id: 2 };
    put(rt, alloc, out, 1007, &Change::Terminate(last));
}

const CONCAT: &[u8] = b"final;/files/acme/2 /files/acme/3";

fn some_book(rt: &impl Abort, alloc: Global) -> Book {
    let mut frames = Vec::new(alloc);
    put_changes(rt, alloc, &mut frames);
    replayed(rt, alloc, &frames)
}

fn moment(rt: &impl Abort) -> Moment {
    at(rt, 1008)
}

fn snapshot(rt: &impl Abort, alloc: Global, book: &Book, count: usize) -> Vec<u8> {
    snapshot_at(rt, alloc, book, moment(rt), count)
}

// Puts the frame of a record, which has taken no more memory than it needs but for a few bytes, behind others.
fn put_frame(rt: &impl Abort, frames: &mut Vec<u8>, room: Vec<u8>) {
    let mut frame = room;
    assert!(rt; frame.len() >= 24);
    assert!(rt; frame.len() <= 1000);
    assert!(rt; frame.capacity() < frame.len() + 8);
    close_frame(&mut frame, 0, KEY);
    assert!(rt; frames.extend_from_slice(&frame).is_ok());
}

// The records of a book's snapshot at a moment, of which there are so many, as frames.
fn snapshot_at(rt: &impl Abort, alloc: Global, book: &Book, now: Moment, count: usize) -> Vec<u8> {
    let rooms = snapshot_records(alloc, book, now).expect(rt, "memory");
    assert!(rt; rooms.len() == count);
    let mut frames = Vec::new(alloc);
    for room in rooms {
        put_frame(rt, &mut frames, room);
    }
    frames
}

/// What a HEAD tells of an upload: what it is for, how many bytes it has, how many it will have, and the second at which it
/// expires.
type Row = (Kind, u64, Option<u64>, Option<u64>);

// What HEADs tell by tenant and id, up to the next id of each.
static ROWS: [(u8, u64, Result<Row, Refusal>); 8] = [
    (0, 1, Ok((Kind::Plain, 2, Some(5), Some(4600)))),
    (0, 2, Ok((Kind::Partial, 5, Some(5), Some(4601)))),
    (0, 3, Err(Refusal::Gone)),
    (0, 4, Ok((Kind::Final, 10, Some(10), None))),
    (0, 5, Err(Refusal::Unknown)),
    (1, 1, Ok((Kind::Plain, 1, Some(5), Some(4605)))),
    (1, 2, Err(Refusal::Gone)),
    (1, 3, Err(Refusal::Unknown)),
];

fn row_of(rt: &impl Abort, book: &Book, name: &Name) -> Result<Row, Refusal> {
    match book.look(name, moment(rt)) {
        Ok(row) => {
            let expires = row.expires.map(Moment::secs);
            Ok((row.kind, row.offset, row.declared, expires))
        }
        Err(refusal) => Err(refusal),
    }
}

fn assert_rows(rt: &impl Abort, book: &Book) {
    for (tenant, id, row) in &ROWS {
        let name = Name {
            tenant: *tenant,
            id: *id,
        };
        assert!(rt; row_of(rt, book, &name) == *row);
    }
}

fn assert_texts(rt: &impl Abort, book: &Book, name: &Name, metadata: &[u8], concat: &[u8]) {
    let Ok(row) = book.look(name, moment(rt)) else {
        panic!(rt; "no row");
    };
    assert!(rt; row.metadata.as_slice() == metadata);
    assert!(rt; row.concat.as_slice() == concat);
}

fn assert_content(rt: &impl Abort, book: &Book, name: &Name, bytes: &[u8]) {
    let all = ByteSpan::front(u64::MAX);
    let Ok(content) = book.content(name, moment(rt), all, book.none_begun()) else {
        panic!(rt; "no content");
    };
    assert!(rt; content.as_slice() == bytes);
}

// What was charged for 1, 2 and 2 blocks of acme and two of beta, of which one was released.
fn assert_totals(rt: &impl Abort, book: &Book) {
    assert!(rt; book.charged_total() == 7);
    assert!(rt; book.released_total() == 1);
    assert!(rt; book.free_blocks() == 6);
}

// The book that is made of the snapshot of another: an id before each of the four uploads that stand, the next id of both
// tenants, and the totals.
fn again(rt: &impl Abort, alloc: Global, was: &Book) -> Book {
    replayed(rt, alloc, &snapshot(rt, alloc, was, 11))
}

#[test]
fn a_book_is_made_again(rt: HostRuntime) {
    let was = some_book(&rt, rt.alloc());
    assert_rows(&rt, &was);
    assert_totals(&rt, &was);
    let book = again(&rt, rt.alloc(), &was);
    assert_rows(&rt, &book);
    assert_totals(&rt, &book);
    assert_texts(&rt, &book, &acme(1), b"name YQ==", b"");
    assert_texts(&rt, &book, &acme(4), b"", CONCAT);
    assert_content(&rt, &book, &acme(4), b"helloworld");
    assert_same(&rt, &book, &was);
}

// Tenants pay the same in two books, and their uploads expire at the same seconds.
fn assert_same(rt: &impl Abort, book: &Book, was: &Book) {
    assert!(rt; book.accounts() == was.accounts());
    assert!(rt; book.expiries() == was.expiries());
}

// The bytes that acme's first upload has so far.
fn assert_so_far(rt: &impl Abort, book: &Book, bytes: &[u8]) {
    let Ok(content) = book.so_far(&acme(1), moment(rt), book.no_room()) else {
        panic!(rt; "no bytes");
    };
    assert!(rt; content.as_slice() == bytes);
}

// With blocks of 2 bytes acme pays 1, 3 and 3 blocks, and beta 1.
fn assert_paid_in_twos(rt: &impl Abort, book: &Book) {
    let accounts = book.accounts();
    assert!(rt; accounts.charge[0] == 7);
    assert!(rt; accounts.charge[1] == 1);
    assert!(rt; accounts.released == 1);
    assert!(rt; accounts.charged == 9);
    assert!(rt; book.free_blocks() == 4);
}

// The frames of a snapshot of the book, which is let go.
fn some_snapshot(rt: &impl Abort, alloc: Global) -> Vec<u8> {
    snapshot(rt, alloc, &some_book(rt, alloc), 11)
}

// What was released stays, and what is paid is charged.
#[test]
fn a_book_is_made_again_in_blocks_of_another_size(rt: HostRuntime) {
    let frames = some_snapshot(&rt, rt.alloc());
    let book = replayed_in(&rt, rt.alloc(), settings_of(&rt, 2), &frames);
    assert_rows(&rt, &book);
    assert_so_far(&rt, &book, b"he");
    assert_content(&rt, &book, &acme(4), b"helloworld");
    assert_paid_in_twos(&rt, &book);
}

// A change behind them finds the bytes where they were.
#[test]
fn an_upload_goes_on(rt: HostRuntime) {
    let mut frames = some_snapshot(&rt, rt.alloc());
    let rest = patch(1, 2, None, b"llo");
    put(&rt, rt.alloc(), &mut frames, 1008, &rest);
    let book = replayed(&rt, rt.alloc(), &frames);
    assert_content(&rt, &book, &acme(1), b"hello");
    assert!(&rt; book.charged_total() == 8);
}

// A book of an upload whose length is told later.
fn deferred_book(rt: &impl Abort, alloc: Global) -> Book {
    let mut changes = Vec::new(alloc);
    put(rt, alloc, &mut changes, 1000, &deferred(b"z"));
    replayed(rt, alloc, &changes)
}

// One that has expired before the snapshot, without a sweep, is there still.
#[test]
fn an_upload_that_has_expired(rt: HostRuntime) {
    let was = deferred_book(&rt, rt.alloc());
    let frames = snapshot_at(&rt, rt.alloc(), &was, at(&rt, 5000), 5);
    let book = replayed(&rt, rt.alloc(), &frames);
    assert!(rt; row_of(&rt, &book, &acme(1)) == Ok((Kind::Plain, 1, None, Some(4600))));
    assert!(rt; matches!(book.look(&acme(1), at(&rt, 5000)), Err(Refusal::Gone)));
    assert!(rt; book.expiries() == was.expiries());
}

// The frames of a snapshot of a new book.
fn empty_snapshot(rt: &impl Abort, alloc: Global) -> Vec<u8> {
    let was = Book::new(alloc, settings(rt)).expect(rt, "memory");
    snapshot(rt, alloc, &was, 3)
}

#[test]
fn a_book_without_uploads(rt: HostRuntime) {
    let book = replayed(&rt, rt.alloc(), &empty_snapshot(&rt, rt.alloc()));
    assert!(rt; book.charged_total() == 0);
    assert!(rt; matches!(book.look(&acme(1), moment(&rt)), Err(Refusal::Unknown)));
}

//! The uploads of a book as pieces of a snapshot of it.
use crate::tests::books::ACME;
use crate::tests::restores::{joined, requested};
use std::process::Abort;
use upload_book::{Book, KeptSegment, KeptUpload, Kind, Moment};

/// An upload as a piece: its id, what it is for, its length, its segments, and the second at which it expires.
type Piece<'a> = (
    u64,
    Kind,
    Option<u64>,
    &'a [(u64, Option<&'a [u8]>)],
    Option<u64>,
);

// The bytes that a segment brings, at most eight, which lie in blocks of four: how many there are, and those of each block.
type Brought<'a> = (Option<u64>, &'a [u8], &'a [u8]);

fn brought<'a>(segment: &KeptSegment<'a>) -> Brought<'a> {
    (segment.len(), segment.bytes_from(0), segment.bytes_from(4))
}

fn expected<'a>(bytes: Option<&'a [u8]>) -> Brought<'a> {
    match bytes {
        Some(bytes) => {
            let (first, second) = bytes.split_at(bytes.len().min(4));
            (Some(bytes.len() as u64), first, second)
        }
        None => (None, b"", b""),
    }
}

// What a piece is beside its bytes: its id, what it is for, its length, the second at which it expires, and how many
// segments it has.
type Shape = (u64, Kind, Option<u64>, Option<u64>, usize);

fn shape(kept: &KeptUpload) -> Shape {
    let row = kept.row();
    let growth = row.growth();
    let expires = growth.expires.map(Moment::secs);
    (
        kept.id(),
        row.kind(),
        growth.declared,
        expires,
        kept.segment_count(),
    )
}

// The segment at a place has this origin, and brings these bytes.
fn assert_segment(
    rt: &impl Abort,
    kept: &KeptUpload,
    place: usize,
    origin: u64,
    bytes: Option<&[u8]>,
) {
    assert!(rt; place < kept.segment_count());
    let segment = kept.segment(place);
    assert!(rt; segment.origin() == origin);
    assert!(rt; brought(&segment) == expected(bytes));
}

fn assert_piece(rt: &impl Abort, kept: &KeptUpload, piece: &Piece) {
    let (id, kind, declared, segments, expires) = *piece;
    assert!(rt; shape(kept) == (id, kind, declared, expires, segments.len()));
    for (place, (origin, bytes)) in segments.iter().enumerate() {
        assert_segment(rt, kept, place, *origin, *bytes);
    }
}

// The piece of acme at a place.
fn kept_at<'a>(rt: &impl Abort, book: &'a Book, place: usize) -> Option<KeptUpload<'a>> {
    let acme = book.settings().tenant(ACME).expect(rt, "acme");
    book.kept_upload(acme, place)
}

// Acme's next id.
fn next_id(rt: &impl Abort, book: &Book) -> u64 {
    let acme = book.settings().tenant(ACME).expect(rt, "acme");
    book.next_id(acme)
}

// The pieces of acme are these, in their order, and then its next id.
fn assert_pieces(rt: &impl Abort, book: &Book, pieces: &[Piece], next: u64) {
    for (place, piece) in pieces.iter().enumerate() {
        let kept = kept_at(rt, book, place).expect(rt, "an upload");
        assert_piece(rt, &kept, piece);
    }
    assert!(rt; kept_at(rt, book, pieces.len()).is_none());
    assert!(rt; next_id(rt, book) == next);
}

// Those of uploads of their own, of which the second has ended.
static OWN: [Piece<'static>; 4] = [
    (1, Kind::Plain, Some(10), &[(1, Some(b"hello"))], Some(4600)),
    (3, Kind::Plain, None, &[(3, Some(b""))], Some(4600)),
    (4, Kind::Plain, Some(2), &[(4, Some(b"hi"))], None),
    (
        5,
        Kind::Partial,
        Some(5),
        &[(5, Some(b"abcde"))],
        Some(4600),
    ),
];

// Those of finals, of which the parts of the first two have ended: the bytes of each part come once.
static JOINED: [Piece<'static>; 4] = [
    (
        3,
        Kind::Final,
        Some(10),
        &[(1, Some(b"abcde")), (1, None)],
        None,
    ),
    (
        4,
        Kind::Final,
        Some(7),
        &[(1, None), (2, Some(b"fg"))],
        None,
    ),
    (5, Kind::Partial, Some(2), &[(5, Some(b"hi"))], Some(4600)),
    (6, Kind::Final, Some(4), &[(5, None), (5, None)], None),
];

#[test]
fn a_book_is_lent_in_pieces(rt: HostRuntime) {
    let book = requested(&rt, rt.alloc());
    assert_pieces(&rt, &book, &OWN, 6);
}

#[test]
fn finals_are_lent_in_pieces(rt: HostRuntime) {
    let book = joined(&rt, rt.alloc());
    assert_pieces(&rt, &book, &JOINED, 7);
}

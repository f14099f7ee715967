//! The bytes that a request sends, and their digest: computed by the book, or before it is asked.

use crate::tests::books::{ACME, HELLO, NOTHING, acme, create, moment, new_book, new_upload};
use std::alloc::Global;
use std::process::Abort;
use tus_text::Checksum;
use upload_book::{Change, Chunk, FirstChunk, Kind, Payload, Progress, Refusal};
use worked_example::NUMBERS;

#[test]
fn a_payload_has_its_digest(rt: HostRuntime) {
    let mut payload = Payload::new(b"hello");
    let digest = payload.digest();
    assert!(rt; Checksum::Sha1(digest) == HELLO && payload.digest() == digest);
    assert!(rt; payload.as_slice() == b"hello".as_slice() && payload.len() == 5);
}

// `hello`, sent at an offset with a length and a checksum, where these are told.
fn sent<'a>(offset: u64, length: Option<u64>, typed: bool, check: Option<Checksum>) -> Chunk<'a> {
    Chunk {
        offset,
        length,
        typed,
        check,
        bytes: Payload::new(b"hello"),
        more: 0,
    }
}

// Why a PATCH of `hello` to a new upload is refused, if it is; the digest may be computed before the book is asked.
fn refused_patch(rt: &impl Abort, alloc: Global, check: Checksum, before: bool) -> Option<Refusal> {
    let mut book = new_book(rt, alloc, NUMBERS);
    create(rt, &mut book, ACME, Some(10));
    let mut change = Change::Append {
        name: acme(1),
        chunk: sent(0, None, true, Some(check)),
    };
    if before {
        change.digest();
    }
    let refused = book.prepare(change, moment(rt, 1000)).err()?;
    Some(refused.refusal)
}

// The same of a creation that carries `hello`.
fn refused_creation(
    rt: &impl Abort,
    alloc: Global,
    check: Checksum,
    before: bool,
) -> Option<Refusal> {
    let mut book = new_book(rt, alloc, NUMBERS);
    let mut change = Change::Create {
        tenant: 0,
        new: new_upload(false, Some(10)),
        first: FirstChunk {
            typed: true,
            check: Some(check),
            bytes: Payload::new(b"hello"),
            more: 0,
        },
    };
    if before {
        change.digest();
    }
    let refused = book.prepare(change, moment(rt, 1000)).err()?;
    Some(refused.refusal)
}

// What comes with `hello`, and what it is refused by.
static CHECKED: [(Checksum, Option<Refusal>); 3] = [
    (HELLO, None),
    (NOTHING, Some(Refusal::Mismatch)),
    (Checksum::Other, Some(Refusal::Algorithm)),
];

#[test]
fn a_digest_may_be_computed_before(rt: HostRuntime) {
    for (check, expected) in &CHECKED {
        for before in [false, true] {
            assert!(&rt; refused_patch(&rt, rt.alloc(), *check, before) == *expected);
            assert!(&rt; refused_creation(&rt, rt.alloc(), *check, before) == *expected);
        }
    }
}

// Why a chunk is refused at an upload that is so far.
fn refused_at(chunk: &Chunk, kind: Kind, offset: u64, declared: Option<u64>) -> Option<Refusal> {
    let progress = Progress {
        kind,
        offset,
        declared,
        expires: None,
    };
    chunk.refusal_by_row(&NUMBERS, &progress)
}

// A checksum that is not that of the bytes is not looked at.
#[test]
fn a_row_refuses_before_the_checksum(rt: HostRuntime) {
    let damaged = sent(0, None, true, Some(NOTHING));
    assert!(rt; refused_at(&damaged, Kind::Plain, 0, Some(5)).is_none());
    assert!(rt; refused_at(&damaged, Kind::Partial, 0, None).is_none());
    assert!(rt; refused_at(&damaged, Kind::Final, 0, Some(5)) == Some(Refusal::IsFinal));
    assert!(rt; refused_at(&damaged, Kind::Plain, 1, Some(9)) == Some(Refusal::Offset));
    assert!(rt; refused_at(&damaged, Kind::Plain, 0, Some(4)) == Some(Refusal::TooLong));
    let untyped = sent(0, None, false, Some(NOTHING));
    assert!(rt; refused_at(&untyped, Kind::Plain, 1, Some(9)) == Some(Refusal::Media));
    let longer = sent(0, Some(6), true, Some(NOTHING));
    assert!(rt; refused_at(&longer, Kind::Plain, 0, Some(5)) == Some(Refusal::LengthFixed));
    let other = sent(0, None, true, Some(Checksum::Other));
    assert!(rt; refused_at(&other, Kind::Plain, 0, Some(5)) == Some(Refusal::Algorithm));
    let last = sent(u64::MAX, None, true, None);
    assert!(rt; refused_at(&last, Kind::Plain, u64::MAX, None) == Some(Refusal::TooLong));
}

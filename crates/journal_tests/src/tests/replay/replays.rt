//! A book of one change of each kind, made again.
use crate::tests::replay::changes::{acme, at, creation, joined, patch, put, replayed};
use std::alloc::Global;
use std::process::Abort;
use upload_book::{Book, ByteSpan, Change, Name, Refusal};

const CONCAT: &[u8] = b"final;/files/acme/1 /files/acme/1";

// Five bytes in two pieces, two parts that are joined, an upload of beta that expires, and one of acme that is ended.
fn put_changes(rt: &impl Abort, alloc: Global, out: &mut Vec<u8>) {
    let part = creation(0, true, b"name YQ==", b"partial", b"he");
    put(rt, alloc, out, 1000, &part);
    put(rt, alloc, out, 1001, &patch(1, 2, None, b"llo"));
    put(rt, alloc, out, 1002, &creation(1, false, b"", b"", b"x"));
    let whole = joined(0, &[Some(1), Some(1)], b"", CONCAT);
    put(rt, alloc, out, 1003, &whole);
    put(rt, alloc, out, 1004, &Change::Terminate(acme(1)));
    put(rt, alloc, out, 9000, &Change::Sweep);
}

fn some_frames(rt: &impl Abort, alloc: Global) -> Vec<u8> {
    let mut frames = Vec::new(alloc);
    put_changes(rt, alloc, &mut frames);
    frames
}

fn assert_content(rt: &impl Abort, book: &Book, name: Name, bytes: &[u8]) {
    let all = ByteSpan::front(u64::MAX);
    let Ok(content) = book.content(&name, at(rt, 9000), all, book.none_begun()) else {
        panic!(rt; "no content");
    };
    assert!(rt; content.as_slice() == bytes);
}

fn assert_gone(rt: &impl Abort, book: &Book, name: Name) {
    assert!(rt; matches!(book.look(&name, at(rt, 9000)), Err(Refusal::Gone)));
}

#[test]
fn each_kind_of_change(rt: HostRuntime) {
    let book = replayed(&rt, rt.alloc(), &some_frames(&rt, rt.alloc()));
    assert_content(&rt, &book, acme(2), b"hellohello");
    assert_gone(&rt, &book, acme(1));
    assert_gone(&rt, &book, Name { tenant: 1, id: 1 });
    assert!(rt; book.charged_total() == 3);
    assert!(rt; book.released_total() == 1);
}

// What stands behind the last whole frame is none of its business.
#[test]
fn what_is_whole(rt: HostRuntime) {
    let frames = some_frames(&rt, rt.alloc());
    assert!(rt; frames.len() > 1);
    let book = replayed(&rt, rt.alloc(), &frames[..frames.len() - 1]);
    assert!(rt; book.released_total() == 0);
}

#[test]
fn no_frame(rt: HostRuntime) {
    let empty = replayed(&rt, rt.alloc(), b"");
    assert!(rt; empty.charged_total() == 0);
}

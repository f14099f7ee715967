//! Records of which no book is made, each with its number.
use crate::tests::KEY;
use crate::tests::replay::changes::{acme, creation, joined, patch, put, records, settings};
use book_replay::{ReplayFault, replay};
use journal_frames::push_frame;
use std::alloc::Global;
use std::process::Abort;
use tus_text::Checksum;
use upload_book::Change;

// The record of this number is refused.
fn assert_refused(rt: &impl Abort, alloc: Global, frames: &[u8], number: u64) {
    let Err(ReplayFault::Record(found)) = replay(alloc, settings(rt), records(frames)) else {
        panic!(rt; "not refused");
    };
    assert!(rt; found == number, "record {found}, not {number}");
}

// A change behind a creation, and one more behind it, which is not read.
fn assert_second(rt: &impl Abort, alloc: Global, change: &Change) {
    let mut frames = Vec::new(alloc);
    let first = creation(0, false, b"", b"", b"he");
    put(rt, alloc, &mut frames, 1000, &first);
    put(rt, alloc, &mut frames, 1001, change);
    put(rt, alloc, &mut frames, 1002, &Change::Sweep);
    assert_refused(rt, alloc, &frames, 2);
}

#[test]
fn no_record(rt: HostRuntime) {
    let mut frames = Vec::new(rt.alloc());
    assert!(rt; push_frame(&mut frames, KEY, b"none").is_ok());
    assert_refused(&rt, rt.alloc(), &frames, 1);
}

const CONCAT: &[u8] = b"final;/files/acme/1";

#[test]
fn may_not_be_asked(rt: HostRuntime) {
    assert_second(&rt, rt.alloc(), &creation(2, false, b"", b"", b""));
    assert_second(&rt, rt.alloc(), &creation(0, false, b" ", b"", b""));
    assert_second(&rt, rt.alloc(), &joined(0, &[], b"", CONCAT));
}

#[test]
fn refused_by_the_book(rt: HostRuntime) {
    assert_second(&rt, rt.alloc(), &patch(1, 3, None, b"l"));
    assert_second(&rt, rt.alloc(), &patch(1, 2, Some(Checksum::Other), b"l"));
    assert_second(&rt, rt.alloc(), &patch(2, 0, None, b"l"));
    assert_second(&rt, rt.alloc(), &Change::Terminate(acme(2)));
    assert_second(&rt, rt.alloc(), &joined(0, &[Some(1)], b"", CONCAT));
}

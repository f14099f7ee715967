//! Which changes a book of two tenants may be asked for.
use crate::tests::replay::changes::{acme, creation, joined, patch};
use book_replay::can_be_made;
use std::process::Abort;
use upload_book::Change;

fn assert_made(rt: &impl Abort, change: &Change) {
    assert!(rt; can_be_made(2, change));
}

fn assert_not(rt: &impl Abort, change: &Change) {
    assert!(rt; !can_be_made(2, change));
}

#[test]
fn creations(rt: HostRuntime) {
    assert_made(&rt, &creation(1, false, b"", b"", b""));
    assert_made(&rt, &creation(0, true, b"name YQ==", b"partial", b""));
    assert_not(&rt, &creation(2, false, b"", b"", b""));
    assert_not(&rt, &creation(0, false, b"name YQ", b"", b""));
    assert_not(&rt, &creation(0, false, b"", b"partial", b""));
    assert_not(&rt, &creation(0, true, b"", b"", b""));
}

const NAMES: &[u8] = b"final;/files/acme/1 /files/acme/2";

#[test]
fn concatenations(rt: HostRuntime) {
    assert_made(&rt, &joined(0, &[Some(1), None], b"", NAMES));
    assert_made(&rt, &joined(0, &[None; 32], b"", NAMES));
    assert_not(&rt, &joined(2, &[Some(1)], b"", NAMES));
    assert_not(&rt, &joined(0, &[], b"", NAMES));
    assert_not(&rt, &joined(0, &[None; 33], b"", NAMES));
    assert_not(&rt, &joined(0, &[Some(1)], b" ", NAMES));
    assert_not(&rt, &joined(0, &[Some(1)], b"", b"partial"));
    assert_not(&rt, &joined(0, &[Some(1)], b"", b"final;"));
}

#[test]
fn others(rt: HostRuntime) {
    assert_made(&rt, &patch(9, 9, None, b"x"));
    assert_made(&rt, &Change::Terminate(acme(9)));
    assert_made(&rt, &Change::Sweep);
}

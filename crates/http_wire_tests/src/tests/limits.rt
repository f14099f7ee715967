use crate::tests::conversations::assert_looked;
use crate::tests::memory::{Input, Output};
use crate::tests::rows::{Row, check_rows, rows};
use crate::tests::spoken::{joined, put};
use crate::tests::wires::MemoryWire;
use http_wire::{Incoming, Tapped, Wire};
use std::alloc::Global;
use std::process::Abort;
use worked_example::{CREATED, HEAD, LOOKED, PATCH, PATCHED, POST};

/// The HEAD of the first upload with a field beside Host and Tus-Resumable for each pair of letters, whose
/// name no other has.
fn with_names(rt: &impl Abort, alloc: Global, firsts: &[u8], seconds: &[u8]) -> Vec<u8> {
    let mut text = joined(rt, alloc, &[b"HEAD /files/acme/1 HTTP/1.1\r\nHost: x\r\n"]);
    for first in firsts {
        for second in seconds {
            put(rt, &mut text, b"Name-");
            put(rt, &mut text, &[*first, *second]);
            put(rt, &mut text, b": y\r\n");
        }
    }
    put(rt, &mut text, b"Tus-Resumable: 1.0.0\r\n\r\n");
    text
}

static NAMES: [(&[u8], &[u8], &str); 3] = [
    (b"a", b"a", "3 fields"),
    (b"abcdefghijklmnopqrstuvwxyzABCDE", b"a", "33 fields"),
    (b"ab", b"abcdefghijklmnopqrstuvwxyzABCDE", "64 fields"),
];

#[test]
fn fields_of_many_names(rt: HostRuntime) {
    for (firsts, seconds, what) in &NAMES {
        let head = with_names(&rt, rt.alloc(), firsts, seconds);
        assert_looked(&rt, rt.alloc(), what, &head);
    }
}

/// A PATCH of an upload that is not there, with the greatest body of the tests' settings.
const PATCH_GREATEST: &[u8] = b"PATCH /files/acme/1 HTTP/1.1\r\nHost: x\r\nTus-Resumable: 1.0.0\r\n\
Content-Type: application/offset+octet-stream\r\nUpload-Offset: 0\r\nContent-Length: 64\r\n\r\n\
0123456789abcdef0123456789abcdef0123456789abcdef0123456789abcdef";

const UNKNOWN: &[u8] = b"HTTP/1.1 404 Not Found\r\nDate: Thu, 01 Jan 1970 00:16:40 GMT\r\n\
Tus-Resumable: 1.0.0\r\nContent-Type: text/plain\r\nContent-Length: 8\r\n\r\nunknown\n";

static GREATEST: [Row; 1] = rows! {
    "the greatest body": [PATCH_GREATEST, POST, PATCH, HEAD] => [UNKNOWN, CREATED, PATCHED, LOOKED], Input, Some(5);
};

#[test]
fn the_greatest_body(rt: HostRuntime) {
    check_rows(&rt, rt.alloc(), &GREATEST);
}

const LARGE: &[u8] = b"PATCH / HTTP/1.1\r\nHost: x\r\nContent-Length: ";

/// How long the body of the next message on a wire is.
fn read_body_len(rt: &impl Abort, wire: &mut MemoryWire<'_>) -> usize {
    match wire.read_request().expect(rt, "a read") {
        Incoming::Message(message) => message.request().body.len(),
        _ => panic!(rt; "a whole message was sent"),
    }
}

/// Asserts that a wire reads a body of `len` bytes, where its head has these digits as its length, and head and body
/// have `all` bytes.
fn assert_body_len(rt: &impl Abort, alloc: Global, digits: &[u8], len: usize, all: usize) {
    let mut sent = joined(rt, alloc, &[LARGE, digits, b"\r\n\r\n"]);
    sent.resize(all, b'a').expect(rt, "memory");
    let reader = Tapped::new(Input::new(&sent, usize::MAX));
    let wire = Wire::new(alloc, reader, Tapped::new(Output::new(alloc)), 600_000);
    let mut wire = wire.expect(rt, "memory");
    assert!(rt;
        read_body_len(rt, &mut wire) == len,
        "a body of {len} bytes"
    );
}

/// Head and body have 49,152 bytes together, 49,153, and more than there is room for at the start, up to the greatest.
static BODIES: [(&[u8], usize, usize); 4] = [
    (b"49100", 49_100, 49_152),
    (b"49101", 49_101, 49_153),
    (b"300000", 300_000, 300_053),
    (b"600000", 600_000, 600_053),
];

#[test]
fn bodies_that_fit_and_outgrow_the_room(rt: HostRuntime) {
    for (digits, len, all) in &BODIES {
        assert_body_len(&rt, rt.alloc(), digits, *len, *all);
    }
}

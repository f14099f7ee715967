//! Conversations that are put together at random, most of them with something wrong. Each is held against the plain
//! program, byte for byte. The seeds are fixed, so every run tries the same ones.

use crate::tests::memory::Input;
use crate::tests::spoken::{assert_talk_with, at, is_in, plain_talk, put};
use std::alloc::Global;
use std::process::Abort;
use upload_book::{Moment, Numbers};
use worked_example::NUMBERS as OTHERS;

/// How many conversations are tried.
const CONVERSATIONS: u64 = 3_000;

/// A book for few uploads, so that many conversations go beyond their number.
pub const NUMBERS: Numbers = Numbers {
    uploads: 3,
    ..OTHERS
};

/// A generator of numbers: xorshift, by Marsaglia.
#[derive(Clone, Copy)]
pub struct Dice {
    state: u64,
}

impl Dice {
    pub fn new(seed: u64) -> Self {
        let state = seed.wrapping_mul(0x9E37_79B9_7F4A_7C15) | 1;
        Dice { state }
    }

    /// A number below `sides`; 0 where there is no such number.
    pub fn roll(&mut self, sides: usize) -> usize {
        self.state ^= self.state << 13;
        self.state ^= self.state >> 7;
        self.state ^= self.state << 17;
        (self.state % (sides as u64).max(1)) as usize
    }
}

/// The head of a message without its empty line, and the body behind it.
type Message = (&'static [u8], &'static [u8]);

const CREATION: &[u8] = b"POST /files/acme HTTP/1.1\r\nHost: x\r\nTus-Resumable: 1.0.0\r\n";

const PATCH_1: &[u8] = b"PATCH /files/acme/1 HTTP/1.1\r\nHost: x\r\nTus-Resumable: 1.0.0\r\n\
Content-Type: application/offset+octet-stream\r\n";

static MESSAGES: [Message; 25] = [
    (CREATION, b""),
    (
        b"POST /files/acme HTTP/1.1\r\nHost: x\r\nTus-Resumable: 1.0.0\r\nUpload-Length: 10\r\n",
        b"",
    ),
    (
        b"POST /files/acme HTTP/1.1\r\nHost: x\r\nTus-Resumable: 1.0.0\r\nUpload-Length: 5\r\n",
        b"",
    ),
    (
        b"POST /files/acme HTTP/1.1\r\nHost: x\r\nTus-Resumable: 1.0.0\r\nUpload-Defer-Length: 1\r\n",
        b"",
    ),
    (
        b"POST /files/acme HTTP/1.1\r\nHost: x\r\nTus-Resumable: 1.0.0\r\nUpload-Length: 5\r\n\
Upload-Concat: partial\r\n",
        b"",
    ),
    (
        b"POST /files/acme HTTP/1.1\r\nHost: x\r\nTus-Resumable: 1.0.0\r\n\
Upload-Concat: final;/files/acme/1 /files/acme/2\r\n",
        b"",
    ),
    (
        b"POST /files/acme HTTP/1.1\r\nHost: x\r\nTus-Resumable: 1.0.0\r\nUpload-Length: 5\r\n\
Content-Type: application/offset+octet-stream\r\nContent-Length: 5\r\n",
        b"hello",
    ),
    (
        b"POST /files/beta HTTP/1.1\r\nHost: x\r\nTus-Resumable: 1.0.0\r\nUpload-Length: 64\r\n\
Upload-Concat: partial\r\nContent-Type: application/offset+octet-stream\r\nContent-Length: 2\r\n",
        b"fg",
    ),
    (PATCH_1, b""),
    (
        b"PATCH /files/acme/1 HTTP/1.1\r\nHost: x\r\nTus-Resumable: 1.0.0\r\n\
Content-Type: application/offset+octet-stream\r\nUpload-Offset: 0\r\nContent-Length: 5\r\n",
        b"hello",
    ),
    (
        b"PATCH /files/acme/1 HTTP/1.1\r\nHost: x\r\nTus-Resumable: 1.0.0\r\n\
Content-Type: application/offset+octet-stream\r\nUpload-Offset: 5\r\nContent-Length: 5\r\n",
        b"world",
    ),
    (
        b"PATCH /files/acme/2 HTTP/1.1\r\nHost: x\r\nTus-Resumable: 1.0.0\r\n\
Content-Type: application/offset+octet-stream\r\nUpload-Offset: 0\r\nUpload-Length: 5\r\nContent-Length: 5\r\n",
        b"abcde",
    ),
    (
        b"PATCH /files/acme/1 HTTP/1.1\r\nHost: x\r\nTus-Resumable: 1.0.0\r\n\
Content-Type: application/offset+octet-stream\r\nUpload-Offset: 0\r\nContent-Length: 40\r\n",
        b"0123456789012345678901234567890123456789",
    ),
    (
        b"PATCH /files/acme/1 HTTP/1.1\r\nHost: x\r\nTus-Resumable: 1.0.0\r\n\
Content-Type: application/offset+octet-stream\r\nUpload-Offset: 0\r\n\
Upload-Checksum: sha1 qvTGHdzF6KLavt4PO0gs2a6pQ00=\r\nContent-Length: 5\r\n",
        b"hello",
    ),
    (
        b"PATCH /files/acme/1 HTTP/1.1\r\nHost: x\r\nTus-Resumable: 1.0.0\r\n\
Content-Type: application/offset+octet-stream\r\nUpload-Offset: 0\r\n\
Upload-Checksum: sha1 qvTGHdzF6KLavt4PO0gs2a6pQ00=\r\nContent-Length: 5\r\n",
        b"hellp",
    ),
    (
        b"PATCH /files/acme/1 HTTP/1.1\r\nHost: x\r\nTus-Resumable: 1.0.0\r\nExpect: 100-continue\r\n\
Content-Type: application/offset+octet-stream\r\nUpload-Offset: 0\r\nContent-Length: 5\r\n",
        b"hello",
    ),
    (
        b"POST /files/acme/1 HTTP/1.1\r\nHost: x\r\nTus-Resumable: 1.0.0\r\nX-HTTP-Method-Override: PATCH\r\n\
Content-Type: application/offset+octet-stream\r\nUpload-Offset: 0\r\nContent-Length: 5\r\n",
        b"hello",
    ),
    (
        b"HEAD /files/acme/1 HTTP/1.1\r\nHost: x\r\nTus-Resumable: 1.0.0\r\n",
        b"",
    ),
    (
        b"HEAD /files/acme/18446744073709551616 HTTP/1.1\r\nHost: x\r\nTus-Resumable: 1.0.0\r\n",
        b"",
    ),
    (b"GET /files/acme/1 HTTP/1.1\r\nHost: x\r\n", b""),
    (
        b"DELETE /files/acme/1 HTTP/1.1\r\nHost: x\r\nTus-Resumable: 1.0.0\r\n",
        b"",
    ),
    (b"OPTIONS * HTTP/1.1\r\nHost: x\r\n", b""),
    (
        b"HEAD /files/acme/1 HTTP/1.0\r\nTus-Resumable: 1.0.0\r\n",
        b"",
    ),
    (
        b"PUT /files/acme/1 HTTP/1.1\r\nHost: x\r\nTus-Resumable: 1.0.0\r\n",
        b"",
    ),
    (
        b"POST /files/acme HTTP/1.1\r\nHost: x\r\nTus-Resumable: 1.0.0\r\nUpload-Concat: final;/files/acme/1\r\n",
        b"",
    ),
];

/// The places of messages with which a conversation may begin, so that many find an upload, and some a final one.
static BEGINNINGS: [&[usize]; 6] = [&[], &[], &[1], &[1], &[4, 9], &[4, 9, 24]];

/// Lines that are put between a head and its empty line. Many say again what the head has said, or what it must not.
static LINES: [&[u8]; 40] = [
    b"Host: y\r\n",
    b"Tus-Resumable: 1.0.0\r\n",
    b"Tus-Resumable: 0.2.2\r\n",
    b"Content-Length: 5\r\n",
    b"Content-Length: 0\r\n",
    b"Content-Length: +5\r\n",
    b"Content-Length: 5, 5\r\n",
    b"Content-Length: 65\r\n",
    b"Content-Length: 18446744073709551616\r\n",
    b"Transfer-Encoding: chunked\r\n",
    b"Upload-Length: 10\r\n",
    b"Upload-Length: 65\r\n",
    b"Upload-Length: 007\r\n",
    b"Upload-Length: 18446744073709551615\r\n",
    b"Upload-Length: 18446744073709551616\r\n",
    b"Upload-Length: -1\r\n",
    b"Upload-Offset: 0\r\n",
    b"Upload-Offset: 5\r\n",
    b"Upload-Offset: \r\n",
    b"Upload-Defer-Length: 1\r\n",
    b"Upload-Defer-Length: 2\r\n",
    b"Upload-Metadata: filename aGVsbG8=\r\n",
    b"Upload-Metadata: filename aGVsbG8\r\n",
    b"Upload-Metadata: a,b,a\r\n",
    b"Upload-Metadata: \r\n",
    b"Upload-Concat: partial\r\n",
    b"Upload-Concat: final;/files/acme/1\r\n",
    b"Upload-Concat: final;/files/beta/1\r\n",
    b"Upload-Concat: final;/files/acme/01\r\n",
    b"Upload-Checksum: md5 x\r\n",
    b"Upload-Checksum: sha1 x\r\n",
    b"Content-Type: application/offset+octet-stream\r\n",
    b"Content-Type: text/plain\r\n",
    b"Expect: 100-continue\r\n",
    b"Connection: keep-alive, close\r\n",
    b"X-HTTP-Method-Override: DELETE\r\n",
    b"X-HTTP-Method-Override: HEAD\r\n",
    b"X Y: z\r\n",
    b"X: \0\r\n",
    b"X\r\n",
];

/// What may stand before a message.
static BEFORE: [&[u8]; 8] = [b"", b"", b"", b"", b"\r\n", b"\n\n", b"\r", b"\r\r\n"];

/// The line that ends a head, or fails to.
static ENDS: [&[u8]; 8] = [
    b"\r\n", b"\r\n", b"\r\n", b"\r\n", b"\r\n", b"\n", b"\r\r\n", b"",
];

/// The bytes that a spoiled one becomes.
static BYTES: [u8; 8] = [0, b'\r', b'\n', b' ', b':', b'/', b'0', 0x80];

// One of these, by chance.
fn pick<T: Copy>(dice: &mut Dice, of: &[T], otherwise: T) -> T {
    let place = dice.roll(of.len());
    of.get(place).copied().unwrap_or(otherwise)
}

// Puts a message at the end of a text.
fn put_message(rt: &impl Abort, place: usize, text: &mut Vec<u8>) {
    let (head, body) = MESSAGES.get(place).copied().unwrap_or((b"", b""));
    put(rt, text, head);
    put(rt, text, b"\r\n");
    put(rt, text, body);
}

// Puts a message at the end of a text, with up to two lines more than it should have.
fn put_hostile(rt: &impl Abort, dice: &mut Dice, text: &mut Vec<u8>) {
    let (head, body) = pick(dice, &MESSAGES, (b"", b""));
    put(rt, text, pick(dice, &BEFORE, b""));
    put(rt, text, head);
    for _ in 0..dice.roll(3) {
        put(rt, text, pick(dice, &LINES, b""));
    }
    put(rt, text, pick(dice, &ENDS, b""));
    put(rt, text, body);
}

/// A text of some messages, which may be cut, or have one byte more or another.
pub fn text_of(rt: &impl Abort, alloc: Global, dice: &mut Dice) -> Vec<u8> {
    let mut text = Vec::new(alloc);
    for place in pick(dice, &BEGINNINGS, &[]) {
        put_message(rt, *place, &mut text);
    }
    for _ in 0..=dice.roll(4) {
        put_hostile(rt, dice, &mut text);
    }
    spoil(rt, dice, &mut text);
    text
}

// Cuts a text, puts one byte more at its end, changes one, or leaves it.
fn spoil(rt: &impl Abort, dice: &mut Dice, text: &mut Vec<u8>) {
    let place = dice.roll(text.len());
    match dice.roll(6) {
        0 => text.truncate(place),
        1 => {
            let byte = pick(dice, &BYTES, 0);
            if let Some(old) = text.get_mut(place) {
                *old = byte;
            }
        }
        2 => put(rt, text, &[pick(dice, &BYTES, 0)]),
        _ => {}
    }
}

/// The moments of a conversation's messages: later ones, the same, earlier ones, and some after expiries.
pub fn moments() -> [Moment; 8] {
    [
        at(1000),
        at(1000),
        at(2000),
        at(1500),
        at(4600),
        at(5600),
        at(1000),
        at(9300),
    ]
}

/// The statuses that all conversations together have to get.
static STATUSES: [&str; 16] = [
    " 100 ", " 200 ", " 201 ", " 204 ", " 400 ", " 403 ", " 404 ", " 405 ", " 409 ", " 410 ",
    " 411 ", " 412 ", " 413 ", " 415 ", " 460 ", " 507 ",
];

// Notes which of the statuses are in the replies of a conversation.
fn note_statuses(text: &[u8], seen: &mut [bool; 16]) {
    for (seen, status) in seen.iter_mut().zip(&STATUSES) {
        *seen = *seen || is_in(status.as_bytes(), text);
    }
}

// Asserts that the conversation of a seed is the plain program's, and notes its statuses.
fn check_conversation(rt: &impl Abort, alloc: Global, seed: u64, seen: &mut [bool; 16]) {
    let what = format!(in alloc; "conversation {seed}").expect(rt, "memory");
    let mut dice = Dice::new(seed);
    let text = text_of(rt, alloc, &mut dice);
    let plain = plain_talk(rt, alloc, NUMBERS, &text, &moments());
    note_statuses(&plain.text, seen);
    let input = Input::new(&text, dice.roll(40).max(1));
    let expected = plain.as_expected();
    assert_talk_with(rt, alloc, NUMBERS, &what, input, &moments(), &expected);
}

#[test]
fn hostile_conversations(rt: HostRuntime) {
    let mut seen = [false; 16];
    for seed in 1..=CONVERSATIONS {
        check_conversation(&rt, rt.alloc(), seed, &mut seen);
    }
    for (seen, status) in seen.iter().zip(&STATUSES) {
        assert!(rt; *seen, "status{status}was never told");
    }
}

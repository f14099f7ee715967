//! What a conversation says, and the comparison of it with what is expected.

ghost use Rattle.std.specs.Prelude.{◌≤◌};

use crate::tests::memory::{Input, Output};
use crate::tests::plain::plain_conversation;
use http_wire::{Ended, Tapped, WireFault, conversation_of, converse};
use std::alloc::Global;
use std::process::Abort;
use upload_book::{Book, Moment, Name, Numbers};
use worked_example::{NUMBERS, settings_of};

/// What a conversation wrote, how it ended, how many bytes the first upload of acme has then, where
/// there is one, and what was not read of the input.
#[derive(Drop)]
pub struct Spoken<'a> {
    pub text: Vec<u8>,
    pub ended: Result<Ended, WireFault>,
    pub offset: Option<u64>,
    pub rest: &'a [u8],
}

impl Spoken<'_> {
    /// The same as what another conversation has to write, and how that has to end.
    pub fn as_expected(&self) -> Expected<'_> {
        Expected {
            text: self.text.as_slice(),
            ended: self.ended,
            offset: self.offset,
        }
    }
}

/// What a conversation has to write, how it has to end, and how many bytes the first upload of acme
/// has to have then.
#[derive(Clone, Copy)]
pub struct Expected<'a> {
    pub text: &'a [u8],
    pub ended: Result<Ended, WireFault>,
    pub offset: Option<u64>,
}

/// Moment 1000 for each of eight messages.
pub fn at_1000() -> [Moment; 8] {
    [at(1000); 8]
}

pub fn at(secs: u64) -> Moment
    requires { secs ≤ 253402300799 }
{
    Moment::new(secs).unwrap()
}

/// One text of these parts.
pub fn joined(rt: &impl Abort, alloc: Global, parts: &[&[u8]]) -> Vec<u8> {
    let mut all = Vec::new(alloc);
    for part in parts {
        put(rt, &mut all, part);
    }
    all
}

/// A text so many times.
pub fn repeated(rt: &impl Abort, alloc: Global, text: &[u8], times: usize) -> Vec<u8> {
    let mut all = Vec::new(alloc);
    for _ in 0..times {
        put(rt, &mut all, text);
    }
    all
}

/// Puts bytes at the end of a text.
pub fn put(rt: &impl Abort, text: &mut Vec<u8>, bytes: &[u8]) {
    text.extend_from_slice(bytes).expect(rt, "memory");
}

/// Whether some bytes, of which there is one at least, stand somewhere in a text.
pub fn is_in(bytes: &[u8], text: &[u8]) -> bool {
    text.windows(bytes.len().max(1))
        .any(|window| window == bytes)
}

/// A book with no upload.
pub fn new_book(rt: &impl Abort, alloc: Global) -> Book {
    book_with(rt, alloc, NUMBERS)
}

/// A book of these numbers with no upload.
pub fn book_with(rt: &impl Abort, alloc: Global, numbers: Numbers) -> Book {
    let settings = settings_of(numbers).expect(rt, "settings");
    Book::new(alloc, settings).expect(rt, "memory")
}

/// How many blocks a tenant pays.
pub fn charge_of(rt: &impl Abort, book: &Book, tenant: &[u8]) -> u64 {
    let tenant = book.settings().tenant(tenant).expect(rt, "a tenant");
    book.charge(tenant)
}

/// How many bytes the first upload of acme has, where there is one.
pub fn offset_of(book: &Book) -> Option<u64> {
    let name = Name { tenant: 0, id: 1 };
    match book.look(&name, at(1000)) {
        Ok(row) => Some(row.offset),
        Err(_) => None,
    }
}

/// Asserts that this upload has so many bytes.
pub fn assert_offset(rt: &impl Abort, what: &str, book: &Book, offset: u64) {
    assert!(rt; offset_of(book) == Some(offset), "{what}: offset");
}

/// A conversation with a book.
pub fn talk<'a>(
    alloc: Global,
    book: &mut Book,
    input: Input<'a>,
    output: Output,
    moments: &[Moment],
) -> Spoken<'a> {
    let mut reader = Tapped::new(input);
    let mut writer = Tapped::new(output);
    let ended = converse(alloc, &mut reader, &mut writer, book, moments);
    let offset = offset_of(book);
    Spoken {
        text: writer.inner.written,
        ended,
        offset,
        rest: reader.inner.rest,
    }
}

/// A conversation with a new book.
pub fn talk_of<'a>(
    rt: &impl Abort,
    alloc: Global,
    input: Input<'a>,
    output: Output,
    moments: &[Moment],
) -> Spoken<'a> {
    let mut book = new_book(rt, alloc);
    talk(alloc, &mut book, input, output, moments)
}

/// The conversation of some bytes with a new book of these numbers by the plain program.
pub fn plain_talk(
    rt: &impl Abort,
    alloc: Global,
    numbers: Numbers,
    input: &[u8],
    moments: &[Moment],
) -> Spoken<'static> {
    let mut book = book_with(rt, alloc, numbers);
    let (text, ended) = plain_conversation(rt, alloc, input, &mut book, moments, None);
    Spoken {
        text,
        ended: Ok(ended),
        offset: offset_of(&book),
        rest: b"",
    }
}

/// The conversation of known bytes with a new book, all of whose messages come at moment 1000.
pub fn known_talk(rt: &impl Abort, alloc: Global, input: &[u8]) -> Spoken<'static> {
    let mut book = new_book(rt, alloc);
    let (text, ended) = conversation_of(alloc, input, &mut book, &at_1000()).expect(
        rt,
        "known bytes",
    );
    Spoken {
        text,
        ended: Ok(ended),
        offset: offset_of(&book),
        rest: b"",
    }
}

/// Asserts that a conversation, which `what` names, was as expected.
pub fn assert_spoken(rt: &impl Abort, what: &str, spoken: &Spoken<'_>, expected: &Expected<'_>) {
    assert_text(rt, what, spoken.text.as_slice(), expected.text);
    assert!(rt; spoken.ended == expected.ended, "{what}: end");
    assert!(rt; spoken.offset == expected.offset, "{what}: offset");
}

/// Asserts that a conversation, which `what` names, wrote this text.
fn assert_text(rt: &impl Abort, what: &str, text: &[u8], expected: &[u8]) {
    assert_eq!(rt; text, expected, "{what}: text");
}

/// Asserts that the conversation of some bytes with a new book is as expected, however many bytes a read
/// gives, and that the plain program's is.
pub fn assert_both(
    rt: &impl Abort,
    alloc: Global,
    what: &str,
    input: &[u8],
    moments: &[Moment],
    expected: &Expected<'_>,
) {
    assert_both_with(rt, alloc, NUMBERS, what, input, moments, expected)
}

/// The same with a new book of these numbers.
pub fn assert_both_with(
    rt: &impl Abort,
    alloc: Global,
    numbers: Numbers,
    what: &str,
    input: &[u8],
    moments: &[Moment],
    expected: &Expected<'_>,
) {
    let plain_what = format!(in alloc; "{what}, plain program").expect(rt, "memory");
    let plain = plain_talk(rt, alloc, numbers, input, moments);
    assert_spoken(rt, &plain_what, &plain, expected);
    for piece in &PIECES {
        let input = Input::new(input, *piece);
        assert_talk_with(rt, alloc, numbers, what, input, moments, expected);
    }
}

/// How many bytes a read gives at most.
static PIECES: [usize; 3] = [1, 7, usize::MAX];

/// Asserts that the conversation of an input with a new book of these numbers is as expected.
pub fn assert_talk_with(
    rt: &impl Abort,
    alloc: Global,
    numbers: Numbers,
    what: &str,
    input: Input<'_>,
    moments: &[Moment],
    expected: &Expected<'_>,
) {
    let mut book = book_with(rt, alloc, numbers);
    let spoken = talk(alloc, &mut book, input, Output::new(alloc), moments);
    assert_spoken(rt, what, &spoken, expected);
}

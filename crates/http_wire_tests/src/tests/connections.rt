//! Connections over streams that would block before each piece: however their bytes are cut, the conversation is the
//! same. Replies to messages that came together leave together.

ghost use Rattle.std.specs.Prelude.{◌≡◌};
ghost use Rattle.http_wire.specs.OnConnection.{wanted};

use crate::tests::conversations::{FIRST_UPLOAD, REPLIES};
use crate::tests::driven::{Arriving, Leaving, Pieces, drive, spoken_over};
use crate::tests::hostile::{Dice, NUMBERS as HOSTILE_NUMBERS, moments, text_of};
use crate::tests::plain::{InPieces, plain_conversation};
use crate::tests::spoken::{
    Expected, Spoken, assert_spoken, at, at_1000, book_with, charge_of, joined, new_book,
    offset_of, repeated,
};
use http_wire::{Buffers, Connection, Ended, RequestLimits, Tapped, Wants, WireFault};
use std::alloc::Global;
use std::process::Abort;
use upload_book::{Book, Moment};
use worked_example::{CREATED, POST};

/// All that there is, as one piece.
const WHOLE: Pieces = Pieces::Each(usize::MAX);

/// Asserts that the first upload is as expected over streams of these pieces.
fn assert_first_upload(rt: &impl Abort, alloc: Global, what: &str, reads: Pieces, writes: Pieces) {
    let sent = joined(rt, alloc, &FIRST_UPLOAD);
    let written = joined(rt, alloc, &REPLIES);
    let expected = Expected {
        text: &written,
        ended: Ok(Ended::Input),
        offset: Some(5),
    };
    let mut book = new_book(rt, alloc);
    let mut connection = Connection::new(alloc, 64).expect(rt, "memory");
    let reader = Arriving::new(&sent, reads);
    let writer = Leaving::new(alloc, writes);
    let moments = at_1000();
    let spoken = spoken_over(rt, &mut connection, reader, writer, &mut book, &moments);
    assert_spoken(rt, what, &spoken, &expected);
}

#[test]
fn an_input_cut_in_two(rt: HostRuntime) {
    let len = joined(&rt, rt.alloc(), &FIRST_UPLOAD).len();
    for place in 1..len {
        let what = format!(in rt.alloc(); "cut at {place}").expect(&rt, "memory");
        assert_first_upload(&rt, rt.alloc(), &what, Pieces::Two(place), WHOLE);
    }
}

#[test]
fn an_output_taken_in_two(rt: HostRuntime) {
    let len = joined(&rt, rt.alloc(), &REPLIES).len();
    for place in 1..len {
        let what = format!(in rt.alloc(); "taken up to {place}").expect(&rt, "memory");
        assert_first_upload(&rt, rt.alloc(), &what, WHOLE, Pieces::Two(place));
    }
}

#[test]
fn small_pieces(rt: HostRuntime) {
    for count in [1, 7, 4_096] {
        let what = format!(in rt.alloc(); "{count} bytes a read").expect(&rt, "memory");
        let (reads, writes) = (Pieces::Each(count), Pieces::Each(1));
        assert_first_upload(&rt, rt.alloc(), &what, reads, writes);
    }
}

/// A HEAD of an upload that there is not, and its reply, which has 110 bytes.
const MISSED: &[u8] = b"HEAD /files/acme/9 HTTP/1.1\r\nHost: x\r\nTus-Resumable: 1.0.0\r\n\r\n";

const MISSING: &[u8] = b"HTTP/1.1 404 Not Found\r\nDate: Thu, 01 Jan 1970 00:16:40 GMT\r\n\
Tus-Resumable: 1.0.0\r\nCache-Control: no-store\r\n\r\n";

/// Lets so many HEADs come in one read, asserts that the conversation ends after them, and gives its writer.
fn speak_whole(rt: &impl Abort, alloc: Global, heads: usize, text: &[u8]) -> Leaving {
    let mut writer = Leaving::new(alloc, WHOLE);
    let ended = drive_whole(rt, alloc, text, &mut writer, &[at(1000); 160]);
    assert!(rt; ended == Ok(Ended::Input), "{heads} HEADs: end");
    writer
}

/// Drives a connection with a new book to which all comes in one read.
fn drive_whole(
    rt: &impl Abort,
    alloc: Global,
    text: &[u8],
    writer: &mut Leaving,
    moments: &[Moment],
) -> Result<Ended, WireFault> {
    let mut connection = Connection::new(alloc, 64).expect(rt, "memory");
    let mut reader = Arriving::new(text, WHOLE);
    let mut book = new_book(rt, alloc);
    drive(rt, &mut connection, &mut reader, writer, &mut book, moments)
}

/// In how many writes the replies to so many HEADs leave that came in one read, where a write takes all.
fn writes_of(rt: &impl Abort, alloc: Global, heads: usize) -> u64 {
    let sent = repeated(rt, alloc, MISSED, heads);
    let writer = speak_whole(rt, alloc, heads, &sent);
    let written = repeated(rt, alloc, MISSING, heads);
    assert!(rt;
        writer.written.as_slice() == written.as_slice(),
        "{heads} HEADs: text"
    );
    writer.writes
}

/// A reply is put where no more than 8,192 bytes wait before it: 74 of these have 8,140 bytes, and 75 have 8,250.
static TOGETHER: [(usize, u64); 5] = [(1, 1), (75, 1), (76, 2), (150, 2), (151, 3)];

#[test]
fn replies_leave_together(rt: HostRuntime) {
    for (heads, writes) in &TOGETHER {
        assert_eq!(rt;
            writes_of(&rt, rt.alloc(), *heads),
            *writes,
            "{heads} HEADs"
        );
    }
}

/// Lets a message that came in be answered at moment 1000.
pub fn answer_next(rt: &impl Abort, what: &str, connection: &mut Connection, book: &mut Book) {
    match connection.wants() {
        Wants::Answer => connection.answer(book, at(1000)),
        wants => panic!(rt; "{what}: {wants:?} in place of an answer"),
    }
}

/// Puts bytes into a connection that wants to read; none are the end of the input.
pub fn take_in(rt: &impl Abort, what: &str, connection: &mut Connection, bytes: &[u8]) {
    match connection.wants() {
        Wants::Read => assert!(rt; takes_all(connection, bytes), "{what}: a read"),
        wants => panic!(rt; "{what}: {wants:?} in place of a read"),
    }
}

/// Puts bytes into a connection. Says whether it takes all of them.
fn takes_all(connection: &mut Connection, bytes: &[u8]) -> bool
    requires { wanted connection.old ≡ Wants.Read }
{
    let read = connection.read_from(&mut Tapped::new(bytes));
    read.ok() == Some(bytes.len())
}

/// Takes up to so many of the bytes that are pending, as sent.
pub fn take_out(connection: &mut Connection, most: usize) {
    let count = connection.pending().len().min(most);
    connection.sent(count);
}

/// Asserts what a connection wants.
pub fn assert_wants(rt: &impl Abort, what: &str, connection: &mut Connection, expected: Wants) {
    assert_eq!(rt; connection.wants(), expected, "{what}");
}

/// What is done with a connection, and what it has to show.
enum Step {
    /// So many messages that came in are answered.
    Answers(usize),
    /// So many of the bytes that are pending are sent.
    TakesOut(usize),
    /// So many bytes are pending.
    Pends(usize),
    Wants(Wants),
}

/// Takes a step with a connection. Says whether that shows what it has to.
fn goes(rt: &impl Abort, connection: &mut Connection, book: &mut Book, step: &Step) -> bool {
    match step {
        Step::Answers(count) => {
            answer_each(rt, connection, book, *count);
            true
        }
        Step::TakesOut(count) => {
            take_out(connection, *count);
            true
        }
        Step::Pends(count) => connection.pending_len() == *count,
        Step::Wants(wants) => connection.wants() == *wants,
    }
}

/// Lets so many messages that came in be answered.
fn answer_each(rt: &impl Abort, connection: &mut Connection, book: &mut Book, count: usize) {
    for _ in 0..count {
        answer_next(rt, "the next", connection, book);
    }
}

/// A connection to which these messages came in one read, after steps, each with a name, with a new book.
fn connection_after(
    rt: &impl Abort,
    alloc: Global,
    sent: &[u8],
    steps: &[(&str, Step)],
) -> Connection {
    let mut book = new_book(rt, alloc);
    let mut connection = Connection::new(alloc, 64).expect(rt, "memory");
    take_in(rt, "messages", &mut connection, sent);
    for (what, step) in steps {
        assert!(rt; goes(rt, &mut connection, &mut book, step), "{what}");
    }
    connection
}

/// Where there is no room for one more reply, the connection wants to write, and the next message waits until all of it
/// is sent, but for the last byte too.
static NO_ROOM: [(&str, Step); 7] = [
    ("room", Step::Answers(75)),
    ("no room", Step::Wants(Wants::Write)),
    ("no room", Step::Pends(8_250)),
    ("all but one byte", Step::TakesOut(8_249)),
    ("one byte is left", Step::Wants(Wants::Write)),
    ("the last byte", Step::TakesOut(1)),
    ("room again", Step::Wants(Wants::Answer)),
];

#[test]
fn no_room_for_one_more(rt: HostRuntime) {
    let sent = repeated(&rt, rt.alloc(), MISSED, 76);
    connection_after(&rt, rt.alloc(), &sent, &NO_ROOM);
}

/// A message that came with the one before it is answered while some of the reply to that is still pending.
static BEHIND: [(&str, Step); 3] = [
    ("the first", Step::Answers(1)),
    ("a part of its reply", Step::TakesOut(10)),
    ("the second", Step::Answers(1)),
];

#[test]
fn answers_stand_behind_what_is_pending(rt: HostRuntime) {
    let sent = joined(&rt, rt.alloc(), &[POST, MISSED]);
    let (_, rest) = CREATED.split_at(10);
    let expected = joined(&rt, rt.alloc(), &[rest, MISSING]);
    let connection = connection_after(&rt, rt.alloc(), &sent, &BEHIND);
    assert!(rt; connection.pending() == expected.as_slice());
}

/// How many conversations are tried.
const CONVERSATIONS: u64 = 3_000;

/// The conversation of a text with a book over these buffers, read and written in parts by chance. Bodies are taken in pieces of so
/// many bytes, or gathered where there are none.
fn speak_by_chance(
    rt: &impl Abort,
    alloc: Global,
    mut dice: Dice,
    buffers: Buffers,
    piece: Option<usize>,
    text: &[u8],
    book: &mut Book,
) -> (Spoken<'static>, Buffers) {
    let (reads, writes) = (dice.roll(60), dice.roll(60));
    let piece = piece.filter(|size| *size > 0);
    let mut connection = Connection::by_pieces(buffers, RequestLimits::alike(64), piece);
    let reader = Arriving::new(text, Pieces::Chance(dice, reads));
    let writer = Leaving::new(alloc, Pieces::Chance(dice, writes));
    let spoken = spoken_over(rt, &mut connection, reader, writer, book, &moments());
    (spoken, connection.into_buffers())
}

/// Asserts that the conversation of a seed over these buffers is the plain program's, and leaves the same in its book. Bodies are
/// taken in pieces of so many bytes, or gathered where there are none.
fn check_conversation(
    rt: &impl Abort,
    alloc: Global,
    seed: u64,
    piece: Option<usize>,
    buffers: Buffers,
) -> Buffers {
    let what = format!(in alloc; "conversation {seed}").expect(rt, "memory");
    let mut dice = Dice::new(seed);
    let sent = text_of(rt, alloc, &mut dice);
    let mut book = book_with(rt, alloc, HOSTILE_NUMBERS);
    let (spoken, buffers) = speak_by_chance(rt, alloc, dice, buffers, piece, &sent, &mut book);
    let mut plain_book = book_with(rt, alloc, HOSTILE_NUMBERS);
    let other = piece.map(|size| InPieces {
        size,
        written: spoken.text.as_slice(),
    });
    let (text, ended) = plain_conversation(rt, alloc, &sent, &mut plain_book, &moments(), other);
    let expected = Expected {
        text: &text,
        ended: Ok(ended),
        offset: offset_of(&plain_book),
    };
    assert_spoken(rt, &what, &spoken, &expected);
    for tenant in [b"acme", b"beta"] {
        let charge = charge_of(rt, &book, tenant);
        let plain = charge_of(rt, &plain_book, tenant);
        assert_eq!(rt; charge, plain, "{what}: charge");
    }
    buffers
}

/// One connection's buffers pass to the next. Each conversation is had with bodies gathered, and with bodies in pieces of one to
/// seven blocks of four bytes.
#[test]
fn random_conversations_in_random_parts(rt: HostRuntime) {
    let mut buffers = Buffers::new(rt.alloc()).expect(&rt, "memory");
    for seed in 1..=CONVERSATIONS {
        let blocks = (seed % 7) as usize;
        for piece in [None, Some(4 + 4 * blocks)] {
            buffers = check_conversation(&rt, rt.alloc(), seed, piece, buffers);
        }
    }
}

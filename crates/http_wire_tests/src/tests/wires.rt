//! `Wire` alone, step by step, and `serve` over it.

ghost use Rattle.std.specs.Prelude.{⊤};

use crate::tests::conversations::{CHUNKED, CODING};
use crate::tests::memory::{Input, Output};
use crate::tests::spoken::{Expected, assert_spoken, at, joined, known_talk, new_book};
use http_wire::{
    Buffers, Clock, Ended, Framing, Incoming, Tapped, Wire, WireFault, WireRefusal, serve,
};
use std::alloc::Global;
use std::process::Abort;
use tus_steps::{PlacedReply, Request, answer};
use upload_book::{Book, Moment};
use worked_example::{CREATED, HEAD, LOOKED, PATCH, PATCHED, POST};

/// A wire over a reader and a writer in memory.
pub type MemoryWire<'a> = Wire<Tapped<Input<'a>>, Tapped<Output>>;

pub fn new_wire<'a>(
    rt: &impl Abort,
    alloc: Global,
    input: Input<'a>,
    output: Output,
) -> MemoryWire<'a> {
    let wire = Wire::new(alloc, Tapped::new(input), Tapped::new(output), 64);
    wire.expect(rt, "memory")
}

/// Whether the end of the input stands next on a wire.
pub fn is_at_end(wire: &mut MemoryWire<'_>) -> Result<bool, WireFault> {
    Ok(matches!(wire.read_request()?, Incoming::End))
}

/// Takes a turn on a wire at moment 1000.
pub fn take_turn(wire: &mut MemoryWire<'_>, book: &mut Book) -> Result<Option<Ended>, WireFault> {
    wire.take_turn(book, &mut at(1000))
}

/// How it ends where a wire that still reads serves so many turns with a book.
pub fn serve_on(
    rt: &impl Abort,
    wire: &mut MemoryWire<'_>,
    book: &mut Book,
    clock: &mut impl Clock,
    turns: usize,
) -> Result<Ended, WireFault> {
    assert!(rt; wire.is_open());
    serve(wire, book, clock, turns)
}

/// What was written on a wire.
pub fn written_on(wire: MemoryWire<'_>) -> Vec<u8> {
    let (_, writer, _) = wire.into_parts();
    writer.inner.written
}

/// What a book answers to a request at moment 1000.
fn reply_to(book: &mut Book, request: &Request) -> PlacedReply {
    PlacedReply::of(answer(book, request, at(1000)))
}

/// What a book answers to the next message on a wire, and how the reply is framed.
fn answer_of(
    rt: &impl Abort,
    wire: &mut MemoryWire<'_>,
    book: &mut Book,
) -> (PlacedReply, Framing) {
    match wire.read_request().expect(rt, "a read") {
        Incoming::Message(message) => {
            let reply = reply_to(book, &message.request());
            (reply, message.framing())
        }
        _ => panic!(rt; "a message was sent"),
    }
}

/// Reads a message and writes its reply.
fn answer_one(
    rt: &impl Abort,
    wire: &mut MemoryWire<'_>,
    book: &mut Book,
) -> Result<(), WireFault> {
    let (mut reply, framing) = answer_of(rt, wire, book);
    wire.write_reply(&mut reply, at(1000), framing)
}

/// Why the next message on a wire is refused, and how the answer to it is framed.
fn refusal_of(rt: &impl Abort, wire: &mut MemoryWire<'_>) -> (WireRefusal, Framing) {
    match wire.read_request().expect(rt, "a read") {
        Incoming::Refused(refusal, framing) => (refusal, framing),
        _ => panic!(rt; "a transfer coding was sent"),
    }
}

/// Reads a transfer coding, which a wire refuses, and writes the answer to it, with which the connection closes.
fn refuse_coding(rt: &impl Abort, wire: &mut MemoryWire<'_>) -> Result<(), WireFault> {
    let (refusal, framing) = refusal_of(rt, wire);
    assert!(rt; refusal == WireRefusal::Coding && framing.close);
    wire.write_refusal(refusal, at(1000), framing)
}

/// What is done on a wire, and what it gives.
#[derive(Clone, Copy)]
enum Step {
    /// A message is read, and its reply is written.
    Answers,
    /// A transfer coding is refused.
    Refuses,
    /// The end of the input stands next.
    Ends,
    /// A turn at moment 1000.
    TakesTurn(Result<Option<Ended>, WireFault>),
    /// So many turns with a clock.
    Serves(usize, Result<Ended, WireFault>),
}

/// Takes a step on a wire. Says whether it gives what the step says.
fn gives(
    rt: &impl Abort,
    wire: &mut MemoryWire<'_>,
    book: &mut Book,
    clock: &mut impl Clock,
    step: Step,
) -> bool {
    match step {
        Step::Answers => answer_one(rt, wire, book).is_ok(),
        Step::Refuses => refuse_coding(rt, wire).is_ok(),
        Step::Ends => is_at_end(wire) == Ok(true),
        Step::TakesTurn(expected) => take_turn(wire, book) == expected,
        Step::Serves(turns, ended) => serve_on(rt, wire, book, clock, turns) == ended,
    }
}

/// Takes steps, each with a name, on a wire with a new book.
fn take_each(
    rt: &impl Abort,
    alloc: Global,
    wire: &mut MemoryWire<'_>,
    clock: &mut impl Clock,
    steps: &[(&str, Step)],
) {
    let mut book = new_book(rt, alloc);
    for (what, step) in steps {
        assert!(rt; gives(rt, wire, &mut book, clock, *step), "{what}");
    }
}

/// Asserts what is written on a wire of these messages in the course of these steps.
fn assert_steps(
    rt: &impl Abort,
    alloc: Global,
    sent: &[&[u8]],
    piece: usize,
    clock: &mut impl Clock,
    steps: &[(&str, Step)],
    written: &[&[u8]],
) {
    let sent = joined(rt, alloc, sent);
    let written = joined(rt, alloc, written);
    let mut wire = new_wire(rt, alloc, Input::new(&sent, piece), Output::new(alloc));
    take_each(rt, alloc, &mut wire, clock, steps);
    assert!(rt; written_on(wire) == written, "written");
}

/// Messages of which a read brings so many bytes, what is done on their wire, and what is written.
struct Scene {
    sent: &'static [&'static [u8]],
    piece: usize,
    steps: &'static [(&'static str, Step)],
    written: &'static [&'static [u8]],
}

static SCENES: [Scene; 3] = [
    Scene {
        sent: &[POST],
        piece: usize::MAX,
        steps: &[
            ("a message", Step::Answers),
            ("the end", Step::Ends),
            ("the end again", Step::Ends),
        ],
        written: &[CREATED],
    },
    Scene {
        sent: &[POST, PATCH, HEAD],
        piece: 7,
        steps: &[
            ("two turns", Step::Serves(2, Ok(Ended::Moments))),
            ("the last message", Step::TakesTurn(Ok(None))),
            ("the end", Step::TakesTurn(Ok(Some(Ended::Input)))),
            ("the end again", Step::TakesTurn(Ok(Some(Ended::Input)))),
        ],
        written: &[CREATED, PATCHED, LOOKED],
    },
    Scene {
        sent: &[CHUNKED],
        piece: usize::MAX,
        steps: &[("a coding", Step::Refuses), ("the end", Step::Ends)],
        written: &[CODING],
    },
];

#[test]
fn steps_on_a_wire(rt: HostRuntime) {
    for scene in &SCENES {
        assert_steps(
            &rt,
            rt.alloc(),
            scene.sent,
            scene.piece,
            &mut at(1000),
            scene.steps,
            scene.written,
        );
    }
}

/// A clock that is an hour later each time it is asked, from this hour after second 1000 on.
#[derive(Drop)]
struct Hours {
    next: u64,
}

impl Clock for Hours {
    ghost tells = { λ before now after. ⊤ };

    fn moment(&mut self) -> Moment {
        let hour = self.next.min(1_000_000);
        self.next = hour + 1;
        at(1000 + hour * 3600)
    }
}

const EXPIRED: &[u8] = b"HTTP/1.1 410 Gone\r\nDate: Thu, 01 Jan 1970 01:16:40 GMT\r\n\
Tus-Resumable: 1.0.0\r\nCache-Control: no-store\r\n\r\n";

static HOURS: [(&str, Step); 1] = [("hours", Step::Serves(3, Ok(Ended::Input)))];

#[test]
fn an_upload_expires_while_its_connection_stays_open(rt: HostRuntime) {
    let clock = &mut Hours { next: 0 };
    let written = [CREATED, EXPIRED];
    assert_steps(
        &rt,
        rt.alloc(),
        &[POST, HEAD],
        usize::MAX,
        clock,
        &HOURS,
        &written,
    );
}

const POST_WHOLE: &[u8] = b"POST /files/acme HTTP/1.1\r\nHost: x\r\nTus-Resumable: 1.0.0\r\n\
Upload-Length: 5\r\nContent-Type: application/offset+octet-stream\r\nContent-Length: 5\r\n\r\nhello";

const GET: &[u8] = b"GET /files/acme/1 HTTP/1.1\r\nHost: x\r\n\r\n";

static TWO_READS: [(&str, Step); 1] = [("two reads", Step::Serves(3, Ok(Ended::Input)))];

/// One read gives both messages, and the next one the end; each reply leaves in one write, with the content of a GET.
#[test]
fn one_write_a_reply(rt: HostRuntime) {
    let alloc = rt.alloc();
    let all = joined(&rt, alloc, &[POST_WHOLE, GET]);
    let mut input = Input::new(&all, usize::MAX);
    input.reads = 2;
    let mut output = Output::new(alloc);
    output.writes = 2;
    let mut wire = new_wire(&rt, alloc, input, output);
    take_each(&rt, alloc, &mut wire, &mut at(1000), &TWO_READS);
    assert!(rt;
        written_on(wire).ends_with(b"\r\n\r\nhello"),
        "written last"
    );
}

const LARGE_HEAD: &[u8] =
    b"PATCH /files/acme/1 HTTP/1.1\r\nHost: x\r\nContent-Length: 60000\r\n\r\n";

/// Asserts that a whole message stands next on a wire.
fn assert_message(rt: &impl Abort, wire: &mut MemoryWire<'_>) {
    let incoming = wire.read_request().expect(rt, "a read");
    assert!(rt;
        matches!(incoming, Incoming::Message(_)),
        "a whole message was sent"
    );
}

/// The buffers after a wire over them has read a message of these bytes.
fn read_over(rt: &impl Abort, alloc: Global, buffers: Buffers, sent: &[u8]) -> Buffers {
    let reader = Tapped::new(Input::new(sent, usize::MAX));
    let mut wire = Wire::with_buffers(buffers, reader, Tapped::new(Output::new(alloc)), 60_000);
    assert_message(rt, &mut wire);
    let (_, _, buffers) = wire.into_parts();
    buffers
}

/// The head of a large message and its body.
fn large_message(rt: &impl Abort, alloc: Global) -> Vec<u8> {
    let mut large = joined(rt, alloc, &[LARGE_HEAD]);
    let len = LARGE_HEAD.len().saturating_add(60_000);
    large.resize(len, 0).expect(rt, "memory");
    large
}

/// A message that is read over buffers.
#[derive(Clone, Copy)]
enum Sent {
    Small,
    Large,
}

/// What is read over the same buffers in turn, and how much memory they have after it.
static ROOMS: [(&str, Sent, usize); 3] = [
    ("after a small message", Sent::Small, 65_536),
    ("after a large message", Sent::Large, 131_072),
    ("after a small message again", Sent::Small, 131_072),
];

/// The buffers have memory for a message and one more read after it, the least power of two that suffices, and keep it
/// for the next connection.
#[test]
fn room_of_buffers(rt: HostRuntime) {
    let large = large_message(&rt, rt.alloc());
    let mut buffers = Buffers::new(rt.alloc()).expect(&rt, "memory");
    assert!(rt; buffers.room() == 65_536, "at first");
    for (what, sent, room) in &ROOMS {
        let text = match sent {
            Sent::Small => POST,
            Sent::Large => large.as_slice(),
        };
        buffers = read_over(&rt, rt.alloc(), buffers, text);
        assert!(rt; buffers.room() == *room, "{what}");
    }
}

/// What is left in the buffers of a wire to which these messages came in one read, after it took these steps.
fn buffers_after(
    rt: &impl Abort,
    alloc: Global,
    sent: &[&[u8]],
    steps: &[(&str, Step)],
) -> Buffers {
    let all = joined(rt, alloc, sent);
    let mut wire = new_wire(rt, alloc, Input::new(&all, usize::MAX), Output::new(alloc));
    take_each(rt, alloc, &mut wire, &mut at(1000), steps);
    let (_, _, buffers) = wire.into_parts();
    buffers
}

static FIRST_TURN: [(&str, Step); 1] = [("a turn", Step::Serves(1, Ok(Ended::Moments)))];

static NEXT_CONNECTION: [(&str, Step); 1] = [(
    "the next connection",
    Step::Serves(2, Ok(Ended::Input)),
)];

/// The first wire leaves its buffers with a message in them that nobody has asked for. A wire over these begins anew,
/// and its first message makes the book's first upload.
#[test]
fn buffers_pass_on(rt: HostRuntime) {
    let alloc = rt.alloc();
    let buffers = buffers_after(&rt, alloc, &[POST, CHUNKED], &FIRST_TURN);
    let reader = Tapped::new(Input::new(POST, usize::MAX));
    let mut wire = Wire::with_buffers(buffers, reader, Tapped::new(Output::new(alloc)), 64);
    take_each(&rt, alloc, &mut wire, &mut at(1000), &NEXT_CONNECTION);
    assert!(rt; written_on(wire).as_slice() == CREATED, "written");
}

const CLOSING: &[u8] = b"OPTIONS * HTTP/1.1\r\nHost: x\r\nConnection: close\r\n\r\n";

static CLOSE: [(&str, Step); 1] = [("a close", Step::Serves(4, Ok(Ended::Closed)))];

/// Which messages come in one read, and whether the buffers have a rest after a conversation that closed.
static CLOSES: [(&str, &[&[u8]], bool); 3] = [
    ("asked for", &[POST, CLOSING], false),
    ("a refusal", &[CHUNKED], true),
    ("more came", &[CLOSING, POST], true),
];

/// Nothing is left after a close that the client asked for; something may be after a refusal, and where more came.
#[test]
fn what_is_left_after_a_close(rt: HostRuntime) {
    for (what, sent, has_rest) in &CLOSES {
        let buffers = buffers_after(&rt, rt.alloc(), sent, &CLOSE);
        assert!(rt; buffers.has_rest() == *has_rest, "{what}");
    }
}

/// Messages in one text, what is written, how it ends, and how many bytes the first upload has then.
static KNOWN: [(&str, &[&[u8]], &[&[u8]], Ended, Option<u64>); 2] = [
    (
        "known bytes",
        &[POST, PATCH, HEAD],
        &[CREATED, PATCHED, LOOKED],
        Ended::Input,
        Some(5),
    ),
    ("a close", &[CHUNKED], &[CODING], Ended::Closed, None),
];

#[test]
fn known_bytes(rt: HostRuntime) {
    for (what, sent, written, ended, offset) in &KNOWN {
        let sent = joined(&rt, rt.alloc(), sent);
        let written = joined(&rt, rt.alloc(), written);
        let expected = Expected {
            text: &written,
            ended: Ok(*ended),
            offset: *offset,
        };
        assert_spoken(&rt, what, &known_talk(&rt, rt.alloc(), &sent), &expected);
    }
}

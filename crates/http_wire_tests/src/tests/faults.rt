//! Reads and writes that fail, one byte being read or written a call: all earlier replies are whole, of the one that
//! failed a prefix was written, the book has what came until then, and nothing is read or written any more.

ghost use Rattle.std.specs.Prelude.{◌≤◌, length};

use crate::tests::conversations::{FIRST_UPLOAD, NONE, PATCH_WAITING};
use crate::tests::memory::{Input, Output};
use crate::tests::spoken::{
    Expected, Spoken, assert_spoken, at, at_1000, charge_of, joined, new_book, plain_talk, talk,
    talk_of,
};
use crate::tests::wires::{MemoryWire, is_at_end, new_wire, serve_on, take_turn, written_on};
use http_wire::{Ended, Framing, WireFault, WireRefusal};
use std::alloc::Global;
use std::process::Abort;
use tus_steps::{PlacedReply, Reply};
use upload_book::Book;
use worked_example::{CREATED, HEAD, NUMBERS, PATCH, POST};

/// A reader of these bytes, one a read, of which the read after `reads` of them fails.
fn failing_input(bytes: &[u8], reads: usize) -> Input<'_> {
    let mut input = Input::new(bytes, 1);
    input.reads = reads;
    input
}

/// A writer of one byte a write, of which the write after `writes` of them fails, or takes none where not `fails`.
fn failing_output(alloc: Global, writes: usize, fails: bool) -> Output {
    Output {
        written: Vec::new(alloc),
        piece: 1,
        writes,
        fails,
    }
}

const CLOSING: Framing = Framing {
    bare: false,
    close: true,
};

/// Whether each call on a wire gives `Failed`.
fn is_failed(wire: &mut MemoryWire<'_>, book: &mut Book) -> bool {
    let failed = WireFault::Failed;
    let mut reply = PlacedReply::of(Reply::Deleted);
    take_turn(wire, book) == Err(failed)
        && is_at_end(wire) == Err(failed)
        && wire.write_refusal(WireRefusal::Head, at(1000), CLOSING) == Err(failed)
        && wire.write_reply(&mut reply, at(1000), CLOSING) == Err(failed)
}

/// Asserts that a wire over these streams gives a fault, and `Failed` at each later call, with this text written.
fn assert_stays_failed(
    rt: &impl Abort,
    alloc: Global,
    what: &str,
    input: Input<'_>,
    output: Output,
    fault: WireFault,
    text: &[u8],
) {
    let mut book = new_book(rt, alloc);
    let mut wire = new_wire(rt, alloc, input, output);
    let served = serve_on(rt, &mut wire, &mut book, &mut at(1000), 8);
    assert!(rt; served == Err(fault), "{what}");
    assert!(rt; is_failed(&mut wire, &mut book), "{what}: a later call");
    assert!(rt; written_on(wire).as_slice() == text, "{what}: written");
}

/// Asserts that a conversation with a new book over these streams is as expected, and what is not read of its input.
fn assert_breaks(
    rt: &impl Abort,
    alloc: Global,
    what: &str,
    input: Input<'_>,
    output: Output,
    expected: &Expected<'_>,
    rest: &[u8],
) {
    let spoken = talk_of(rt, alloc, input, output, &at_1000());
    assert_spoken(rt, what, &spoken, expected);
    assert!(rt; spoken.rest == rest, "{what}: rest");
}

/// Asserts how a conversation of the first upload ends where the read after its first `len` bytes fails: as the plain
/// program's of these bytes, but for the fault.
fn assert_read_fails(rt: &impl Abort, alloc: Global, all: &[u8], len: usize)
    requires { len ≤ length all.now }
{
    let what = format!(in alloc; "{len} reads").expect(rt, "memory");
    let (came, rest) = all.split_at(len);
    let plain = plain_talk(rt, alloc, NUMBERS, came, &at_1000());
    let expected = Expected {
        ended: Err(WireFault::Read),
        ..plain.as_expected()
    };
    let (input, output) = (failing_input(all, len), Output::new(alloc));
    assert_breaks(rt, alloc, &what, input, output, &expected, rest);
    let (input, output) = (failing_input(all, len), Output::new(alloc));
    let fault = WireFault::Read;
    assert_stays_failed(rt, alloc, &what, input, output, fault, expected.text);
}

#[test]
fn failing_reads(rt: HostRuntime) {
    let all = joined(&rt, rt.alloc(), &FIRST_UPLOAD);
    for len in 0..=all.len() {
        assert_read_fails(&rt, rt.alloc(), &all, len);
    }
}

const PATCH_WAITING_HEAD: &[u8] =
    b"PATCH /files/acme/1 HTTP/1.1\r\nHost: x\r\nTus-Resumable: 1.0.0\r\n\
Content-Type: application/offset+octet-stream\r\nUpload-Offset: 0\r\nExpect: 100-continue\r\n\
Content-Length: 5\r\n\r\n";

/// The first upload, and one whose client waits for `100 Continue`, each in the pieces after which something is written.
static UPLOADS: [[&[u8]; 4]; 2] = [
    [POST, PATCH, HEAD, NONE],
    [POST, PATCH_WAITING_HEAD, b"hello", HEAD],
];

/// Asserts how a conversation ends where the write after the first `len` bytes of its replies fails, or takes no byte.
/// These are written after `came`, and `plain` is what the plain program makes of that.
fn assert_write_fails(
    rt: &impl Abort,
    alloc: Global,
    came: &[u8],
    rest: &[u8],
    plain: &Spoken<'_>,
    len: usize,
    fails: bool,
)
    requires { len ≤ length plain.now.text.items }
{
    let expected = Expected {
        text: &plain.text.as_slice()[..len],
        ended: Err(WireFault::Write),
        offset: plain.offset,
    };
    let what = format!(in alloc; "{len} writes").expect(rt, "memory");
    let all = joined(rt, alloc, &[came, rest]);
    let (input, output) = (Input::new(&all, 1), failing_output(alloc, len, fails));
    assert_breaks(rt, alloc, &what, input, output, &expected, rest);
    let (input, output) = (Input::new(&all, 1), failing_output(alloc, len, fails));
    let fault = WireFault::Write;
    assert_stays_failed(rt, alloc, &what, input, output, fault, expected.text);
}

/// Asserts it for each byte that is written after these pieces and was not before the last of them.
fn assert_writes_fail(rt: &impl Abort, alloc: Global, pieces: &[&[u8]], place: usize)
    requires { place ≤ length pieces.now }
{
    let (came, after) = pieces.split_at(place);
    let (came, rest) = (joined(rt, alloc, came), joined(rt, alloc, after));
    let earlier = joined(rt, alloc, &pieces[..place.saturating_sub(1)]);
    let written = plain_talk(rt, alloc, NUMBERS, &earlier, &at_1000())
        .text
        .len();
    let plain = plain_talk(rt, alloc, NUMBERS, &came, &at_1000());
    for len in written..plain.text.len() {
        assert_write_fails(rt, alloc, &came, &rest, &plain, len, true);
        assert_write_fails(rt, alloc, &came, &rest, &plain, len, false);
    }
}

#[test]
fn failing_writes(rt: HostRuntime) {
    for pieces in &UPLOADS {
        for place in 1..=pieces.len() {
            assert_writes_fail(&rt, rt.alloc(), pieces, place);
        }
    }
}

/// What a client sent before, and now sends; what is written until the fault, which comes once that was sent where it
/// is of a read, and once that was written where it is of a write; and what the first upload of acme has then, in bytes
/// and in blocks.
struct FaultRow {
    name: &'static str,
    before: &'static [u8],
    came: [&'static [u8]; 3],
    written: &'static [u8],
    fault: WireFault,
    /// Whether a write fails, in place of taking no byte.
    fails: bool,
    offset: u64,
    charge: u64,
}

const PATCH_CUT: &[u8] = b"PATCH /files/acme/1 HTTP/1.1\r\nHost: x\r\nTus-Resumable: 1.0.0\r\n\
Content-Type: application/offset+octet-stream\r\nUpload-Offset: 0\r\nContent-Length: 5\r\n\r\nhe";

static FAULTS: [FaultRow; 4] = [
    FaultRow {
        name: "a read fails inside the body of a PATCH, and what came of it is kept",
        before: NONE,
        came: [POST, PATCH_CUT, NONE],
        written: CREATED,
        fault: WireFault::Read,
        fails: true,
        offset: 2,
        charge: 1,
    },
    FaultRow {
        name: "the first write of the second reply fails, and the bytes stay",
        before: NONE,
        came: [POST, PATCH, HEAD],
        written: CREATED,
        fault: WireFault::Write,
        fails: true,
        offset: 5,
        charge: 2,
    },
    FaultRow {
        name: "a write of the first reply takes no byte, and the upload stays",
        before: NONE,
        came: [POST, PATCH, HEAD],
        written: NONE,
        fault: WireFault::Write,
        fails: false,
        offset: 0,
        charge: 0,
    },
    FaultRow {
        name: "a client that waits can't be told to continue",
        before: POST,
        came: [PATCH_WAITING, NONE, NONE],
        written: NONE,
        fault: WireFault::Write,
        fails: true,
        offset: 0,
        charge: 0,
    },
];

/// Speaks with a book what a row's client sent before.
fn speak_before(rt: &impl Abort, alloc: Global, row: &FaultRow, book: &mut Book) {
    let input = Input::new(row.before, usize::MAX);
    let before = talk(alloc, book, input, Output::new(alloc), &at_1000());
    assert!(rt; before.ended == Ok(Ended::Input), "{}: before", row.name);
}

/// Asserts that a conversation with a book ends as its row says.
fn assert_ends_by_fault(rt: &impl Abort, alloc: Global, row: &FaultRow, book: &mut Book) {
    let came = joined(rt, alloc, &row.came);
    let (reads, writes) = match row.fault {
        WireFault::Read => (came.len(), usize::MAX),
        _ => (usize::MAX, row.written.len()),
    };
    let input = failing_input(&came, reads);
    let output = failing_output(alloc, writes, row.fails);
    let spoken = talk(alloc, book, input, output, &at_1000());
    let expected = Expected {
        text: row.written,
        ended: Err(row.fault),
        offset: Some(row.offset),
    };
    assert_spoken(rt, row.name, &spoken, &expected);
}

/// Asserts how a row's conversation ends, and what stands then.
fn check_fault(rt: &impl Abort, alloc: Global, row: &FaultRow) {
    let mut book = new_book(rt, alloc);
    speak_before(rt, alloc, row, &mut book);
    assert_ends_by_fault(rt, alloc, row, &mut book);
    assert!(rt;
        charge_of(rt, &book, b"acme") == row.charge,
        "{}: charge",
        row.name
    );
}

#[test]
fn what_stands_after_a_fault(rt: HostRuntime) {
    for row in &FAULTS {
        check_fault(&rt, rt.alloc(), row);
    }
}

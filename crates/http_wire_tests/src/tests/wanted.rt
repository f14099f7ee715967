//! What a connection wants at each point of a conversation, and after a read that failed or gave the end.

use crate::tests::connections::{answer_next, assert_wants, take_in, take_out};
use crate::tests::conversations::{CHUNKED, CONTINUE, NONE};
use crate::tests::spoken::{assert_offset, at, joined, new_book};
use http_wire::{Connection, Ended, Incoming, Wants, WireFault, WireRefusal};
use std::alloc::Global;
use std::process::Abort;
use upload_book::Book;
use worked_example::{CREATED, LOOKED, PATCH, PATCHED, POST};

/// What happens to a connection.
#[derive(Clone, Copy)]
enum Event {
    /// These bytes come in one read.
    Comes(&'static [u8]),
    /// A message is answered.
    IsAnswered,
    /// These two texts are pending, and are sent.
    IsSent(&'static [u8], &'static [u8]),
}

/// What a connection wants after an event.
#[derive(Clone, Copy)]
struct Point {
    name: &'static str,
    event: Event,
    wants: Wants,
}

const HEAD_WAITING: &[u8] = b"PATCH /files/acme/1 HTTP/1.1\r\nHost: x\r\nTus-Resumable: 1.0.0\r\n\
Content-Type: application/offset+octet-stream\r\nUpload-Offset: 0\r\nExpect: 100-continue\r\n\
Content-Length: 5\r\n\r\n";

const REST_AND_HEAD: &[u8] =
    b"lloHEAD /files/acme/1 HTTP/1.1\r\nHost: x\r\nTus-Resumable: 1.0.0\r\n\r\n";

const CLOSING_AND_MORE: &[u8] =
    b"DELETE /files/acme/1 HTTP/1.1\r\nHost: x\r\nTus-Resumable: 1.0.0\r\n\
Connection: close\r\n\r\nPOST /files/acme HTTP/1.1\r\n\r\n";

const DELETED_AND_CLOSED: &[u8] =
    b"HTTP/1.1 204 No Content\r\nDate: Thu, 01 Jan 1970 00:16:40 GMT\r\n\
Tus-Resumable: 1.0.0\r\nConnection: close\r\n\r\n";

static POINTS: [Point; 14] = [
    Point {
        name: "a head is cut",
        event: Event::Comes(b"POST /files/acme HTTP/1.1\r\nHost: x\r\nTus-Resumable: 1.0.0\r\n"),
        wants: Wants::Read,
    },
    Point {
        name: "a head is whole",
        event: Event::Comes(b"Upload-Length: 10\r\n\r\n"),
        wants: Wants::Answer,
    },
    Point {
        name: "a reply is pending",
        event: Event::IsAnswered,
        wants: Wants::Write,
    },
    Point {
        name: "a reply is sent",
        event: Event::IsSent(CREATED, NONE),
        wants: Wants::Read,
    },
    Point {
        name: "100 Continue is due",
        event: Event::Comes(HEAD_WAITING),
        wants: Wants::Write,
    },
    Point {
        name: "100 Continue is sent",
        event: Event::IsSent(CONTINUE, NONE),
        wants: Wants::Read,
    },
    Point {
        name: "a body is under way",
        event: Event::Comes(b"he"),
        wants: Wants::Read,
    },
    Point {
        name: "a body is whole, and a message came with its end",
        event: Event::Comes(REST_AND_HEAD),
        wants: Wants::Answer,
    },
    Point {
        name: "a reply is pending, and the next message is owed one",
        event: Event::IsAnswered,
        wants: Wants::Answer,
    },
    Point {
        name: "two replies are pending",
        event: Event::IsAnswered,
        wants: Wants::Write,
    },
    Point {
        name: "two replies are sent",
        event: Event::IsSent(PATCHED, LOOKED),
        wants: Wants::Read,
    },
    Point {
        name: "a message that closes came, with another behind it",
        event: Event::Comes(CLOSING_AND_MORE),
        wants: Wants::Answer,
    },
    Point {
        name: "the last reply is pending",
        event: Event::IsAnswered,
        wants: Wants::Write,
    },
    Point {
        name: "the last reply is sent",
        event: Event::IsSent(DELETED_AND_CLOSED, NONE),
        wants: Wants::Nothing,
    },
];

/// Lets an event happen to a connection.
fn happen(
    rt: &impl Abort,
    alloc: Global,
    point: &Point,
    connection: &mut Connection,
    book: &mut Book,
) {
    match point.event {
        Event::Comes(bytes) => take_in(rt, point.name, connection, bytes),
        Event::IsAnswered => answer_next(rt, point.name, connection, book),
        Event::IsSent(first, second) => {
            let text = joined(rt, alloc, &[first, second]);
            assert!(rt;
                connection.pending() == text.as_slice(),
                "{}: text",
                point.name
            );
            take_out(connection, usize::MAX);
        }
    }
}

#[test]
fn what_is_wanted_in_turn(rt: HostRuntime) {
    let mut book = new_book(&rt, rt.alloc());
    let mut connection = Connection::new(rt.alloc(), 64).expect(&rt, "memory");
    assert_wants(&rt, "nothing came", &mut connection, Wants::Read);
    for point in &POINTS {
        happen(&rt, rt.alloc(), point, &mut connection, &mut book);
        assert_wants(&rt, point.name, &mut connection, point.wants);
        assert_wants(&rt, point.name, &mut connection, point.wants);
    }
    assert!(rt; connection.ended() == Ok(Some(Ended::Closed)));
}

/// What of a message came before a read failed, or gave the end; whether an answer is owed then, how the conversation
/// ends, and how many bytes the upload has.
#[derive(Clone, Copy)]
struct Break {
    name: &'static str,
    came: &'static [u8],
    has_failed: bool,
    is_owed: bool,
    ended: Result<Option<Ended>, WireFault>,
    offset: u64,
}

const PART: &[u8] = b"PATCH /files/acme/1 HTTP/1.1\r\nHost: x\r\nTus-Resumable: 1.0.0\r\n\
Content-Type: application/offset+octet-stream\r\nUpload-Offset: 0\r\nContent-Length: 5\r\n\r\nhe";

const CHECKED_PART: &[u8] = b"PATCH /files/acme/1 HTTP/1.1\r\nHost: x\r\nTus-Resumable: 1.0.0\r\n\
Content-Type: application/offset+octet-stream\r\nUpload-Offset: 0\r\nContent-Length: 5\r\n\
Upload-Checksum: sha1 qvTGHdzF6KLavt4PO0gs2a6pQ00=\r\n\r\nhe";

static BREAKS: [Break; 8] = [
    Break {
        name: "a read fails between messages",
        came: NONE,
        has_failed: true,
        is_owed: false,
        ended: Err(WireFault::Read),
        offset: 0,
    },
    Break {
        name: "a read fails in a head",
        came: b"HEAD /files/acme/1 HT",
        has_failed: true,
        is_owed: false,
        ended: Err(WireFault::Read),
        offset: 0,
    },
    Break {
        name: "a read fails in the body of a PATCH",
        came: PART,
        has_failed: true,
        is_owed: true,
        ended: Err(WireFault::Read),
        offset: 2,
    },
    Break {
        name: "a read fails in the body of a PATCH with a checksum",
        came: CHECKED_PART,
        has_failed: true,
        is_owed: false,
        ended: Err(WireFault::Read),
        offset: 0,
    },
    Break {
        name: "the input ends between messages",
        came: NONE,
        has_failed: false,
        is_owed: true,
        ended: Ok(Some(Ended::Input)),
        offset: 0,
    },
    Break {
        name: "the input ends in a head",
        came: b"HEAD /files/acme/1 HT",
        has_failed: false,
        is_owed: true,
        ended: Ok(Some(Ended::Cut)),
        offset: 0,
    },
    Break {
        name: "the input ends in the body of a PATCH",
        came: PART,
        has_failed: false,
        is_owed: true,
        ended: Ok(Some(Ended::Cut)),
        offset: 2,
    },
    Break {
        name: "the input ends in the body of a PATCH with a checksum",
        came: CHECKED_PART,
        has_failed: false,
        is_owed: true,
        ended: Ok(Some(Ended::Cut)),
        offset: 0,
    },
];

/// Tells a connection that wants to read that the read failed.
fn fail_read(rt: &impl Abort, what: &str, connection: &mut Connection) {
    match connection.wants() {
        Wants::Read => connection.fail(),
        wants => panic!(rt; "{what}: {wants:?} in place of a read"),
    }
}

/// Tells a connection that wants to read that its input ended.
fn end_input(rt: &impl Abort, what: &str, connection: &mut Connection) {
    match connection.wants() {
        Wants::Read => connection.end(),
        wants => panic!(rt; "{what}: {wants:?} in place of a read"),
    }
}

/// A connection that has answered a first POST, and sent the reply.
fn after_a_post(rt: &impl Abort, alloc: Global, book: &mut Book) -> Connection {
    let mut connection = Connection::new(alloc, 64).expect(rt, "memory");
    take_in(rt, "a POST", &mut connection, POST);
    answer_next(rt, "a POST", &mut connection, book);
    take_out(&mut connection, usize::MAX);
    connection
}

/// Asserts what is owed after a break, and how the conversation ends. What was cut gets no reply.
fn check_break(rt: &impl Abort, alloc: Global, row: &Break) {
    let mut book = new_book(rt, alloc);
    let mut connection = after_a_post(rt, alloc, &mut book);
    if !row.came.is_empty() {
        take_in(rt, row.name, &mut connection, row.came);
    }
    if row.has_failed {
        fail_read(rt, row.name, &mut connection);
    } else {
        take_in(rt, row.name, &mut connection, b"");
    }
    if row.is_owed {
        assert!(rt; connection.ended() == Ok(None), "{}: not yet", row.name);
        answer_next(rt, row.name, &mut connection, &mut book);
    }
    assert_wants(rt, row.name, &mut connection, Wants::Nothing);
    assert!(rt; connection.ended() == row.ended, "{}: end", row.name);
    assert_offset(rt, row.name, &book, row.offset);
}

#[test]
fn what_is_wanted_after_a_break(rt: HostRuntime) {
    for row in &BREAKS {
        check_break(&rt, rt.alloc(), row);
    }
}

/// What a connection lends of a message, and what it tells of a refusal behind it.
#[test]
fn what_came_in_is_lent(rt: HostRuntime) {
    let sent = joined(&rt, rt.alloc(), &[PATCH, CHUNKED]);
    let mut book = new_book(&rt, rt.alloc());
    let mut connection = Connection::new(rt.alloc(), 64).expect(&rt, "memory");
    take_in(&rt, "two messages", &mut connection, &sent);
    assert!(rt; connection.incoming().is_none(), "nothing was looked at");
    assert_wants(&rt, "a message", &mut connection, Wants::Answer);
    assert!(rt; is_body(&connection, b"hello"), "a body");
    answer_next(&rt, "a message", &mut connection, &mut book);
    assert_wants(&rt, "a refusal", &mut connection, Wants::Answer);
    assert!(rt;
        refusal_of(&connection) == Some(WireRefusal::Coding),
        "a coding"
    );
}

/// Whether a message came in, with this body.
fn is_body(connection: &Connection, body: &[u8]) -> bool {
    match connection.incoming() {
        Some(Incoming::Message(message)) => message.request().body == body,
        _ => false,
    }
}

/// Whether a message is under way of whose body this came.
fn is_under_way(connection: &Connection, body: &[u8]) -> bool {
    match connection.under_way() {
        Some(message) => message.request().body == body,
        None => false,
    }
}

/// Why what came in is refused, where it is.
fn refusal_of(connection: &Connection) -> Option<WireRefusal> {
    match connection.incoming() {
        Some(Incoming::Refused(refusal, _)) => Some(refusal),
        _ => None,
    }
}

/// Asserts that a connection that was told nothing since its last reply holds nothing, and wants to read.
fn assert_silent(rt: &impl Abort, connection: &mut Connection) {
    assert!(rt; connection.is_idle(), "all was answered and sent");
    assert_wants(rt, "silent", connection, Wants::Read);
    assert!(rt; connection.is_idle(), "a look changes nothing");
    assert_eq!(rt; connection.room(), 65_536, "room");
    assert!(rt; connection.under_way().is_none(), "silent");
}

/// Asserts that a connection holds a part of a message, of whose body two bytes came.
fn assert_part_held(rt: &impl Abort, connection: &Connection) {
    assert!(rt; !connection.is_idle(), "a part is held");
    assert_eq!(rt; connection.body_held(), 2, "a part");
    assert!(rt; is_under_way(connection, b"he"), "a part");
}

/// Ends the input within a message of which a part came, and asserts how the conversation ends.
fn assert_cut(rt: &impl Abort, connection: &mut Connection, book: &mut Book) {
    end_input(rt, "a part", connection);
    answer_next(rt, "a part", connection, book);
    assert_eq!(rt; connection.ended(), Ok(Some(Ended::Cut)), "end");
    assert_offset(rt, "a part", book, 2);
}

/// A client that sends nothing costs no buffers, and one that sends a body slowly is cut by its end where its caller ends it.
#[test]
fn what_a_connection_holds(rt: HostRuntime) {
    let mut book = new_book(&rt, rt.alloc());
    let mut connection = after_a_post(&rt, rt.alloc(), &mut book);
    assert_silent(&rt, &mut connection);
    let mut connection = Connection::with_buffers(connection.into_buffers(), 64);
    let (part, _) = PATCH.split_at(PATCH.len() - 3);
    take_in(&rt, "a part", &mut connection, part);
    assert_wants(&rt, "a part", &mut connection, Wants::Read);
    assert_part_held(&rt, &connection);
    assert_cut(&rt, &mut connection, &mut book);
}

//! Bodies that a connection takes in pieces. A PATCH or a creation that is accepted gets the reply that it gets as one; a piece
//! that is refused closes the connection, and those before it are kept.

use crate::tests::connections::{answer_next, assert_wants, take_in, take_out};
use crate::tests::conversations::{
    BODY_SIZE, COMPLETED, CONTINUE, OFFSET, PATCH_OLD, PATCH_PAST, PATCH_REST, PATCH_WAITING,
    PATCHED_CLOSE, WRONG_OFFSET,
};
use crate::tests::driven::{Arriving, Leaving, Pieces, spoken_over};
use crate::tests::message_parts::{
    CREATED_FIRST, EXPIRES, FROM_0, FROM_5, HELLO, NO_BODY, OF_10, SUM, TO_ACME, TO_FIRST, TYPED,
};
use crate::tests::rows::{Row, rows};
use crate::tests::spoken::{
    Expected, Spoken, assert_offset, assert_spoken, at_1000, joined, new_book,
};
use http_wire::{Buffers, Connection, Ended, RequestLimits, Wants};
use std::alloc::Global;
use std::process::Abort;
use worked_example::{CREATED, PATCH, PATCHED, POST};

const TOO_LONG_CLOSE: &[u8] =
    b"HTTP/1.1 413 Content Too Large\r\nDate: Thu, 01 Jan 1970 00:16:40 GMT\r\n\
Tus-Resumable: 1.0.0\r\nUpload-Expires: Thu, 01 Jan 1970 01:16:40 GMT\r\n\
Content-Type: text/plain\r\nContent-Length: 9\r\nConnection: close\r\n\r\ntoo-long\n";

const OFFSET_CLOSE: &[u8] = b"HTTP/1.1 409 Conflict\r\nDate: Thu, 01 Jan 1970 00:16:40 GMT\r\n\
Tus-Resumable: 1.0.0\r\nUpload-Expires: Thu, 01 Jan 1970 01:16:40 GMT\r\n\
Content-Type: text/plain\r\nContent-Length: 7\r\nConnection: close\r\n\r\noffset\n";

const CREATION_TOO_LONG_CLOSE: &[u8] =
    b"HTTP/1.1 413 Content Too Large\r\nDate: Thu, 01 Jan 1970 00:16:40 GMT\r\n\
Tus-Resumable: 1.0.0\r\nContent-Type: text/plain\r\nContent-Length: 9\r\nConnection: close\r\n\r\ntoo-long\n";

/// Conversations in pieces of 2 bytes, of which a read brings one byte.
static ROWS: [Row; 15] = rows! {
    "two bodies": [POST, PATCH, PATCH_REST] => [CREATED, PATCHED, COMPLETED], Input, Some(10);
    "a client that waits to go on": [POST, PATCH_WAITING, PATCH_REST] => [CREATED, CONTINUE, PATCHED, COMPLETED], Input, Some(10);
    "a last reply": [POST, PATCH_OLD] => [CREATED, PATCHED_CLOSE], Closed, Some(5);
    "a cut in the second piece": [POST, TO_FIRST, TYPED, FROM_0, b"Content-Length: 5\r\n\r\nhel"] => [CREATED], Cut, Some(3);
    "a body that is no longer than a piece": [POST, WRONG_OFFSET, PATCH] => [CREATED, OFFSET, PATCHED], Input, Some(5);
    "a first piece of a body that is too long": [POST, PATCH, PATCH_PAST] => [CREATED, PATCHED, TOO_LONG_CLOSE], Closed, Some(5);
    "an offset that is not the upload's": [POST, PATCH, PATCH] => [CREATED, PATCHED, OFFSET_CLOSE], Closed, Some(5);
    "a checksum, which is of the whole body": [POST, TO_FIRST, TYPED, FROM_0, SUM, HELLO] => [CREATED, PATCHED], Input, Some(5);
    "more bytes than a body may have that is gathered": [POST, TO_FIRST, TYPED, FROM_0, b"Content-Length: 10\r\n\r\nhelloworld"] => [CREATED, COMPLETED], Input, Some(10);
    "more bytes with a checksum": [POST, TO_FIRST, TYPED, FROM_0, SUM, b"Content-Length: 6\r\n\r\n"] => [CREATED, BODY_SIZE], Closed, Some(0);
    "a creation with its upload": [TO_ACME, OF_10, TYPED, HELLO, PATCH_REST] => [CREATED_FIRST, FROM_5, EXPIRES, NO_BODY, COMPLETED], Input, Some(10);
    "a creation with its upload, whose client waits to go on": [TO_ACME, b"Expect: 100-continue\r\n", OF_10, TYPED, HELLO] => [CONTINUE, CREATED_FIRST, FROM_5, EXPIRES, NO_BODY], Input, Some(5);
    "a creation that is cut in its first piece": [TO_ACME, OF_10, TYPED, b"Content-Length: 5\r\n\r\nh"] => [], Cut, None;
    "a creation that is cut in its second piece": [TO_ACME, OF_10, TYPED, b"Content-Length: 5\r\n\r\nhel"] => [], Cut, Some(3);
    "a creation with more bytes than its upload may have": [TO_ACME, b"Upload-Length: 4\r\n", TYPED, HELLO] => [CREATION_TOO_LONG_CLOSE], Closed, None;
};

/// How long a body may be that is gathered: shorter than some that come in pieces.
const LIMITS: RequestLimits = RequestLimits {
    plain: 64,
    other: 5,
    ranges: false,
};

/// A connection that takes bodies in pieces of so many bytes, one at least.
fn connection_by(rt: &impl Abort, alloc: Global, piece: usize) -> Connection {
    let buffers = Buffers::new(alloc).expect(rt, "memory");
    Connection::by_pieces(buffers, LIMITS, Some(piece.max(1)))
}

/// Has this conversation in pieces of so many bytes, of which a read brings so many.
fn speak(
    rt: &impl Abort,
    alloc: Global,
    piece: usize,
    read: usize,
    sent: &[u8],
) -> Spoken<'static> {
    let mut connection = connection_by(rt, alloc, piece);
    let reader = Arriving::new(sent, Pieces::Each(read));
    let writer = Leaving::new(alloc, Pieces::Each(usize::MAX));
    let mut book = new_book(rt, alloc);
    let moments = at_1000();
    spoken_over(rt, &mut connection, reader, writer, &mut book, &moments)
}

#[test]
fn conversations_in_pieces(rt: HostRuntime) {
    for row in &ROWS {
        let sent = joined(&rt, rt.alloc(), row.sent);
        let written = joined(&rt, rt.alloc(), row.written);
        let spoken = speak(&rt, rt.alloc(), 2, 1, &sent);
        assert_spoken(&rt, row.name, &spoken, &row.expected(&written));
    }
}

/// However many bytes a piece has and a read brings, an upload is the same.
#[test]
fn pieces_of_each_length(rt: HostRuntime) {
    let sent = joined(&rt, rt.alloc(), &[POST, PATCH, PATCH_REST]);
    let written = joined(&rt, rt.alloc(), &[CREATED, PATCHED, COMPLETED]);
    let expected = Expected {
        text: &written,
        ended: Ok(Ended::Input),
        offset: Some(10),
    };
    for piece in [1, 3, 4, 5] {
        for read in [1, 2, 7, usize::MAX] {
            let what = format!(in rt.alloc(); "{piece} bytes of {read} a read").expect(
                &rt, "memory",
            );
            let spoken = speak(&rt, rt.alloc(), piece, read, &sent);
            assert_spoken(&rt, &what, &spoken, &expected);
        }
    }
}

/// The first piece of a body is in the book before the second has come. Another client's PATCH then has the second refused, and
/// both are kept.
#[test]
fn another_client_in_the_midst(rt: HostRuntime) {
    let mut book = new_book(&rt, rt.alloc());
    let mut other = connection_by(&rt, rt.alloc(), 64);
    take_in(&rt, "a creation", &mut other, POST);
    answer_next(&rt, "a creation", &mut other, &mut book);
    take_out(&mut other, usize::MAX);
    let mut connection = connection_by(&rt, rt.alloc(), 2);
    let (head, rest) = PATCH.split_at(PATCH.len() - 3);
    take_in(&rt, "a head and two bytes", &mut connection, head);
    assert_wants(&rt, "a piece", &mut connection, Wants::Answer);
    assert!(&rt; connection.incoming().is_none() && connection.piece().is_some());
    answer_next(&rt, "a piece", &mut connection, &mut book);
    assert!(&rt; connection.is_in_pieces());
    assert_offset(&rt, "a piece", &book, 2);
    assert_eq!(&rt; connection.pending_len(), 0);
    take_in(&rt, "one byte of the next", &mut connection, &rest[..1]);
    assert_wants(&rt, "more", &mut connection, Wants::Read);
    assert_eq!(&rt; connection.body_held(), 1);
    take_in(&rt, "another PATCH", &mut other, ONE_BYTE);
    answer_next(&rt, "another PATCH", &mut other, &mut book);
    take_in(&rt, "the rest", &mut connection, &rest[1..]);
    answer_next(&rt, "the rest", &mut connection, &mut book);
    assert!(&rt; connection.pending() == OFFSET);
    assert_offset(&rt, "another PATCH", &book, 3);
}

/// A byte behind the first two of an upload.
const ONE_BYTE: &[u8] = b"PATCH /files/acme/1 HTTP/1.1\r\nHost: x\r\nTus-Resumable: 1.0.0\r\n\
Content-Type: application/offset+octet-stream\r\nUpload-Offset: 2\r\nContent-Length: 1\r\n\r\nx";

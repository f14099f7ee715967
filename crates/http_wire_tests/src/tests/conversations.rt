use crate::tests::memory::{Input, Output};
use crate::tests::rows::{Row, check_rows, rows};
use crate::tests::spoken::{
    Expected, assert_both, assert_spoken, at, at_1000, is_in, joined, put, talk_of,
};
use http_wire::Ended;
use std::alloc::Global;
use std::process::Abort;
use upload_book::Moment;
use worked_example::{CREATED, HEAD, LOOKED, PATCH, PATCHED, POST};

pub const NONE: &[u8] = b"";

pub const CONTINUE: &[u8] = b"HTTP/1.1 100 Continue\r\n\r\n";

pub const PATCH_WAITING: &[u8] =
    b"PATCH /files/acme/1 HTTP/1.1\r\nHost: x\r\nTus-Resumable: 1.0.0\r\n\
Content-Type: application/offset+octet-stream\r\nUpload-Offset: 0\r\nExpect: 100-Continue\r\n\
Content-Length: 5\r\n\r\nhello";

pub const PATCH_OLD: &[u8] = b"PATCH /files/acme/1 HTTP/1.0\r\nTus-Resumable: 1.0.0\r\n\
Content-Type: application/offset+octet-stream\r\nUpload-Offset: 0\r\nExpect: 100-continue\r\n\
Content-Length: 5\r\n\r\nhello";

pub const PATCHED_CLOSE: &[u8] =
    b"HTTP/1.1 204 No Content\r\nDate: Thu, 01 Jan 1970 00:16:40 GMT\r\n\
Tus-Resumable: 1.0.0\r\nUpload-Offset: 5\r\n\
Upload-Expires: Thu, 01 Jan 1970 01:16:40 GMT\r\nConnection: close\r\n\r\n";

pub const WRONG_OFFSET: &[u8] =
    b"PATCH /files/acme/1 HTTP/1.1\r\nHost: x\r\nTus-Resumable: 1.0.0\r\n\
Content-Type: application/offset+octet-stream\r\nUpload-Offset: 3\r\nContent-Length: 1\r\n\r\nx";

pub const OFFSET: &[u8] = b"HTTP/1.1 409 Conflict\r\nDate: Thu, 01 Jan 1970 00:16:40 GMT\r\n\
Tus-Resumable: 1.0.0\r\nUpload-Expires: Thu, 01 Jan 1970 01:16:40 GMT\r\n\
Content-Type: text/plain\r\nContent-Length: 7\r\n\r\noffset\n";

pub const CHUNKED: &[u8] = b"POST /files/acme HTTP/1.1\r\nHost: x\r\nTus-Resumable: 1.0.0\r\n\
Transfer-Encoding: chunked\r\nUpload-Length: 10\r\n\r\n";

pub const CODING: &[u8] = b"HTTP/1.1 411 Length Required\r\nDate: Thu, 01 Jan 1970 00:16:40 GMT\r\n\
Tus-Resumable: 1.0.0\r\nContent-Type: text/plain\r\nContent-Length: 7\r\nConnection: close\r\n\r\n\
coding\n";

pub const HEAD_SIZE: &[u8] = b"HTTP/1.1 431 Request Header Fields Too Large\r\n\
Date: Thu, 01 Jan 1970 00:16:40 GMT\r\nTus-Resumable: 1.0.0\r\nContent-Type: text/plain\r\n\
Content-Length: 10\r\nConnection: close\r\n\r\nhead-size\n";

pub const BODY_SIZE: &[u8] = b"HTTP/1.1 413 Content Too Large\r\n\
Date: Thu, 01 Jan 1970 00:16:40 GMT\r\nTus-Resumable: 1.0.0\r\nContent-Type: text/plain\r\n\
Content-Length: 10\r\nConnection: close\r\n\r\nbody-size\n";

pub const LENGTH: &[u8] = b"HTTP/1.1 400 Bad Request\r\n\
Date: Thu, 01 Jan 1970 00:16:40 GMT\r\nTus-Resumable: 1.0.0\r\nContent-Type: text/plain\r\n\
Content-Length: 15\r\nConnection: close\r\n\r\ncontent-length\n";

const HOST: &[u8] = b"HTTP/1.1 400 Bad Request\r\n\
Date: Thu, 01 Jan 1970 00:16:40 GMT\r\nTus-Resumable: 1.0.0\r\nContent-Type: text/plain\r\n\
Content-Length: 5\r\nConnection: close\r\n\r\nhost\n";

const BARE_HOST: &[u8] = b"HTTP/1.1 400 Bad Request\r\n\
Date: Thu, 01 Jan 1970 00:16:40 GMT\r\nTus-Resumable: 1.0.0\r\nConnection: close\r\n\r\n";

pub const MALFORMED: &[u8] = b"HTTP/1.1 400 Bad Request\r\n\
Date: Thu, 01 Jan 1970 00:16:40 GMT\r\nTus-Resumable: 1.0.0\r\nContent-Type: text/plain\r\n\
Content-Length: 5\r\nConnection: close\r\n\r\nhead\n";

pub const PATCH_PAST: &[u8] = b"PATCH /files/acme/1 HTTP/1.1\r\nHost: x\r\nTus-Resumable: 1.0.0\r\n\
Content-Type: application/offset+octet-stream\r\nUpload-Offset: 5\r\nContent-Length: 6\r\n\r\nworlds";

pub const PATCH_REST: &[u8] = b"PATCH /files/acme/1 HTTP/1.1\r\nHost: x\r\nTus-Resumable: 1.0.0\r\n\
Content-Type: application/offset+octet-stream\r\nUpload-Offset: 5\r\nContent-Length: 5\r\n\r\nworld";

const TOO_LONG: &[u8] = b"HTTP/1.1 413 Content Too Large\r\nDate: Thu, 01 Jan 1970 00:16:40 GMT\r\n\
Tus-Resumable: 1.0.0\r\nUpload-Expires: Thu, 01 Jan 1970 01:16:40 GMT\r\n\
Content-Type: text/plain\r\nContent-Length: 9\r\n\r\ntoo-long\n";

pub const COMPLETED: &[u8] = b"HTTP/1.1 204 No Content\r\nDate: Thu, 01 Jan 1970 00:16:40 GMT\r\n\
Tus-Resumable: 1.0.0\r\nUpload-Offset: 10\r\n\r\n";

const POST_TOO_LONG: &[u8] = b"POST /files/acme HTTP/1.1\r\nHost: x\r\nTus-Resumable: 1.0.0\r\n\
Upload-Length: 65\r\n\r\n";

pub const CREATION_TOO_LONG: &[u8] = b"HTTP/1.1 413 Content Too Large\r\n\
Date: Thu, 01 Jan 1970 00:16:40 GMT\r\nTus-Resumable: 1.0.0\r\n\
Content-Type: text/plain\r\nContent-Length: 9\r\n\r\ntoo-long\n";

pub const VERSION: &[u8] = b"HTTP/1.1 412 Precondition Failed\r\n\
Date: Thu, 01 Jan 1970 00:16:40 GMT\r\nTus-Resumable: 1.0.0\r\nTus-Version: 1.0.0\r\n\
Content-Type: text/plain\r\nContent-Length: 8\r\n\r\nversion\n";

const METHOD: &[u8] = b"HTTP/1.1 405 Method Not Allowed\r\n\
Date: Thu, 01 Jan 1970 00:16:40 GMT\r\nTus-Resumable: 1.0.0\r\nAllow: HEAD, GET, PATCH, DELETE, OPTIONS\r\n\
Content-Type: text/plain\r\nContent-Length: 7\r\n\r\nmethod\n";

pub const DELETE: &[u8] =
    b"DELETE /files/acme/1 HTTP/1.1\r\nHost: x\r\nTus-Resumable: 1.0.0\r\n\r\n";

pub const DELETED: &[u8] = b"HTTP/1.1 204 No Content\r\nDate: Thu, 01 Jan 1970 00:16:40 GMT\r\n\
Tus-Resumable: 1.0.0\r\n\r\n";

pub const GONE: &[u8] = b"HTTP/1.1 410 Gone\r\nDate: Thu, 01 Jan 1970 00:16:40 GMT\r\n\
Tus-Resumable: 1.0.0\r\nCache-Control: no-store\r\n\r\n";

const UNKNOWN: &[u8] = b"HTTP/1.1 404 Not Found\r\nDate: Thu, 01 Jan 1970 00:16:40 GMT\r\n\
Tus-Resumable: 1.0.0\r\nCache-Control: no-store\r\nConnection: close\r\n\r\n";

static WHOLE: [Row; 12] = rows! {
    "the first upload": [POST, PATCH, HEAD] => [CREATED, PATCHED, LOOKED], Input, Some(5);
    "a wrong offset": [POST, PATCH, WRONG_OFFSET, HEAD] => [CREATED, PATCHED, OFFSET, LOOKED], Input, Some(5);
    "bytes past the length are refused, all of them": [POST, PATCH, PATCH_PAST, HEAD] => [CREATED, PATCHED, TOO_LONG, LOOKED], Input, Some(5);
    "the rest of the bytes complete the upload, and a greater one is refused": [POST, PATCH, PATCH_REST, POST_TOO_LONG] => [CREATED, PATCHED, COMPLETED, CREATION_TOO_LONG], Input, Some(10);
    "another version, and then a method that is not served": [b"POST /files/acme HTTP/1.1\r\nHost: x\r\nTus-Resumable: 0.2.2\r\n\r\n", POST, b"PUT /files/acme/1 HTTP/1.1\r\nHost: x\r\nTus-Resumable: 1.0.0\r\n\r\n"] => [VERSION, CREATED, METHOD], Input, Some(0);
    "an upload that is ended is gone": [POST, PATCH, DELETE, HEAD] => [CREATED, PATCHED, DELETED, GONE], Input, None;
    "an unknown upload, and the wish to close": [b"HEAD /files/acme/9 HTTP/1.1\r\nHost: x\r\nTus-Resumable: 1.0.0\r\nConnection: x, Close\r\n\r\n", POST] => [UNKNOWN], Closed, None;
    "no input": [] => [], Input, None;
    "line ends before messages": [b"\r\n\n", POST, b"\n\r\n", PATCH] => [CREATED, PATCHED], Input, Some(5);
    "a body that waits": [POST, PATCH_WAITING] => [CREATED, CONTINUE, PATCHED], Input, Some(5);
    "a POST cut before its body": [b"POST /files/acme HTTP/1.1\r\nHost: x\r\nContent-Length: 3\r\n\r\n"] => [], Cut, None;
    "HTTP/1.0 closes, and is not told to continue": [POST, PATCH_OLD, HEAD] => [CREATED, PATCHED_CLOSE], Closed, Some(5);
};

#[test]
fn whole_messages(rt: HostRuntime) {
    check_rows(&rt, rt.alloc(), &WHOLE);
}

static REFUSED: [Row; 7] = rows! {
    "a transfer coding": [CHUNKED, HEAD] => [CODING], Closed, None;
    "a body above the greatest size": [b"POST /files/acme HTTP/1.1\r\nHost: x\r\nContent-Length: 65\r\n\r\n"] => [BODY_SIZE], Closed, None;
    "a length of 30 digits": [b"POST / HTTP/1.1\r\nHost: x\r\nContent-Length: 111111111122222222223333333333\r\n\r\n"] => [LENGTH], Closed, None;
    "two equal lengths": [b"POST / HTTP/1.1\r\nHost: x\r\nContent-Length: 5\r\ncontent-length: 5\r\n\r\n"] => [LENGTH], Closed, None;
    "two hosts": [b"POST / HTTP/1.1\r\nHost: x\r\nHost: x\r\nTransfer-Encoding: chunked\r\n\r\n"] => [HOST], Closed, None;
    "a HEAD without a host, which is answered bare": [b"HEAD / HTTP/1.1\r\n\r\n"] => [BARE_HOST], Closed, None;
    "bytes that are no text": [b"\xff\xff\r\n\r\n"] => [MALFORMED], Closed, None;
};

#[test]
fn refused_messages(rt: HostRuntime) {
    check_rows(&rt, rt.alloc(), &REFUSED);
}

/// The messages of the first upload, and their replies.
pub static FIRST_UPLOAD: [&[u8]; 3] = [POST, PATCH, HEAD];

pub static REPLIES: [&[u8]; 3] = [CREATED, PATCHED, LOOKED];

/// Asserts that a HEAD of the first upload is answered after a POST and a PATCH of it.
pub fn assert_looked(rt: &impl Abort, alloc: Global, what: &str, head: &[u8]) {
    let sent = joined(rt, alloc, &[POST, PATCH, head]);
    let written = joined(rt, alloc, &REPLIES);
    let expected = Expected {
        text: &written,
        ended: Ok(Ended::Input),
        offset: Some(5),
    };
    assert_both(rt, alloc, what, &sent, &at_1000(), &expected)
}

/// The HEAD of the first upload with `count` fields beside Host, Tus-Resumable and a last one, which fills
/// it up to `len` bytes.
fn with_fields(rt: &impl Abort, alloc: Global, count: usize, len: usize) -> Vec<u8> {
    let mut text = joined(rt, alloc, &[b"HEAD /files/acme/1 HTTP/1.1\r\nHost: x\r\n"]);
    for _ in 0..count {
        put(rt, &mut text, b"X: y\r\n");
    }
    put(rt, &mut text, b"Tus-Resumable: 1.0.0\r\nFill: ");
    let filled = text.len().max(len.saturating_sub(4));
    text.resize(filled, b'z').expect(rt, "memory");
    put(rt, &mut text, b"\r\n\r\n");
    text
}

/// The HEAD of the first upload with so many fields as `with_fields` gives it, which is refused where it is
/// too large.
#[derive(Clone, Copy)]
struct HeadRow {
    name: &'static str,
    count: usize,
    len: usize,
    is_too_large: bool,
}

/// Asserts that a head is answered or refused, as its row says.
fn check_head(rt: &impl Abort, alloc: Global, row: &HeadRow) {
    let head = with_fields(rt, alloc, row.count, row.len);
    if row.is_too_large {
        let expected = Expected {
            text: HEAD_SIZE,
            ended: Ok(Ended::Closed),
            offset: None,
        };
        assert_both(rt, alloc, row.name, &head, &at_1000(), &expected)
    } else {
        assert_looked(rt, alloc, row.name, &head)
    }
}

static HEADS: [HeadRow; 4] = [
    HeadRow {
        name: "16,384 bytes",
        count: 0,
        len: 16_384,
        is_too_large: false,
    },
    HeadRow {
        name: "16,385 bytes",
        count: 0,
        len: 16_385,
        is_too_large: true,
    },
    HeadRow {
        name: "64 fields",
        count: 61,
        len: 0,
        is_too_large: false,
    },
    HeadRow {
        name: "65 fields",
        count: 62,
        len: 0,
        is_too_large: true,
    },
];

#[test]
fn large_heads(rt: HostRuntime) {
    assert!(rt; with_fields(&rt, rt.alloc(), 0, 16_384).len() == 16_384);
    for row in &HEADS {
        check_head(&rt, rt.alloc(), row);
    }
}

/// Asserts that a conversation of the first upload, each of whose reads gives a message, is as expected, and that the
/// last message is not read.
fn assert_message_a_read(
    rt: &impl Abort,
    alloc: Global,
    sent: &[u8],
    moments: &[Moment],
    expected: &Expected<'_>,
) {
    let input = Input {
        rest: sent,
        first: POST.len(),
        more: PATCH.len(),
        reads: usize::MAX,
    };
    let spoken = talk_of(rt, alloc, input, Output::new(alloc), moments);
    assert_spoken(rt, "a message a read", &spoken, expected);
    assert!(rt; spoken.rest == HEAD, "what is not read");
}

#[test]
fn few_moments(rt: HostRuntime) {
    let alloc = rt.alloc();
    let sent = joined(&rt, alloc, &FIRST_UPLOAD);
    let written = joined(&rt, alloc, &REPLIES[..2]);
    let moments = [at(1000); 2];
    let expected = Expected {
        text: &written,
        ended: Ok(Ended::Moments),
        offset: Some(5),
    };
    assert_both(&rt, alloc, "two moments", &sent, &moments, &expected);
    assert_message_a_read(&rt, alloc, &sent, &moments, &expected);
}

/// Asserts that the reply to a PATCH, which comes at moment `then` after a POST at 1000, has a line.
fn assert_second_has(rt: &impl Abort, alloc: Global, name: &str, then: Moment, line: &[u8]) {
    let sent = joined(rt, alloc, &FIRST_UPLOAD[..2]);
    let moments = [at(1000), then];
    let input = Input::new(&sent, usize::MAX);
    let spoken = talk_of(rt, alloc, input, Output::new(alloc), &moments);
    assert_line_after_created(rt, name, &spoken.text, line);
    let expected = Expected {
        text: &spoken.text,
        ended: Ok(Ended::Moments),
        offset: Some(5),
    };
    assert_both(rt, alloc, name, &sent, &moments, &expected)
}

/// Asserts that a line, with the line ends around it, is in what follows the reply to the first upload's creation.
fn assert_line_after_created(rt: &impl Abort, name: &str, text: &[u8], line: &[u8]) {
    let second = text.strip_prefix(CREATED).expect(rt, "the first reply");
    assert!(rt; is_in(line, second), "{name}");
}

#[test]
fn later_and_earlier_moments(rt: HostRuntime) {
    let alloc = rt.alloc();
    let kept = b"\r\nUpload-Expires: Thu, 01 Jan 1970 01:16:40 GMT\r\n";
    let later = b"\r\nUpload-Expires: Thu, 01 Jan 1970 01:33:20 GMT\r\n";
    assert_second_has(&rt, alloc, "500", at(500), kept);
    assert_second_has(&rt, alloc, "2000", at(2000), later);
}

const LAST: &[u8] = b"HTTP/1.1 201 Created\r\nDate: Fri, 31 Dec 9999 23:59:59 GMT\r\n\
Tus-Resumable: 1.0.0\r\nLocation: /files/acme/1\r\n\
Upload-Expires: Fri, 31 Dec 9999 23:59:59 GMT\r\nContent-Length: 0\r\n\r\n\
HTTP/1.1 410 Gone\r\nDate: Fri, 31 Dec 9999 23:59:59 GMT\r\nTus-Resumable: 1.0.0\r\n\
Cache-Control: no-store\r\n\r\n";

#[test]
fn the_last_moment(rt: HostRuntime) {
    let alloc = rt.alloc();
    let sent = joined(&rt, alloc, &[POST, HEAD]);
    let expected = Expected {
        text: LAST,
        ended: Ok(Ended::Input),
        offset: Some(0),
    };
    let moments = [at(253_402_300_799); 3];
    assert_both(&rt, alloc, "the last moment", &sent, &moments, &expected);
}

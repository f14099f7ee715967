//! Malformed and cut messages, and numbers at the ends of their ranges: each row is a conversation, read in pieces of 1, 7
//! and all bytes, and held against its replies and against the plain program.

ghost use Rattle.std.specs.Prelude.{◌≤◌};

use crate::tests::concatenations::{
    ABCDE, CREATED_2, DELETE_2, FINAL_2, FINAL_3, FINAL_OF_1, PART_OF_5,
};
use crate::tests::conversations::{
    BODY_SIZE, CREATION_TOO_LONG, DELETED, FIRST_UPLOAD, HEAD_SIZE, LENGTH, MALFORMED, REPLIES,
    VERSION,
};
use crate::tests::creations::FIELD;
use crate::tests::message_parts::{
    A, END, FROM_0, NO_STORE, OF_10, PLAIN, TO_ACME, TO_FIRST, TYPED,
};
use crate::tests::methods::MEDIA;
use crate::tests::rows::{Row, check_rows, rows};
use crate::tests::spoken::{Expected, assert_both, at_1000, joined};
use http_wire::Ended;
use std::alloc::Global;
use std::process::Abort;
use upload_book::Numbers;
use worked_example::{CREATED, HEAD, NUMBERS, PATCH, PATCHED, POST};

const BY_POST: &[u8] = b"X-HTTP-Method-Override: POST\r\n";

const METHOD: &[u8] =
    b"HTTP/1.1 405 Method Not Allowed\r\nDate: Thu, 01 Jan 1970 00:16:40 GMT\r\nTus-Resumable: 1.0.0\r\n\
Allow: POST, OPTIONS\r\n\
Content-Type: text/plain\r\nContent-Length: 7\r\n\r\nmethod\n";

const GREATEST_ID: &[u8] = b"/files/acme/18446744073709551615";

const PAST_IDS: &[u8] = b"/files/acme/18446744073709551616";

const NOT_FOUND: &[u8] =
    b"HTTP/1.1 404 Not Found\r\nDate: Thu, 01 Jan 1970 00:16:40 GMT\r\nTus-Resumable: 1.0.0\r\n\
Cache-Control: no-store\r\n\r\n";

const UNKNOWN: &[u8] =
    b"HTTP/1.1 404 Not Found\r\nDate: Thu, 01 Jan 1970 00:16:40 GMT\r\nTus-Resumable: 1.0.0\r\n\
Content-Type: text/plain\r\nContent-Length: 8\r\n\r\nunknown\n";

const NO_PATH: &[u8] =
    b"HTTP/1.1 404 Not Found\r\nDate: Thu, 01 Jan 1970 00:16:40 GMT\r\nTus-Resumable: 1.0.0\r\n\
Content-Type: text/plain\r\nContent-Length: 5\r\n\r\npath\n";

const HTTP_1_2: &[u8] = b"POST /files/acme HTTP/1.2\r\nHost: x\r\nTus-Resumable: 1.0.0\r\n\
Upload-Length: 10\r\n\r\n";

/// A field without its line end.
const OF_32_PARTS: &[u8] = b"Upload-Concat: final; \
/files/acme/1 /files/acme/1 /files/acme/1 /files/acme/1 /files/acme/1 /files/acme/1 \
/files/acme/1 /files/acme/1 /files/acme/1 /files/acme/1 /files/acme/1 /files/acme/1 \
/files/acme/1 /files/acme/1 /files/acme/1 /files/acme/1 /files/acme/1 /files/acme/1 \
/files/acme/1 /files/acme/1 /files/acme/1 /files/acme/1 /files/acme/1 /files/acme/1 \
/files/acme/1 /files/acme/1 /files/acme/1 /files/acme/1 /files/acme/1 /files/acme/1 \
/files/acme/1 /files/acme/1";

/// The beginning of what a HEAD gets of a final upload without bytes.
const LOOKED_EMPTY: &[u8] =
    b"HTTP/1.1 200 OK\r\nDate: Thu, 01 Jan 1970 00:16:40 GMT\r\nTus-Resumable: 1.0.0\r\n\
Upload-Offset: 0\r\nUpload-Length: 0\r\n";

const FINAL_4: &[u8] = b"HTTP/1.1 201 Created\r\nDate: Thu, 01 Jan 1970 00:16:40 GMT\r\n\
Tus-Resumable: 1.0.0\r\nLocation: /files/acme/4\r\nContent-Length: 0\r\n\r\n";

const GONE_AT_4600: &[u8] =
    b"HTTP/1.1 410 Gone\r\nDate: Thu, 01 Jan 1970 01:16:40 GMT\r\nTus-Resumable: 1.0.0\r\n\
Cache-Control: no-store\r\n\r\n";

const OK_AT_4599: &[u8] =
    b"HTTP/1.1 200 OK\r\nDate: Thu, 01 Jan 1970 01:16:39 GMT\r\nTus-Resumable: 1.0.0\r\n";

const OK_AT_4600: &[u8] =
    b"HTTP/1.1 200 OK\r\nDate: Thu, 01 Jan 1970 01:16:40 GMT\r\nTus-Resumable: 1.0.0\r\n";

const PATCHED_AT_4599: &[u8] =
    b"HTTP/1.1 204 No Content\r\nDate: Thu, 01 Jan 1970 01:16:39 GMT\r\nTus-Resumable: 1.0.0\r\n\
Upload-Offset: 1\r\n\
Upload-Expires: Thu, 01 Jan 1970 02:16:39 GMT\r\n\r\n";

const SPENT: &[u8] =
    b"HTTP/1.1 507 Insufficient Storage\r\nDate: Thu, 01 Jan 1970 00:16:40 GMT\r\nTus-Resumable: 1.0.0\r\n\
Content-Type: text/plain\r\nContent-Length: 6\r\n\r\nspent\n";

/// Fields that come twice, numbers at the ends of their ranges, and messages that break off or are no HTTP.
static MALFORMED_ROWS: [Row; 15] = rows! {
    "the bytes of a cut body are kept": [POST, TO_FIRST, TYPED, FROM_0, b"Content-Length: 8\r\n\r\nhello"] => [CREATED], Cut, Some(5);
    "two lengths, and two offsets": [TO_ACME, OF_10, OF_10, END, POST, TO_FIRST, TYPED, FROM_0, FROM_0, A] => [FIELD, CREATED, FIELD], Input, Some(0);
    "two versions, and two overrides, also where both name the method that the request has": [TO_ACME, b"Tus-Resumable: 1.0.0\r\n", OF_10, END, TO_ACME, BY_POST, BY_POST, OF_10, END] => [VERSION, METHOD], Input, None;
    "two content types of a PATCH": [POST, TO_FIRST, TYPED, TYPED, FROM_0, A] => [CREATED, MEDIA], Input, Some(0);
    "the greatest number as a length, and one past it": [TO_ACME, b"Upload-Length: 18446744073709551615\r\n\r\n", TO_ACME, b"Upload-Length: 18446744073709551616\r\n\r\n"] => [CREATION_TOO_LONG, FIELD], Input, None;
    "the greatest number of bytes of a body": [TO_ACME, OF_10, b"Content-Length: 18446744073709551615\r\n\r\n", POST] => [BODY_SIZE], Closed, None;
    "a number of bytes past 64 bits": [TO_ACME, OF_10, b"Content-Length: 18446744073709551616\r\n\r\n", POST] => [LENGTH], Closed, None;
    "a number of bytes with a sign": [TO_ACME, OF_10, b"Content-Length: +5\r\n\r\n", POST] => [LENGTH], Closed, None;
    "two numbers of bytes in one field": [TO_ACME, OF_10, b"Content-Length: 5, 5\r\n\r\n", POST] => [LENGTH], Closed, None;
    "the greatest id, which was never given, and one past it, which is no path": [b"HEAD ", GREATEST_ID, PLAIN, b"HEAD ", PAST_IDS, PLAIN, b"GET ", GREATEST_ID, PLAIN, b"GET ", PAST_IDS, PLAIN] => [NOT_FOUND, NOT_FOUND, UNKNOWN, NO_PATH], Input, None;
    "a byte 0 in a value": [TO_ACME, b"Upload-Length: 1\x000\r\n\r\n", POST] => [MALFORMED], Closed, None;
    "another version of HTTP": [HTTP_1_2, POST] => [MALFORMED], Closed, None;
    "16,384 bytes of a head without an end" {times: 16_384}: [b"a"] => [HEAD_SIZE], Closed, None;
    "16,384 line ends" {times: 16_384}: [b"\n"] => [HEAD_SIZE], Closed, None;
    "16,383 line ends and the end" {times: 16_383}: [b"\n"] => [], Input, None;
};

/// What is at a limit or one past it: parts, the end of an upload, and the last charge and id.
static LIMIT_ROWS: [Row; 4] = rows! {
    "a final upload of 33 parts, and one of 32 times a part of no bytes": [TO_ACME, b"Upload-Length: 0\r\nUpload-Concat: partial\r\n\r\n", TO_ACME, OF_32_PARTS, b" /files/acme/1\r\n\r\n", TO_ACME, OF_32_PARTS, END, END, b"HEAD /files/acme/2", PLAIN] => [CREATED, FIELD, FINAL_2, LOOKED_EMPTY, OF_32_PARTS, END, NO_STORE], Input, Some(0);
    "an upload is gone at its end, is there a second before it, and a PATCH then lets it live longer" {secs: &[1000, 4600, 4599, 4599, 4600]}: [POST, HEAD, HEAD, TO_FIRST, TYPED, FROM_0, A, HEAD] => [CREATED, GONE_AT_4600, OK_AT_4599, FROM_0, OF_10, NO_STORE, PATCHED_AT_4599, OK_AT_4600, b"Upload-Offset: 1\r\n", OF_10, NO_STORE], Input, Some(1);
    "final uploads are not charged, however few blocks may be charged yet" {numbers: Numbers { last_total: 4, ..NUMBERS }}: [PART_OF_5, ABCDE, FINAL_OF_1, FINAL_OF_1, DELETE_2, FINAL_OF_1] => [CREATED, PATCHED, FINAL_2, FINAL_3, DELETED, FINAL_4], Input, Some(5);
    "ids that end" {numbers: Numbers { last_id: 2, ..NUMBERS }}: [POST, POST, POST] => [CREATED, CREATED_2, SPENT], Input, Some(0);
};

#[test]
fn malformed_messages(rt: HostRuntime) {
    check_rows(&rt, rt.alloc(), &MALFORMED_ROWS);
    check_rows(&rt, rt.alloc(), &LIMIT_ROWS);
}

/// Asserts that the conversation of the first bytes of the first upload is cut where they end.
fn assert_cut(rt: &impl Abort, alloc: Global, input: &[u8]) {
    let len = input.len();
    let (whole, is_cut, offset) = cut_at(len);
    let written = joined(rt, alloc, &REPLIES[..whole]);
    let ended = if is_cut { Ended::Cut } else { Ended::Input };
    let expected = Expected {
        text: &written,
        ended: Ok(ended),
        offset,
    };
    let what = format!(in alloc; "{len} bytes").expect(rt, "memory");
    assert_both(rt, alloc, &what, input, &at_1000(), &expected)
}

/// Each beginning of the first upload's conversation.
#[test]
fn cut_messages(rt: HostRuntime) {
    let all = joined(&rt, rt.alloc(), &FIRST_UPLOAD);
    for len in 0..=all.len() {
        assert_cut(&rt, rt.alloc(), &all[..len]);
    }
}

/// How many messages of the first upload are whole in its first `len` bytes, whether the next is cut, and how many bytes
/// of the body came.
fn cut_at(len: usize) -> (usize, bool, Option<u64>)
    ensures { result.0 ≤ 3 }
{
    let first = POST.len();
    let second = first.saturating_add(PATCH.len());
    let third = second.saturating_add(HEAD.len());
    let body = second.saturating_sub(5);
    if len < first {
        (0, len > 0, None)
    } else if len < second {
        (1, len > first, Some(len.saturating_sub(body) as u64))
    } else if len < third {
        (2, len > second, Some(5))
    } else {
        (3, false, Some(5))
    }
}

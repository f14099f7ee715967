//! Conversations in which parts are joined to final uploads.

use crate::tests::conversations::{CREATION_TOO_LONG, DELETE, DELETED, GONE};
use crate::tests::creations::FIELD;
use crate::tests::spoken::{Expected, assert_both, at, put};
use http_wire::Ended;
use std::alloc::Global;
use std::process::Abort;
use worked_example::{CREATED, HEAD, PATCHED};

/// A message, and what is written for it.
type Turn = (&'static [u8], &'static [u8]);

pub const PART_OF_5: &[u8] = b"POST /files/acme HTTP/1.1\r\nHost: x\r\nTus-Resumable: 1.0.0\r\n\
Upload-Length: 5\r\nUpload-Concat: partial\r\n\r\n";

pub const ABCDE: &[u8] = b"PATCH /files/acme/1 HTTP/1.1\r\nHost: x\r\nTus-Resumable: 1.0.0\r\n\
Content-Type: application/offset+octet-stream\r\nUpload-Offset: 0\r\nContent-Length: 5\r\n\r\n\
abcde";

const PART_OF_2: &[u8] = b"POST /files/acme HTTP/1.1\r\nHost: x\r\nTus-Resumable: 1.0.0\r\n\
Upload-Length: 2\r\nUpload-Concat: partial\r\n\r\n";

pub const CREATED_2: &[u8] = b"HTTP/1.1 201 Created\r\nDate: Thu, 01 Jan 1970 00:16:40 GMT\r\n\
Tus-Resumable: 1.0.0\r\nLocation: /files/acme/2\r\n\
Upload-Expires: Thu, 01 Jan 1970 01:16:40 GMT\r\nContent-Length: 0\r\n\r\n";

pub const FG: &[u8] = b"PATCH /files/acme/2 HTTP/1.1\r\nHost: x\r\nTus-Resumable: 1.0.0\r\n\
Content-Type: application/offset+octet-stream\r\nUpload-Offset: 0\r\nContent-Length: 2\r\n\r\nfg";

const PATCHED_TO_2: &[u8] = b"HTTP/1.1 204 No Content\r\nDate: Thu, 01 Jan 1970 00:16:40 GMT\r\n\
Tus-Resumable: 1.0.0\r\nUpload-Offset: 2\r\n\
Upload-Expires: Thu, 01 Jan 1970 01:16:40 GMT\r\n\r\n";

pub const FINAL_OF_BOTH: &[u8] = b"POST /files/acme HTTP/1.1\r\nHost: x\r\nTus-Resumable: 1.0.0\r\n\
Upload-Concat: final;/files/acme/1 http://h:1/files/acme/2\r\n\r\n";

pub const FINAL_3: &[u8] = b"HTTP/1.1 201 Created\r\nDate: Thu, 01 Jan 1970 00:16:40 GMT\r\n\
Tus-Resumable: 1.0.0\r\nLocation: /files/acme/3\r\nContent-Length: 0\r\n\r\n";

pub const HEAD_3: &[u8] = b"HEAD /files/acme/3 HTTP/1.1\r\nHost: x\r\nTus-Resumable: 1.0.0\r\n\r\n";

pub const LOOKED_3: &[u8] = b"HTTP/1.1 200 OK\r\nDate: Thu, 01 Jan 1970 00:16:40 GMT\r\n\
Tus-Resumable: 1.0.0\r\nUpload-Offset: 7\r\nUpload-Length: 7\r\n\
Upload-Concat: final;/files/acme/1 http://h:1/files/acme/2\r\nCache-Control: no-store\r\n\r\n";

const PATCH_3: &[u8] = b"PATCH /files/acme/3 HTTP/1.1\r\nHost: x\r\nTus-Resumable: 1.0.0\r\n\
Content-Type: application/offset+octet-stream\r\nUpload-Offset: 7\r\nContent-Length: 1\r\n\r\nh";

const IS_FINAL: &[u8] = b"HTTP/1.1 403 Forbidden\r\nDate: Thu, 01 Jan 1970 00:16:40 GMT\r\n\
Tus-Resumable: 1.0.0\r\nContent-Type: text/plain\r\nContent-Length: 6\r\n\r\nfinal\n";

pub const DELETE_2: &[u8] =
    b"DELETE /files/acme/2 HTTP/1.1\r\nHost: x\r\nTus-Resumable: 1.0.0\r\n\r\n";

pub const GET_3: &[u8] = b"GET /files/acme/3 HTTP/1.1\r\nHost: x\r\n\r\n";

const CONTENT_OF_BOTH: &[u8] = b"HTTP/1.1 200 OK\r\nDate: Thu, 01 Jan 1970 00:16:40 GMT\r\n\
Tus-Resumable: 1.0.0\r\nContent-Type: application/octet-stream\r\nContent-Length: 7\r\n\r\nabcdefg";

const DELETE_3: &[u8] = b"DELETE /files/acme/3 HTTP/1.1\r\nHost: x\r\nTus-Resumable: 1.0.0\r\n\r\n";

static TWO_PARTS: [Turn; 12] = [
    (PART_OF_5, CREATED),
    (ABCDE, PATCHED),
    (PART_OF_2, CREATED_2),
    (FG, PATCHED_TO_2),
    (FINAL_OF_BOTH, FINAL_3),
    (HEAD_3, LOOKED_3),
    (PATCH_3, IS_FINAL),
    (DELETE, DELETED),
    (DELETE_2, DELETED),
    (GET_3, CONTENT_OF_BOTH),
    (DELETE_3, DELETED),
    (HEAD_3, GONE),
];

const FINAL_OF_TWICE: &[u8] = b"POST /files/acme HTTP/1.1\r\nHost: x\r\nTus-Resumable: 1.0.0\r\n\
Upload-Concat: final;/files/acme/1 /files/acme/1\r\n\r\n";

pub const FINAL_2: &[u8] = b"HTTP/1.1 201 Created\r\nDate: Thu, 01 Jan 1970 00:16:40 GMT\r\n\
Tus-Resumable: 1.0.0\r\nLocation: /files/acme/2\r\nContent-Length: 0\r\n\r\n";

const LOOKED_PART: &[u8] = b"HTTP/1.1 200 OK\r\nDate: Thu, 01 Jan 1970 00:16:40 GMT\r\n\
Tus-Resumable: 1.0.0\r\nUpload-Offset: 5\r\nUpload-Length: 5\r\nUpload-Concat: partial\r\n\
Cache-Control: no-store\r\n\r\n";

const GET_2: &[u8] = b"GET /files/acme/2 HTTP/1.1\r\nHost: x\r\n\r\n";

const CONTENT_OF_TWICE: &[u8] = b"HTTP/1.1 200 OK\r\nDate: Thu, 01 Jan 1970 00:16:40 GMT\r\n\
Tus-Resumable: 1.0.0\r\nContent-Type: application/octet-stream\r\nContent-Length: 10\r\n\r\n\
abcdeabcde";

static ONE_PART_TWICE: [Turn; 7] = [
    (PART_OF_5, CREATED),
    (ABCDE, PATCHED),
    (FINAL_OF_TWICE, FINAL_2),
    (HEAD, LOOKED_PART),
    (GET_2, CONTENT_OF_TWICE),
    (DELETE, DELETED),
    (GET_2, CONTENT_OF_TWICE),
];

const ZERO: &[u8] = b"POST /files/acme HTTP/1.1\r\nHost: x\r\nTus-Resumable: 1.0.0\r\n\
Upload-Length: 0\r\n\r\n";

const PART_OF_BETA: &[u8] = b"POST /files/beta HTTP/1.1\r\nHost: x\r\nTus-Resumable: 1.0.0\r\n\
Upload-Length: 0\r\nUpload-Concat: partial\r\n\r\n";

const CREATED_BETA: &[u8] = b"HTTP/1.1 201 Created\r\nDate: Thu, 01 Jan 1970 00:16:40 GMT\r\n\
Tus-Resumable: 1.0.0\r\nLocation: /files/beta/1\r\n\
Upload-Expires: Thu, 01 Jan 1970 01:16:40 GMT\r\nContent-Length: 0\r\n\r\n";

pub const FINAL_OF_1: &[u8] = b"POST /files/acme HTTP/1.1\r\nHost: x\r\nTus-Resumable: 1.0.0\r\n\
Upload-Concat: final;/files/acme/1\r\n\r\n";

const FINAL_OF_2: &[u8] = b"POST /files/acme HTTP/1.1\r\nHost: x\r\nTus-Resumable: 1.0.0\r\n\
Upload-Concat: final;/files/acme/2\r\n\r\n";

const FINAL_OF_BETA: &[u8] = b"POST /files/acme HTTP/1.1\r\nHost: x\r\nTus-Resumable: 1.0.0\r\n\
Upload-Concat: final;/files/beta/1\r\n\r\n";

const FINAL_OF_9: &[u8] = b"POST /files/acme HTTP/1.1\r\nHost: x\r\nTus-Resumable: 1.0.0\r\n\
Upload-Concat: final;/files/acme/9\r\n\r\n";

const FINAL_OF_NONE: &[u8] = b"POST /files/acme HTTP/1.1\r\nHost: x\r\nTus-Resumable: 1.0.0\r\n\
Upload-Concat: final;\r\n\r\n";

const FINAL_OF_A_LENGTH: &[u8] = b"POST /files/acme HTTP/1.1\r\nHost: x\r\n\
Tus-Resumable: 1.0.0\r\nUpload-Length: 5\r\nUpload-Concat: final;/files/acme/1\r\n\r\n";

const PART: &[u8] = b"HTTP/1.1 400 Bad Request\r\nDate: Thu, 01 Jan 1970 00:16:40 GMT\r\n\
Tus-Resumable: 1.0.0\r\nContent-Type: text/plain\r\nContent-Length: 5\r\n\r\npart\n";

const PART_OPEN: &[u8] = b"HTTP/1.1 409 Conflict\r\nDate: Thu, 01 Jan 1970 00:16:40 GMT\r\n\
Tus-Resumable: 1.0.0\r\nContent-Type: text/plain\r\nContent-Length: 10\r\n\r\npart-open\n";

static NO_PARTS: [Turn; 10] = [
    (PART_OF_5, CREATED),
    (ZERO, FINAL_2),
    (PART_OF_BETA, CREATED_BETA),
    (FINAL_OF_1, PART_OPEN),
    (FINAL_OF_2, PART),
    (FINAL_OF_BETA, PART),
    (FINAL_OF_9, PART),
    (FINAL_OF_BOTH, PART),
    (FINAL_OF_NONE, FIELD),
    (FINAL_OF_A_LENGTH, FIELD),
];

const PART_OF_30: &[u8] = b"POST /files/acme HTTP/1.1\r\nHost: x\r\nTus-Resumable: 1.0.0\r\n\
Upload-Length: 30\r\nUpload-Concat: partial\r\n\r\n";

const THIRTY: &[u8] = b"PATCH /files/acme/1 HTTP/1.1\r\nHost: x\r\nTus-Resumable: 1.0.0\r\n\
Content-Type: application/offset+octet-stream\r\nUpload-Offset: 0\r\nContent-Length: 30\r\n\r\n\
abcdefghijklmnopqrstuvwxyz0123";

const PATCHED_TO_30: &[u8] = b"HTTP/1.1 204 No Content\r\nDate: Thu, 01 Jan 1970 00:16:40 GMT\r\n\
Tus-Resumable: 1.0.0\r\nUpload-Offset: 30\r\n\
Upload-Expires: Thu, 01 Jan 1970 01:16:40 GMT\r\n\r\n";

const FINAL_OF_THRICE: &[u8] = b"POST /files/acme HTTP/1.1\r\nHost: x\r\n\
Tus-Resumable: 1.0.0\r\nUpload-Concat: final;/files/acme/1 /files/acme/1 /files/acme/1\r\n\r\n";

static WITH_THE_WHOLE_QUOTA: [Turn; 4] = [
    (PART_OF_30, CREATED),
    (THIRTY, PATCHED_TO_30),
    (FINAL_OF_THRICE, CREATION_TOO_LONG),
    (FINAL_OF_TWICE, FINAL_2),
];

/// Asserts that each message of a conversation with a new book is answered as its turn says,
/// and that the first upload of acme has so many bytes then.
fn check_turns(rt: &impl Abort, alloc: Global, what: &str, turns: &[Turn], offset: Option<u64>) {
    let mut sent = Vec::new(alloc);
    let mut written = Vec::new(alloc);
    for (message, reply) in turns {
        put(rt, &mut sent, message);
        put(rt, &mut written, reply);
    }
    let expected = Expected {
        text: &written,
        ended: Ok(Ended::Input),
        offset,
    };
    let moments = [at(1000); 16];
    assert_both(rt, alloc, what, &sent, &moments, &expected)
}

#[test]
fn concatenations(rt: HostRuntime) {
    let alloc = rt.alloc();
    check_turns(&rt, alloc, "two parts", &TWO_PARTS, None);
    check_turns(&rt, alloc, "twice", &ONE_PART_TWICE, None);
    check_turns(&rt, alloc, "no parts", &NO_PARTS, Some(0));
    check_turns(&rt, alloc, "quota", &WITH_THE_WHOLE_QUOTA, Some(30));
}

//! Conversations on a connection that serves ranges of bytes, and on one that doesn't.

use crate::tests::driven::{Arriving, Leaving, Pieces, spoken_over};
use crate::tests::methods::{COMPLETED, CONTENT, PATCH_ALL};
use crate::tests::rows::{Row, rows};
use crate::tests::spoken::{assert_spoken, at_1000, joined, new_book};
use http_wire::{Buffers, Connection, RequestLimits};
use std::alloc::Global;
use std::process::Abort;
use worked_example::{CREATED, POST};

const GET: &[u8] = b"GET /files/acme/1 HTTP/1.1\r\nHost: x\r\n";

const HEAD: &[u8] = b"HEAD /files/acme/1 HTTP/1.1\r\nHost: x\r\nTus-Resumable: 1.0.0\r\n";

const END: &[u8] = b"\r\n";

const RANGE_2_4: &[u8] = b"Range: bytes=2-4\r\n";

const WHOLE: &[u8] =
    b"HTTP/1.1 200 OK\r\nDate: Thu, 01 Jan 1970 00:16:40 GMT\r\nTus-Resumable: 1.0.0\r\n\
Accept-Ranges: bytes\r\nContent-Disposition: attachment\r\nX-Content-Type-Options: nosniff\r\n\
Content-Type: application/octet-stream\r\nContent-Length: 10\r\n\r\nabcdefghij";

const PARTIAL: &[u8] = b"HTTP/1.1 206 Partial Content\r\nDate: Thu, 01 Jan 1970 00:16:40 GMT\r\n\
Tus-Resumable: 1.0.0\r\nAccept-Ranges: bytes\r\n";

const BYTES_2_4: &[u8] = b"Content-Range: bytes 2-4/10\r\nContent-Disposition: attachment\r\n\
X-Content-Type-Options: nosniff\r\nContent-Type: application/octet-stream\r\nContent-Length: 3\r\n\r\ncde";

const BYTES_7_9: &[u8] = b"Content-Range: bytes 7-9/10\r\nContent-Disposition: attachment\r\n\
X-Content-Type-Options: nosniff\r\nContent-Type: application/octet-stream\r\nContent-Length: 3\r\n\r\nhij";

const NONE: &[u8] = b"HTTP/1.1 416 Range Not Satisfiable\r\nDate: Thu, 01 Jan 1970 00:16:40 GMT\r\n\
Tus-Resumable: 1.0.0\r\nContent-Range: bytes */10\r\nContent-Type: text/plain\r\nContent-Length: 6\r\n\r\n\
range\n";

const LOOKED: &[u8] =
    b"HTTP/1.1 200 OK\r\nDate: Thu, 01 Jan 1970 00:16:40 GMT\r\nTus-Resumable: 1.0.0\r\n\
Upload-Offset: 10\r\nUpload-Length: 10\r\nCache-Control: no-store\r\n\r\n";

static SERVED: [Row; 8] = rows! {
    "a GET without a range": [POST, PATCH_ALL, GET, END] => [CREATED, COMPLETED, WHOLE], Input, Some(10);
    "a range in the midst": [POST, PATCH_ALL, GET, RANGE_2_4, END] => [CREATED, COMPLETED, PARTIAL, BYTES_2_4], Input, Some(10);
    "a range to the end, in three forms": [POST, PATCH_ALL, GET, b"Range: bytes=7-\r\n\r\n", GET, b"range: Bytes=-3\r\n\r\n", GET, b"Range: bytes=7-99\r\n\r\n"] => [CREATED, COMPLETED, PARTIAL, BYTES_7_9, PARTIAL, BYTES_7_9, PARTIAL, BYTES_7_9], Input, Some(10);
    "ranges without a byte": [POST, PATCH_ALL, GET, b"Range: bytes=10-\r\n\r\n", GET, b"Range: bytes=10-12\r\n\r\n", GET, b"Range: bytes=-0\r\n\r\n"] => [CREATED, COMPLETED, NONE, NONE, NONE], Input, Some(10);
    "two ranges, and two fields": [POST, PATCH_ALL, GET, b"Range: bytes=0-1,3-4\r\n\r\n", GET, RANGE_2_4, RANGE_2_4, END] => [CREATED, COMPLETED, WHOLE, WHOLE], Input, Some(10);
    "another unit, and no range": [POST, PATCH_ALL, GET, b"Range: lines=2-4\r\n\r\n", GET, b"Range: bytes=4-2\r\n\r\n"] => [CREATED, COMPLETED, WHOLE, WHOLE], Input, Some(10);
    "a condition": [POST, PATCH_ALL, GET, RANGE_2_4, b"If-Range: \"a\"\r\n\r\n"] => [CREATED, COMPLETED, WHOLE], Input, Some(10);
    "a HEAD": [POST, PATCH_ALL, HEAD, RANGE_2_4, END] => [CREATED, COMPLETED, LOOKED], Input, Some(10);
};

static UNSERVED: [Row; 2] = rows! {
    "a range": [POST, PATCH_ALL, GET, RANGE_2_4, END] => [CREATED, COMPLETED, CONTENT], Input, Some(10);
    "a range without a byte": [POST, PATCH_ALL, GET, b"Range: bytes=-0\r\n\r\n"] => [CREATED, COMPLETED, CONTENT], Input, Some(10);
};

/// Has each conversation on a connection that serves ranges or none.
fn check(rt: &impl Abort, alloc: Global, rows: &[Row], ranges: bool) {
    for row in rows {
        let limits = RequestLimits {
            plain: 64,
            other: 64,
            ranges,
        };
        let sent = joined(rt, alloc, row.sent);
        let written = joined(rt, alloc, row.written);
        let buffers = Buffers::new(alloc).expect(rt, "memory");
        let mut connection = Connection::by_pieces(buffers, limits, None);
        let reader = Arriving::new(&sent, Pieces::Each(usize::MAX));
        let writer = Leaving::new(alloc, Pieces::Each(usize::MAX));
        let mut book = new_book(rt, alloc);
        let moments = at_1000();
        let spoken = spoken_over(rt, &mut connection, reader, writer, &mut book, &moments);
        assert_spoken(rt, row.name, &spoken, &row.expected(&written));
    }
}

#[test]
fn ranges_are_served(rt: HostRuntime) {
    check(&rt, rt.alloc(), &SERVED, true);
}

#[test]
fn ranges_are_ignored(rt: HostRuntime) {
    check(&rt, rt.alloc(), &UNSERVED, false);
}

//! What a GET tells of a file by the metadata of its upload, on a connection that serves ranges.

use crate::tests::driven::{Arriving, Leaving, Pieces, spoken_over};
use crate::tests::spoken::{Expected, assert_spoken, at_1000, joined, new_book};
use http_wire::{Buffers, Connection, Ended, RequestLimits};
use std::alloc::Global;
use std::process::Abort;

const CREATION: &[u8] =
    b"POST /files/acme HTTP/1.1\r\nHost: x\r\nTus-Resumable: 1.0.0\r\nUpload-Length: 0\r\nUpload-Metadata: ";

const GET: &[u8] = b"\r\n\r\nGET /files/acme/1 HTTP/1.1\r\nHost: x\r\n\r\n";

const CREATED: &[u8] =
    b"HTTP/1.1 201 Created\r\nDate: Thu, 01 Jan 1970 00:16:40 GMT\r\nTus-Resumable: 1.0.0\r\n\
Location: /files/acme/1\r\nContent-Length: 0\r\n\r\n";

const TOLD: &[u8] =
    b"HTTP/1.1 200 OK\r\nDate: Thu, 01 Jan 1970 00:16:40 GMT\r\nTus-Resumable: 1.0.0\r\n\
Accept-Ranges: bytes\r\nContent-Disposition: ";

const TYPE: &[u8] = b"\r\nX-Content-Type-Options: nosniff\r\nContent-Type: ";

const END: &[u8] = b"\r\nContent-Length: 0\r\n\r\n";

const ANY_TYPE: &[u8] = b"application/octet-stream";

// Metadata, and the disposition and the type that it leads to.
static FILES: [(&[u8], &[u8], &[u8]); 13] = [
    (b"key", b"attachment", ANY_TYPE),
    (
        b"filename YS5tcDQ=,filetype dmlkZW8vbXA0",
        b"inline; filename=\"a.mp4\"",
        b"video/mp4",
    ),
    // of two keys that differ in letter case, and of text/html
    (
        b"Filetype dmlkZW8vbXA0,filetype dGV4dC9odG1s",
        b"attachment",
        b"text/html",
    ),
    // Text/Plain; charset=utf-8
    (
        b" filetype VGV4dC9QbGFpbjsgY2hhcnNldD11dGYtOA== ",
        b"inline",
        b"Text/Plain; charset=utf-8",
    ),
    // image/svg+xml, which may carry a script
    (
        b"filetype aW1hZ2Uvc3ZnK3htbA==",
        b"attachment",
        b"image/svg+xml",
    ),
    // text/plain, with another field in its next line
    (
        b"filetype dGV4dC9wbGFpbg0KWDogeQ==",
        b"attachment",
        ANY_TYPE,
    ),
    // text, which has no subtype
    (b"filetype dGV4dA==", b"attachment", ANY_TYPE),
    (b"filename,filetype", b"attachment", ANY_TYPE),
    // a letter that is not ASCII, and a space
    (
        b"filename w7wgYi50eHQ=",
        b"attachment; filename*=UTF-8''%C3%BC%20b.txt",
        ANY_TYPE,
    ),
    // a quote and a percent sign
    (
        b"filename YSJiJS50eHQ=",
        b"attachment; filename*=UTF-8''a%22b%25.txt",
        ANY_TYPE,
    ),
    // a tab
    (
        b"filename YQli",
        b"attachment; filename*=UTF-8''a%09b",
        ANY_TYPE,
    ),
    // no UTF-8
    (b"filename /y50eHQ=", b"attachment", ANY_TYPE),
    // a name with a folder, a space and a backslash at its end
    (
        b"filename Li4vYSBcXA==",
        b"attachment; filename*=UTF-8''..%2Fa%20%5C%5C",
        ANY_TYPE,
    ),
];

/// Has an upload created with this metadata, and then asked for by a GET.
fn check(rt: &impl Abort, alloc: Global, metadata: &[u8], disposition: &[u8], media: &[u8]) {
    let limits = RequestLimits {
        plain: 64,
        other: 64,
        ranges: true,
    };
    let sent = joined(rt, alloc, &[CREATION, metadata, GET]);
    let written = joined(rt, alloc, &[CREATED, TOLD, disposition, TYPE, media, END]);
    let buffers = Buffers::new(alloc).expect(rt, "memory");
    let mut connection = Connection::by_pieces(buffers, limits, None);
    let reader = Arriving::new(&sent, Pieces::Each(usize::MAX));
    let writer = Leaving::new(alloc, Pieces::Each(usize::MAX));
    let mut book = new_book(rt, alloc);
    let moments = at_1000();
    let spoken = spoken_over(rt, &mut connection, reader, writer, &mut book, &moments);
    let expected = Expected {
        text: written.as_slice(),
        ended: Ok(Ended::Input),
        offset: Some(0),
    };
    assert_spoken(rt, "a file", &spoken, &expected);
}

#[test]
fn files_are_told(rt: HostRuntime) {
    for (metadata, disposition, media) in FILES.iter() {
        check(&rt, rt.alloc(), metadata, disposition, media);
    }
}

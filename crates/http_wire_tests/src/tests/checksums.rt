//! Checksums of the bytes of a PATCH, and creations that carry the first bytes of their upload.

use crate::tests::conversations::CREATION_TOO_LONG;
use crate::tests::creations::{FIELD, LOOKED_NEW};
use crate::tests::message_parts::{
    A, CREATED_FIRST, END, EXPIRES, FROM_0, FROM_5, HELLO, HELLP, NO_BODY, OF_5, OF_10, OF_20,
    SHORT_SUM, SUM, TO_ACME, TO_BETA, TO_FIRST, TYPED,
};
use crate::tests::rows::{Row, check_rows, rows};
use worked_example::{CREATED, HEAD, LOOKED, PATCHED, POST};

const MD5: &[u8] = b"Upload-Checksum: md5 x\r\n";

const SUM_IN_CAPITALS: &[u8] = b"Upload-Checksum: SHA1 qvTGHdzF6KLavt4PO0gs2a6pQ00=\r\n";

const MISMATCH: &[u8] = b"HTTP/1.1 460 Checksum Mismatch\r\nDate: Thu, 01 Jan 1970 00:16:40 GMT\r\n\
Tus-Resumable: 1.0.0\r\n\
Upload-Expires: Thu, 01 Jan 1970 01:16:40 GMT\r\n\
Content-Type: text/plain\r\nContent-Length: 9\r\n\r\nmismatch\n";

const ALGORITHM: &[u8] = b"HTTP/1.1 400 Bad Request\r\nDate: Thu, 01 Jan 1970 00:16:40 GMT\r\n\
Tus-Resumable: 1.0.0\r\n\
Upload-Expires: Thu, 01 Jan 1970 01:16:40 GMT\r\n\
Content-Type: text/plain\r\nContent-Length: 10\r\n\r\nalgorithm\n";

const CREATION_MEDIA: &[u8] =
    b"HTTP/1.1 415 Unsupported Media Type\r\nDate: Thu, 01 Jan 1970 00:16:40 GMT\r\n\
Tus-Resumable: 1.0.0\r\n\
Content-Type: text/plain\r\nContent-Length: 6\r\n\r\nmedia\n";

const CREATION_MISMATCH: &[u8] =
    b"HTTP/1.1 460 Checksum Mismatch\r\nDate: Thu, 01 Jan 1970 00:16:40 GMT\r\n\
Tus-Resumable: 1.0.0\r\n\
Content-Type: text/plain\r\nContent-Length: 9\r\n\r\nmismatch\n";

const CREATION_QUOTA: &[u8] =
    b"HTTP/1.1 507 Insufficient Storage\r\nDate: Thu, 01 Jan 1970 00:16:40 GMT\r\n\
Tus-Resumable: 1.0.0\r\n\
Content-Type: text/plain\r\nContent-Length: 6\r\n\r\nquota\n";

const CREATED_BETA: &[u8] = b"HTTP/1.1 201 Created\r\nDate: Thu, 01 Jan 1970 00:16:40 GMT\r\n\
Tus-Resumable: 1.0.0\r\n\
Location: /files/beta/1\r\n\
Upload-Expires: Thu, 01 Jan 1970 01:16:40 GMT\r\n\
Content-Length: 0\r\n\r\n";

static CHECKSUMS: [Row; 5] = rows! {
    "bytes with their checksum": [POST, TO_FIRST, TYPED, FROM_0, SUM, HELLO, HEAD] => [CREATED, PATCHED, LOOKED], Input, Some(5);
    "damaged bytes are not kept": [POST, TO_FIRST, TYPED, FROM_0, SUM, HELLP, HEAD] => [CREATED, MISMATCH, LOOKED_NEW], Input, Some(0);
    "a checksum by another algorithm": [POST, TO_FIRST, TYPED, FROM_0, MD5, HELLO, TO_FIRST, TYPED, FROM_0, SUM_IN_CAPITALS, HELLO] => [CREATED, ALGORITHM, ALGORITHM], Input, Some(0);
    "a digest that is too short, and two checksums": [POST, TO_FIRST, TYPED, FROM_0, SHORT_SUM, HELLO, TO_FIRST, TYPED, FROM_0, SUM, SUM, HELLO] => [CREATED, FIELD, FIELD], Input, Some(0);
    "a cut body with a checksum is not kept": [POST, TO_FIRST, TYPED, FROM_0, SUM, b"Content-Length: 5\r\n\r\nhel"] => [CREATED], Cut, Some(0);
};

#[test]
fn checksums(rt: HostRuntime) {
    check_rows(&rt, rt.alloc(), &CHECKSUMS);
}

static WITH_UPLOAD: [Row; 7] = rows! {
    "the first bytes with the creation": [TO_ACME, OF_10, TYPED, HELLO, HEAD] => [CREATED_FIRST, FROM_5, EXPIRES, NO_BODY, LOOKED], Input, Some(5);
    "all bytes with the creation": [TO_ACME, OF_5, TYPED, HELLO] => [CREATED_FIRST, FROM_5, NO_BODY], Input, Some(5);
    "too many bytes, untyped ones, and damaged ones": [TO_ACME, b"Upload-Length: 4\r\n", TYPED, HELLO, TO_ACME, OF_10, HELLO, TO_ACME, OF_10, TYPED, SUM, HELLP, POST] => [CREATION_TOO_LONG, CREATION_MEDIA, CREATION_MISMATCH, CREATED], Input, Some(0);
    "more bytes than the quota has blocks for": [TO_BETA, OF_20, TYPED, b"Content-Length: 17\r\n\r\n01234567890123456", TO_BETA, OF_20, END] => [CREATION_QUOTA, CREATED_BETA], Input, None;
    "no bytes, of the type of a PATCH": [TO_ACME, OF_10, TYPED, END] => [CREATED_FIRST, FROM_0, EXPIRES, NO_BODY], Input, Some(0);
    "a final upload with bytes, and a cut creation": [TO_ACME, b"Upload-Concat: final;/files/acme/1\r\n", TYPED, A, TO_ACME, OF_10, TYPED, b"Content-Length: 5\r\n\r\nhe"] => [FIELD], Cut, None;
    "no checksum with bytes, and without them": [TO_ACME, OF_10, TYPED, SHORT_SUM, HELLO, TO_ACME, OF_10, SHORT_SUM, END] => [FIELD, CREATED], Input, Some(0);
};

#[test]
fn creations_with_upload(rt: HostRuntime) {
    check_rows(&rt, rt.alloc(), &WITH_UPLOAD);
}

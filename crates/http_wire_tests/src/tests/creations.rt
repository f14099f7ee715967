use crate::tests::conversations::OFFSET;
use crate::tests::message_parts::{
    A, CREATED_FIRST, END, FROM_0, FROM_5, HELLO, NO_BODY, NO_STORE, OF_5, OF_10, TO_ACME,
    TO_FIRST, TYPED,
};
use crate::tests::rows::{Row, check_rows, rows};
use worked_example::{CREATED, HEAD};

const DEFERRED: &[u8] = b"Upload-Defer-Length: 1\r\n";

const TWO_KEYS: &[u8] = b"Upload-Metadata: a ,b\r\n";

const KEY_AND_VALUE: &[u8] = b"Upload-Metadata: a YQ==,b\r\n";

const NO_METADATA: &[u8] = b"Upload-Metadata:\r\n";

const LOOKED_DEFERRED: &[u8] = b"HTTP/1.1 200 OK\r\nDate: Thu, 01 Jan 1970 00:16:40 GMT\r\n\
Tus-Resumable: 1.0.0\r\nUpload-Offset: 0\r\nUpload-Defer-Length: 1\r\nCache-Control: no-store\r\n\
\r\n";

const COMPLETED_FIVE: &[u8] = b"HTTP/1.1 204 No Content\r\n\
Date: Thu, 01 Jan 1970 00:16:40 GMT\r\nTus-Resumable: 1.0.0\r\nUpload-Offset: 5\r\n\r\n";

const LENGTH_FIXED: &[u8] = b"HTTP/1.1 400 Bad Request\r\nDate: Thu, 01 Jan 1970 00:16:40 GMT\r\n\
Tus-Resumable: 1.0.0\r\nContent-Type: text/plain\r\nContent-Length: 13\r\n\r\nlength-fixed\n";

pub const FIELD: &[u8] = b"HTTP/1.1 400 Bad Request\r\nDate: Thu, 01 Jan 1970 00:16:40 GMT\r\n\
Tus-Resumable: 1.0.0\r\nContent-Type: text/plain\r\nContent-Length: 6\r\n\r\nfield\n";

const PATCHED_NONE: &[u8] = b"HTTP/1.1 204 No Content\r\nDate: Thu, 01 Jan 1970 00:16:40 GMT\r\n\
Tus-Resumable: 1.0.0\r\nUpload-Offset: 0\r\n\r\n";

const GET: &[u8] = b"GET /files/acme/1 HTTP/1.1\r\nHost: x\r\n\r\n";

const NO_CONTENT: &[u8] = b"HTTP/1.1 200 OK\r\nDate: Thu, 01 Jan 1970 00:16:40 GMT\r\n\
Tus-Resumable: 1.0.0\r\nContent-Type: application/octet-stream\r\nContent-Length: 0\r\n\r\n";

/// What a HEAD gets of a new upload, up to its metadata.
const LOOKED_WITH: &[u8] = b"HTTP/1.1 200 OK\r\nDate: Thu, 01 Jan 1970 00:16:40 GMT\r\n\
Tus-Resumable: 1.0.0\r\nUpload-Offset: 0\r\nUpload-Length: 10\r\n";

pub const LOOKED_NEW: &[u8] = b"HTTP/1.1 200 OK\r\nDate: Thu, 01 Jan 1970 00:16:40 GMT\r\n\
Tus-Resumable: 1.0.0\r\nUpload-Offset: 0\r\nUpload-Length: 10\r\nCache-Control: no-store\r\n\r\n";

static CREATIONS: [Row; 8] = rows! {
    "a length that is told later, and a refused PATCH that tells one": [TO_ACME, DEFERRED, END, HEAD, TO_FIRST, TYPED, b"Upload-Offset: 1\r\nUpload-Length: 9\r\n", A, HEAD] => [CREATED, LOOKED_DEFERRED, OFFSET, LOOKED_DEFERRED], Input, Some(0);
    "a told length is fixed": [TO_ACME, DEFERRED, END, TO_FIRST, TYPED, FROM_0, OF_5, HELLO, TO_FIRST, TYPED, FROM_5, b"Upload-Length: 6\r\n", NO_BODY, TO_FIRST, TYPED, FROM_5, OF_5, NO_BODY] => [CREATED, COMPLETED_FIVE, LENGTH_FIXED, COMPLETED_FIVE], Input, Some(5);
    "lengths that are not told": [TO_ACME, b"Upload-Defer-Length: 2\r\n", END, TO_ACME, OF_5, DEFERRED, END, TO_ACME, END] => [FIELD, FIELD, FIELD], Input, None;
    "an upload of no bytes": [TO_ACME, b"Upload-Length: 0\r\n", END, TO_FIRST, TYPED, FROM_0, NO_BODY, GET] => [CREATED_FIRST, NO_BODY, PATCHED_NONE, NO_CONTENT], Input, Some(0);
    "metadata is given back as it was sent": [TO_ACME, OF_10, TWO_KEYS, END, HEAD] => [CREATED, LOOKED_WITH, TWO_KEYS, NO_STORE], Input, Some(0);
    "metadata with a value is given back as it was sent": [TO_ACME, OF_10, KEY_AND_VALUE, END, HEAD] => [CREATED, LOOKED_WITH, KEY_AND_VALUE, NO_STORE], Input, Some(0);
    "metadata that is none": [TO_ACME, OF_10, b"Upload-Metadata: a YQ==,a\r\n", END, TO_ACME, OF_10, b"Upload-Metadata: a YQ\r\n", END, TO_ACME, OF_10, b"Upload-Metadata: a,,b\r\n", END, TO_ACME, OF_10, NO_METADATA, NO_METADATA, END] => [FIELD, FIELD, FIELD, FIELD], Input, None;
    "empty metadata is none": [TO_ACME, OF_10, NO_METADATA, END, HEAD] => [CREATED, LOOKED_NEW], Input, Some(0);
};

#[test]
fn creations(rt: HostRuntime) {
    check_rows(&rt, rt.alloc(), &CREATIONS);
}

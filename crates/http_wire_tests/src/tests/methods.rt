use crate::tests::rows::{Row, check_rows, rows};
use worked_example::{CREATED, PATCHED, POST};

const OPTIONS_NO_VERSION: &[u8] = b"OPTIONS /files/acme HTTP/1.1\r\nHost: x\r\n\r\n";

const OPTIONS_OTHER_VERSION: &[u8] = b"OPTIONS * HTTP/1.1\r\nHost: x\r\nTus-Resumable: 0.2.2\r\n\
\r\n";

const ABLE: &[u8] = b"HTTP/1.1 204 No Content\r\nDate: Thu, 01 Jan 1970 00:16:40 GMT\r\n\
Tus-Resumable: 1.0.0\r\nTus-Version: 1.0.0\r\n\
Tus-Extension: creation,creation-defer-length,expiration,termination,concatenation,checksum,\
creation-with-upload\r\nTus-Max-Size: 64\r\nTus-Checksum-Algorithm: sha1\r\n\r\n";

const GET: &[u8] = b"GET /files/acme/1 HTTP/1.1\r\nHost: x\r\n\r\n";

pub const PATCH_ALL: &[u8] = b"PATCH /files/acme/1 HTTP/1.1\r\nHost: x\r\nTus-Resumable: 1.0.0\r\n\
Content-Type: application/offset+octet-stream\r\nUpload-Offset: 0\r\nContent-Length: 10\r\n\r\n\
abcdefghij";

pub const COMPLETED: &[u8] = b"HTTP/1.1 204 No Content\r\nDate: Thu, 01 Jan 1970 00:16:40 GMT\r\n\
Tus-Resumable: 1.0.0\r\nUpload-Offset: 10\r\n\r\n";

pub const CONTENT: &[u8] = b"HTTP/1.1 200 OK\r\nDate: Thu, 01 Jan 1970 00:16:40 GMT\r\n\
Tus-Resumable: 1.0.0\r\nContent-Type: application/octet-stream\r\nContent-Length: 10\r\n\r\n\
abcdefghij";

const UNFINISHED: &[u8] = b"HTTP/1.1 409 Conflict\r\nDate: Thu, 01 Jan 1970 00:16:40 GMT\r\n\
Tus-Resumable: 1.0.0\r\nContent-Type: text/plain\r\nContent-Length: 11\r\n\r\nunfinished\n";

const POST_AS_PATCH: &[u8] = b"POST /files/acme/1 HTTP/1.1\r\nHost: x\r\nTus-Resumable: 1.0.0\r\n\
X-HTTP-Method-Override: PATCH\r\nContent-Type: application/offset+octet-stream\r\n\
Upload-Offset: 0\r\nContent-Length: 5\r\n\r\nhello";

const POST_AS_PATCH_UNTYPED: &[u8] = b"POST /files/acme/1 HTTP/1.1\r\nHost: x\r\n\
Tus-Resumable: 1.0.0\r\nX-HTTP-Method-Override: PATCH\r\nUpload-Offset: 5\r\n\
Content-Length: 5\r\n\r\nhello";

pub const MEDIA: &[u8] = b"HTTP/1.1 415 Unsupported Media Type\r\n\
Date: Thu, 01 Jan 1970 00:16:40 GMT\r\nTus-Resumable: 1.0.0\r\n\
Upload-Expires: Thu, 01 Jan 1970 01:16:40 GMT\r\nContent-Type: text/plain\r\n\
Content-Length: 6\r\n\r\nmedia\n";

const POST_AS_HEAD: &[u8] = b"POST /files/acme/1 HTTP/1.1\r\nHost: x\r\nTus-Resumable: 1.0.0\r\n\
X-HTTP-Method-Override: HEAD\r\n\r\n";

const LOOKED_WITH_LENGTH: &[u8] = b"HTTP/1.1 200 OK\r\nDate: Thu, 01 Jan 1970 00:16:40 GMT\r\n\
Tus-Resumable: 1.0.0\r\nUpload-Offset: 5\r\nUpload-Length: 10\r\nCache-Control: no-store\r\n\
Content-Length: 0\r\n\r\n";

const HEAD_AS_GET: &[u8] = b"HEAD /files/acme/1 HTTP/1.1\r\nHost: x\r\nTus-Resumable: 1.0.0\r\n\
X-HTTP-Method-Override: GET\r\n\r\n";

const BARE_CONTENT: &[u8] = b"HTTP/1.1 200 OK\r\nDate: Thu, 01 Jan 1970 00:16:40 GMT\r\n\
Tus-Resumable: 1.0.0\r\n\r\n";

static METHODS: [Row; 4] = rows! {
    "OPTIONS of any version and target": [OPTIONS_NO_VERSION, OPTIONS_OTHER_VERSION] => [ABLE, ABLE], Input, None;
    "GET of an upload before it is finished, and after": [POST, GET, PATCH_ALL, GET] => [CREATED, UNFINISHED, COMPLETED, CONTENT], Input, Some(10);
    "a POST that stands for a PATCH or a HEAD": [POST, POST_AS_PATCH, POST_AS_PATCH_UNTYPED, POST_AS_HEAD] => [CREATED, PATCHED, MEDIA, LOOKED_WITH_LENGTH], Input, Some(5);
    "a HEAD that stands for a GET has a bare reply": [POST, PATCH_ALL, HEAD_AS_GET] => [CREATED, COMPLETED, BARE_CONTENT], Input, Some(10);
};

#[test]
fn methods(rt: HostRuntime) {
    check_rows(&rt, rt.alloc(), &METHODS);
}

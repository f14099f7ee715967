//! What clients send beside the messages of the worked example, and what is written back at the moment 1000.

/// The PATCH of the worked example, with the first two bytes of its body.
pub const CUT_PATCH: &[u8] = b"PATCH /files/acme/1 HTTP/1.1\r\nHost: x\r\nTus-Resumable: 1.0.0\r\n\
Content-Type: application/offset+octet-stream\r\nUpload-Offset: 0\r\nContent-Length: 5\r\n\r\n\
he";

pub const DELETE: &[u8] =
    b"DELETE /files/acme/1 HTTP/1.1\r\nHost: x\r\nTus-Resumable: 1.0.0\r\n\r\n";

/// What a DELETE gets at the moment 5000, when the upload has expired.
pub const GONE: &[u8] = b"HTTP/1.1 410 Gone\r\nDate: Thu, 01 Jan 1970 01:23:20 GMT\r\n\
Tus-Resumable: 1.0.0\r\nContent-Type: text/plain\r\nContent-Length: 5\r\n\r\ngone\n";

/// What a HEAD tells after the two bytes.
pub const LOOKED_CUT: &[u8] = b"HTTP/1.1 200 OK\r\nDate: Thu, 01 Jan 1970 00:16:40 GMT\r\n\
Tus-Resumable: 1.0.0\r\nUpload-Offset: 2\r\nUpload-Length: 10\r\nCache-Control: no-store\r\n\r\n";

pub const BETA_POST: &[u8] = b"POST /files/beta HTTP/1.1\r\nHost: x\r\nTus-Resumable: 1.0.0\r\n\
Upload-Length: 4\r\n\r\n";

pub const BETA_PATCH: &[u8] = b"PATCH /files/beta/1 HTTP/1.1\r\nHost: x\r\nTus-Resumable: 1.0.0\r\n\
Content-Type: application/offset+octet-stream\r\nUpload-Offset: 0\r\nContent-Length: 4\r\n\r\n\
abcd";

pub const BETA_CREATED: &[u8] = b"HTTP/1.1 201 Created\r\nDate: Thu, 01 Jan 1970 00:16:40 GMT\r\n\
Tus-Resumable: 1.0.0\r\nLocation: /files/beta/1\r\n\
Upload-Expires: Thu, 01 Jan 1970 01:16:40 GMT\r\nContent-Length: 0\r\n\r\n";

/// The upload is complete, so it no longer expires.
pub const BETA_PATCHED: &[u8] = b"HTTP/1.1 204 No Content\r\n\
Date: Thu, 01 Jan 1970 00:16:40 GMT\r\nTus-Resumable: 1.0.0\r\nUpload-Offset: 4\r\n\r\n";

/// What a HEAD gets of an upload that there is not.
pub const MISSED: &[u8] = b"HTTP/1.1 404 Not Found\r\nDate: Thu, 01 Jan 1970 00:16:40 GMT\r\n\
Tus-Resumable: 1.0.0\r\nCache-Control: no-store\r\n\r\n";

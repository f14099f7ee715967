//! The messages of the worked example and what is written back to them at the moment 1000: an upload of ten bytes is created,
//! gets its first five, and is looked at.

/// The creation.
pub const POST: &[u8] = b"POST /files/acme HTTP/1.1\r\nHost: x\r\nTus-Resumable: 1.0.0\r\n\
Upload-Length: 10\r\n\r\n";

/// The first five bytes.
pub const PATCH: &[u8] = b"PATCH /files/acme/1 HTTP/1.1\r\nHost: x\r\nTus-Resumable: 1.0.0\r\n\
Content-Type: application/offset+octet-stream\r\nUpload-Offset: 0\r\nContent-Length: 5\r\n\r\n\
hello";

/// The look.
pub const HEAD: &[u8] = b"HEAD /files/acme/1 HTTP/1.1\r\nHost: x\r\nTus-Resumable: 1.0.0\r\n\r\n";

/// What the creation gets.
pub const CREATED: &[u8] = b"HTTP/1.1 201 Created\r\nDate: Thu, 01 Jan 1970 00:16:40 GMT\r\n\
Tus-Resumable: 1.0.0\r\nLocation: /files/acme/1\r\n\
Upload-Expires: Thu, 01 Jan 1970 01:16:40 GMT\r\nContent-Length: 0\r\n\r\n";

/// What the first five bytes get.
pub const PATCHED: &[u8] = b"HTTP/1.1 204 No Content\r\nDate: Thu, 01 Jan 1970 00:16:40 GMT\r\n\
Tus-Resumable: 1.0.0\r\nUpload-Offset: 5\r\n\
Upload-Expires: Thu, 01 Jan 1970 01:16:40 GMT\r\n\r\n";

/// What the look gets after these.
pub const LOOKED: &[u8] = b"HTTP/1.1 200 OK\r\nDate: Thu, 01 Jan 1970 00:16:40 GMT\r\n\
Tus-Resumable: 1.0.0\r\nUpload-Offset: 5\r\nUpload-Length: 10\r\nCache-Control: no-store\r\n\r\n";

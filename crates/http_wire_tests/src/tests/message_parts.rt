//! Parts of which messages are put together: first lines with the fields of each, one field more, and bodies behind their length.

pub const TO_ACME: &[u8] = b"POST /files/acme HTTP/1.1\r\nHost: x\r\nTus-Resumable: 1.0.0\r\n";

pub const TO_BETA: &[u8] = b"POST /files/beta HTTP/1.1\r\nHost: x\r\nTus-Resumable: 1.0.0\r\n";

/// To the first upload of acme.
pub const TO_FIRST: &[u8] = b"PATCH /files/acme/1 HTTP/1.1\r\nHost: x\r\nTus-Resumable: 1.0.0\r\n";

/// To whatever target stands before it, with no field of its own.
pub const PLAIN: &[u8] = b" HTTP/1.1\r\nHost: x\r\nTus-Resumable: 1.0.0\r\n\r\n";

/// What the creation of the first upload of acme gets at the moment 1000.
pub const CREATED_FIRST: &[u8] = b"HTTP/1.1 201 Created\r\nDate: Thu, 01 Jan 1970 00:16:40 GMT\r\n\
Tus-Resumable: 1.0.0\r\nLocation: /files/acme/1\r\n";

/// An hour after that moment.
pub const EXPIRES: &[u8] = b"Upload-Expires: Thu, 01 Jan 1970 01:16:40 GMT\r\n";

/// The content type of a PATCH.
pub const TYPED: &[u8] = b"Content-Type: application/offset+octet-stream\r\n";

pub const FROM_0: &[u8] = b"Upload-Offset: 0\r\n";

pub const FROM_5: &[u8] = b"Upload-Offset: 5\r\n";

pub const OF_5: &[u8] = b"Upload-Length: 5\r\n";

pub const OF_10: &[u8] = b"Upload-Length: 10\r\n";

pub const OF_20: &[u8] = b"Upload-Length: 20\r\n";

/// The checksum of [`HELLO`].
pub const SUM: &[u8] = b"Upload-Checksum: sha1 qvTGHdzF6KLavt4PO0gs2a6pQ00=\r\n";

pub const SHORT_SUM: &[u8] = b"Upload-Checksum: sha1 abc\r\n";

pub const HELLO: &[u8] = b"Content-Length: 5\r\n\r\nhello";

/// The same, damaged.
pub const HELLP: &[u8] = b"Content-Length: 5\r\n\r\nhellp";

pub const A: &[u8] = b"Content-Length: 1\r\n\r\na";

pub const NO_BODY: &[u8] = b"Content-Length: 0\r\n\r\n";

/// The end of a head that tells no length of a body.
pub const END: &[u8] = b"\r\n";

/// The end of what a HEAD gets.
pub const NO_STORE: &[u8] = b"Cache-Control: no-store\r\n\r\n";

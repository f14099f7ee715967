//! Replies as the plain program writes them: line by line, each text anew.

use crate::tests::spoken::put;
use http_wire::{Framing, WireRefusal};
use std::alloc::Global;
use std::process::Abort;
use tus_steps::{Extent, PathKind, Reply};
use tus_text::write_expires;
use upload_book::{HeadRow, Moment, Refusal};

/// A field's name, and what it tells.
type Line = (&'static str, Vec<u8>);

/// A reply: its status, its own fields in their order, the type of its body, and that.
#[derive(Drop)]
pub struct Replied {
    status: u16,
    lines: Vec<Line>,
    media: &'static str,
    body: Vec<u8>,
}

impl Replied {
    fn new(alloc: Global, status: u16) -> Replied {
        Replied {
            status,
            lines: Vec::new(alloc),
            media: "",
            body: Vec::new(alloc),
        }
    }

    fn line(&mut self, rt: &impl Abort, alloc: Global, name: &'static str, value: &[u8]) {
        let value = Vec::from_slice(alloc, value).expect(rt, "memory");
        self.lines.push((name, value)).expect(rt, "memory");
    }

    fn number(&mut self, rt: &impl Abort, alloc: Global, name: &'static str, number: u64) {
        let text = format!(in alloc; "{number}").expect(rt, "memory");
        self.line(rt, alloc, name, text.as_bytes());
    }

    fn expires(&mut self, rt: &impl Abort, alloc: Global, expires: Option<Moment>) {
        if let Some(end) = expires {
            self.line(rt, alloc, "Upload-Expires", &write_expires(end.secs()));
        }
    }

    /// What a reply of the steps tells.
    pub fn of(rt: &impl Abort, alloc: Global, reply: &Reply) -> Replied {
        match reply {
            Reply::Options { max_size } => Replied::of_options(rt, alloc, *max_size),
            Reply::Created {
                tenant,
                id,
                offset,
                expires,
            } => {
                let mut replied = Replied::of_creation(rt, alloc, tenant.as_slice(), *id);
                if let Some(offset) = offset {
                    replied.number(rt, alloc, "Upload-Offset", *offset);
                }
                replied.expires(rt, alloc, *expires);
                replied
            }
            Reply::Head(row) => Replied::of_head(rt, alloc, row),
            Reply::Content { bytes, extent, .. } => {
                let mut replied = Replied::of_bytes(rt, alloc, *extent);
                replied.media = "application/octet-stream";
                replied.body = Vec::from_slice(alloc, bytes.as_slice()).expect(rt, "memory");
                replied
            }
            Reply::Unsatisfiable { len } => {
                let mut replied = Replied::new(alloc, 416);
                let none = format!(in alloc; "bytes */{len}").expect(rt, "memory");
                replied.line(rt, alloc, "Content-Range", none.as_bytes());
                replied.tell_word(rt, "range");
                replied
            }
            Reply::Patched { offset, expires } => {
                let mut replied = Replied::new(alloc, 204);
                replied.number(rt, alloc, "Upload-Offset", *offset);
                replied.expires(rt, alloc, *expires);
                replied
            }
            Reply::Deleted => Replied::new(alloc, 204),
            Reply::Refused {
                refusal,
                head,
                place,
                expires,
            } => {
                let mut replied = Replied::refusing(rt, alloc, *refusal, *place);
                replied.expires(rt, alloc, *expires);
                if *head {
                    replied.line(rt, alloc, "Cache-Control", b"no-store");
                }
                replied
            }
        }
    }

    fn of_options(rt: &impl Abort, alloc: Global, max_size: u64) -> Replied {
        let mut replied = Replied::new(alloc, 204);
        replied.line(rt, alloc, "Tus-Version", b"1.0.0");
        let extensions = b"creation,creation-defer-length,expiration,termination,\
concatenation,checksum,creation-with-upload";
        replied.line(rt, alloc, "Tus-Extension", extensions);
        replied.number(rt, alloc, "Tus-Max-Size", max_size);
        replied.line(rt, alloc, "Tus-Checksum-Algorithm", b"sha1");
        replied
    }

    // What the reply to a creation tells first: the place of the upload of this id.
    fn of_creation(rt: &impl Abort, alloc: Global, tenant: &[u8], id: u64) -> Replied {
        let mut path = Vec::from_slice(alloc, b"/files/").expect(rt, "memory");
        put(rt, &mut path, tenant);
        let id = format!(in alloc; "/{id}").expect(rt, "memory");
        put(rt, &mut path, id.as_bytes());
        let mut replied = Replied::new(alloc, 201);
        replied.line(rt, alloc, "Location", &path);
        replied
    }

    fn of_head(rt: &impl Abort, alloc: Global, row: &HeadRow) -> Replied {
        let mut replied = Replied::new(alloc, 200);
        replied.number(rt, alloc, "Upload-Offset", row.offset);
        match row.declared {
            Some(length) => replied.number(rt, alloc, "Upload-Length", length),
            None => replied.line(rt, alloc, "Upload-Defer-Length", b"1"),
        }
        if !row.metadata.as_slice().is_empty() {
            replied.line(rt, alloc, "Upload-Metadata", row.metadata.as_slice());
        }
        if !row.concat.as_slice().is_empty() {
            replied.line(rt, alloc, "Upload-Concat", row.concat.as_slice());
        }
        replied.line(rt, alloc, "Cache-Control", b"no-store");
        replied
    }

    // What the reply to a GET tells first, which gives these bytes.
    fn of_bytes(rt: &impl Abort, alloc: Global, extent: Extent) -> Replied {
        let Extent::Range { first, last, len } = extent else {
            let mut replied = Replied::new(alloc, 200);
            if extent == Extent::Whole {
                replied.line(rt, alloc, "Accept-Ranges", b"bytes");
            }
            return replied;
        };
        let mut replied = Replied::new(alloc, 206);
        replied.line(rt, alloc, "Accept-Ranges", b"bytes");
        let range = format!(in alloc; "bytes {first}-{last}/{len}").expect(rt, "memory");
        replied.line(rt, alloc, "Content-Range", range.as_bytes());
        replied
    }

    fn refusing(rt: &impl Abort, alloc: Global, refusal: Refusal, place: PathKind) -> Replied {
        let mut replied = Replied::new(alloc, refusal.status());
        if refusal == Refusal::Version {
            replied.line(rt, alloc, "Tus-Version", b"1.0.0");
        }
        if refusal == Refusal::Method {
            match place {
                PathKind::Create => replied.line(rt, alloc, "Allow", b"POST, OPTIONS"),
                PathKind::Upload => {
                    replied.line(rt, alloc, "Allow", b"HEAD, GET, PATCH, DELETE, OPTIONS");
                }
                PathKind::Other => {}
            }
        }
        replied.tell_word(rt, refusal.word());
        replied
    }

    fn tell_word(&mut self, rt: &impl Abort, word: &str) {
        self.media = "text/plain";
        let body = &mut self.body;
        body.extend_from_slice(word.as_bytes()).expect(rt, "memory");
        body.push(b'\n').expect(rt, "memory");
    }
}

// The phrase of a status.
fn reason(status: u16) -> &'static str {
    match status {
        200 => "OK",
        201 => "Created",
        204 => "No Content",
        206 => "Partial Content",
        400 => "Bad Request",
        403 => "Forbidden",
        404 => "Not Found",
        405 => "Method Not Allowed",
        409 => "Conflict",
        410 => "Gone",
        411 => "Length Required",
        412 => "Precondition Failed",
        413 => "Content Too Large",
        415 => "Unsupported Media Type",
        416 => "Range Not Satisfiable",
        431 => "Request Header Fields Too Large",
        460 => "Checksum Mismatch",
        503 => "Service Unavailable",
        507 => "Insufficient Storage",
        _ => "",
    }
}

/// What was written so far.
#[derive(Drop)]
pub struct Page {
    alloc: Global,
    pub text: Vec<u8>,
}

impl Page {
    pub fn new(alloc: Global) -> Page {
        Page {
            alloc,
            text: Vec::new(alloc),
        }
    }

    pub fn put(&mut self, rt: &impl Abort, bytes: &[u8]) {
        self.text.extend_from_slice(bytes).expect(rt, "memory");
    }

    fn put_line(&mut self, rt: &impl Abort, name: &str, value: &[u8]) {
        self.put(rt, name.as_bytes());
        self.put(rt, b": ");
        self.put(rt, value);
        self.put(rt, b"\r\n");
    }

    // The first line of a reply.
    fn put_status(&mut self, rt: &impl Abort, status: u16) {
        let alloc = self.alloc;
        let first = format!(in alloc; "HTTP/1.1 {status} {}\r\n", reason(status)).expect(
            rt, "memory",
        );
        self.put(rt, first.as_bytes());
    }

    // The fields of a reply's body.
    fn put_body_fields(&mut self, rt: &impl Abort, replied: &Replied) {
        if !replied.media.is_empty() {
            self.put_line(rt, "Content-Type", replied.media.as_bytes());
        }
        let alloc = self.alloc;
        let len = format!(in alloc; "{}", replied.body.len()).expect(rt, "memory");
        self.put_line(rt, "Content-Length", len.as_bytes());
    }

    pub fn put_reply(&mut self, rt: &impl Abort, replied: &Replied, now: Moment, framing: Framing) {
        self.put_status(rt, replied.status);
        self.put_line(rt, "Date", &write_expires(now.secs()));
        self.put_line(rt, "Tus-Resumable", b"1.0.0");
        for line in &replied.lines {
            self.put_line(rt, line.0, &line.1);
        }
        let is_bare = framing.bare || replied.status == 204;
        if !is_bare {
            self.put_body_fields(rt, replied);
        }
        if framing.close {
            self.put_line(rt, "Connection", b"close");
        }
        self.put(rt, b"\r\n");
        if !is_bare {
            self.put(rt, &replied.body);
        }
    }

    pub fn put_refusal(
        &mut self,
        rt: &impl Abort,
        refusal: WireRefusal,
        now: Moment,
        framing: Framing,
    ) {
        let mut replied = Replied::new(self.alloc, refusal.status());
        replied.tell_word(rt, refusal.word());
        self.put_reply(rt, &replied, now, framing);
    }
}

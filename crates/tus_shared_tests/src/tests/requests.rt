//! What desks are asked, and what they tell.

use std::process::Abort;
use tus_shared::Turn;
use tus_steps::{Field, Method, RangeAsked, Reply, Request, TusFields};
use tus_text::read_path;
use upload_book::{HeadRow, Moment, Refusal};
use worked_example::FIELDS;

pub fn moment(rt: &impl Abort, secs: u64) -> Moment {
    Moment::new(secs).expect(rt, "a moment")
}

/// What a client asks for.
#[derive(Clone, Copy)]
pub enum Asked {
    /// A creation of an upload of its own for acme, of this length.
    Post(&'static [u8]),
    /// A creation of an upload of its own for acme, of this length, with these first bytes.
    Upload(&'static [u8], &'static [u8]),
    /// A creation of a partial upload for acme, of this length.
    Partial(&'static [u8]),
    /// A concatenation for acme, by this `Upload-Concat`.
    Join(&'static [u8]),
    /// A PATCH of the upload at a path, at an offset, with these bytes.
    Patch(&'static [u8], &'static [u8], &'static [u8]),
    /// The same with this `Upload-Checksum`, which stands before the bytes here.
    Checked(&'static [u8], &'static [u8], &'static [u8], &'static [u8]),
    /// A HEAD of the upload at a path.
    Head(&'static [u8]),
    /// A GET of the upload at a path.
    Get(&'static [u8]),
    /// A DELETE of the upload at a path.
    Delete(&'static [u8]),
}

impl Asked {
    /// The request that asks this.
    pub fn request(self) -> Request<'static> {
        match self {
            Asked::Post(length) => creation(Field::One(length), Field::Absent),
            Asked::Upload(length, body) => upload(length, body),
            Asked::Partial(length) => creation(Field::One(length), Field::One(b"partial")),
            Asked::Join(concat) => creation(Field::Absent, Field::One(concat)),
            Asked::Patch(target, offset, body) => patch(target, offset, Field::Absent, body),
            Asked::Checked(target, offset, checksum, body) => {
                patch(target, offset, Field::One(checksum), body)
            }
            Asked::Head(target) => bare(Method::Head, target),
            Asked::Get(target) => bare(Method::Get, target),
            Asked::Delete(target) => bare(Method::Delete, target),
        }
    }
}

fn creation(length: Field<'static>, concat: Field<'static>) -> Request<'static> {
    Request {
        method: Method::Post,
        path: read_path(b"/files/acme"),
        fields: TusFields {
            length,
            concat,
            ..FIELDS
        },
        body: b"",
        range: RangeAsked::Unserved,
        given: 0,
        more: 0,
    }
}

fn upload(length: &'static [u8], body: &'static [u8]) -> Request<'static> {
    Request {
        method: Method::Post,
        path: read_path(b"/files/acme"),
        fields: TusFields {
            length: Field::One(length),
            media: Field::One(b"application/offset+octet-stream"),
            ..FIELDS
        },
        body,
        range: RangeAsked::Unserved,
        given: 0,
        more: 0,
    }
}

fn patch(
    target: &[u8],
    offset: &'static [u8],
    checksum: Field<'static>,
    body: &'static [u8],
) -> Request<'static> {
    Request {
        method: Method::Patch,
        path: read_path(target),
        fields: TusFields {
            offset: Field::One(offset),
            checksum,
            media: Field::One(b"application/offset+octet-stream"),
            ..FIELDS
        },
        body,
        range: RangeAsked::Unserved,
        given: 0,
        more: 0,
    }
}

fn bare(method: Method, target: &[u8]) -> Request<'static> {
    Request {
        method,
        path: read_path(target),
        fields: FIELDS,
        body: b"",
        range: RangeAsked::Unserved,
        given: 0,
        more: 0,
    }
}

/// A turn that asks this at second 1000.
pub fn turn(rt: &impl Abort, asked: Asked) -> Turn<'static> {
    Turn {
        request: asked.request(),
        now: moment(rt, 1000),
    }
}

/// What a desk tells.
#[derive(Clone, Copy, PartialEq, Eq)]
pub enum Answer<'a> {
    /// An id, the offset if it is told, and when the upload expires.
    Created(u64, Option<u64>, Option<u64>),
    /// An offset, and when the upload expires.
    Patched(u64, Option<u64>),
    /// An offset, a length, `Upload-Concat`, and when the upload expires.
    Row(u64, Option<u64>, &'a [u8], Option<u64>),
    Bytes(&'a [u8]),
    /// A range has none of so many bytes.
    NoneOf(u64),
    Deleted,
    /// How many uploads ended, how many blocks became free, and how many are no longer paid.
    Swept(u64, u64, u64),
    /// Why it was refused, and when the upload expires.
    Refused(Refusal, Option<u64>),
    /// What OPTIONS tells, which no test asks for.
    Options,
}

/// The second of an expiry.
pub fn secs(expires: Option<Moment>) -> Option<u64> {
    expires.map(|end| end.secs())
}

impl<'a> Answer<'a> {
    /// Whether another tells the same, however long either lives.
    pub fn is(self, other: Answer) -> bool {
        self == other
    }
}

fn row(row: &HeadRow) -> Answer<'_> {
    Answer::Row(
        row.offset,
        row.declared,
        row.concat.as_slice(),
        secs(row.expires),
    )
}

/// What a reply tells.
pub fn answer_by(reply: &Reply) -> Answer<'_> {
    match reply {
        Reply::Options { .. } => Answer::Options,
        Reply::Created {
            id,
            offset,
            expires,
            ..
        } => Answer::Created(*id, *offset, secs(*expires)),
        Reply::Head(found) => row(found),
        Reply::Content { bytes, .. } => Answer::Bytes(bytes.as_slice()),
        Reply::Unsatisfiable { len } => Answer::NoneOf(*len),
        Reply::Patched { offset, expires } => Answer::Patched(*offset, secs(*expires)),
        Reply::Deleted => Answer::Deleted,
        Reply::Refused {
            refusal,
            expires,
            ..
        } => Answer::Refused(*refusal, secs(*expires)),
    }
}

/// What a desk tells of a HEAD of its own.
pub fn answer_of(head: &Result<HeadRow, Refusal>) -> Answer<'_> {
    match head {
        Ok(found) => row(found),
        Err(refusal) => Answer::Refused(*refusal, None),
    }
}

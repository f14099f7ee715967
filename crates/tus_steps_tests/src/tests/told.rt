//! What a reply tells, in a form that rows can have.
use tus_steps::{Extent, Reply};
use upload_book::{Moment, Refusal};

/// What a reply tells, as numbers and bytes.
#[derive(Clone, Copy, PartialEq, Eq)]
pub(crate) enum Told<'a> {
    /// The greatest size.
    Options(u64),
    /// An id, the offset if it is told, and when the upload expires.
    Created(u64, Option<u64>, Option<u64>),
    /// An offset, a length, the metadata and the concat text.
    Row(u64, Option<u64>, &'a [u8], &'a [u8]),
    Bytes(&'a [u8]),
    /// Bytes, the place of the first and of the last, and how many there are.
    Range(&'a [u8], u64, u64, u64),
    /// A range has none of so many bytes.
    NoneOf(u64),
    /// An offset, and when the upload expires.
    Patched(u64, Option<u64>),
    Deleted,
    /// Why it was refused, and when the upload expires.
    Refused(Refusal, Option<u64>),
    /// The same for a HEAD, whose reply has no content.
    Bare(Refusal, Option<u64>),
}

pub(crate) fn told_by(reply: &Reply) -> Told<'_> {
    match reply {
        Reply::Options { max_size } => Told::Options(*max_size),
        Reply::Created {
            id,
            offset,
            expires,
            ..
        } => Told::Created(*id, *offset, secs(expires)),
        Reply::Head(row) => {
            let (metadata, concat) = (row.metadata.as_slice(), row.concat.as_slice());
            Told::Row(row.offset, row.declared, metadata, concat)
        }
        Reply::Content { bytes, extent, .. } => told_bytes(bytes.as_slice(), *extent),
        Reply::Unsatisfiable { len } => Told::NoneOf(*len),
        Reply::Patched { offset, expires } => Told::Patched(*offset, secs(expires)),
        Reply::Deleted => Told::Deleted,
        Reply::Refused {
            refusal,
            head,
            expires,
            ..
        } => {
            if *head {
                Told::Bare(*refusal, secs(expires))
            } else {
                Told::Refused(*refusal, secs(expires))
            }
        }
    }
}

// What a reply to a GET tells that gives these bytes.
fn told_bytes(bytes: &[u8], extent: Extent) -> Told<'_> {
    match extent {
        Extent::Plain | Extent::Whole => Told::Bytes(bytes),
        Extent::Range { first, last, len } => Told::Range(bytes, first, last, len),
    }
}

// The second at which an upload expires, if it does.
fn secs(end: &Option<Moment>) -> Option<u64> {
    end.map(|end| end.secs())
}

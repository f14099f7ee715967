use crate::range::Extent;
use crate::request::Request;
use tus_text::{METADATA_MAX, Tenant, Text};
use upload_book::{Content, HeadRow, Moment, Refusal};

/// What the path of a request names, as far as a reply tells it.
#[derive(Clone, Copy, Debug, PartialEq, Eq)]
pub enum PathKind {
    /// Where a tenant's uploads are created.
    Create,
    /// An upload.
    Upload,
    /// Neither.
    Other,
}

/// The answer to a request.
#[derive(Drop)]
pub enum Reply {
    /// 204: what the server can do. An upload has at most `max_size` bytes.
    Options {
        max_size: u64,
    },

    /// 201: the upload was created under this name, and expires then, if it does. `offset` is how many bytes
    /// it has, where its creation may carry some.
    Created {
        tenant: Tenant,
        id: u64,
        offset: Option<u64>,
        expires: Option<Moment>,
    },

    /// 200: what stands of the upload.
    Head(HeadRow),

    /// 200 or 206: these bytes of the upload, which has this metadata.
    Content {
        bytes: Content,
        extent: Extent,
        metadata: Text<METADATA_MAX>,
    },

    /// 416: of the upload's `len` bytes the range that was asked for has none.
    Unsatisfiable {
        len: u64,
    },

    /// 204: the bytes were taken. The upload has `offset` bytes now, and expires then, if it does.
    Patched {
        offset: u64,
        expires: Option<Moment>,
    },

    /// 204: the upload has ended.
    Deleted,

    /// The request was refused, and changed nothing. `head` is true for a HEAD; `expires` is when the
    /// upload expires, for a PATCH of a visible upload that does.
    Refused {
        refusal: Refusal,
        head: bool,
        place: PathKind,
        expires: Option<Moment>,
    },
}

impl Reply {
    ghost use Rattle.std.specs.Prelude.{◌≡◌};
    ghost use Rattle.tus_steps.specs.Reply.{refusing};

    /// The reply that refuses the request, and tells when its upload expires.
    pub fn refusing(request: &Request, refusal: Refusal, expires: Option<Moment>) -> Reply
        ensures { result ≡ refusing request.now refusal expires }
    {
        Reply::Refused {
            refusal,
            head: request.method.is_head(),
            place: request.place(),
            expires,
        }
    }
}

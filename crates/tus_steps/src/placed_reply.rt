ghost use Rattle.std.specs.Prelude.{◌≡◌, ◌≤◌, Err, Ok, length};
ghost use Rattle.tus_steps.specs.Changing.{change_reply};
ghost use Rattle.tus_steps.specs.declared.reply.Reply.TheVariants.{Deleted};
ghost use Rattle.tus_steps.specs.InPieces.{as_creation, created_in, is_patched};
ghost use Rattle.tus_steps.specs.PlacedReply.{reply_in};
ghost use Rattle.tus_steps.specs.Reply.{creation_reply, given_reply, head_reply, refusing};

use crate::range::Extent;
use crate::reply::{PathKind, Reply};
use crate::request::Request;
use tus_text::{Path, Tenant, Text};
use upload_book::{Content, Created, HeadRow, Moment, Outcome, Refusal, Refused, RowRef};

/// What a [`Reply`] is, but for the row of a HEAD and the metadata of a GET: so it is small.
#[derive(Drop)]
pub enum ReplyKind {
    /// 204: what the server can do.
    Options {
        max_size: u64,
    },

    /// 201: the upload was created.
    Created {
        tenant: Tenant,
        id: u64,
        offset: Option<u64>,
        expires: Option<Moment>,
    },

    /// 200: what stands of the upload.
    Head,

    /// 200 or 206: these bytes of the upload.
    Content {
        bytes: Content,
        extent: Extent,
    },

    /// 416: the range that was asked for has none of the upload's bytes.
    Unsatisfiable {
        len: u64,
    },

    /// 204: the bytes were taken.
    Patched {
        offset: u64,
        expires: Option<Moment>,
    },

    /// 204: the upload has ended.
    Deleted,

    /// The request was refused, and changed nothing.
    Refused {
        refusal: Refusal,
        head: bool,
        place: PathKind,
        expires: Option<Moment>,
    },
}

/// A place for replies, one after another: it stands for the [`Reply`] of this `kind`, with `row` where that is a HEAD's, and
/// with its metadata where it is a GET's. No reply moves the row; what else lies there means nothing.
#[derive(Drop)]
pub struct PlacedReply {
    pub kind: ReplyKind,
    pub row: HeadRow,
}

impl PlacedReply {
    /// A place for replies. The first answers no request. It takes no memory.
    pub fn new() -> PlacedReply
        ensures { reply_in result ≡ Deleted }
    {
        PlacedReply {
            kind: ReplyKind::Deleted,
            row: HeadRow::empty(),
        }
    }

    /// The place of a reply.
    pub fn of(reply: Reply) -> PlacedReply
        ensures { reply_in result ≡ reply }
    {
        let mut row = HeadRow::empty();
        let kind = match reply {
            Reply::Options { max_size } => ReplyKind::Options { max_size },
            Reply::Created {
                tenant,
                id,
                offset,
                expires,
            } => ReplyKind::Created {
                tenant,
                id,
                offset,
                expires,
            },
            Reply::Head(told) => {
                row = told;
                ReplyKind::Head
            }
            Reply::Content {
                bytes,
                extent,
                metadata,
            } => {
                row.metadata = metadata;
                ReplyKind::Content { bytes, extent }
            }
            Reply::Unsatisfiable { len } => ReplyKind::Unsatisfiable { len },
            Reply::Patched { offset, expires } => ReplyKind::Patched { offset, expires },
            Reply::Deleted => ReplyKind::Deleted,
            Reply::Refused {
                refusal,
                head,
                place,
                expires,
            } => ReplyKind::Refused {
                refusal,
                head,
                place,
                expires,
            },
        };
        PlacedReply { kind, row }
    }

    /// The reply, with its row.
    pub fn into_reply(self) -> Reply
        ensures { result ≡ reply_in self }
    {
        let PlacedReply { kind, row } = self;
        match kind {
            ReplyKind::Options { max_size } => Reply::Options { max_size },
            ReplyKind::Created {
                tenant,
                id,
                offset,
                expires,
            } => Reply::Created {
                tenant,
                id,
                offset,
                expires,
            },
            ReplyKind::Head => Reply::Head(row),
            ReplyKind::Content { bytes, extent } => Reply::Content {
                bytes,
                extent,
                metadata: row.metadata,
            },
            ReplyKind::Unsatisfiable { len } => Reply::Unsatisfiable { len },
            ReplyKind::Patched { offset, expires } => Reply::Patched { offset, expires },
            ReplyKind::Deleted => Reply::Deleted,
            ReplyKind::Refused {
                refusal,
                head,
                place,
                expires,
            } => Reply::Refused {
                refusal,
                head,
                place,
                expires,
            },
        }
    }

    /// Lets the reply go, and so the bytes of a GET. What is in its place then answers no request.
    pub fn let_go(&mut self)
        ensures { reply_in self.new ≡ Deleted }
    {
        self.kind = ReplyKind::Deleted;
    }

    /// Refuses the request, and tells when its upload expires.
    pub fn refuse(&mut self, request: &Request, refusal: Refusal, expires: Option<Moment>)
        ensures { reply_in self.new ≡ refusing request.now refusal expires }
    {
        self.kind = ReplyKind::Refused {
            refusal,
            head: request.method.is_head(),
            place: request.place(),
            expires,
        };
    }

    /// Answers a HEAD of an upload by what is told of it, or by why that is refused. Of a row it copies the bytes that are
    /// used.
    pub fn put_head(&mut self, outcome: Result<RowRef, Refusal>)
        ensures { reply_in self.new ≡ head_reply outcome.entry }
    {
        match outcome {
            Ok(row) => {
                self.row.set(&row);
                self.kind = ReplyKind::Head;
            }
            Err(refusal) => self.refuse_head(refusal),
        }
    }

    /// Refuses a HEAD of an upload.
    pub fn refuse_head(&mut self, refusal: Refusal)
        ensures { reply_in self.new ≡ head_reply (Err refusal) }
    {
        self.kind = ReplyKind::Refused {
            refusal,
            head: true,
            place: PathKind::Upload,
            expires: None,
        };
    }

    /// Answers a GET by these bytes of the upload, which has this metadata, or by why it is refused.
    pub fn put_content(
        &mut self,
        request: &Request,
        extent: Extent,
        metadata: &[u8],
        outcome: Result<Content, Refusal>,
    )
        requires { length metadata.now ≤ 1024 }
        ensures { reply_in self.new ≡ given_reply request.now extent metadata.now outcome }
    {
        match outcome {
            Ok(bytes) => {
                self.row.metadata.set(metadata);
                self.kind = ReplyKind::Content { bytes, extent };
            }
            Err(refusal) => self.refuse(request, refusal, None),
        }
    }

    /// Answers a request that asked for a change, by what the change gave or by why it was refused; `offset` is that of
    /// [`crate::ChangeOf`].
    pub fn put_change(
        &mut self,
        request: &Request,
        offset: Option<u64>,
        outcome: Result<Outcome, Refused>,
    )
        ensures { reply_in self.new ≡ change_reply request.now offset outcome }
    {
        match outcome {
            Ok(Outcome::Created(created)) => self.put_created(request, offset, &created),
            Ok(Outcome::Appended(appended)) => {
                self.kind = ReplyKind::Patched {
                    offset: appended.offset,
                    expires: appended.expires,
                };
            }
            Ok(Outcome::Removed(_)) | Ok(Outcome::Swept(_)) | Ok(Outcome::Restored) => {
                self.kind = ReplyKind::Deleted
            }
            Err(refused) => self.refuse(request, refused.refusal, refused.expires),
        }
    }

    /// The id of the upload that was created, where it tells of one.
    pub fn created(&self) -> Option<u64>
        ensures { result ≡ created_in (reply_in self.now) }
    {
        match &self.kind {
            ReplyKind::Created { id, .. } => Some(*id),
            _ => None,
        }
    }

    /// Whether it tells that the bytes of a PATCH were taken.
    pub fn is_patched(&self) -> bool
        ensures { result ≡ is_patched (reply_in self.now) }
    {
        matches!(&self.kind, ReplyKind::Patched { .. })
    }

    /// Makes the reply to a PATCH of the upload at this path that to its creation.
    pub fn tell_creation(&mut self, path: &Path)
        ensures { reply_in self.new ≡ as_creation path.now (reply_in self.old) }
    {
        let Path::Upload { tenant, id } = path else {
            return;
        };
        if let ReplyKind::Patched { offset, expires } = &self.kind {
            self.kind = ReplyKind::Created {
                tenant: tenant.copied(),
                id: *id,
                offset: Some(*offset),
                expires: *expires,
            };
        }
    }

    // Answers a creation that was made, and tells this offset.
    fn put_created(&mut self, request: &Request, offset: Option<u64>, created: &Created)
        ensures { reply_in self.new ≡ creation_reply request.now offset (Ok created.now) }
    {
        self.kind = ReplyKind::Created {
            tenant: request.tenant_name().map_or(Text::empty(), Text::copied),
            id: created.name.id,
            offset,
            expires: created.expires,
        };
    }
}

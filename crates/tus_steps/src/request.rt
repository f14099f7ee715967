ghost use Rattle.std.specs.Prelude.{◌≡◌, ℕ, ◌<◌, length, option_copied, IfOk, Some};
ghost use Rattle.tus_steps.specs.InPieces.{upload_path};

use crate::asked::Asked;
use crate::creation::PartIds;
use crate::field::Field;
use crate::method::Method;
use crate::range::RangeAsked;
use crate::reply::PathKind;
use crate::tus_fields::TusFields;
use std::marker::Model;
use tus_text::{Path, Tenant};
use upload_book::{Change, Chunk, Name, Payload, Refusal, Settings};

/// The only version of the protocol that is spoken.
const VERSION: &[u8] = b"1.0.0";

/// A request as the steps see it: its method, what its target names, the fields that count, and its
/// body. Every other field is ignored. A contract sees the fields and the body as lists of bytes.
#[derive(Drop)]
pub struct Request<'a> {
    /// The method in force.
    pub method: Method,
    /// What the target names.
    pub path: Path,
    pub fields: TusFields<Field<'a>>,
    /// Which bytes a GET asks for. No other method looks at it.
    pub range: RangeAsked,
    pub body: &'a [u8],
    /// How many bytes of the body were given before these, where it comes in pieces; else 0.
    pub given: u64,
    /// How many are to come behind these.
    pub more: u64,
}

impl<'a> Model for Request<'a> {
    ghost use Rattle.tus_steps.specs.Field.{text_of};
    ghost use Rattle.tus_steps.specs.Request as spec;
    ghost use Rattle.tus_steps.specs.TusFields.{map_fields};

    ghost Value = { spec.Request };

    ghost view = { λ r. record {
      method = r.method;
      path = r.path;
      fields = map_fields text_of r.fields;
      range = r.range;
      body = r.body.now;
      given = r.given;
      more = r.more;
    } };
}

impl<'a> Request<'a> {
    ghost use Rattle.tus_steps.specs.Asked.{CanBeAsked, asked_or};
    ghost use Rattle.tus_steps.specs.InPieces.{behind};
    ghost use Rattle.tus_steps.specs.Operation.{has_version, chunk_in, operation_at, operation_of};
    ghost use Rattle.tus_steps.specs.Reply.{place_of};
    ghost use Rattle.tus_steps.specs.Route.{tenant_name};

    /// What the request asks for, which borrows from `ids` where it is a concatenation. It is refused, in this order, as
    /// Version, Path, Tenant, Method and Field. OPTIONS is answered before this is asked.
    pub(crate) fn asked<'b>(
        &self,
        settings: &Settings,
        ids: &'b mut PartIds,
    ) -> Result<Asked<'b>, Refusal>
    where
        'a: 'b,
        ensures value { result ≡ asked_or (operation_of settings.now self.now) }
        ensures ready { IfOk result (CanBeAsked (length settings.now.tenants)) }
    {
        if !self.has_version() {
            return Err(Refusal::Version);
        }
        let name = self.tenant_name().ok_or(Refusal::Path)?;
        let tenant = settings.tenant(name.as_slice()).ok_or(Refusal::Tenant)?;
        self.asked_at(tenant, ids)
    }

    // Whether the request names the version, or is a GET, which needs none.
    fn has_version(&self) -> bool
        ensures { result ≡ has_version self.now }
    {
        self.method.is_get() || self.fields.version.is_just(VERSION)
    }

    /// What is asked for behind the first piece of a creation that created the upload of this id: a PATCH of it, from its
    /// start on.
    pub fn behind(self, id: u64) -> Request<'a>
        ensures { result ≡ behind (Some id) self.entry }
    {
        Request {
            method: Method::Patch,
            path: upload_path(self.path, id),
            fields: TusFields {
                offset: Field::One(b"0"),
                ..self.fields
            },
            range: self.range,
            body: self.body,
            given: self.given,
            more: self.more,
        }
    }

    /// The name of the tenant that the path names.
    pub fn tenant_name(&self) -> Option<&Tenant>
        ensures { option_copied result ≡ tenant_name self.now.path }
    {
        match &self.path {
            Path::Create { tenant } => Some(tenant),
            Path::Upload { tenant, .. } => Some(tenant),
            Path::Other => None,
        }
    }

    /// What the path names, as far as a reply tells it.
    pub fn place(&self) -> PathKind
        ensures { result ≡ place_of self.now.path }
    {
        match self.path {
            Path::Create { .. } => PathKind::Create,
            Path::Upload { .. } => PathKind::Upload,
            Path::Other => PathKind::Other,
        }
    }

    // What the method asks for at the path, of the tenant at this place.
    fn asked_at<'b>(&self, tenant: u8, ids: &'b mut PartIds) -> Result<Asked<'b>, Refusal>
    where
        'a: 'b,
        ensures value { result ≡ asked_or (operation_at self.now tenant) }
        ensures ready { (tenants : ℕ) → tenant < tenants → IfOk result (CanBeAsked tenants) }
    {
        let id = match (&self.path, self.method) {
            (Path::Create { .. }, Method::Post) => {
                return self.creation(tenant, ids).ok_or(Refusal::Field);
            }
            (Path::Upload { id, .. }, _) => *id,
            _ => return Err(Refusal::Method),
        };
        let name = Name { tenant, id };
        match self.method {
            Method::Head => Ok(Asked::Look(name)),
            Method::Get => Ok(Asked::Content(name)),
            Method::Patch => Ok(Asked::change(Change::Append {
                name,
                chunk: self.chunk().ok_or(Refusal::Field)?,
            })),
            Method::Delete => Ok(Asked::change(Change::Terminate(name))),
            _ => Err(Refusal::Method),
        }
    }

    // The chunk of a PATCH, where its fields tell one.
    fn chunk<'b>(&self) -> Option<Chunk<'b>>
    where
        'a: 'b,
        ensures { result ≡ chunk_in self.now }
    {
        let offset = self.fields.offset.number()?;
        let length = self.fields.length.optional_number()?;
        let check = self.fields.checksum.optional_checksum()?;
        Some(Chunk {
            offset: offset.saturating_add(self.given),
            length,
            typed: self.fields.media.has_patch_type(),
            check,
            bytes: Payload::new(self.body),
            more: self.more,
        })
    }
}

// The path of an upload of the tenant that a path names.
fn upload_path(path: Path, id: u64) -> Path
    ensures { result ≡ upload_path path id }
{
    match path {
        Path::Create { tenant } | Path::Upload { tenant, .. } => Path::Upload { tenant, id },
        Path::Other => Path::Other,
    }
}

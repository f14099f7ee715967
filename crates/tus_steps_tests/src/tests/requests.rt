//! The requests of the worked rows.
use tus_steps::{Field, Method, RangeAsked, Request, TusFields};
use tus_text::read_path;

/// A request as a row has it, with its target as a text.
#[derive(Clone, Copy)]
pub(crate) struct Sent<'a> {
    pub(crate) method: Method,
    pub(crate) target: &'a [u8],
    pub(crate) fields: TusFields<Field<'a>>,
    pub(crate) body: &'a [u8],
}

impl<'a> Sent<'a> {
    pub(crate) fn request(&self) -> Request<'a> {
        Request {
            method: self.method,
            path: read_path(self.target),
            fields: self.fields,
            body: self.body,
            range: RangeAsked::Unserved,
            given: 0,
            more: 0,
        }
    }
}

/// The content type of a PATCH.
pub(crate) const TYPED: Field<'static> = Field::One(b"application/offset+octet-stream");

/// A request `Method target [field: value, ..] body`, which names the version where no field says another.
macro_rules! sent {
    ($method:ident $target:literal [$($name:ident: $field:expr),*] $body:literal) => {
        Sent {
            method: Method::$method,
            target: $target,
            fields: TusFields { $($name: $field,)* ..worked_example::FIELDS },
            body: $body,
        }
    };
}

pub(crate) use sent;

/// A creation for acme, of ten bytes.
pub(crate) const CREATION: Sent = sent!(Post b"/files/acme" [length: Field::One(b"10")] b"");

/// A HEAD of acme's first upload.
pub(crate) const HEAD: Sent = sent!(Head b"/files/acme/1" [] b"");

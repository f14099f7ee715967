ghost use Rattle.std.specs.Prelude.{◌≡◌, ◌<◌, ◌≤◌, length, IfSome};
ghost use Rattle.tus_text.specs.Concat.{concat_of, final_of, part_of, NamesSome};

use crate::cut::{split_at_first, trim_start};
use crate::path::{Path, read_path};
use crate::text::Tenant;
use arrayvec::ArrayVec;
use std::marker::Model;

/// The most bytes of a value of Upload-Concat.
pub const CONCAT_MAX: usize = 2048;

/// The most parts of a final upload.
pub const PARTS_MAX: usize = 32;

/// The path of a part, which is an upload.
#[derive(Default, Drop)]
pub struct PartPath {
    /// The tenant that the upload is of.
    pub tenant: Tenant,
    /// The upload's id, 1 to 2^64 - 1.
    pub id: u64,
}

/// The parts of a final upload in their order, at most [`PARTS_MAX`], kept inline. A contract sees
/// the list of them.
#[derive(Drop)]
pub struct Parts {
    pub(crate) parts: ArrayVec<PartPath, PARTS_MAX>,
}

impl Model for Parts {
    ghost use Rattle.std.specs.Prelude.{List};
    ghost use Rattle.tus_text.specs.declared.concat.PartPath.{PartPath as Part};

    ghost Value = { List Part };

    ghost view = { λ p. p.parts.items };
}

impl Parts {
    /// The parts, in their order.
    pub fn as_slice(&self) -> &[PartPath]
        ensures value { result.now ≡ self.now }
        ensures fits { length result.now ≤ 32 }
    {
        self.parts.as_slice()
    }
}

/// What the value of Upload-Concat says of a new upload.
#[derive(Drop)]
pub enum Concat {
    /// `partial`: the upload is a part of a later one.
    Partial,

    /// `final;` and targets: the upload is these parts, one after another.
    Final(Parts),
}

/// What a value of Upload-Concat says (tus 1.0.0, concatenation): `partial`, or `final;`, any number
/// of spaces, and 1 to [`PARTS_MAX`] targets with one or more spaces between them, each the target of
/// an upload as [`read_path`] reads it. `None` for any other text, and for one of more than
/// [`CONCAT_MAX`] bytes.
pub fn read_concat(text: &[u8]) -> Option<Concat>
    ensures value { result ≡ concat_of text.now }
    ensures bound { IfSome result (λ _. length text.now ≤ 2048) }
    ensures some { IfSome result NamesSome }
{
    if text.len() > CONCAT_MAX {
        return None;
    }
    if text == b"partial".as_slice() {
        return Some(Concat::Partial);
    }
    let parts = read_parts(text.strip_prefix(b"final;")?)?;
    Some(Concat::Final(parts))
}

// The parts of the list that follows `final;`.
fn read_parts(list: &[u8]) -> Option<Parts>
    ensures value { result ≡ final_of list.now }
    ensures some { IfSome result (λ parts. 0 < length parts) }
{
    let mut parts = ArrayVec::new();
    let mut rest = list;
    loop {
        let words = trim_start(rest);
        let (target, after) = split_at_first(words, b' ');
        let part = read_part(target)?;
        if parts.is_full() {
            return None;
        }
        parts.push(part);
        if target.len() == words.len() {
            return Some(Parts { parts });
        }
        rest = after;
    }
}

// The part that a target names.
fn read_part(target: &[u8]) -> Option<PartPath>
    ensures { result ≡ part_of target.now }
{
    match read_path(target) {
        Path::Upload { tenant, id } => Some(PartPath { tenant, id }),
        Path::Create { .. } | Path::Other => None,
    }
}

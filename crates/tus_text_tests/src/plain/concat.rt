//! A plain program for `concat_of`.
ghost use Rattle.std.specs.Prelude.{◌≡◌, ◌≤◌, ◌==◌, ◌+◌, ◌&&◌, length, is_some, slice_get};
ghost use Rattle.std.specs.List.{slice_split};
ghost use Rattle.tus_text.specs.Cut.{is_space};
ghost use Rattle.tus_text.specs.Concat.{concat_of, final_of, part_of};

use crate::plain::cut::part_at;
use crate::plain::path::plain_path;
use arrayvec::ArrayVec;
use std::marker::Model;
use tus_text::{CONCAT_MAX, PARTS_MAX, PartPath, Path};

/// The parts of a final upload in their order. A contract sees the list of them, as it does of `Parts`,
/// which only the reader can make.
#[derive(Drop)]
pub struct PlainParts {
    pub parts: ArrayVec<PartPath, PARTS_MAX>,
}

impl Model for PlainParts {
    ghost use Rattle.std.specs.Prelude.{List};
    ghost use Rattle.tus_text.specs.declared.concat.PartPath.{PartPath as Part};

    ghost Value = { List Part };

    ghost view = { λ p. p.parts.items };
}

/// What the value of Upload-Concat says of a new upload: its parts, or none where it is a part itself. A
/// contract sees it as the reader's `Concat`.
#[derive(Drop)]
pub struct PlainConcat {
    pub parts: Option<PlainParts>,
}

impl Model for PlainConcat {
    ghost use Rattle.std.specs.Option.{option_map_or};
    ghost use Rattle.tus_text.specs.declared.concat.Concat.{Concat};
    ghost use Rattle.tus_text.specs.declared.concat.Concat.TheVariants.{Partial, Final};

    ghost Value = { Concat };

    ghost view = { λ c. option_map_or Final c.parts Partial };
}

// The part that a target names.
fn plain_part(target: &[u8]) -> Option<PartPath>
    ensures { result ≡ part_of target.now }
{
    match plain_path(target) {
        Path::Upload { tenant, id } => Some(PartPath { tenant, id }),
        Path::Create { .. } | Path::Other => None,
    }
}

// Whether what stands between two spaces, with this number, is no target: it has no bytes, and more
// follows.
fn is_passed_over(list: &[u8], number: usize, word: &[u8]) -> bool
    requires { number ≤ length list.now }
    ensures { result ≡ (length word.now == 0 && is_some (slice_get (slice_split is_space list.now) (number + 1))) }
{
    word.is_empty() && part_at(list, b' ', number + 1).is_some()
}

// The parts that the targets between the spaces name.
fn plain_parts(list: &[u8]) -> Option<PlainParts>
    ensures { result ≡ final_of list.now }
{
    let mut parts = ArrayVec::new();
    for number in 0..list.len() + 1 {
        let Some(word) = part_at(list, b' ', number) else {
            return Some(PlainParts { parts });
        };
        if is_passed_over(list, number, word) {
            continue;
        }
        let part = plain_part(word)?;
        if parts.is_full() {
            return None;
        }
        parts.push(part);
    }
    Some(PlainParts { parts })
}

/// What the value of Upload-Concat says, by each part between two spaces.
pub fn plain_concat(text: &[u8]) -> Option<PlainConcat>
    ensures { result ≡ concat_of text.now }
{
    if text.len() > CONCAT_MAX {
        return None;
    }
    if text == b"partial".as_slice() {
        return Some(PlainConcat { parts: None });
    }
    let parts = plain_parts(text.strip_prefix(b"final;")?)?;
    Some(PlainConcat { parts: Some(parts) })
}

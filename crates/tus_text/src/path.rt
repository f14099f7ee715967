ghost use Rattle.std.specs.Prelude.{◌≡◌, option_copied};
ghost use Rattle.tus_text.specs.Path.{Names, path_of, path_in_files, after_origin, after_authority, after_scheme, id_of};

use crate::cut::split_at_first;
use crate::number::read_number;
use crate::tenant::is_tenant_name;
use crate::text::{Tenant, Text};

/// What the path of a request's target names.
#[derive(Drop)]
pub enum Path {
    /// `/files/TENANT` or `/files/TENANT/`, where uploads are created.
    Create { tenant: Tenant },

    /// `/files/TENANT/ID`, an upload. `id` is 1 to 2^64 - 1.
    Upload { tenant: Tenant, id: u64 },

    /// Anything else.
    Other,
}

/// The path that a request's target names. The target is an absolute path, or such a path behind
/// `http://` or `https://` (in any letter case) and a non-empty authority, which is ignored. The id
/// of an upload is written in decimal, and its first digit is not `0`.
pub fn read_path(target: &[u8]) -> Path
    ensures value { result ≡ path_of target.now }
    ensures grammar { Names target.now result }
{
    let path = after_origin(target).and_then(|path| path.strip_prefix(b"/files/"));
    match path {
        Some(text) => path_in_files(text),
        None => Path::Other,
    }
}

// What follows the target's origin, or all of the target where it has none.
fn after_origin(target: &[u8]) -> Option<&[u8]>
    ensures { option_copied result ≡ after_origin target.now }
{
    let absolute = after_scheme(target, b"http://").or_else(|| after_scheme(target, b"https://"));
    match absolute {
        Some(text) => after_authority(text),
        None => Some(target),
    }
}

// What follows `scheme` at the front of `target`, in any letter case.
fn after_scheme<'a>(target: &'a [u8], scheme: &[u8]) -> Option<&'a [u8]>
    ensures { option_copied result ≡ after_scheme scheme.now target.now }
{
    let (front, rest) = target.split_at_checked(scheme.len())?;
    if front.eq_ignore_ascii_case(scheme) {
        Some(rest)
    } else {
        None
    }
}

// What follows the authority at the front of `text`, if it is not empty.
fn after_authority(text: &[u8]) -> Option<&[u8]>
    ensures { option_copied result ≡ after_authority text.now }
{
    let end = text
        .iter()
        .position(|byte| matches!(*byte, b'/' | b'?' | b'#' | b' '));
    let len = end.unwrap_or(text.len());
    if len == 0 { None } else { Some(&text[len..]) }
}

// What the text after `/files/` names.
fn path_in_files(text: &[u8]) -> Path
    ensures { result ≡ path_in_files text.now }
{
    let (tenant, rest) = split_at_first(text, b'/');
    if !is_tenant_name(tenant) {
        return Path::Other;
    }
    let tenant = Text::of(tenant);
    if rest.is_empty() {
        return Path::Create { tenant };
    }
    match read_id(rest) {
        Some(id) => Path::Upload { tenant, id },
        None => Path::Other,
    }
}

// The number of an id's digits.
fn read_id(text: &[u8]) -> Option<u64>
    ensures { result ≡ id_of text.now }
{
    if text.starts_with(b"0") {
        return None;
    }
    read_number(text)
}

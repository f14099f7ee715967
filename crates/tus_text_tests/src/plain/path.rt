//! A plain program for `path_of`.
ghost use Rattle.std.specs.Prelude.{◌≡◌, ◌↔◌, ◌<◌, ◌++◌, ℕ, List, length, Option, IsTrue, IfNone, IfSome};
ghost use Rattle.std.specs.List.{AllPass};
ghost use Rattle.std.specs.Option.{option_map_or};
ghost use Rattle.std.specs.Str.{str_to_ascii_lowercase};
ghost use Rattle.tus_text.specs.Path.{Origin, HasOrigin, Tail, IsTail, print_origin, print_tail, is_authority_byte, named_path, after_files, path_in_files, path_of};
ghost use Rattle.tus_text.specs.declared.path.Path.TheVariants.{Other};
ghost use Rattle.tus_text.specs.Tenant.{is_tenant_name};

use crate::plain::number::plain_number;
use tus_text::{Path, Text, is_tenant_name};

// The path that a tenant and a tail name, where `tail` is one of the three forms.
fn plain_tail(tenant: &[u8], tail: &[u8]) -> Option<Path>
    requires { IsTrue (is_tenant_name tenant.now) }
    ensures some { IfSome result (λ path. (t : Tail) × IsTail t × (tail.now ≡ print_tail t)
        × (path ≡ named_path tenant.now t)) }
    ensures none { IfNone result ((t : Tail) → IsTail t → tail.now ≡ print_tail t → ⊥) }
{
    let tenant = Text::of(tenant);
    if tail.is_empty() {
        return Some(Path::Create { tenant });
    }
    if tail[0] != b'/' {
        return None;
    }
    let digits = &tail[1..];
    if digits.is_empty() {
        return Some(Path::Create { tenant });
    }
    if digits[0] == b'0' {
        return None;
    }
    let id = plain_number(digits)?;
    Some(Path::Upload { tenant, id })
}

/// The path that the text after `/files/` names, by each cut of it into a tenant and a tail.
pub fn plain_in_files(text: &[u8]) -> Path
    ensures { result ≡ path_in_files text.now }
{
    for end in 0..text.len() + 1 {
        let (tenant, tail) = text.split_at(end);
        if is_tenant_name(tenant) {
            if let Some(path) = plain_tail(tenant, tail) {
                return path;
            }
        }
    }
    Path::Other
}

// Whether `text` is an authority, not empty.
fn is_authority(text: &[u8]) -> bool
    ensures { IsTrue result ↔ ((0 < length text.now) × AllPass is_authority_byte text.now) }
{
    !text.is_empty()
        && text
            .iter()
            .all(|byte| !matches!(*byte, b'/' | b'?' | b'#' | b' '))
}

// Whether `text` is `scheme` in any letter case and an authority.
fn is_scheme_and_authority(text: &[u8], scheme: &[u8]) -> bool
    ensures { IsTrue result ↔ ((front : List ℕ) × (authority : List ℕ)
        × (str_to_ascii_lowercase front ≡ str_to_ascii_lowercase scheme.now)
        × (0 < length authority) × AllPass is_authority_byte authority
        × (text.now ≡ front ++ authority)) }
{
    let Some((front, authority)) = text.split_at_checked(scheme.len()) else {
        return false;
    };
    front.eq_ignore_ascii_case(scheme) && is_authority(authority)
}

// Whether `text` is an origin, or nothing.
fn is_origin(text: &[u8]) -> bool
    ensures { IsTrue result ↔ ((o : Option Origin) × HasOrigin o × (text.now ≡ print_origin o)) }
{
    if text.is_empty() {
        return true;
    }
    is_scheme_and_authority(text, b"http://") || is_scheme_and_authority(text, b"https://")
}

// The path that an absolute path names.
fn plain_absolute(path: &[u8]) -> Path
    ensures { result ≡ option_map_or path_in_files (after_files path.now) Other }
{
    match path.strip_prefix(b"/files/") {
        Some(text) => plain_in_files(text),
        None => Path::Other,
    }
}

/// The path that the target names, by each cut of it into an origin and an absolute path.
pub fn plain_path(target: &[u8]) -> Path
    ensures { result ≡ path_of target.now }
{
    for end in 0..target.len() + 1 {
        let (origin, path) = target.split_at(end);
        if is_origin(origin) {
            match plain_absolute(path) {
                Path::Other => {}
                named => return named,
            }
        }
    }
    Path::Other
}

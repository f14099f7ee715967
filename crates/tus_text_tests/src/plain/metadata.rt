//! A plain program for `is_metadata`.
ghost use Rattle.std.specs.Prelude.{◌≡◌, ◌≤◌, ◌+◌, ◌&&◌, not, nat_lt, map, length, drop, option_copied, slice_get};
ghost use Rattle.std.specs.List.{list_all, list_any};
ghost use Rattle.std.specs.Str.{bytes_eq};
ghost use Rattle.tus_text.specs.Cut.{is_space, trim_spaces};
ghost use Rattle.tus_text.specs.Metadata.{is_metadata, is_pair, is_value, pairs_of, key_of, are_distinct};

use crate::plain::cut::{part_at, part_end};
use crate::plain::value::is_base64;
use tus_text::METADATA_MAX;

// The text without the spaces at both ends, one space at a time.
fn trimmed(text: &[u8]) -> &[u8]
    ensures { result.now ≡ trim_spaces text.now }
{
    if text.is_empty() {
        return text;
    }
    if text[0] == b' ' {
        return trimmed(&text[1..]);
    }
    let last = text.len() - 1;
    if text[last] == b' ' {
        return trimmed(&text[..last]);
    }
    text
}

// The pair with this number.
fn pair_at(text: &[u8], number: usize) -> Option<&[u8]>
    ensures { option_copied result ≡ slice_get (pairs_of text.now) number }
{
    let part = part_at(text, b',', number)?;
    Some(trimmed(part))
}

// The key with this number.
fn key_at(text: &[u8], number: usize) -> Option<&[u8]>
    ensures { option_copied result ≡ slice_get (map key_of (pairs_of text.now)) number }
{
    let pair = pair_at(text, number)?;
    let end = part_end(pair, b' ');
    Some(&pair[..end])
}

// Whether `text` can be a key: one byte or more, and no space.
fn is_key(text: &[u8]) -> bool
    ensures { result ≡ (nat_lt 0 (length text.now) && list_all (λ b. not (is_space b)) text.now) }
{
    if text.is_empty() {
        return false;
    }
    text.iter().all(|byte| *byte != b' ')
}

// Whether `text` is a value that decodes.
fn is_value(text: &[u8]) -> bool
    ensures { result ≡ is_value text.now }
{
    if text.is_empty() || text.len() > METADATA_MAX {
        return false;
    }
    is_base64(text)
}

// Whether `pair` is a key, a space and a value, cut at one place or another, or a key alone.
fn is_pair(pair: &[u8]) -> bool
    ensures { result ≡ is_pair pair.now }
{
    for end in 0..pair.len() {
        if is_key(&pair[..end]) && pair[end] == b' ' && is_value(&pair[end + 1..]) {
            return true;
        }
    }
    is_key(pair)
}

// Whether all the pairs are.
fn are_pairs(text: &[u8]) -> bool
    ensures { result ≡ list_all is_pair (pairs_of text.now) }
{
    for number in 0..text.len() + 1 {
        let Some(pair) = pair_at(text, number) else {
            return true;
        };
        if !is_pair(pair) {
            return false;
        }
    }
    true
}

// Whether a key after this number is `key`.
fn is_key_after(text: &[u8], number: usize, key: &[u8]) -> bool
    requires { number ≤ length text.now }
    ensures { result ≡ list_any (bytes_eq key.now) (drop (number + 1) (map key_of (pairs_of text.now))) }
{
    for later in number + 1..text.len() + 1 {
        let Some(other) = key_at(text, later) else {
            return false;
        };
        if key == other {
            return true;
        }
    }
    false
}

// Whether each two keys differ.
fn has_distinct_keys(text: &[u8]) -> bool
    ensures { result ≡ are_distinct (map key_of (pairs_of text.now)) }
{
    for number in 0..text.len() + 1 {
        let Some(key) = key_at(text, number) else {
            return true;
        };
        if is_key_after(text, number, key) {
            return false;
        }
    }
    true
}

/// Whether `text` is a value of Upload-Metadata, by each pair, each cut of a pair and each two keys.
pub fn plain_metadata(text: &[u8]) -> bool
    ensures { result ≡ is_metadata text.now }
{
    text.len() <= METADATA_MAX && are_pairs(text) && has_distinct_keys(text)
}

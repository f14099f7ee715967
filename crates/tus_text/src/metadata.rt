ghost use Rattle.std.specs.Prelude.{◌≡◌, ◌≤◌, length, map, IsTrue, IsSorted};
ghost use Rattle.std.specs.Cmp.Lexicographic.{slice_cmp};
ghost use Rattle.std.specs.List.{list_all};
ghost use Rattle.std.specs.Ordering.{nat_cmp};
ghost use Rattle.tus_text.specs.Cut.{trim_spaces};
ghost use Rattle.tus_text.specs.Metadata.{is_metadata, is_pair, is_value, pairs_of, key_of, are_distinct};

use crate::cut::{split_at_first, trim_spaces};
use arrayvec::ArrayVec;
use base64::engine::general_purpose::STANDARD;

/// The most bytes of a value of Upload-Metadata.
pub const METADATA_MAX: usize = 1024;

// The most pairs in so many bytes: each takes a byte, and a comma before the next.
const PAIRS_MAX: usize = METADATA_MAX / 2;

/// Whether `text` is a value of Upload-Metadata (tus 1.0.0, creation), of 1 to [`METADATA_MAX`]
/// bytes: one or more pairs between commas, each with any number of spaces round it. A pair is a key,
/// or a key, one space and a value. A key is one or more bytes other than space and comma, and no two
/// keys are equal. A value is Base64 (RFC 4648, section 4), padded, of one byte or more.
pub fn check_metadata(text: &[u8]) -> bool
    ensures value { result ≡ is_metadata text.now }
    ensures bound { IsTrue result → length text.now ≤ 1024 }
{
    text.len() <= METADATA_MAX && are_pairs(text) && has_distinct_keys(text)
}

// Whether each part between commas is a pair.
fn are_pairs(text: &[u8]) -> bool
    ensures { result ≡ list_all is_pair (pairs_of text.now) }
{
    text.split(|byte| *byte == b',')
        .all(|part| is_pair(trim_spaces(part)))
}

// Whether `pair` is a key, or a key, one space and a value.
fn is_pair(pair: &[u8]) -> bool
    ensures { result ≡ is_pair pair.now }
{
    let (key, value) = split_at_first(pair, b' ');
    !key.is_empty() && (key.len() == pair.len() || is_value(value))
}

// Whether `text` is a value that decodes.
fn is_value(text: &[u8]) -> bool
    ensures { result ≡ is_value text.now }
{
    if text.is_empty() || text.len() > METADATA_MAX {
        return false;
    }
    let mut decoded = [0; METADATA_MAX];
    STANDARD.decode_slice_unchecked(text, &mut decoded).is_ok()
}

// The key of the pair that `part` holds.
pub(crate) fn key_in(part: &[u8]) -> &[u8]
    ensures { result.now ≡ key_of (trim_spaces part.now) }
{
    split_at_first(trim_spaces(part), b' ').0
}

// Whether the keys of the pairs differ.
fn has_distinct_keys(text: &[u8]) -> bool
    requires bound { length text.now ≤ 1024 }
    requires pairs { IsTrue (list_all is_pair (pairs_of text.now)) }
    ensures { result ≡ are_distinct (map key_of (pairs_of text.now)) }
{
    let mut keys: ArrayVec<&[u8], PAIRS_MAX> = ArrayVec::new();
    let mut rest = text;
    loop {
        let (part, after) = split_at_first(rest, b',');
        keys.push(key_in(part));
        if part.len() == rest.len() {
            return are_distinct(keys.as_mut_slice());
        }
        rest = after;
    }
}

// Whether no two of the keys are equal. It may change their order: it sorts them, so that no text
// takes quadratic time.
fn are_distinct(keys: &mut [&[u8]]) -> bool
    ensures { result ≡ are_distinct (map (λ key. key.now) keys.old) }
{
    keys.sort_unstable();
    neighbours_differ(keys)
}

// Whether no two of the keys are equal. As they are in order, equal ones would be neighbours.
fn neighbours_differ(keys: &[&[u8]]) -> bool
    requires { IsSorted (λ a b. slice_cmp nat_cmp a.now b.now) keys.now }
    ensures { result ≡ are_distinct (map (λ key. key.now) keys.now) }
{
    for later in 1..keys.len() {
        if keys[later - 1] == keys[later] {
            return false;
        }
    }
    true
}

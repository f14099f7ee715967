ghost use Rattle.std.specs.Prelude.{◌≡◌, bytes_eq, find, option_map};
ghost use Rattle.tus_text.specs.Cut.{trim_spaces};
ghost use Rattle.tus_text.specs.Metadata.{key_of, pairs_of};
ghost use Rattle.tus_text.specs.Pair.{decoded, value_under};

use crate::cut::{split_at_first, trim_spaces};
use crate::metadata::{METADATA_MAX, key_in};
use crate::text::Text;
use base64::engine::general_purpose::STANDARD;

/// What a text of Upload-Metadata tells under a key: the value of the first pair that has it (tus 1.0.0, creation). `None`
/// where no pair has it, or where the value isn't Base64 or has more than [`METADATA_MAX`] bytes. A key alone tells no bytes.
pub fn value_under(metadata: &[u8], key: &[u8]) -> Option<Text<METADATA_MAX>>
    ensures { result ≡ value_under key.now metadata.now }
{
    let part = part_under(metadata, key)?;
    let (_, value) = split_at_first(trim_spaces(part), b' ');
    decoded(value)
}

// The first part between commas whose pair has this key.
fn part_under<'a>(metadata: &'a [u8], key: &[u8]) -> Option<&'a [u8]>
    ensures { option_map (λ part. trim_spaces part.now) result ≡ find (λ pair. bytes_eq (key_of pair) key.now) (pairs_of metadata.now) }
{
    metadata
        .split(|byte| *byte == b',')
        .find(|part| key_in(part) == key)
}

// The bytes of a text of Base64, which has at most so many as metadata may have.
fn decoded(text: &[u8]) -> Option<Text<METADATA_MAX>>
    ensures { result ≡ decoded text.now }
{
    if text.len() > METADATA_MAX {
        return None;
    }
    let mut bytes = [0; METADATA_MAX];
    let len = STANDARD.decode_slice_unchecked(text, &mut bytes).ok()?;
    Some(Text::of(&bytes[..len]))
}

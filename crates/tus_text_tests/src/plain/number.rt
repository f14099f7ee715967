//! A plain program for `number_of`.
ghost use Rattle.std.specs.Prelude.{◌≡◌};
ghost use Rattle.tus_text.specs.Number.{number_of};

use std::str;

/// The number that `text` writes, by std's parser, which also reads a leading plus.
pub fn plain_number(text: &[u8]) -> Option<u64>
    ensures { result ≡ number_of text.now }
{
    if text.is_empty() || text[0] == b'+' {
        return None;
    }
    match str::from_utf8(text) {
        Ok(digits) => digits.parse::<u64>().ok(),
        Err(_) => None,
    }
}

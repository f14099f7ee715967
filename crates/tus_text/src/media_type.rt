ghost use Rattle.std.specs.Prelude.{◌≡◌, ◌≤◌, IsTrue, length};
ghost use Rattle.std.specs.List.{list_all, slice_split};
ghost use Rattle.tus_text.specs.Cut.{trim_spaces};
ghost use Rattle.tus_text.specs.MediaType.{is_media_type, is_parameter, is_semicolon, is_token, is_token_byte, joins_tokens, type_name};

use crate::cut::{split_at_first, trim_spaces};

/// The most bytes of a media type.
pub const MEDIA_TYPE_MAX: usize = 255;

/// Whether `text` is a media type (RFC 9110, section 8.3.1) of at most [`MEDIA_TYPE_MAX`] bytes, with spaces round its
/// semicolons and at its ends, or none. The value of a parameter is a token, and never a quoted string.
pub fn is_media_type(text: &[u8]) -> bool
    ensures value { result ≡ is_media_type text.now }
    ensures bound { IsTrue result → length text.now ≤ 255 }
{
    let (_, parameters) = split_at_first(text, b';');
    text.len() <= MEDIA_TYPE_MAX
        && joins_tokens(type_name(text), b'/')
        && are_parameters(parameters)
}

/// The type and the subtype of a media type, without its parameters.
pub fn type_name(text: &[u8]) -> &[u8]
    ensures { result.now ≡ type_name text.now }
{
    trim_spaces(split_at_first(text, b';').0)
}

// Whether each part between semicolons is a parameter.
fn are_parameters(text: &[u8]) -> bool
    ensures { result ≡ list_all (λ part. is_parameter (trim_spaces part)) (slice_split is_semicolon text.now) }
{
    text.split(|byte| *byte == b';')
        .all(|part| is_parameter(trim_spaces(part)))
}

// Whether `text` is a name and its value, or nothing.
fn is_parameter(text: &[u8]) -> bool
    ensures { result ≡ is_parameter text.now }
{
    text.is_empty() || joins_tokens(text, b'=')
}

// Whether `text` is a token, the mark and another token.
fn joins_tokens(text: &[u8], mark: u8) -> bool
    ensures { result ≡ joins_tokens mark text.now }
{
    let (front, back) = split_at_first(text, mark);
    front.len() < text.len() && is_token(front) && is_token(back)
}

// Whether `text` is a token.
fn is_token(text: &[u8]) -> bool
    ensures { result ≡ is_token text.now }
{
    !text.is_empty() && text.iter().all(|byte| is_token_byte(*byte))
}

// Whether `byte` can stand in a token.
fn is_token_byte(byte: u8) -> bool
    ensures { result ≡ is_token_byte byte }
{
    byte.is_ascii_alphanumeric() || b"!#$%&'*+-.^_`|~".contains(&byte)
}

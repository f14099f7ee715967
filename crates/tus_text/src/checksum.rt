ghost use Rattle.std.specs.Prelude.{◌≡◌};
ghost use Rattle.tus_text.specs.Checksum.{checksum_of, digest_of};

use crate::cut::split_at_first;
use base64::engine::general_purpose::STANDARD;

/// The bytes of a digest of SHA-1.
pub const DIGEST_LEN: usize = 20;

/// What a value of Upload-Checksum says of the bytes of a request.
#[derive(Clone, Copy, Debug, PartialEq, Eq)]
pub enum Checksum {
    /// `sha1`: their digest by SHA-1.
    Sha1([u8; DIGEST_LEN]),

    /// A checksum by another algorithm, which is not looked at.
    Other,
}

/// What a value of Upload-Checksum says (tus 1.0.0, checksum): the name of an algorithm, one space, and a
/// checksum of one byte or more. After `sha1`, in lower case, the checksum is Base64 (RFC 4648, section 4),
/// padded, of [`DIGEST_LEN`] bytes. After any other name it may be any bytes. `None` for any other text.
pub fn read_checksum(text: &[u8]) -> Option<Checksum>
    ensures { result ≡ checksum_of text.now }
{
    let (algorithm, value) = split_at_first(text, b' ');
    if algorithm.is_empty() || value.is_empty() {
        return None;
    }
    if algorithm == b"sha1".as_slice() {
        return Some(Checksum::Sha1(read_digest(value)?));
    }
    Some(Checksum::Other)
}

// The digest that `value` is in Base64.
fn read_digest(value: &[u8]) -> Option<[u8; DIGEST_LEN]>
    ensures { result ≡ digest_of value.now }
{
    let mut digest = [0; DIGEST_LEN];
    match STANDARD.decode_slice(value, &mut digest) {
        Ok(len) if len == DIGEST_LEN => Some(digest),
        _ => None,
    }
}

//! The checksum that came with some bytes (tus 1.0.0, Checksum).
ghost use Rattle.std.specs.Prelude.{◌≡◌};
ghost use Rattle.upload_book.specs.Checksum.{is_mismatch, is_of_other_algorithm};

use crate::payload::Payload;
use tus_text::Checksum;

/// Whether the checksum is by an algorithm that this server does not have.
pub(crate) fn is_of_other_algorithm(check: Option<Checksum>) -> bool
    ensures { result ≡ is_of_other_algorithm check }
{
    matches!(check, Some(Checksum::Other))
}

/// Whether the checksum is a digest by SHA-1, and not that of the bytes.
pub(crate) fn is_mismatch(check: Option<Checksum>, bytes: &Payload) -> bool
    ensures { result ≡ is_mismatch check bytes.now }
{
    match check {
        Some(Checksum::Sha1(digest)) => !bytes.has_digest(&digest),
        _ => false,
    }
}

//! The bytes that a request sends to an upload.
ghost use Rattle.std.specs.Prelude.{◌≡◌, ◌<◌, ◌^◌, bytes_eq, length};
ghost use Rattle.sha1.specs.Sha1.{sha1};

use sha1::{DIGEST_LEN, Sha1};
use std::marker::Model;
use tus_text::Checksum;

/// The bytes of a PATCH or of a creation, lent, and their SHA-1 once that was computed. A contract sees the list of bytes
/// alone. A digest gets here only by being computed of them, so it is always theirs.
#[derive(Drop)]
pub struct Payload<'a> {
    bytes: &'a [u8],
    digest: Option<[u8; DIGEST_LEN]>,
}

impl<'a> Model for Payload<'a> {
    ghost use Rattle.std.specs.Prelude.{◌≡◌, List, ℕ, IfSome};
    ghost use Rattle.sha1.specs.Sha1.{sha1};

    ghost Value = { List ℕ };

    ghost view = { λ p. p.bytes.now };

    ghost invariant = { λ p. IfSome p.digest (λ digest. digest ≡ sha1 p.bytes.now) };
}

impl<'a> Payload<'a> {
    /// These bytes, whose digest is still to be computed.
    pub fn new(bytes: &'a [u8]) -> Payload<'a>
        ensures { result ≡ bytes.now }
    {
        Payload {
            bytes,
            digest: None,
        }
    }

    /// The bytes.
    pub fn as_slice(&self) -> &'a [u8]
        ensures { result.now ≡ self.now }
    {
        self.bytes
    }

    /// How many bytes there are.
    pub fn len(&self) -> usize
        ensures value { result ≡ length self.now }
        ensures fits { result < 2 ^ 63 }
    {
        self.bytes.len()
    }

    /// The SHA-1 of the bytes (FIPS 180-4). It is computed once, and then kept beside them; the bytes stay.
    pub fn digest(&mut self) -> [u8; DIGEST_LEN]
        ensures digest { result ≡ sha1 self.old }
        ensures stays { self.new ≡ self.old }
    {
        if let Some(digest) = self.digest {
            return digest;
        }
        let digest = Sha1::digest(self.bytes);
        self.digest = Some(digest);
        digest
    }

    /// Computes the SHA-1 of the bytes where it is to be compared: where one came with them.
    pub(crate) fn digest_for(&mut self, check: Option<Checksum>)
        ensures { self.new ≡ self.old }
    {
        if let Some(Checksum::Sha1(_)) = check {
            self.digest();
        }
    }

    /// Whether this is the SHA-1 of the bytes, which is computed here only where none is kept.
    pub(crate) fn has_digest(&self, digest: &[u8; DIGEST_LEN]) -> bool
        ensures { result ≡ bytes_eq digest.now (sha1 self.now) }
    {
        match &self.digest {
            Some(kept) => digest == kept,
            None => *digest == Sha1::digest(self.bytes),
        }
    }
}

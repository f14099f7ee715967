ghost use Rattle.std.specs.Prelude.{◌≡◌, ◌≤◌, Some, length};
ghost use Rattle.upload_book.specs.Refusal.{word_of, status_of};

use std::fmt;
use std::fmt::{Display, Formatter, Write};
use thiserror::Error;

/// Why a request was refused. The reasons are checked in this order, but for Memory, which is the last
/// wherever it comes, and Board, which no request is refused by. It displays its word.
#[derive(Clone, Copy, Debug, PartialEq, Eq, Error)]
pub enum Refusal {
    /// `Tus-Resumable` is not one field of value `1.0.0`.
    Version,
    /// The target is the path of no upload and of no tenant.
    Path,
    /// There is no tenant of that name.
    Tenant,
    /// The path does not allow the method.
    Method,
    /// A field of the request is missing, repeated or not of its form.
    Field,
    /// The id was never given.
    Unknown,
    /// The id was given, and its upload has ended or expired.
    Gone,
    /// The upload is a final one, which takes no bytes.
    IsFinal,
    /// The content type is not that of a PATCH.
    Media,
    /// The offset named is not the upload's.
    Offset,
    /// The length named differs from the upload's known length.
    LengthFixed,
    /// A length is above the greatest allowed, or the bytes go past the upload's length.
    TooLong,
    /// The checksum is by another algorithm than SHA-1.
    Algorithm,
    /// The checksum is not that of the bytes.
    Mismatch,
    /// A part of a final upload is no visible partial upload of its tenant.
    Part,
    /// A part of a final upload does not have all of its bytes yet.
    PartOpen,
    /// The upload does not have all of its bytes yet, and a GET asks for them.
    Unfinished,
    /// The tenant has as many uploads as the book keeps for one.
    Uploads,
    /// The tenant's ids are used up, or the blocks that all tenants may be charged in all.
    Spent,
    /// The tenant would pay for more blocks than its quota.
    Quota,
    /// No block is free. It is never answered: while every tenant is within its quota, there is one.
    Pool,
    /// A growth was refused: out of memory.
    Memory,
    /// What HEADs tell could not be looked at beside the lock. It is told to who looks, and is in no reply.
    Board,
}

impl Refusal {
    /// The word that names it, at most 12 bytes: the body of its reply.
    pub fn word(self) -> &'static str
        ensures word { result.now ≡ word_of self }
        ensures short { length result.now ≤ 12 }
    {
        self.word_and_status().0
    }

    /// The status of its reply (RFC 9110, section 15; 460: tus 1.0.0, Checksum; 507: RFC 4918, section
    /// 11.5).
    pub fn status(self) -> u16
        ensures { result ≡ status_of self }
    {
        self.word_and_status().1
    }

    fn word_and_status(self) -> (&'static str, u16)
        ensures word { result.0.now ≡ word_of self }
        ensures short { length result.0.now ≤ 12 }
        ensures status { result.1 ≡ status_of self }
    {
        match self {
            Refusal::Version => ("version", 412),
            Refusal::Path => ("path", 404),
            Refusal::Tenant => ("tenant", 404),
            Refusal::Method => ("method", 405),
            Refusal::Field => ("field", 400),
            Refusal::Unknown => ("unknown", 404),
            Refusal::Gone => ("gone", 410),
            Refusal::IsFinal => ("final", 403),
            Refusal::Media => ("media", 415),
            Refusal::Offset => ("offset", 409),
            Refusal::LengthFixed => ("length-fixed", 400),
            Refusal::TooLong => ("too-long", 413),
            Refusal::Algorithm => ("algorithm", 400),
            Refusal::Mismatch => ("mismatch", 460),
            Refusal::Part => ("part", 400),
            Refusal::PartOpen => ("part-open", 409),
            Refusal::Unfinished => ("unfinished", 409),
            Refusal::Uploads => ("uploads", 507),
            Refusal::Spent => ("spent", 507),
            Refusal::Quota => ("quota", 507),
            Refusal::Pool => ("pool", 507),
            Refusal::Memory => ("memory", 503),
            Refusal::Board => ("board", 503),
        }
    }
}

impl Display for Refusal {
    ghost output = { λ refusal. Some (word_of refusal) };

    fn fmt<W: Write>(&self, f: &mut Formatter<W>) -> fmt::Result {
        f.write_str(self.word())
    }
}

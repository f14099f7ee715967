ghost use Rattle.std.specs.Prelude.{◌≡◌, ◌≤◌, length};
ghost use Rattle.http_wire.specs.Refusal.{word_of, status_of};

use std::fmt;
use thiserror::Error;

/// Why the wire answers a request itself, without a step. Each closes the connection. It displays its
/// word.
#[derive(Clone, Copy, Debug, PartialEq, Eq, Error)]
pub enum WireRefusal {
    /// The body found no memory.
    Memory,
    /// The head is none of a request, as `httparse` reads it, with at most 64 fields.
    Head,
    /// The head is longer than 16,384 bytes, or has more than 64 lines of fields.
    HeadSize,
    /// A request of HTTP/1.1 without Host, or any with two or more (RFC 9112, section 3.2).
    Host,
    /// There is a Transfer-Encoding field.
    Coding,
    /// There are two or more Content-Length fields, or one that is no number (RFC 9112, section 6.3).
    ContentLength,
    /// Content-Length is above the greatest length of a body.
    BodySize,
}

impl WireRefusal {
    /// The word that names it, at most 14 bytes: the body of its reply.
    pub fn word(self) -> &'static str
        ensures word { result.now ≡ word_of self }
        ensures short { length result.now ≤ 14 }
    {
        match self {
            WireRefusal::Memory => "memory",
            WireRefusal::Head => "head",
            WireRefusal::HeadSize => "head-size",
            WireRefusal::Host => "host",
            WireRefusal::Coding => "coding",
            WireRefusal::ContentLength => "content-length",
            WireRefusal::BodySize => "body-size",
        }
    }

    /// The status of its reply (RFC 9110, section 15; 431: RFC 6585, section 5).
    pub fn status(self) -> u16
        ensures { result ≡ status_of self }
    {
        match self {
            WireRefusal::Memory => 503,
            WireRefusal::Head | WireRefusal::Host | WireRefusal::ContentLength => 400,
            WireRefusal::HeadSize => 431,
            WireRefusal::Coding => 411,
            WireRefusal::BodySize => 413,
        }
    }
}

impl fmt::Display for WireRefusal {
    ghost use Rattle.std.specs.Prelude.{Some};

    ghost output = { λ refusal. Some (word_of refusal) };

    fn fmt<W: fmt::Write>(&self, f: &mut fmt::Formatter<W>) -> fmt::Result {
        f.write_str(self.word())
    }
}

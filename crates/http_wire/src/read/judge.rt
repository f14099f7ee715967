ghost use Rattle.std.specs.Prelude.{◌≡◌};
ghost use Rattle.tus_steps.specs.Field.{text_of};
ghost use Rattle.http_wire.specs.Judge.{judge, is_host_wrong, body_len};

use crate::refusal::WireRefusal;
use tus_steps::Field;
use tus_text::read_number;

/// The number of bytes of the body of a request of HTTP/1.`minor`, or the first refusal by its Host,
/// Transfer-Encoding and Content-Length that applies. A body has at most `max_size` bytes.
pub fn judge(
    max_size: u64,
    minor: u8,
    host: Field<'_>,
    coding: Field<'_>,
    length: Field<'_>,
) -> Result<u64, WireRefusal>
    ensures { result ≡ judge max_size minor (text_of host.entry) (text_of coding.entry)
        (text_of length.entry) }
{
    if is_host_wrong(minor, host) {
        return Err(WireRefusal::Host);
    }
    match coding {
        Field::Absent => {}
        Field::One(_) | Field::Many => return Err(WireRefusal::Coding),
    }
    match body_len(length) {
        None => Err(WireRefusal::ContentLength),
        Some(len) => {
            if len > max_size {
                Err(WireRefusal::BodySize)
            } else {
                Ok(len)
            }
        }
    }
}

// Whether Host is missing from HTTP/1.1, or stands twice.
fn is_host_wrong(minor: u8, host: Field<'_>) -> bool
    ensures { result ≡ is_host_wrong minor (text_of host.entry) }
{
    match host {
        Field::Absent => minor == 1,
        Field::One(_) => false,
        Field::Many => true,
    }
}

// How many bytes Content-Length tells, where it is a number or not there.
fn body_len(length: Field<'_>) -> Option<u64>
    ensures { result ≡ body_len (text_of length.entry) }
{
    match length {
        Field::Absent => Some(0),
        Field::One(value) => read_number(value),
        Field::Many => None,
    }
}

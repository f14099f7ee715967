ghost use Rattle.std.specs.Prelude.{◌≡◌};
ghost use Rattle.tus_text.specs.Range.{byte_range_of, range_by, range_spec};

use crate::cut::split_at_first;
use crate::number::read_number;

/// Which bytes a value of Range asks for. Places are counted from 0.
#[derive(Clone, Copy, Debug, PartialEq, Eq)]
pub enum ByteRange {
    /// From the first of these places to the second, which isn't before it: `bytes=a-b`.
    Between(u64, u64),
    /// From this place on: `bytes=a-`.
    From(u64),
    /// So many at the end: `bytes=-n`.
    Last(u64),
}

/// The range that a value of Range asks for (RFC 9110, section 14.2): `bytes=`, in any letter case, and one range of
/// numbers below 2^64. `None` for any other value: several ranges, another unit, a last place before the first.
pub fn read_byte_range(text: &[u8]) -> Option<ByteRange>
    ensures { result ≡ byte_range_of text.now }
{
    let (unit, range) = text.split_at_checked(UNIT.len())?;
    if unit.eq_ignore_ascii_case(UNIT) {
        read_range(range)
    } else {
        None
    }
}

// The unit, and what stands behind it.
const UNIT: &[u8] = b"bytes=";

// The range of a text behind its unit.
fn read_range(text: &[u8]) -> Option<ByteRange>
    ensures { result ≡ range_spec text.now }
{
    let (first, last) = split_at_first(text, b'-');
    if first.len() < text.len() {
        range_by(first, last)
    } else {
        None
    }
}

// The range by what stands before its hyphen and behind it.
fn range_by(first: &[u8], last: &[u8]) -> Option<ByteRange>
    ensures { result ≡ range_by first.now last.now }
{
    if first.is_empty() {
        return read_number(last).map(ByteRange::Last);
    }
    let start = read_number(first)?;
    if last.is_empty() {
        return Some(ByteRange::From(start));
    }
    let end = read_number(last)?;
    if start <= end {
        Some(ByteRange::Between(start, end))
    } else {
        None
    }
}

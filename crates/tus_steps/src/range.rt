ghost use Rattle.std.specs.Prelude.{◌≡◌, ℕ, List, length};
ghost use Rattle.upload_book.specs.Content.{bytes_at};
ghost use Rattle.tus_steps.specs.Field.{text_of};
ghost use Rattle.tus_steps.specs.Range.{bytes_in, extent_in, extent_of, extent_up_to, range_asked};

use crate::field::Field;
use tus_text::{ByteRange, read_byte_range};
use upload_book::ByteSpan;

/// Which bytes of an upload a GET asks for.
#[derive(Clone, Copy, Debug, PartialEq, Eq)]
pub enum RangeAsked {
    /// All, where no ranges are served. Its reply says nothing of ranges.
    Unserved,
    /// All.
    All,
    /// Those of one range.
    One(ByteRange),
}

/// Which bytes of an upload the reply to a GET gives.
#[derive(Clone, Copy, Debug, PartialEq, Eq)]
pub enum Extent {
    /// All, where no ranges are served.
    Plain,
    /// All.
    Whole,
    /// Those from one place to another, both counted from 0 and included, of `len` bytes in all.
    Range { first: u64, last: u64, len: u64 },
}

impl RangeAsked {
    /// What is asked for by these fields, Range and If-Range, where ranges are served: one range, where the first of them
    /// stands once and tells one, and the other nowhere; else all.
    pub fn by(range: Field, condition: Field) -> RangeAsked
        ensures { result ≡ range_asked (text_of range.entry) (text_of condition.entry) }
    {
        match (range, condition) {
            (Field::One(value), Field::Absent) => match read_byte_range(value) {
                Some(range) => RangeAsked::One(range),
                None => RangeAsked::All,
            },
            _ => RangeAsked::All,
        }
    }

    /// Which bytes are given of an upload that has `len`. `None` where the range that is asked for has none of them.
    pub fn extent(self, len: u64) -> Option<Extent>
        ensures { result ≡ extent_of self len }
    {
        match self {
            RangeAsked::Unserved => Some(Extent::Plain),
            RangeAsked::All => Some(Extent::Whole),
            RangeAsked::One(range) => extent_in(range, len),
        }
    }
}

impl Extent {
    /// The place and the number of these bytes, of an upload that has `len`.
    pub fn span(self, len: u64) -> ByteSpan
        ensures { (bytes : List ℕ) → length bytes ≡ len → bytes_at result bytes ≡ bytes_in self bytes }
    {
        match self {
            Extent::Plain | Extent::Whole => ByteSpan::front(len),
            Extent::Range { first, last, .. } => ByteSpan {
                first,
                count: last.saturating_add(1).saturating_sub(first),
            },
        }
    }
}

// The part of `len` bytes that a range is, if they have one.
fn extent_in(range: ByteRange, len: u64) -> Option<Extent>
    ensures { result ≡ extent_in range len }
{
    match range {
        ByteRange::Between(first, last) => extent_up_to(
            first,
            last.saturating_add(1).min(len),
            len,
        ),
        ByteRange::From(first) => extent_up_to(first, len, len),
        ByteRange::Last(count) if count > 0 && len == 0 => Some(Extent::Whole),
        ByteRange::Last(count) => extent_up_to(len.saturating_sub(count), len, len),
    }
}

// The part of `len` bytes from a place up to another, if it has some.
fn extent_up_to(first: u64, end: u64, len: u64) -> Option<Extent>
    ensures { result ≡ extent_up_to first end len }
{
    if first >= end {
        return None;
    }
    let last = end - 1;
    Some(Extent::Range { first, last, len })
}

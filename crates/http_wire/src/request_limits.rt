ghost use Rattle.std.specs.Prelude.{◌≡◌};
ghost use Rattle.tus_steps.specs.Field.{text_of};
ghost use Rattle.http_wire.specs.RequestLimits.{alike, limit_by, range_by};

use tus_steps::{Field, Method, RangeAsked};

/// What a request may have: the most bytes of its body, and whether a GET may ask for a range of an upload's bytes.
#[derive(Clone, Copy)]
pub struct RequestLimits {
    /// The most bytes of a PATCH or a POST without a checksum. It may be taken in pieces.
    pub plain: u64,
    /// The most bytes of any other request. It is gathered.
    pub other: u64,
    /// Whether ranges are served. Else the fields for them are ignored, and no reply tells of them.
    pub ranges: bool,
}

impl RequestLimits {
    /// The same number of bytes for every request, and no ranges.
    pub fn alike(most: u64) -> Self
        ensures { result ≡ alike most }
    {
        RequestLimits {
            plain: most,
            other: most,
            ranges: false,
        }
    }

    /// The most bytes for a request with this method in force and this checksum.
    pub(crate) fn most(self, method: Method, checksum: Field<'_>) -> u64
        ensures { result ≡ limit_by self method (text_of checksum.entry) }
    {
        if (method.is_patch() || method.is_post()) && checksum.is_absent() {
            self.plain
        } else {
            self.other
        }
    }
    /// Which bytes a GET with these fields, Range and If-Range, asks for.
    pub(crate) fn range(self, range: Field<'_>, condition: Field<'_>) -> RangeAsked
        ensures { result ≡ range_by self (text_of range.entry) (text_of condition.entry) }
    {
        if self.ranges {
            RangeAsked::by(range, condition)
        } else {
            RangeAsked::Unserved
        }
    }
}

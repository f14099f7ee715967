ghost use Rattle.std.specs.Prelude.{◌≡◌, ◌+◌, ◌-◌, ◌^◌, ◌&&◌, false, min};
ghost use Rattle.upload_book.specs.Upload.{is_reached};

use crate::progress::Progress;

/// What the parts of a concatenation are together.
#[derive(Clone, Copy, Debug)]
pub(crate) struct PartsSeen {
    /// Whether each is a visible partial upload of the tenant.
    pub(crate) there: bool,
    /// Whether those that are have all of their bytes.
    pub(crate) complete: bool,
    /// How many bytes these have together, or 2^64 - 1 where they have more.
    pub(crate) len: u64,
}

impl PartsSeen {
    /// With one more part, which is there.
    pub(crate) fn with(self, part: &Progress) -> PartsSeen
        ensures { result ≡ record self {
          complete = self.complete && is_reached part.now.declared part.now.offset;
          len = min (self.len + part.now.offset) (2 ^ 64 - 1);
        } }
    {
        PartsSeen {
            there: self.there,
            complete: self.complete && part.is_complete(),
            len: self.len.saturating_add(part.offset),
        }
    }

    /// With one more part, which is not there.
    pub(crate) fn with_missing(self) -> PartsSeen
        ensures { result ≡ record self { there = false } }
    {
        PartsSeen {
            there: false,
            complete: self.complete,
            len: self.len,
        }
    }
}

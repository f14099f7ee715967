ghost use Rattle.std.specs.Prelude.{◌≡◌, ℕ, List};

use crate::framing::Framing;
use crate::read::fields::FieldSpan;
use httparse::spans::Span;
use tus_steps::{Method, RangeAsked, TusFields};

/// Where a message stands in its bytes, a head and a body, and what its head says of it.
#[derive(Clone, Copy)]
pub struct Layout {
    pub method: Method,
    pub framing: Framing,
    /// Whether the request waits for `100 Continue` before it sends its body.
    pub is_waiting: bool,
    pub head_len: usize,
    pub body_len: usize,
    /// How many bytes of the body were answered before these, and how many are to come behind them: none but for a piece.
    pub given: usize,
    pub more: usize,
    /// The id of the upload that the pieces before created: none but for a piece of a creation.
    pub created: Option<u64>,
    pub target: Span,
    /// Where the fields that count for the steps stand in the head.
    pub fields: TusFields<FieldSpan>,
    pub range: RangeAsked,
}

impl Layout {
    ghost use Rattle.http_wire.specs.Layout.{field_at};
    ghost use Rattle.tus_steps.specs.Method.{is_applied_when_cut as applied, is_taken_in_pieces as pieced};

    /// Whether the request is applied with the bytes that came where its body is cut off: it is a PATCH
    /// without a checksum. That is what makes an upload resumable.
    pub fn is_applied_when_cut(&self) -> bool
        ensures { (head : List ℕ) → result ≡ applied self.now.method (field_at head self.now.fields.checksum) }
    {
        self.method.is_patch() && self.fields.checksum.is_absent()
    }

    /// Whether the bytes of the request may be taken piece by piece: it is a PATCH or a POST without a checksum.
    pub fn is_taken_in_pieces(&self) -> bool
        ensures { (head : List ℕ) → result ≡ pieced self.now.method (field_at head self.now.fields.checksum) }
    {
        (self.method.is_patch() || self.method.is_post()) && self.fields.checksum.is_absent()
    }
}

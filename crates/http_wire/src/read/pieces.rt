//! A body that is taken in pieces, as its bytes come.
ghost use Rattle.std.specs.Prelude.{◌≡◌, ◌<◌, ◌+◌, ℕ, List, None, Option, Some, IfSome, length};
ghost use Rattle.tus_steps.specs.InPieces.{method_behind};
ghost use Rattle.tus_steps.specs.Method.{is_patch};
ghost use Rattle.http_wire.specs.PiecedBody.{IsPlain, IsTaken, piece_at, pieced_by};
ghost use Rattle.http_wire.specs.declared.request_limits.RequestLimits.{RequestLimits};
ghost use Rattle.http_wire.specs.declared.incoming.Incoming.TheVariants.{CutOther};
ghost use Rattle.http_wire.specs.declared.read.stage.Looked.TheVariants.{Came};
ghost use Rattle.http_wire.specs.declared.read.stage.Stage.TheVariants as variants;
ghost use Rattle.http_wire.specs.inside.Standing.{GathersAfter, HasRoomForPiece, IsNearer, Leaves, LooksOn, StaysBody, missing, pieced_after};

use crate::incoming::{Cut, Incoming};
use crate::read::layout::Layout;
use crate::read::read_buffer::ReadBuffer;
use crate::read::stage::{Looked, lend_all};

/// A body that is taken in pieces.
#[derive(Clone, Copy)]
pub struct PiecedBody {
    /// Its message as a whole.
    pub layout: Layout,
    /// How many bytes of it were taken.
    pub given: usize,
    /// How many bytes a piece has at least, unless it is the last.
    pub piece: usize,
    /// The id of the upload that the pieces created, where the message is a creation.
    pub created: Option<u64>,
}

/// Which piece of a body came.
#[derive(Clone, Copy, PartialEq, Eq)]
pub enum Part {
    /// More of the body is to come.
    Middle,
    /// It is the rest of the body.
    Last,
    /// It is what came of a piece before the body was cut.
    Cut(Cut),
}

impl PiecedBody {
    /// The body of this message, of which nothing was taken, if it is taken in pieces of so many bytes. The message is a PATCH
    /// or a POST without a checksum, and its body has more bytes than a piece.
    pub fn of(layout: &Layout, piece: Option<usize>) -> Option<PiecedBody>
        ensures body { result ≡ pieced_by piece layout.now }
        ensures begins { IfSome result (λ b. (b.layout ≡ layout.now) × (b.given ≡ 0) × (b.created ≡ None)
            × (piece ≡ Some b.piece) × (b.piece < b.layout.body_len)) }
        ensures plain { IfSome result (λ b. IsPlain b.layout) }
    {
        let piece = piece?;
        if !layout.is_taken_in_pieces() || layout.body_len <= piece {
            return None;
        }
        Some(PiecedBody {
            layout: *layout,
            given: 0,
            piece,
            created: None,
        })
    }

    /// The layout of the next `len` bytes of the body behind the head.
    pub fn piece_at(&self, len: usize) -> Layout
        ensures { result ≡ piece_at self.now len }
    {
        let mut layout = self.layout;
        layout.given = self.given;
        layout.more = layout
            .body_len
            .saturating_sub(self.given)
            .saturating_sub(len);
        layout.created = self.created;
        layout
    }

    /// Whether what came of it is applied where it is cut. Of a creation nothing is before its first piece: so no upload is left
    /// of which its client can't know.
    pub fn is_applied_when_cut(&self) -> bool
        ensures { result ≡ is_patch (method_behind self.now.created self.now.layout.method) }
    {
        self.created.is_some() || self.layout.method.is_patch()
    }
}

/// Looks for a piece of a body for which there is room: as many bytes as a piece has, or the rest of the body. All bytes that
/// came are lent with the head, so that none is moved, but for those behind the body. A cut one has fewer bytes than a piece, and
/// so has a creation that is given up.
pub fn look_for_piece(read_buffer: &mut ReadBuffer, body: &PiecedBody) -> Looked
    requires { HasRoomForPiece read_buffer.old body.now }
    ensures looks { (limits : RequestLimits) (bytes said gone : List ℕ) → IsTaken limits bytes said gone body.now read_buffer.old.held
        → LooksOn limits bytes said read_buffer.new (variants.Pieces body.now) result }
    ensures leaves { Leaves read_buffer.new (variants.Pieces body.now) result }
    ensures nearer { IsNearer (missing read_buffer.old (variants.Pieces body.now)) read_buffer.new
        (variants.Pieces body.now) result }
    ensures body { StaysBody (Some body.now) (pieced_after (variants.Pieces body.now) result) }
    ensures gathers { (piece : Option ℕ) → GathersAfter piece read_buffer.new (variants.Pieces body.now) result }
    ensures few { result ≡ Came CutOther → length read_buffer.old.held < body.now.layout.head_len + body.now.piece }
    ensures ended { read_buffer.new.ended ≡ read_buffer.old.ended }
{
    let came = read_buffer.held().len() - body.layout.head_len;
    let left = body.layout.body_len - body.given;
    if came >= left {
        read_buffer.lend(body.layout.head_len + left);
        return Looked::Piece(*body, Part::Last);
    }
    if came >= body.piece {
        lend_all(read_buffer);
        return Looked::Piece(*body, Part::Middle);
    }
    if !read_buffer.is_ended() {
        return Looked::More;
    }
    if !body.is_applied_when_cut() {
        return Looked::Came(Incoming::CutOther);
    }
    lend_all(read_buffer);
    Looked::Piece(*body, Part::Cut(Cut::Ended))
}

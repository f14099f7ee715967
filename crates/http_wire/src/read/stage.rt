//! The reading of a message as steps over what a read buffer holds: no reader and no writer is touched here.
ghost use Rattle.std.specs.Prelude.{◌≡◌, ◌≤◌, ◌<◌, ◌+◌, ◌^◌, ℕ, List, [], true, false, length, Option, None, IfOk, IfErr, IfSome, OnOk};
ghost use Rattle.http_wire.specs.RequestLimits.{AreSmall};
ghost use Rattle.http_wire.specs.Conversation.{continue_text};
ghost use Rattle.http_wire.specs.HeadText.{head_limit};
ghost use Rattle.http_wire.specs.Layout.{IsLayoutWithin};
ghost use Rattle.http_wire.specs.inside.HeadLayout.{BeginsHead};
ghost use Rattle.http_wire.specs.inside.HeadSearch.{IsHeadFound, IsHeldBy, search_start};
ghost use Rattle.http_wire.specs.inside.Standing.{Arrives, Comes, Fits, GathersAfter, GathersAt, GathersIn, HasRoom, IsNearer, KeepsBody, Leaves, LooksOn, Standing, missing, pieced, pieced_after};
ghost use Rattle.http_wire.specs.declared.read.read_buffer.TheConstants.{READ_SIZE};
ghost use Rattle.http_wire.specs.declared.read.stage.Stage.TheVariants as variants;

use crate::incoming::{Cut, Incoming};
use crate::read::fields::FieldMap;
use crate::read::head::{FIELD_LIMIT, UNKNOWN_FRAMING, closing, read_layout};
use crate::read::head_search::{HeadFound, Search};
use crate::read::layout::Layout;
use crate::read::pieces::{Part, PiecedBody, look_for_piece};
use crate::read::read_buffer::ReadBuffer;
use crate::refusal::WireRefusal;
use crate::request_limits::RequestLimits;
use httparse::spans::HeaderSpan;

/// How far the reading of a message has come.
#[derive(Clone, Copy)]
pub enum Stage {
    /// Its head is searched.
    Head(Search),
    /// Its head was read, there is room for all of it, and its body is under way.
    Body(Layout),
    /// Its head was read, there is room for a piece, and its body is taken in pieces.
    Pieces(PiecedBody),
}

/// What a look at the bytes that came tells.
#[derive(Drop)]
pub enum Looked {
    /// More bytes are needed.
    More,
    /// `100 Continue` is due: the head was read, and its client waits before it sends the body.
    Continue,
    /// What came in.
    Came(Incoming<Layout>),
    /// A piece of a body came, and is lent behind its head.
    Piece(PiecedBody, Part),
}

impl Stage {
    /// The reading of a message of which nothing was seen.
    pub fn new() -> Self
        ensures { result ≡ variants.Head search_start }
    {
        Stage::Head(Search::new())
    }

    /// Looks at what is held; for the end of a head no byte is searched twice. A body has at most as many bytes as `limits` tell.
    /// `piece` tells how many bytes of a body are taken as a piece; where it is none, each body is gathered. `spans` and `map` are
    /// where the fields of a head are written. `Looked::Continue` comes at most once, between the head and the body. After
    /// `Looked::More` there is room for a read, and the input has not ended.
    pub fn look(
        &mut self,
        read_buffer: &mut ReadBuffer,
        spans: &mut [HeaderSpan; FIELD_LIMIT],
        map: &mut FieldMap,
        limits: RequestLimits,
        piece: Option<usize>,
    ) -> Looked
        requires limits { AreSmall limits }
        requires piece { IfSome piece (λ n. 0 < n) }
        requires fits { Fits read_buffer.old self.old }
        ensures looks { (bytes said : List ℕ) → Standing limits bytes said read_buffer.old self.old
            → LooksOn limits bytes said read_buffer.new self.new result }
        ensures leaves { Leaves read_buffer.new self.new result }
        ensures nearer { IsNearer (missing read_buffer.old self.old) read_buffer.new self.new result }
        ensures body { KeepsBody piece (pieced self.old) (pieced_after self.new result) }
        ensures gathers { GathersAt piece self.old → GathersAfter piece read_buffer.new self.new result }
        ensures ended { read_buffer.new.ended ≡ read_buffer.old.ended }
    {
        match self {
            Stage::Head(search) => {
                let Some(found) = search.look(read_buffer) else {
                    return Looked::More;
                };
                match judge_head(found, read_buffer, spans, map, limits) {
                    Ok(layout) => self.begin_body(read_buffer, layout, piece),
                    Err(incoming) => Looked::Came(incoming),
                }
            }
            Stage::Body(layout) => look_for_body(read_buffer, layout),
            Stage::Pieces(body) => look_for_piece(read_buffer, body),
        }
    }

    // Begins with the body of a message whose head is held. It makes room for the body, or for a piece of it; where there is
    // none, the message is refused. Then it looks for the body, unless its client is first to be told to go on.
    fn begin_body(
        &mut self,
        read_buffer: &mut ReadBuffer,
        layout: Layout,
        piece: Option<usize>,
    ) -> Looked
        requires head { layout.head_len ≤ head_limit }
        requires body { layout.body_len < 2 ^ 62 }
        requires piece { IfSome piece (λ n. 0 < n) }
        requires held { layout.head_len ≤ length read_buffer.old.held }
        requires within { IsLayoutWithin layout.head_len layout }
        requires whole { layout.created ≡ None }
        ensures looks { (limits : RequestLimits) (bytes : List ℕ) → BeginsHead limits bytes layout read_buffer.old.held
            → LooksOn limits bytes [] read_buffer.new self.new result }
        ensures leaves { Leaves read_buffer.new self.new result }
        ensures nearer { (before : ℕ) → 2 ^ 63 ≤ before → IsNearer before read_buffer.new self.new result }
        ensures body { KeepsBody piece None (pieced_after self.new result) }
        ensures gathers { GathersAfter piece read_buffer.new self.new result }
        ensures ended { read_buffer.new.ended ≡ read_buffer.old.ended }
    {
        let pieced = PiecedBody::of(&layout, piece);
        let gathered = match &pieced {
            Some(body) => body.piece,
            None => layout.body_len,
        };
        if let Err(refused) = make_room(read_buffer, &layout, gathered) {
            return Looked::Came(refused);
        }
        match pieced {
            Some(body) => {
                *self = Stage::Pieces(body);
                if layout.is_waiting {
                    return Looked::Continue;
                }
                look_for_piece(read_buffer, &body)
            }
            None => {
                *self = Stage::Body(layout);
                if layout.is_waiting {
                    return Looked::Continue;
                }
                look_for_body(read_buffer, &layout)
            }
        }
    }
}

// The layout of the head that was found, or what came in place of one.
fn judge_head(
    found: HeadFound,
    read_buffer: &ReadBuffer,
    spans: &mut [HeaderSpan; FIELD_LIMIT],
    map: &mut FieldMap,
    limits: RequestLimits,
) -> Result<Layout, Incoming<Layout>>
    requires limits { AreSmall limits }
    requires held { IsHeldBy read_buffer.now found }
    ensures head { IfOk result (λ p. (bytes : List ℕ) → IsHeadFound bytes read_buffer.now found
        → BeginsHead limits bytes p read_buffer.now.held) }
    ensures long { IfOk result (λ p. (p.head_len ≤ head_limit) × (p.head_len ≤ length read_buffer.now.held)) }
    ensures body { IfOk result (λ p. p.body_len < 2 ^ 62) }
    ensures within { IfOk result (λ p. IsLayoutWithin p.head_len p) }
    ensures whole { IfOk result (λ p. p.created ≡ None) }
    ensures comes { IfErr result (λ i. (bytes : List ℕ) → IsHeadFound bytes read_buffer.now found
        → Comes limits bytes [] read_buffer.now i) }
    ensures arrives { IfErr result (Arrives read_buffer.now) }
    ensures gathers { IfErr result (λ i. (piece : Option ℕ) → GathersIn piece read_buffer.now i) }
{
    match found {
        HeadFound::Whole(len) => match read_layout(&read_buffer.held()[..len], spans, map, limits) {
            Ok(layout) => Ok(layout),
            Err(refused) => Err(Incoming::Refused(refused.refusal, refused.framing)),
        },
        HeadFound::TooLong => Err(Incoming::Refused(WireRefusal::HeadSize, UNKNOWN_FRAMING)),
        HeadFound::Cut => Err(Incoming::CutOther),
        HeadFound::Nothing => Err(Incoming::End),
    }
}

// Makes room for a message whose head is held, with so many bytes of its body. Where there is none, the message is refused.
fn make_room(
    read_buffer: &mut ReadBuffer,
    layout: &Layout,
    gathered: usize,
) -> Result<(), Incoming<Layout>>
    requires head { layout.now.head_len ≤ head_limit }
    requires body { layout.now.body_len < 2 ^ 62 }
    requires gathered { gathered ≤ layout.now.body_len }
    requires held { layout.now.head_len ≤ length read_buffer.old.held }
    ensures room { OnOk result (layout.now.head_len + gathered + READ_SIZE ≤ read_buffer.new.room) }
    ensures comes { IfErr result (λ i. (limits : RequestLimits) (bytes : List ℕ) → BeginsHead limits bytes layout.now read_buffer.old.held
        → Comes limits bytes [] read_buffer.new i) }
    ensures arrives { IfErr result (Arrives read_buffer.new) }
    ensures gathers { IfErr result (λ i. (piece : Option ℕ) → GathersIn piece read_buffer.new i) }
    ensures held { read_buffer.new.held ≡ read_buffer.old.held }
    ensures ended { read_buffer.new.ended ≡ read_buffer.old.ended }
{
    if read_buffer.reserve(layout.head_len + gathered).is_err() {
        return Err(Incoming::Refused(WireRefusal::Memory, closing(layout.framing)));
    }
    Ok(())
}

// Looks for the body of a message for which there is room.
fn look_for_body(read_buffer: &mut ReadBuffer, layout: &Layout) -> Looked
    requires { HasRoom read_buffer.old layout.now }
    ensures looks { (limits : RequestLimits) (bytes : List ℕ) → BeginsHead limits bytes layout.now read_buffer.old.held
        → LooksOn limits bytes (continue_text layout.now.is_waiting) read_buffer.new (variants.Body layout.now) result }
    ensures leaves { Leaves read_buffer.new (variants.Body layout.now) result }
    ensures nearer { IsNearer (missing read_buffer.old (variants.Body layout.now)) read_buffer.new
        (variants.Body layout.now) result }
    ensures body { pieced_after (variants.Body layout.now) result ≡ None }
    ensures gathers { (piece : Option ℕ) → GathersAt piece (variants.Body layout.now)
        → GathersAfter piece read_buffer.new (variants.Body layout.now) result }
    ensures ended { read_buffer.new.ended ≡ read_buffer.old.ended }
{
    let total = layout.head_len + layout.body_len;
    if read_buffer.held().len() >= total {
        read_buffer.lend(total);
        return Looked::Came(Incoming::Message(*layout));
    }
    if !read_buffer.is_ended() {
        return Looked::More;
    }
    if !layout.is_applied_when_cut() {
        return Looked::Came(Incoming::CutOther);
    }
    lend_all(read_buffer);
    Looked::Came(Incoming::CutPatch(*layout, Cut::Ended))
}

/// Lends all that is held.
pub fn lend_all(read_buffer: &mut ReadBuffer)
    ensures lent { read_buffer.new.lent ≡ read_buffer.old.held }
    ensures none { read_buffer.new.held ≡ [] }
    ensures room { read_buffer.new.room ≡ read_buffer.old.room }
    ensures ended { read_buffer.new.ended ≡ read_buffer.old.ended }
{
    let len = read_buffer.held().len();
    read_buffer.lend(len);
}

use crate::append::Chunk;
use crate::concat::NewFinal;
use crate::create::{FirstChunk, NewUpload};
use crate::head_row::Name;
use crate::moment::Moment;
use crate::pieces::{Piece, UnheldPiece};
use crate::progress::Progress;
use crate::restored::RestoredUpload;
use crate::texts::SharedTexts;
use block_bodies::Body;

/// A change that [`crate::Book::prepare`] accepted, with all the memory that it takes: [`crate::Book::commit`] makes it.
#[derive(Drop)]
pub struct Ready<'a> {
    pub(crate) step: Step<'a>,
}

/// Which change it is.
#[derive(Drop)]
pub(crate) enum Step<'a> {
    Create(ReadyUpload<'a>),
    Append(ReadyChunk<'a>),
    Concat(ReadyFinal<'a>),
    Terminate(ReadyEnd),
    Sweep(ReadySweep),
    Restore(ReadyRestore<'a>),
}

/// A PATCH that was accepted, of the upload at this place. There is room for its bytes, and for all that are to come behind
/// them.
#[derive(Drop)]
pub(crate) struct ReadyChunk<'a> {
    pub(crate) name: Name,
    pub(crate) chunk: Chunk<'a>,
    pub(crate) now: Moment,
    pub(crate) place: usize,
    /// When the upload expires without the PATCH, if it does.
    pub(crate) expires: Option<Moment>,
    /// How far the upload is afterwards.
    pub(crate) after: Progress,
    /// How many blocks more its tenant pays then.
    pub(crate) cost: u64,
}

/// A DELETE that was accepted, of the upload at this place.
#[derive(Clone, Copy, Debug)]
pub(crate) struct ReadyEnd {
    pub(crate) name: Name,
    pub(crate) now: Moment,
    pub(crate) place: usize,
}

/// A creation that was accepted, for the tenant at this place.
#[derive(Drop)]
pub(crate) struct ReadyUpload<'a> {
    pub(crate) tenant: u8,
    pub(crate) new: NewUpload<'a>,
    pub(crate) first: FirstChunk<'a>,
    pub(crate) now: Moment,
    /// When the upload will expire, if it does.
    pub(crate) expires: Option<Moment>,
    /// A body with room for the first bytes, and for all that are to come behind them.
    pub(crate) body: Body,
    /// Its texts, where memory is taken for them.
    pub(crate) texts: Option<SharedTexts>,
}

/// A concatenation that was accepted, for the tenant at this place.
#[derive(Drop)]
pub(crate) struct ReadyFinal<'a> {
    pub(crate) tenant: u8,
    pub(crate) new: NewFinal<'a>,
    pub(crate) now: Moment,
    /// How many bytes its parts have together.
    pub(crate) len: u64,
    /// When the upload will expire, if it does.
    pub(crate) expires: Option<Moment>,
    /// The pieces of its parts, whose blocks are not held for it yet.
    pub(crate) unheld: Vec<UnheldPiece>,
    /// An empty list with room for them once they are.
    pub(crate) pieces: Vec<Piece>,
    /// Its texts, where memory is taken for them.
    pub(crate) texts: Option<SharedTexts>,
}

/// A sweep.
#[derive(Clone, Copy, Debug)]
pub(crate) struct ReadySweep {
    pub(crate) now: Moment,
}

/// A piece that is put back.
#[derive(Drop)]
pub(crate) struct ReadyRestore<'a> {
    pub(crate) now: Moment,
    pub(crate) piece: ReadyPiece<'a>,
}

/// Which piece it is.
#[derive(Drop)]
pub(crate) enum ReadyPiece<'a> {
    /// An upload that is not final.
    Own(ReadyOwn<'a>),
    /// A final upload.
    Joined(ReadyBack<'a>),
    Next(ReadyNext),
    Totals(ReadyTotals),
}

/// A tenant's next id that is put back, for the tenant at this place.
#[derive(Clone, Copy, Debug)]
pub(crate) struct ReadyNext {
    pub(crate) tenant: u8,
    pub(crate) next: u64,
}

/// Totals that are put back: how many blocks that were charged were released so far.
#[derive(Clone, Copy, Debug)]
pub(crate) struct ReadyTotals {
    pub(crate) released: u64,
}

/// An upload of its own that is put back, for the tenant at this place.
#[derive(Drop)]
pub(crate) struct ReadyOwn<'a> {
    pub(crate) tenant: u8,
    pub(crate) upload: RestoredUpload<'a>,
    /// A body with room for its bytes.
    pub(crate) body: Body,
    /// Its texts, where memory is taken for them.
    pub(crate) texts: Option<SharedTexts>,
}

/// A final upload that is put back, for the tenant at this place.
#[derive(Drop)]
pub(crate) struct ReadyBack<'a> {
    pub(crate) tenant: u8,
    pub(crate) upload: RestoredUpload<'a>,
    /// An empty body for each of its segments, with room for it.
    pub(crate) bodies: Vec<Body>,
    /// An empty list with room for its pieces.
    pub(crate) pieces: Vec<Piece>,
    /// Its texts, where memory is taken for them.
    pub(crate) texts: Option<SharedTexts>,
}

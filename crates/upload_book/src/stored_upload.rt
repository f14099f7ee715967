ghost use Rattle.std.specs.Prelude.{◌≡◌, ◌≢◌, ◌↔◌, ◌+◌, ◌<◌, ◌≤◌, ◌&&◌, [], ◌∷◌, ◌++◌, drop, get_or, is_some, length, map, option_map, take, vec_len, vec_capacity, IfOk, IsOk, OnOk, OnErr, IsTrue};
ghost use Rattle.block_pool.specs.Blocks.{Blocks, free_in};
ghost use Rattle.block_bodies.specs.Bodies.{HasRoom, IsBodyOf, IsHeld, IsLastOwn, StandsOnce, blocks_for, blocks_with};
ghost use Rattle.block_bodies.specs.Changes.{Puts, GivesBack};
ghost use Rattle.upload_book.specs.Charge.{price};
ghost use Rattle.upload_book.specs.Concat.{is_partial};
ghost use Rattle.upload_book.specs.Content.{bytes_at};
ghost use Rattle.upload_book.specs.Create.{new_kind};
ghost use Rattle.upload_book.specs.declared.head_row.Kind.TheVariants.{Final};
ghost use Rattle.upload_book.specs.declared.pieces.Piece.{Piece};
ghost use Rattle.upload_book.specs.Expiry.{has_expired};
ghost use Rattle.upload_book.specs.inside.ChargeAfter.{is_left, is_left_if_final, sources_in};
ghost use Rattle.upload_book.specs.inside.FinalBack.{chain_from};
ghost use Rattle.upload_book.specs.Lawful.{is_kept_metadata, IsConcatText};
ghost use Rattle.upload_book.specs.Progress.{progress_in};
ghost use Rattle.upload_book.specs.inside.Places.{with_chain, with_head};
ghost use Rattle.upload_book.specs.Stored.{block_at, pieces_len, placed_in, segment_of, upload_of};
ghost use Rattle.upload_book.specs.inside.Pieces.{as_piece, bytes_of, final_of, new_stored, no_chain, own_chain, AreBodies, ReadsWhole};
ghost use Rattle.upload_book.specs.inside.Texts.{concat_in, is_boxed, metadata_in};
ghost use Rattle.upload_book.specs.Upload.{head_row_of, is_complete, content_of as upload_content_of};

use crate::charge_after::Ended;
use crate::concat::NewFinal;
use crate::content::ByteSpan;
use crate::create::NewUpload;
use crate::expiry::has_expired;
use crate::head_note::Growth;
use crate::head_row::Kind;
use crate::moment::Moment;
use crate::pieces::{
    HeldBytes, Piece, UnheldPiece, chain_from, give_back_each, price_from, read_each,
};
use crate::progress::Progress;
use crate::row_ref::RowRef;
use crate::texts::UploadTexts;
use block_bodies::{Body, BodyFault};
use block_pool::{BlockId, Pool};
use std::alloc::{AllocError, Global};
use std::marker::Model;

/// An upload under its id, with its bytes in blocks. Its row is short: its texts lie elsewhere.
#[derive(Drop)]
pub(crate) struct StoredUpload {
    id: u64,
    held: HeldBytes,
    declared: Option<u64>,
    expires: Option<Moment>,
    texts: UploadTexts,
}

impl Model for StoredUpload {
    ghost use Rattle.std.specs.Prelude.{◌≤◌, length};
    ghost use Rattle.upload_book.specs.inside.HeldBytes.{kind_of, pieces_in, CountsBytes};
    ghost use Rattle.upload_book.specs.inside.Texts.{concat_in, is_boxed, metadata_in};
    ghost use Rattle.upload_book.specs.TenantBook.{Entry};
    ghost use Rattle.upload_book.specs.Stored as stored;

    ghost Value = { Entry stored.StoredUpload };

    ghost view = { λ u. record {
      id = u.id;
      kept = record {
        kind = kind_of u.held;
        declared = u.declared;
        pieces = pieces_in u.id u.held;
        metadata = metadata_in u.texts;
        concat = concat_in u.texts;
        expires = u.expires;
        boxed = is_boxed u.texts;
      };
    } };

    ghost invariant = { λ u. CountsBytes u.held × (length (metadata_in u.texts) ≤ 1024) × (length (concat_in u.texts) ≤ 2048) };
}

impl StoredUpload {
    /// A new upload with these bytes and this end, whose texts lie there. It takes no memory.
    pub(crate) fn new(
        id: u64,
        new: &NewUpload,
        body: Body,
        expires: Option<Moment>,
        texts: UploadTexts,
    ) -> StoredUpload
        requires metadata { IsTrue (is_kept_metadata new.now.metadata) }
        requires concat { IsConcatText (new_kind new.now.partial) new.now.concat }
        requires texts { (metadata_in texts ≡ new.now.metadata) × (concat_in texts ≡ new.now.concat) }
        ensures { result ≡ record { id = id; kept = new_stored new.now id body expires (is_boxed texts) } }
    {
        StoredUpload {
            id,
            held: HeldBytes::Own {
                partial: new.partial,
                body,
            },
            declared: new.length,
            expires,
            texts,
        }
    }

    /// A final upload of these pieces, which are so many bytes together, and with this end. Its texts lie there.
    pub(crate) fn joined(
        id: u64,
        new: &NewFinal,
        pieces: Vec<Piece>,
        len: u64,
        expires: Option<Moment>,
        texts: UploadTexts,
    ) -> StoredUpload
        requires metadata { IsTrue (is_kept_metadata new.now.metadata) }
        requires concat { IsConcatText Final new.now.concat }
        requires texts { (metadata_in texts ≡ new.now.metadata) × (concat_in texts ≡ new.now.concat) }
        requires len { len ≡ pieces_len pieces.items }
        ensures { result ≡ record { id = id; kept = final_of (is_boxed texts) new.now pieces.items expires } }
    {
        StoredUpload {
            id,
            held: HeldBytes::Joined { len, pieces },
            declared: Some(len),
            expires,
            texts,
        }
    }

    /// The id of the upload.
    pub(crate) fn id(&self) -> u64
        ensures { result ≡ self.now.id }
    {
        self.id
    }

    /// Whether the upload has expired at `now`.
    pub(crate) fn has_expired(&self, now: Moment) -> bool
        ensures { result ≡ has_expired now self.now.kept.expires }
    {
        has_expired(now, self.expires)
    }

    /// When it expires, if it does.
    pub(crate) fn expires(&self) -> Option<Moment>
        ensures { result ≡ self.now.kept.expires }
    {
        self.expires
    }

    /// Whether the upload is left where others have ended.
    pub(crate) fn is_left(&self, ended: &Ended) -> bool
        ensures { result ≡ is_left ended.now.at self.now.kept.expires }
    {
        match ended.at {
            Some(now) => !self.has_expired(now),
            None => true,
        }
    }

    /// Whether the upload is left where others have ended, if it is a final one.
    pub(crate) fn is_left_if_final(&self, ended: &Ended) -> bool
        ensures { result ≡ is_left_if_final ended.now.at self.now.kept.kind self.now.kept.expires }
    {
        match &self.held {
            HeldBytes::Own { .. } => true,
            HeldBytes::Joined { .. } => self.is_left(ended),
        }
    }

    /// Whether it is a final upload.
    pub(crate) fn is_final(&self) -> bool
        ensures { IsTrue result ↔ (self.now.kept.kind ≡ Final) }
    {
        matches!(self.held, HeldBytes::Joined { .. })
    }

    /// What the upload is for.
    pub(crate) fn kind(&self) -> Kind
        ensures { result ≡ self.now.kept.kind }
    {
        match &self.held {
            HeldBytes::Own { partial: true, .. } => Kind::Partial,
            HeldBytes::Own { partial: false, .. } => Kind::Plain,
            HeldBytes::Joined { .. } => Kind::Final,
        }
    }

    /// How many bytes the upload has.
    fn offset(&self) -> u64
        ensures { result ≡ pieces_len self.now.kept.pieces }
    {
        match &self.held {
            HeldBytes::Own { body, .. } => body.len(),
            HeldBytes::Joined { len, .. } => *len,
        }
    }

    /// What a HEAD tells of the upload, whose texts are lent.
    pub(crate) fn head_row(&self) -> RowRef<'_>
        ensures { (p : Blocks) → ReadsWhole p self.now.kept.pieces
            → result ≡ head_row_of (upload_of p self.now.kept) }
    {
        let growth = Growth {
            offset: self.offset(),
            declared: self.declared,
            expires: self.expires,
        };
        RowRef::new(
            self.kind(),
            growth,
            self.texts.metadata(),
            self.texts.concat(),
        )
    }

    /// How far the upload is.
    pub(crate) fn progress(&self) -> Progress
        ensures { (p : Blocks) → ReadsWhole p self.now.kept.pieces
            → result ≡ progress_in (head_row_of (upload_of p self.now.kept)) }
    {
        Progress {
            kind: self.kind(),
            offset: self.offset(),
            declared: self.declared,
            expires: self.expires,
        }
    }

    /// Whether it is a partial upload with all of its bytes.
    pub(crate) fn may_be_part(&self) -> bool
        ensures { (p : Blocks) → ReadsWhole p self.now.kept.pieces
            → result ≡ (is_partial self.now.kept.kind && is_complete (upload_of p self.now.kept)) }
    {
        match self.kind() {
            Kind::Partial => self.progress().is_complete(),
            Kind::Plain | Kind::Final => false,
        }
    }

    /// These bytes of the upload, whose first ones are there already; the others are copied once out of the pool behind them.
    /// The error is that the vector has too little room for all and got no more.
    pub(crate) fn read(
        &self,
        pool: &Pool,
        span: ByteSpan,
        begun: Vec<u8>,
    ) -> Result<Vec<u8>, AllocError>
        requires bodies { AreBodies pool.now self.now.kept.pieces }
        requires whole { ReadsWhole pool.now self.now.kept.pieces }
        requires begun { begun.items ≡ take (length begun.items) (drop span.first (upload_content_of (upload_of pool.now self.now.kept))) }
        requires few { length begun.items ≤ span.count }
        ensures bytes { IfOk result (λ v. v.items ≡ bytes_at span (upload_content_of (upload_of pool.now self.now.kept))) }
        ensures lacking { OnErr result (vec_capacity begun < length (bytes_at span (upload_content_of (upload_of pool.now self.now.kept)))) }
    {
        let mut bytes = begun;
        let done = bytes.len();
        let all = span.count.min(self.offset().saturating_sub(span.first));
        let left = (all as usize).saturating_sub(done);
        bytes.reserve_exact(left)?;
        let offset = span.first.saturating_add(done as u64);
        self.read_onto(pool, offset, left, &mut bytes);
        Ok(bytes)
    }

    /// Bytes of the upload from an offset on, copied once out of the pool onto the end of `bytes`: as many as `count`, for which
    /// it has room, or as there are.
    pub(crate) fn read_onto(&self, pool: &Pool, offset: u64, count: usize, bytes: &mut Vec<u8>)
        requires bodies { AreBodies pool.now self.now.kept.pieces }
        requires whole { ReadsWhole pool.now self.now.kept.pieces }
        requires room { vec_len bytes.old + count ≤ vec_capacity bytes.old }
        ensures items { bytes.new.items ≡ bytes.old.items
            ++ take count (drop offset (upload_content_of (upload_of pool.now self.now.kept))) }
        ensures room_kept { vec_capacity bytes.old ≤ vec_capacity bytes.new }
    {
        match &self.held {
            HeldBytes::Own { body, .. } => body.read_onto(pool, offset, count, bytes),
            HeldBytes::Joined { pieces, .. } => read_each(pieces, pool, offset, count, bytes),
        }
    }

    /// The block at a place of one of the upload's pieces, both from 0; `None` where there is none.
    pub(crate) fn block(&self, piece: usize, place: u64) -> Option<BlockId>
        ensures { result ≡ block_at self.now.kept piece place }
    {
        match &self.held {
            HeldBytes::Own { body, .. } if piece == 0 => body.block(place),
            HeldBytes::Own { .. } => None,
            HeldBytes::Joined { pieces, .. } => pieces.get(piece)?.chain.block(place),
        }
    }

    /// How many pieces the upload has.
    pub(crate) fn piece_count(&self) -> usize
        ensures { result ≡ length self.now.kept.pieces }
    {
        match &self.held {
            HeldBytes::Own { .. } => 1,
            HeldBytes::Joined { pieces, .. } => pieces.len(),
        }
    }

    /// The id of the upload to which the bytes of a piece were sent.
    pub(crate) fn origin(&self, piece: usize) -> u64
        requires { piece < length self.now.kept.pieces }
        ensures { (d : Piece) → result ≡ (get_or self.now.kept.pieces piece d).origin }
    {
        match &self.held {
            HeldBytes::Own { .. } => self.id,
            HeldBytes::Joined { pieces, .. } => pieces[piece].origin,
        }
    }

    /// The body of a piece.
    pub(crate) fn chain(&self, piece: usize) -> &Body
        requires { piece < length self.now.kept.pieces }
        ensures { (d : Piece) → result.now ≡ (get_or self.now.kept.pieces piece d).chain }
    {
        match &self.held {
            HeldBytes::Own { body, .. } => body,
            HeldBytes::Joined { pieces, .. } => &pieces[piece].chain,
        }
    }

    /// Whether one of the pieces before a place has this origin.
    pub(crate) fn stands_before(&self, piece: usize, origin: u64) -> bool
        requires { piece ≤ length self.now.kept.pieces }
        ensures { result ≡ is_some (chain_from (take piece self.now.kept.pieces) origin) }
    {
        match &self.held {
            HeldBytes::Own { .. } => piece > 0 && self.id == origin,
            HeldBytes::Joined { pieces, .. } => chain_from(&pieces[..piece], origin).is_some(),
        }
    }

    /// How many blocks of a size the bytes of a piece take.
    pub(crate) fn blocks(&self, piece: usize, size: u64) -> u64
        requires piece { piece < length self.now.kept.pieces }
        requires size { 0 < size }
        ensures { (d : Piece) → result ≡ blocks_for size (get_or self.now.kept.pieces piece d).chain.len }
    {
        match &self.held {
            HeldBytes::Own { body, .. } => body.len().div_ceil(size),
            HeldBytes::Joined { pieces, .. } => pieces[piece].chain.len().div_ceil(size),
        }
    }

    /// The most blocks of a size that a piece of this origin takes, of the pieces from a place on; 0 where there is
    /// none.
    pub(crate) fn price_from(&self, piece: usize, size: u64, origin: u64) -> u64
        requires { 0 < size }
        ensures { result ≡ price size (sources_in (drop piece self.now.kept.pieces)) origin }
    {
        match &self.held {
            HeldBytes::Own { body, .. } if piece == 0 && self.id == origin => body
                .len()
                .div_ceil(size),
            HeldBytes::Own { .. } => 0,
            HeldBytes::Joined { pieces, .. } => price_from(pieces, piece, size, origin),
        }
    }

    /// The body of the first of the upload's pieces that has this origin, where there is one.
    pub(crate) fn chain_from(&self, origin: u64) -> Option<&Body>
        ensures { option_map (λ chain. chain.now) result ≡ chain_from self.now.kept.pieces origin }
    {
        match &self.held {
            HeldBytes::Own { body, .. } if self.id == origin => Some(body),
            HeldBytes::Own { .. } => None,
            HeldBytes::Joined { pieces, .. } => chain_from(pieces, origin),
        }
    }

    /// The upload's piece, for an upload that is joined of it and others, before its blocks are held for that. All memory that
    /// the join needs for this part is taken here, so that it can't fail where it has begun to hold blocks.
    /// The error is that there was no memory for the list of them.
    pub(crate) fn list(&self) -> Result<UnheldPiece, AllocError>
        requires { self.now.kept.kind ≢ Final }
        ensures { IfOk result (λ x. segment_of (as_piece x) ∷ [] ≡ map segment_of self.now.kept.pieces) }
    {
        match &self.held {
            HeldBytes::Own { body, .. } => Ok(UnheldPiece {
                origin: self.id,
                chain: body.list()?,
            }),
            HeldBytes::Joined { .. } => unreachable!(),
        }
    }

    /// Makes room in the list of the upload's blocks for so many more bytes. The error is that there was no memory
    /// for it, and then nothing changes.
    pub(crate) fn reserve(&mut self, pool: &Pool, more: u64) -> Result<(), AllocError>
        requires own { self.old.kept.kind ≢ Final }
        requires body { IsBodyOf pool.now (own_chain self.old.kept.pieces) }
        requires free { blocks_with pool.now (own_chain self.old.kept.pieces) more
            ≤ length (own_chain self.old.kept.pieces).blocks + free_in pool.now }
        ensures room { OnOk result (HasRoom pool.now (own_chain self.new.kept.pieces) more) }
        ensures once { StandsOnce (own_chain self.new.kept.pieces).blocks }
        ensures body { own_chain self.new.kept.pieces
            ≡ record (own_chain self.old.kept.pieces) { room = (own_chain self.new.kept.pieces).room } }
        ensures upload { OnOk result (self.new ≡ with_chain self.old (own_chain self.new.kept.pieces)) }
        ensures memory { OnErr result (length (own_chain self.old.kept.pieces).blocks
            < blocks_with pool.now (own_chain self.old.kept.pieces) more) }
        ensures unchanged { OnErr result (self.new ≡ self.old) }
    {
        match &mut self.held {
            HeldBytes::Own { body, .. } => reserve_within(body, pool, more),
            HeldBytes::Joined { .. } => unreachable!(),
        }
    }

    /// Adds bytes, for which room was made, at the end of the upload, and gives how many blocks were taken for them.
    pub(crate) fn put(&mut self, pool: &mut Pool, bytes: &[u8]) -> u64
        requires own { self.old.kept.kind ≢ Final }
        requires body { IsBodyOf pool.old (own_chain self.old.kept.pieces) }
        requires last { 0 < length bytes.now → IsLastOwn pool.old (own_chain self.old.kept.pieces) }
        requires room { HasRoom pool.old (own_chain self.old.kept.pieces) (length bytes.now) }
        ensures taken { length (own_chain self.new.kept.pieces).blocks
            ≡ length (own_chain self.old.kept.pieces).blocks + result }
        ensures puts { Puts pool.old (own_chain self.old.kept.pieces) bytes.now
            pool.new (own_chain self.new.kept.pieces) }
        ensures once { StandsOnce (own_chain self.new.kept.pieces).blocks }
        ensures upload { self.new ≡ with_chain self.old (own_chain self.new.kept.pieces) }
    {
        match &mut self.held {
            HeldBytes::Own { body, .. } => body.put(pool, bytes),
            HeldBytes::Joined { .. } => unreachable!(),
        }
    }

    /// Tells the upload's length, and when it expires.
    pub(crate) fn renew(&mut self, declared: Option<u64>, expires: Option<Moment>)
        ensures { self.new ≡ with_head self.old declared expires }
    {
        self.declared = declared;
        self.expires = expires;
    }

    /// Ends the upload: each of its blocks is held once less. Gives how many became free, and its texts, whose box may serve
    /// another upload.
    pub(crate) fn give_back(self, pool: &mut Pool) -> (u64, UploadTexts)
        requires { IsHeld pool.old (placed_in self.kept.pieces) }
        ensures blocks { GivesBack pool.old (placed_in self.kept.pieces) result.0 pool.new }
        ensures kind { is_boxed result.1 ≡ self.kept.boxed }
    {
        let StoredUpload { held, texts, .. } = self;
        let freed = match held {
            HeldBytes::Own { body, .. } => body.give_back(pool),
            HeldBytes::Joined { pieces, .. } => give_back_each(pieces, pool),
        };
        (freed, texts)
    }
}

/// A body of no bytes with room for so many. The error is that there was no memory for the list of their blocks.
pub(crate) fn body_for(alloc: Global, pool: &Pool, more: u64) -> Result<Body, AllocError>
    requires blocks { 0 < pool.now.block_size }
    requires free { blocks_with pool.now no_chain more ≤ free_in pool.now }
    ensures empty { IfOk result (λ body. body ≡ record no_chain { room = body.room }) }
    ensures room { IfOk result (λ body. HasRoom pool.now body more) }
    ensures once { IfOk result (λ body. StandsOnce body.blocks) }
    ensures memory { OnErr result (0 < blocks_with pool.now no_chain more) }
{
    let mut body = Body::empty(alloc);
    match reserve_within(&mut body, pool, more) {
        Ok(()) => Ok(body),
        Err(fault) => Err(fault),
    }
}

// Makes room in the list of a body where enough blocks are free.
fn reserve_within(body: &mut Body, pool: &Pool, more: u64) -> Result<(), AllocError>
    requires body { IsBodyOf pool.now body.old }
    requires free { blocks_with pool.now body.old more ≤ length body.old.blocks + free_in pool.now }
    ensures room { OnOk result (HasRoom pool.now body.new more) }
    ensures once { StandsOnce body.new.blocks }
    ensures body { body.new ≡ record body.old { room = body.new.room } }
    ensures memory { OnErr result (length body.old.blocks < blocks_with pool.now body.old more) }
    ensures unchanged { OnErr result (body.new ≡ body.old) }
{
    match body.reserve(pool, more) {
        Ok(_) => Ok(()),
        Err(BodyFault::Memory) => Err(AllocError),
        Err(BodyFault::Full) => unreachable!(),
    }
}

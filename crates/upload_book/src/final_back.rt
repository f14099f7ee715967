//! The segments of a final upload that is put back: each brings its bytes, or they are those of a piece that stands.
ghost use Rattle.std.specs.Prelude.{◌≡◌, ◌+◌, ◌<◌, ◌≤◌, ◌^◌, ◌++◌, [], length, option_map, vec_len, vec_capacity, All, IfOk};
ghost use Rattle.std.specs.List.{list_all};
ghost use Rattle.block_pool.specs.Blocks.{Blocks};
ghost use Rattle.upload_book.specs.inside.FinalBack.{AreRoomsFor, Brings, BringsTo, HasBytes, IsRoomFor, MayBring, MayBringEach, brought_blocks, brought_from, brought_in, chain_from, left_of, left_with, segment_len, sent_len};
ghost use Rattle.upload_book.specs.inside.Ids.{AreBelow};
ghost use Rattle.upload_book.specs.inside.Kept.{stored_tenant_of, AreInOrder};
ghost use Rattle.upload_book.specs.inside.Pieces.{HasOwnPiece, ReadsWhole};
ghost use Rattle.upload_book.specs.snapshot.Restore.{may_be_part, sent_back, sent_in};
ghost use Rattle.upload_book.specs.Stored.{part_of, pieces_of};

use crate::pieces::{Piece, chain_from};
use crate::restored::RestoredSegment;
use crate::stored_tenant::StoredTenant;
use block_bodies::Body;
use block_pool::Pool;
use std::alloc::{AllocError, Global};

/// What is left of three limits for a final upload that is put back; each is `None` where it is passed.
#[derive(Clone, Copy, Debug)]
pub(crate) struct Left {
    /// Of its length, in bytes; also `None` where that is not known.
    pub(crate) bytes: Option<u64>,
    /// Of its tenant's quota, in blocks.
    pub(crate) quota: Option<u64>,
    /// Of the blocks that all tenants may be charged.
    pub(crate) total: Option<u64>,
}

impl Left {
    /// What is left where it has so many bytes more, and so many blocks more are taken.
    fn with(self, bytes: u64, blocks: u64) -> Left
        ensures { result ≡ left_with self bytes blocks }
    {
        Left {
            bytes: left_of(self.bytes, bytes),
            quota: left_of(self.quota, blocks),
            total: left_of(self.total, blocks),
        }
    }
}

// What is left of a limit where so much is used of it.
fn left_of(limit: Option<u64>, used: u64) -> Option<u64>
    ensures { result ≡ left_of limit used }
{
    limit?.checked_sub(used)
}

// How many bytes the first of some segments of this origin brings, where there is one and it does.
fn brought_len(segments: &[RestoredSegment], origin: u64) -> Option<u64>
    ensures { result ≡ option_map length (brought_from segments.now origin) }
{
    for place in 0..segments.len() {
        let segment = &segments[place];
        if segment.origin == origin {
            return segment.len();
        }
    }
    None
}

/// How many blocks of a size the bytes take that some segments bring.
pub(crate) fn brought_in(segments: &[RestoredSegment], size: u64) -> u64
    requires size { 0 < size }
    requires fits { brought_in size segments.now < 2 ^ 64 }
    ensures { result ≡ brought_in size segments.now }
{
    let mut total = 0;
    for place in 0..segments.len() {
        let segment = &segments[place];
        total += segment.blocks(size);
    }
    total
}

impl StoredTenant {
    /// What is left of limits where these segments are put back, one after another, in blocks of a size; `None` where one
    /// lacks its bytes or brings them again. For each segment it goes over the uploads from the one of its origin on.
    pub(crate) fn left(&self, segments: &[RestoredSegment], limits: Left, size: u64) -> Option<Left>
        requires size { 0 < size }
        requires order { AreInOrder (stored_tenant_of self.now) }
        ensures { (p : Blocks) → All HasOwnPiece (stored_tenant_of self.now).uploads
            → ReadsWhole p (pieces_of (stored_tenant_of self.now))
            → result ≡ option_map (λ sent. left_with limits (sent_len sent) (brought_in size segments.now))
            (sent_back (sent_in (part_of p (stored_tenant_of self.now)).uploads) segments.now) }
    {
        let mut left = limits;
        for place in 0..segments.len() {
            let segment = &segments[place];
            let len = self.segment_len(&segments[..place], segment)?;
            left = left.with(len, segment.blocks(size));
        }
        Some(left)
    }

    // How many bytes a segment has behind these; `None` where it lacks its bytes or brings them again.
    fn segment_len(&self, earlier: &[RestoredSegment], segment: &RestoredSegment) -> Option<u64>
        requires { AreInOrder (stored_tenant_of self.now) }
        ensures { result ≡ segment_len (pieces_of (stored_tenant_of self.now)) earlier.now segment.now }
    {
        let standing = match self.chain_from(segment.origin) {
            Some(chain) => Some(chain.len()),
            None => brought_len(earlier, segment.origin),
        };
        match standing {
            None => segment.len(),
            Some(len) if segment.bytes.is_none() => Some(len),
            Some(_) => None,
        }
    }

    /// Whether what stands under the origin of each segment, if anything does, is a partial upload with all of its bytes.
    pub(crate) fn may_be_parts(&self, segments: &[RestoredSegment]) -> bool
        requires { AreBelow self.now.next self.now.uploads.items }
        ensures { (p : Blocks) → ReadsWhole p (pieces_of (stored_tenant_of self.now))
            → result ≡ list_all (λ s. may_be_part (part_of p (stored_tenant_of self.now)) s.origin) segments.now }
    {
        for place in 0..segments.len() {
            let segment = &segments[place];
            if !self.may_be_part(segment.origin) {
                return false;
            }
        }
        true
    }

    // Whether what stands under an id, if anything does, is such an upload.
    fn may_be_part(&self, id: u64) -> bool
        requires { AreBelow self.now.next self.now.uploads.items }
        ensures { (p : Blocks) → ReadsWhole p (pieces_of (stored_tenant_of self.now))
            → result ≡ may_be_part (part_of p (stored_tenant_of self.now)) id }
    {
        match self.place(id) {
            Some(place) => self.uploads[place].may_be_part(),
            None => true,
        }
    }

    /// An empty body for each segment, with room for its blocks. The error is that there was no memory for the lists of
    /// them.
    pub(crate) fn rooms_for(
        &self,
        alloc: Global,
        segments: &[RestoredSegment],
        size: u64,
    ) -> Result<Vec<Body>, AllocError>
        requires size { 0 < size }
        requires order { AreInOrder (stored_tenant_of self.now) }
        ensures { IfOk result (λ v. AreRoomsFor size (pieces_of (stored_tenant_of self.now)) segments.now v.items) }
    {
        let mut bodies = Vec::with_capacity(alloc, segments.len())?;
        for place in 0..segments.len() {
            let len = self.segment_len(&segments[..place], &segments[place]);
            bodies.push_reserved(room_for(alloc, len.unwrap_or(0), size)?);
        }
        Ok(bodies)
    }

    /// Has the segments of a final upload that is put back, one after another, by pieces in bodies with room for them.
    pub(crate) fn bring_each(
        &self,
        segments: &[RestoredSegment],
        bodies: Vec<Body>,
        pool: &mut Pool,
        pieces: &mut Vec<Piece>,
    )
        requires order { AreInOrder (stored_tenant_of self.now) }
        requires none { pieces.old.items ≡ [] }
        requires room { length segments.now ≤ vec_capacity pieces.old }
        requires may { MayBringEach pool.old (pieces_of (stored_tenant_of self.now)) segments.now bodies.items }
        ensures { BringsTo pool.old (pieces_of (stored_tenant_of self.now)) segments.now (length segments.now)
            pool.new pieces.new.items }
    {
        for body in bodies {
            self.bring(&segments[pieces.len()], body, pool, pieces);
        }
    }

    // Has a segment at the end of these pieces: its bytes are put into the body, or the body holds the blocks of a piece of its
    // origin.
    fn bring(&self, segment: &RestoredSegment, body: Body, pool: &mut Pool, pieces: &mut Vec<Piece>)
        requires order { AreInOrder (stored_tenant_of self.now) }
        requires room { vec_len pieces.old < vec_capacity pieces.old }
        requires may { MayBring pool.old (pieces_of (stored_tenant_of self.now) ++ pieces.old.items) segment.now body }
        ensures brings { Brings pool.old (pieces_of (stored_tenant_of self.now)) pieces.old.items segment.now
            pool.new pieces.new.items }
        ensures len { vec_len pieces.new ≡ vec_len pieces.old + 1 }
        ensures room_kept { vec_capacity pieces.old ≤ vec_capacity pieces.new }
    {
        let mut chain = body;
        self.fill(segment, pieces, &mut chain, pool);
        pieces.push_reserved(Piece {
            origin: segment.origin,
            chain,
        });
    }

    // Fills an empty body with a segment.
    fn fill(&self, segment: &RestoredSegment, pieces: &[Piece], body: &mut Body, pool: &mut Pool)
        requires order { AreInOrder (stored_tenant_of self.now) }
        requires may { MayBring pool.old (pieces_of (stored_tenant_of self.now) ++ pieces.now) segment.now body.old }
        ensures { HasBytes pool.old (pieces_of (stored_tenant_of self.now) ++ pieces.now)
            segment.now.origin segment.now.bytes pool.new body.new }
    {
        match segment.bytes {
            Some(bytes) => {
                body.put(pool, bytes);
            }
            None => match self.standing(pieces, segment.origin) {
                Some(chain) => chain.share_into(body, pool),
                None => unreachable!(),
            },
        }
    }

    // The body of the first piece of an origin, of the tenant's and these.
    fn standing<'a>(&'a self, pieces: &'a [Piece], origin: u64) -> Option<&'a Body>
        requires { AreInOrder (stored_tenant_of self.now) }
        ensures { option_map (λ chain. chain.now) result
            ≡ chain_from (pieces_of (stored_tenant_of self.now) ++ pieces.now) origin }
    {
        match self.chain_from(origin) {
            Some(chain) => Some(chain),
            None => chain_from(pieces, origin),
        }
    }
}

// An empty body with room for so many bytes, in blocks of a size. The error is that there was no memory for its list.
fn room_for(alloc: Global, len: u64, size: u64) -> Result<Body, AllocError>
    requires { 0 < size }
    ensures { IfOk result (IsRoomFor size len) }
{
    Body::with_room(alloc, len.div_ceil(size) as usize)
}

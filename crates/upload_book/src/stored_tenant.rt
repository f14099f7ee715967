ghost use Rattle.std.specs.Prelude.{◌≡◌, ◌==◌, ℕ, ◌++◌, ◌+◌, ◌-◌, ◌<◌, ◌≤◌, All, None, Some, IfOk, IfErr, IfSome, IfNone, drop, flat_map, get_or, is_some, length, option_map, position, take, vec_capacity, vec_len};
ghost use Rattle.std.specs.List.Sorted.{IsPermutation};
ghost use Rattle.block_pool.specs.Blocks.{free_in};
ghost use Rattle.block_bodies.specs.Bodies.{IsHeld};
ghost use Rattle.block_bodies.specs.Changes.{GivesBack};
ghost use Rattle.upload_book.specs.inside.ChargeAfter.{left};
ghost use Rattle.upload_book.specs.inside.FinalBack.{chain_from};
ghost use Rattle.upload_book.specs.Stored as stored;
ghost use Rattle.upload_book.specs.inside.Swept.{EndsExpired, FindsRoom, IsBoxed};
ghost use Rattle.upload_book.specs.Stored.{part_kept, pieces_of, placed_in};
ghost use Rattle.upload_book.specs.TenantBook.{Entry, opening_part, visible_in};

use crate::charge_after::Ended;
use crate::head_row::Kind;
use crate::moment::Moment;
use crate::refusal::Refusal;
use crate::stored_upload::StoredUpload;
use crate::texts::{Texts, boxes_from_start};
use block_bodies::Body;
use block_pool::Pool;
use std::alloc::{AllocError, Global};

/// A tenant's part of the book: its quota in blocks, the id that its next upload gets, the blocks that it
/// pays, its uploads by ascending id, and, where it may have at most 64, the boxes for the texts of as many more.
#[derive(Drop)]
pub(crate) struct StoredTenant {
    pub(crate) quota: u64,
    pub(crate) next: u64,
    pub(crate) charge: u64,
    pub(crate) uploads: Vec<StoredUpload>,
    pub(crate) spare: Vec<Box<Texts>>,
}

impl StoredTenant {
    ghost use Rattle.upload_book.specs.inside.Ids.{AreBelow};
    ghost use Rattle.upload_book.specs.inside.Kept.{stored_tenant_of, AreInOrder, HasUploadRoom, IsPartAt, IsVisibleAt};

    /// The part of a tenant that has no upload yet, with room for so many. All memory for them is taken here, but
    /// for the lists of their blocks, and for their texts where they may be more than 64; the error is that there was too
    /// little.
    pub(crate) fn new(alloc: Global, quota: u64, room: usize) -> Result<StoredTenant, AllocError>
        ensures stored_tenant { IfOk result (λ t. stored_tenant_of t ≡ opening_part quota) }
        ensures charge { IfOk result (λ t. t.charge ≡ 0) }
        ensures room { IfOk result (HasUploadRoom room) }
    {
        Ok(StoredTenant {
            quota,
            next: 1,
            charge: 0,
            uploads: Vec::with_capacity(alloc, room)?,
            spare: Texts::boxes(alloc, boxes_from_start(room))?,
        })
    }

    /// The place of the upload that a request for `id` sees at `now`. It is Unknown where the id was
    /// never given, and Gone where its upload has ended or expired.
    pub(crate) fn visible(&self, id: u64, now: Moment) -> Result<usize, Refusal>
        requires { AreBelow self.now.next self.now.uploads.items }
        ensures place { IfOk result (λ i. IsVisibleAt (stored_tenant_of self.now) id now i) }
        ensures refused { IfErr result
            (λ e. visible_in (λ u. u.expires) (stored_tenant_of self.now) id now ≡ Err e) }
    {
        if id == 0 || self.next <= id {
            return Err(Refusal::Unknown);
        }
        match self.place(id) {
            Some(place) if !self.uploads[place].has_expired(now) => Ok(place),
            _ => Err(Refusal::Gone),
        }
    }

    /// The place of the upload that a part of a concatenation names, where it is a partial one that a request
    /// sees at `now`.
    pub(crate) fn part(&self, named: Option<u64>, now: Moment) -> Option<usize>
        requires { AreBelow self.now.next self.now.uploads.items }
        ensures place { IfSome result (λ i. IsPartAt (stored_tenant_of self.now) named now i) }
        ensures none { IfNone result (part_kept (stored_tenant_of self.now) now named ≡ None) }
    {
        let place = self.visible(named?, now).ok()?;
        if self.uploads[place].kind() == Kind::Partial {
            Some(place)
        } else {
            None
        }
    }

    /// The place of the upload with this id, if it is still there. It is found by halving.
    pub(crate) fn place(&self, id: u64) -> Option<usize>
        requires { AreBelow self.now.next self.now.uploads.items }
        ensures { result ≡ position (λ e. e.id == id) self.now.uploads.items }
    {
        self.uploads
            .binary_search_by_key(&id, |upload| upload.id())
            .ok()
    }

    /// The body of the first of the tenant's pieces that has this origin, where there is one. It goes over the uploads from the
    /// one of this origin on.
    pub(crate) fn chain_from(&self, origin: u64) -> Option<&Body>
        requires { AreInOrder (stored_tenant_of self.now) }
        ensures { option_map (λ chain. chain.now) result ≡ chain_from (pieces_of (stored_tenant_of self.now)) origin }
    {
        first_chain(self.since(self.uploads.len(), origin), origin)
    }

    /// Whether a piece of an upload before a place, or a piece before one of the upload there, has this origin. It goes
    /// over the uploads from the one of this origin on.
    pub(crate) fn stands_before(&self, place: usize, piece: usize, origin: u64) -> bool
        requires order { AreInOrder (stored_tenant_of self.now) }
        requires there { place < length self.now.uploads.items }
        requires pieces { (d : Entry stored.StoredUpload) → piece ≤ length (get_or self.now.uploads.items place d).kept.pieces }
        ensures { (d : Entry stored.StoredUpload) → result ≡ is_some (chain_from
            (flat_map (λ e. e.kept.pieces) (take place self.now.uploads.items)
            ++ take piece (get_or self.now.uploads.items place d).kept.pieces) origin) }
    {
        match first_chain(self.since(place, origin), origin) {
            Some(_) => true,
            None => self.uploads[place].stands_before(piece, origin),
        }
    }

    /// Ends the uploads that have expired at `now`: each of their blocks is held once less, and the boxes of their texts, where these lie in some, are spare. Gives how
    /// many they were. It goes over the uploads once, and over the blocks of those that end.
    pub(crate) fn sweep(&mut self, now: Moment, pool: &mut Pool) -> usize
        requires held { IsHeld pool.old (placed_in (pieces_of (stored_tenant_of self.old))) }
        requires room { All (FindsRoom (vec_len self.old.uploads + vec_len self.old.spare) (vec_capacity self.old.spare)) self.old.uploads.items }
        ensures ends { EndsExpired now pool.old self.old.uploads.items pool.new self.new.uploads.items }
        ensures ended { result + length self.new.uploads.items ≡ length self.old.uploads.items }
        ensures quota { self.new.quota ≡ self.old.quota }
        ensures next { self.new.next ≡ self.old.next }
        ensures charge { self.new.charge ≡ self.old.charge }
        ensures room_stays { (room : ℕ) → HasUploadRoom room self.old → HasUploadRoom room self.new }
    {
        let before = self.uploads.len();
        let left = gather_left(&mut self.uploads, now);
        end_from(left, &mut self.uploads, pool, &mut self.spare);
        before - left
    }

    // The uploads before a place that stand under this id or a later one. No other has a piece of this origin.
    fn since(&self, place: usize, origin: u64) -> &[StoredUpload]
        requires order { AreInOrder (stored_tenant_of self.now) }
        requires there { place ≤ length self.now.uploads.items }
        ensures { chain_from (flat_map (λ e. e.kept.pieces) result.now) origin
            ≡ chain_from (flat_map (λ e. e.kept.pieces) (take place self.now.uploads.items)) origin }
    {
        let before = &self.uploads[..place];
        let first = before.partition_point(|upload| upload.id() < origin);
        &before[first..]
    }
}

// The body of the first piece of this origin of some uploads, where there is one.
fn first_chain(uploads: &[StoredUpload], origin: u64) -> Option<&Body>
    ensures { option_map (λ chain. chain.now) result ≡ chain_from (flat_map (λ e. e.kept.pieces) uploads.now) origin }
{
    for place in 0..uploads.len() {
        if let Some(chain) = uploads[place].chain_from(origin) {
            return Some(chain);
        }
    }
    None
}

// Moves the uploads that have expired at `now` behind the others, which stay in their order. Gives how many these are.
fn gather_left(uploads: &mut Vec<StoredUpload>, now: Moment) -> usize
    ensures left { take result uploads.new.items ≡ left (Some now) uploads.old.items }
    ensures moved { IsPermutation uploads.old.items uploads.new.items }
    ensures within { result ≤ length uploads.new.items }
    ensures capacity { vec_capacity uploads.new ≡ vec_capacity uploads.old }
{
    let ended = Ended {
        at: Some(now),
        finals_stay: false,
    };
    let mut left = 0;
    for place in 0..uploads.len() {
        if uploads[place].is_left(&ended) {
            uploads.swap(left, place);
            left += 1;
        }
    }
    left
}

// Ends the uploads from a place on. The boxes of their texts, where these lie in some, are spare then.
fn end_from(
    place: usize,
    uploads: &mut Vec<StoredUpload>,
    pool: &mut Pool,
    spare: &mut Vec<Box<Texts>>,
)
    requires place { place ≤ length uploads.old.items }
    requires held { IsHeld pool.old (placed_in (flat_map (λ e. e.kept.pieces) (drop place uploads.old.items))) }
    requires room { All (FindsRoom (vec_len uploads.old + vec_len spare.old) (vec_capacity spare.old)) uploads.old.items }
    ensures uploads { uploads.new.items ≡ take place uploads.old.items }
    ensures gives { GivesBack pool.old (placed_in (flat_map (λ e. e.kept.pieces) (drop place uploads.old.items)))
        (free_in pool.new - free_in pool.old) pool.new }
    ensures capacity { vec_capacity uploads.new ≡ vec_capacity uploads.old }
    ensures boxes { All IsBoxed uploads.old.items → vec_len uploads.new + vec_len spare.new ≡ vec_len uploads.old + vec_len spare.old }
    ensures spare_room { vec_capacity spare.new ≡ vec_capacity spare.old }
{
    while uploads.len() > place {
        let upload = uploads.pop().unwrap();
        let (_, texts) = upload.give_back(pool);
        texts.give_back(spare);
    }
}

//! What a tenant will pay once uploads have ended, found before any of them ends, and without memory.
//!
//! A tenant pays each origin once: the most blocks that a piece of it takes. So of a piece that ends its tenant no
//! longer pays the blocks that it takes beyond those of every other piece of its origin. A piece without bytes takes none,
//! and a block that is held once tells that there is no other. One that is held more often is held by final uploads, beside the
//! upload to which it was sent: so where no final one ends, that upload's piece is not paid less. Only other pieces are sought.
ghost use Rattle.std.specs.Prelude.{◌≡◌, ◌↔◌, ◌+◌, ◌<◌, ◌^◌, IsTrue, Some, get_or, length};
ghost use Rattle.std.specs.List.{remove};
ghost use Rattle.upload_book.specs.Charge.{price};
ghost use Rattle.upload_book.specs.declared.pieces.Piece.{Piece};
ghost use Rattle.upload_book.specs.inside.ChargeAfter.{cost_of, left, left_beside, left_to, price_elsewhere, sources_kept, AreCounted, AreFinalsLeft, IsPaid};
ghost use Rattle.upload_book.specs.inside.Kept.{stored_tenant_of};
ghost use Rattle.upload_book.specs.Stored as stored;
ghost use Rattle.upload_book.specs.TenantBook.{Entry};

use crate::moment::Moment;
use crate::stored_tenant::StoredTenant;
use crate::stored_upload::StoredUpload;
use block_pool::Pool;

/// Which uploads have ended: those that had expired at this moment, or none where there is no moment.
#[derive(Clone, Copy, Debug)]
pub(crate) struct Ended {
    pub(crate) at: Option<Moment>,
    /// Whether it is known that no final upload is among them.
    pub(crate) finals_stay: bool,
}

impl StoredTenant {
    /// What the tenant will pay, in blocks of this size, once the upload at a place has ended. For a final upload it goes over
    /// the tenant's pieces once for each of its pieces whose blocks others hold too.
    pub(crate) fn charge_without(&self, place: usize, size: u64, pool: &Pool) -> u64
        requires place { place < length self.now.uploads.items }
        requires size { 0 < size }
        requires paid { IsPaid size self.now }
        requires counted { AreCounted pool.now (stored_tenant_of self.now) }
        ensures { result ≡ cost_of size self.now.next (remove self.now.uploads.items place) }
    {
        let none = Ended {
            at: None,
            finals_stay: true,
        };
        self.charge - self.released(place, &none, size, pool)
    }

    /// What the tenant will pay, in blocks of this size, once its uploads that have expired at `now` have ended. It goes over the
    /// uploads twice. Where a final one has expired, it goes over the tenant's pieces once for each piece of an upload that has
    /// expired whose blocks others hold too.
    pub(crate) fn charge_swept(&self, now: Moment, size: u64, pool: &Pool) -> u64
        requires size { 0 < size }
        requires paid { IsPaid size self.now }
        requires counted { AreCounted pool.now (stored_tenant_of self.now) }
        ensures { result ≡ cost_of size self.now.next (left (Some now) self.now.uploads.items) }
    {
        let ended = self.ended_at(now);
        let mut released = 0;
        for place in 0..self.uploads.len() {
            released += self.released_at(place, &ended, size, pool);
        }
        self.charge - released
    }

    // The uploads that had expired at `now`, as ended. It looks whether a final one is among them.
    fn ended_at(&self, now: Moment) -> Ended
        ensures at { result.at ≡ Some now }
        ensures finals { IsTrue result.finals_stay ↔ AreFinalsLeft result.at self.now.uploads.items }
    {
        let ended = Ended {
            at: Some(now),
            finals_stay: false,
        };
        Ended {
            at: ended.at,
            finals_stay: self
                .uploads
                .iter()
                .all(|upload| upload.is_left_if_final(&ended)),
        }
    }

    // How many blocks the tenant no longer pays once the upload at a place has ended, if it ends, where of those before
    // it the others that end have.
    fn released_at(&self, place: usize, ended: &Ended, size: u64, pool: &Pool) -> u64
        requires place { place < length self.now.uploads.items }
        requires size { 0 < size }
        requires paid { IsPaid size self.now }
        requires finals { IsTrue ended.now.finals_stay → AreFinalsLeft ended.now.at self.now.uploads.items }
        requires counted { AreCounted pool.now (stored_tenant_of self.now) }
        ensures { cost_of size self.now.next (left_to ended.now.at self.now.uploads.items (place + 1)) + result
            ≡ cost_of size self.now.next (left_to ended.now.at self.now.uploads.items place) }
    {
        if self.uploads[place].is_left(ended) {
            return 0;
        }
        self.released(place, ended, size, pool)
    }

    // How many blocks the tenant no longer pays once the upload at a place has ended, where of those before it the
    // others that end have.
    fn released(&self, place: usize, ended: &Ended, size: u64, pool: &Pool) -> u64
        requires place { place < length self.now.uploads.items }
        requires size { 0 < size }
        requires paid { IsPaid size self.now }
        requires finals { IsTrue ended.now.finals_stay → AreFinalsLeft ended.now.at self.now.uploads.items }
        requires counted { AreCounted pool.now (stored_tenant_of self.now) }
        ensures { cost_of size self.now.next (left_beside ended.now.at self.now.uploads.items place) + result
            ≡ cost_of size self.now.next (left_to ended.now.at self.now.uploads.items place) }
    {
        let upload = &self.uploads[place];
        let mut released = 0;
        for piece in 0..upload.piece_count() {
            let blocks = upload.blocks(piece, size);
            if blocks > 0 {
                let held = self.price_elsewhere(place, piece, ended, size, pool);
                released += blocks.saturating_sub(held);
            }
        }
        released
    }

    // The most blocks that another piece takes of the origin of a piece of the upload at a place: of those behind it, and of
    // those in the uploads beside, where of those before it the others that end have.
    fn price_elsewhere(
        &self,
        place: usize,
        piece: usize,
        ended: &Ended,
        size: u64,
        pool: &Pool,
    ) -> u64
        requires place { place < length self.now.uploads.items }
        requires piece { (d : Entry stored.StoredUpload) → piece < length (get_or self.now.uploads.items place d).kept.pieces }
        requires range { piece + 1 < 2 ^ 64 }
        requires size { 0 < size }
        requires finals { IsTrue ended.now.finals_stay → AreFinalsLeft ended.now.at self.now.uploads.items }
        requires counted { AreCounted pool.now (stored_tenant_of self.now) }
        ensures { (d : Entry stored.StoredUpload) (x : Piece) → result ≡ price_elsewhere size (get_or self.now.uploads.items place d).kept.pieces piece
            (sources_kept (left_beside ended.now.at self.now.uploads.items place))
            (get_or (get_or self.now.uploads.items place d).kept.pieces piece x).origin }
    {
        let upload = &self.uploads[place];
        if let Some(block) = upload.block(piece, 0) {
            if pool.count(block) == 1 {
                return 0;
            }
            if ended.finals_stay && !upload.is_final() {
                return upload.blocks(piece, size);
            }
        }
        let origin = upload.origin(piece);
        let later = upload.price_from(piece + 1, size, origin);
        later.max(self.price_beside(place, ended, size, origin))
    }

    // The most blocks that a piece of this origin takes in the uploads beside the one at a place, where of those
    // before it the others that end have.
    fn price_beside(&self, place: usize, ended: &Ended, size: u64, origin: u64) -> u64
        requires place { place < length self.now.uploads.items }
        requires size { 0 < size }
        ensures { result ≡ price size (sources_kept (left_beside ended.now.at self.now.uploads.items place)) origin }
    {
        let none = Ended {
            at: None,
            finals_stay: true,
        };
        let (before, _) = self.uploads.split_at(place);
        let (_, later) = self.uploads.split_at(place + 1);
        let dearest_before = price_left(before, ended, size, origin);
        let dearest_later = price_left(later, &none, size, origin);
        dearest_before.max(dearest_later)
    }
}

// The most blocks that a piece of this origin takes in those uploads that have not ended.
fn price_left(uploads: &[StoredUpload], ended: &Ended, size: u64, origin: u64) -> u64
    requires { 0 < size }
    ensures { result ≡ price size (sources_kept (left ended.now.at uploads.now)) origin }
{
    let mut most: u64 = 0;
    for upload in uploads {
        if upload.is_left(ended) {
            most = most.max(upload.price_from(0, size, origin));
        }
    }
    most
}

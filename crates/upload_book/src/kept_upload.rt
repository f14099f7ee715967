//! The uploads of a book as pieces of a snapshot of it, whose bytes are lent where they lie.
ghost use Rattle.std.specs.Prelude.{◌≡◌, ◌<◌, length, option_map, slice_get, take};
ghost use Rattle.upload_book.specs.Book.{plain_of};
ghost use Rattle.upload_book.specs.PlainBook.{tenant_book};
ghost use Rattle.upload_book.specs.snapshot.Snapshot.{upload_kept};

use crate::book::Book;
use crate::row_ref::RowRef;
use crate::stored_tenant::StoredTenant;
use block_bodies::Body;
use block_pool::Pool;
use std::marker::Model;

/// An upload of a book, lent, as it is put back behind its tenant's uploads before it. A contract sees it as that piece.
#[derive(Drop)]
pub struct KeptUpload<'a> {
    pool: &'a Pool,
    stored_tenant: &'a StoredTenant,
    place: usize,
}

impl<'a> Model for KeptUpload<'a> {
    ghost use Rattle.upload_book.specs.snapshot.Restored as spec;

    ghost Value = { spec.RestoredUpload };

    ghost use Rattle.upload_book.specs.inside.Kept.{stored_tenant_of};
    ghost use Rattle.upload_book.specs.inside.KeptUpload.{IsKeptAt, kept_at};

    ghost view = { λ k. kept_at k.pool.now (stored_tenant_of k.stored_tenant.now) k.place };

    ghost invariant = { λ k. IsKeptAt k.pool.now k.stored_tenant.now k.place };
}

impl<'a> KeptUpload<'a> {
    ghost use Rattle.std.specs.Prelude.{◌≡◌, ◌<◌, get_or, length};
    ghost use Rattle.upload_book.specs.inside.Kept.{stored_tenant_of};
    ghost use Rattle.upload_book.specs.inside.KeptUpload.{IsKeptAt, kept_at};
    ghost use Rattle.upload_book.specs.snapshot.Restored.{RestoredSegment};

    /// The upload at a place of a tenant's part over a pool.
    pub(crate) fn new(
        pool: &'a Pool,
        stored_tenant: &'a StoredTenant,
        place: usize,
    ) -> KeptUpload<'a>
        requires { IsKeptAt pool.now stored_tenant.now place }
        ensures { result ≡ kept_at pool.now (stored_tenant_of stored_tenant.now) place }
    {
        KeptUpload {
            pool,
            stored_tenant,
            place,
        }
    }

    /// Its id.
    pub fn id(&self) -> u64
        ensures { result ≡ self.now.id }
    {
        self.stored_tenant.uploads[self.place].id()
    }

    /// All of it but its id and its segments; its texts are lent. How many bytes it has no clause tells: the segments have them.
    pub fn row(&self) -> RowRef<'a>
        ensures kind { result.kind ≡ self.now.kind }
        ensures declared { result.declared ≡ self.now.declared }
        ensures metadata { result.metadata ≡ self.now.metadata }
        ensures concat { result.concat ≡ self.now.concat }
        ensures expires { result.expires ≡ self.now.expires }
    {
        self.stored_tenant.uploads[self.place].head_row()
    }

    /// How many segments it has.
    pub fn segment_count(&self) -> usize
        ensures { result ≡ length self.now.segments }
    {
        self.stored_tenant.uploads[self.place].piece_count()
    }

    /// A segment, from 0. It goes over the tenant's pieces from the upload to which its bytes were sent up to this one.
    pub fn segment(&self, place: usize) -> KeptSegment<'a>
        requires { place < length self.now.segments }
        ensures { (d : RestoredSegment) → result ≡ get_or self.now.segments place d }
    {
        let upload = &self.stored_tenant.uploads[self.place];
        let origin = upload.origin(place);
        let stands = self.stored_tenant.stands_before(self.place, place, origin);
        KeptSegment {
            pool: self.pool,
            origin,
            chain: if stands {
                None
            } else {
                Some(upload.chain(place))
            },
        }
    }
}

/// A segment of an upload, lent from the book. A contract sees it as the segment that is put back.
#[derive(Drop)]
pub struct KeptSegment<'a> {
    pool: &'a Pool,
    origin: u64,
    chain: Option<&'a Body>,
}

impl<'a> Model for KeptSegment<'a> {
    ghost use Rattle.upload_book.specs.snapshot.Restored as spec;

    ghost Value = { spec.RestoredSegment };

    ghost use Rattle.upload_book.specs.inside.KeptUpload.{IsSegmentAt, segment_at};

    ghost view = { λ s. segment_at s.pool.now s.origin s.chain };

    ghost invariant = { λ s. IsSegmentAt s.pool.now s.chain };
}

impl<'a> KeptSegment<'a> {
    ghost use Rattle.std.specs.Prelude.{◌≡◌, ◌<◌, ℕ, List, [], None, Some, drop, length, option_map, take};

    /// The upload to which its bytes were sent.
    pub fn origin(&self) -> u64
        ensures { result ≡ self.now.origin }
    {
        self.origin
    }

    /// How many bytes it brings; `None` where they are those of a segment of the same origin that is before it.
    pub fn len(&self) -> Option<u64>
        ensures { result ≡ option_map length self.now.bytes }
    {
        match self.chain {
            Some(chain) => Some(chain.len()),
            None => None,
        }
    }

    /// The bytes that it brings from an offset on, as many as lie together in one block; none from their end on, or where it
    /// brings none. No byte is copied.
    pub fn bytes_from(&self, offset: u64) -> &'a [u8]
        ensures none { self.now.bytes ≡ None → result.now ≡ [] }
        ensures bytes { (bytes : List ℕ) → self.now.bytes ≡ Some bytes → result.now ≡ take (length result.now) (drop offset bytes) }
        ensures some { (bytes : List ℕ) → self.now.bytes ≡ Some bytes → offset < length bytes → 0 < length result.now }
    {
        match self.chain {
            Some(chain) => chain.bytes_from(self.pool, offset),
            None => &[],
        }
    }
}

impl Book {
    /// A tenant's upload, at a place of its uploads, as a piece of a snapshot of the book; `None` past the last one. Both places
    /// count from 0. The snapshot has each upload behind a piece with its id; behind a tenant's uploads its next id; and behind
    /// all tenants the totals. It takes no memory.
    pub fn kept_upload(&self, tenant: u8, place: usize) -> Option<KeptUpload<'_>>
        requires { tenant < length (plain_of self.now).settings.tenants }
        ensures { result ≡ option_map
            (λ e. upload_kept (take place (tenant_book (plain_of self.now) tenant).uploads) e)
            (slice_get (tenant_book (plain_of self.now) tenant).uploads place) }
    {
        self.store.kept_upload(usize::from(tenant), place)
    }

    /// The id that the next upload of the tenant at this place gets.
    pub fn next_id(&self, tenant: u8) -> u64
        requires { tenant < length (plain_of self.now).settings.tenants }
        ensures { result ≡ (tenant_book (plain_of self.now) tenant).next }
    {
        self.store.next(usize::from(tenant))
    }
}

ghost use Rattle.std.specs.Prelude.{◌≡◌, ◌≢◌, ℕ, ◌++◌, drop, vec_len, ◌+◌, ◌-◌, ◌<◌, ◌≤◌, ◌^◌, ◌==◌, List, [], length, map, min, option_map, set, slice_get, take, vec_capacity, All, None, Some, IfOk, IfErr, IfSome, IfNone, IsOk, IsTrue, OnOk, OnErr};
ghost use Rattle.std.specs.List.{list_all, range_with_len, sum_by};
ghost use Rattle.block_pool.specs.Blocks.{IsWithinLimits, all_free, free_in, size_of};
ghost use Rattle.upload_book.specs.Account.{blocks_between};
ghost use Rattle.upload_book.specs.Charge.{charge_with};
ghost use Rattle.upload_book.specs.Concat.{are_complete, are_there, final_upload, joined_len, parts_found};
ghost use Rattle.upload_book.specs.Content.{bytes_at};
ghost use Rattle.upload_book.specs.Create.{new_kind, upload_from};
ghost use Rattle.upload_book.specs.Ready.{IsListed};
ghost use Rattle.upload_book.specs.inside.FinalBack.{AreRoomsFor, brought_in, left_with, sent_len};
ghost use Rattle.upload_book.specs.snapshot.Restore.{may_be_part, sent_back, sent_in, upload_back};
ghost use Rattle.upload_book.specs.Lawful.{IsConcatText, is_kept_metadata};
ghost use Rattle.upload_book.specs.Sweep.{part_after_sweep};
ghost use Rattle.upload_book.specs.declared.head_row.Kind.TheVariants.{Final};
ghost use Rattle.upload_book.specs.inside.Kept.{stored_tenant_of, HasUploadRoom};
ghost use Rattle.upload_book.specs.Settings.{AreSound};
ghost use Rattle.upload_book.specs.snapshot.Snapshot.{upload_kept};
ghost use Rattle.upload_book.specs.Progress.{progress_in};
ghost use Rattle.upload_book.specs.BlockStore.{opening_stored_tenants, plain_in, stored_tenant_at, part_at, pieces_named, entry_at, holders_at, rows_at, upload_at, Joins};
ghost use Rattle.upload_book.specs.inside.Places.{with_bytes, with_upload, without_upload, AreFew, IsAlone, IsPartIn, IsVisibleIn, MayKeep};
ghost use Rattle.upload_book.specs.Stored as kept;
ghost use Rattle.upload_book.specs.Stored.{part_kept, pieces_of, segment_of, HoldsPieces};
ghost use Rattle.upload_book.specs.inside.Pieces.{as_piece, no_chain, own_chain, HasOwnPiece};
ghost use Rattle.block_bodies.specs.Bodies.{HasRoom};
ghost use Rattle.block_bodies.specs.Changes.{SameSizes};
ghost use Rattle.upload_book.specs.inside.Texts.{IsTextsFor};
ghost use Rattle.upload_book.specs.TenantBook.{visible_upload, with_new, with_next};
ghost use Rattle.upload_book.specs.Upload.{content_of, head_row_of, offset_of};

use crate::content::ByteSpan;
use crate::create::NewUpload;
use crate::final_back::Left;
use crate::head_row::Name;
use crate::kept_upload::KeptUpload;
use crate::moment::Moment;
use crate::parts_seen::PartsSeen;
use crate::pieces::{UnheldPiece, hold_each};
use crate::progress::Progress;
use crate::ready::{ReadyBack, ReadyFinal};
use crate::refusal::Refusal;
use crate::restored::RestoredSegment;
use crate::row_ref::RowRef;
use crate::settings::Settings;
use crate::stored_tenant::StoredTenant;
use crate::stored_upload::{StoredUpload, body_for};
use crate::texts::{SharedTexts, UploadTexts};
use block_bodies::Body;
use block_pool::Pool;
use std::alloc::{AllocError, Global};
use std::marker::Model;

/// The uploads of all tenants, in blocks of one pool.
#[derive(Drop)]
pub(crate) struct BlockStore {
    pool: Pool,
    stored_tenants: Vec<StoredTenant>,
    room: usize,
}

impl Model for BlockStore {
    ghost use Rattle.upload_book.specs.BlockStore as spec;

    ghost Value = { spec.BlockStore };

    ghost use Rattle.upload_book.specs.inside.Kept.{store_of, IsKept};

    ghost view = { store_of };

    ghost invariant = { IsKept };
}

impl BlockStore {
    /// The store with no upload, with a part for each tenant of the settings. All its memory is taken here,
    /// but for the lists of the blocks of its uploads, and for their texts where a tenant may have more than 64; the error is
    /// that there was too little.
    pub(crate) fn new(alloc: Global, settings: &Settings) -> Result<BlockStore, AllocError>
        ensures value { IfOk result (λ s. s ≡ record {
          pool = all_free settings.now.numbers.blocks settings.now.numbers.block_size;
          stored_tenants = opening_stored_tenants settings.now.tenants;
          room = settings.now.numbers.uploads;
        }) }
        ensures sound { AreSound settings.now }
    {
        let numbers = settings.numbers();
        let pool = Pool::new(alloc, numbers.blocks as u32, numbers.block_size as u32)?;
        let stored_tenants = empty_stored_tenants(alloc, settings)?;
        Ok(BlockStore {
            pool,
            stored_tenants,
            room: numbers.uploads as usize,
        })
    }

    /// How many blocks are free: those that no tenant pays.
    pub(crate) fn free(&self) -> u32
        ensures value { result ≡ free_in self.now.pool }
        ensures in_use { free_in self.now.pool + sum_by (charge_with self.now.pool.block_size) (plain_in self.now)
            ≡ size_of self.now.pool }
    {
        self.pool.free()
    }

    /// How many blocks the tenant at this place pays; 0 where there is none.
    pub(crate) fn charge(&self, tenant: usize) -> u64
        ensures { result ≡ charge_with self.now.pool.block_size (part_at self.now tenant) }
    {
        if tenant < self.tenants() {
            self.stored_tenants[tenant].charge
        } else {
            0
        }
    }

    /// How many blocks each of 16 tenants pays, by its place; 0 where there is none.
    pub(crate) fn charges(&self) -> [u64; 16]
        ensures { result ≡ map (λ tenant. charge_with self.now.pool.block_size (part_at self.now tenant))
            (range_with_len 0 16) }
    {
        let mut charges = [0; 16];
        for tenant in 0..16 {
            charges[tenant] = self.charge(tenant);
        }
        charges
    }

    /// How many blocks the tenant at this place will pay once the upload at a place has ended. For a final upload it goes over
    /// the tenant's pieces once for each of its pieces whose blocks others hold too.
    pub(crate) fn charge_without(&self, tenant: usize, place: usize) -> u64
        requires tenant { tenant < length self.now.stored_tenants }
        requires place { place < length (stored_tenant_at self.now tenant).uploads }
        ensures { result ≡ charge_with self.now.pool.block_size (without_upload (part_at self.now tenant) place) }
    {
        let size = u64::from(self.pool.block_size());
        self.stored_tenants[tenant].charge_without(place, size, &self.pool)
    }

    /// How many blocks each of 16 tenants will pay, by its place, once all uploads that have expired at `now` have
    /// ended; 0 where there is no tenant. It goes over all uploads twice. Where a final one of a tenant has expired, it goes over
    /// the tenant's pieces once for each piece of an upload that has expired whose blocks others hold too.
    pub(crate) fn charges_swept(&self, now: Moment) -> [u64; 16]
        ensures { result ≡ map (λ tenant. charge_with self.now.pool.block_size
            (part_after_sweep now (part_at self.now tenant))) (range_with_len 0 16) }
    {
        let mut charges = [0; 16];
        for tenant in 0..16 {
            charges[tenant] = self.charge_swept(tenant, now);
        }
        charges
    }

    // How many blocks the tenant at this place will pay once its uploads that have expired at `now` have ended; 0 where
    // there is no tenant.
    fn charge_swept(&self, tenant: usize, now: Moment) -> u64
        ensures { result ≡ charge_with self.now.pool.block_size (part_after_sweep now (part_at self.now tenant)) }
    {
        if tenant < self.tenants() {
            let size = u64::from(self.pool.block_size());
            self.stored_tenants[tenant].charge_swept(now, size, &self.pool)
        } else {
            0
        }
    }

    /// The id that the tenant's next upload gets.
    pub(crate) fn next(&self, tenant: usize) -> u64
        requires { tenant < length self.now.stored_tenants }
        ensures { result ≡ (part_at self.now tenant).next }
    {
        self.stored_tenants[tenant].next
    }

    /// Sets the id that the tenant's next upload gets; the ids between were given then.
    pub(crate) fn set_next(&mut self, tenant: usize, next: u64)
        requires tenant { tenant < length self.old.stored_tenants }
        requires more { (stored_tenant_at self.old tenant).next ≤ next }
        ensures plain { plain_in self.new ≡ set (plain_in self.old) tenant (with_next (part_at self.old tenant) next) }
        ensures pool { self.new.pool ≡ self.old.pool }
        ensures room_stays { self.new.room ≡ self.old.room }
    {
        self.stored_tenants[tenant].next = next;
    }

    /// How many uploads the tenant has, expired ones included.
    pub(crate) fn count(&self, tenant: usize) -> usize
        requires { tenant < length self.now.stored_tenants }
        ensures { result ≡ length (part_at self.now tenant).uploads }
    {
        self.stored_tenants[tenant].uploads.len()
    }

    /// How many hold the block at a place of one of an upload's segments, both from 0, whether the upload has
    /// expired or not; `None` where there is none. With it a caller learns what every store keeps of its blocks.
    pub(crate) fn holders(&self, name: &Name, segment: usize, place: u64) -> Option<u64>
        ensures value { result ≡ holders_at self.now name.now.tenant name.now.id segment place }
        ensures stored { HoldsPieces self.now.pool self.now.stored_tenants }
    {
        let stored_tenant = self.stored_tenants.get(usize::from(name.tenant))?;
        let upload = &stored_tenant.uploads[stored_tenant.place(name.id)?];
        let block = upload.block(segment, place)?;
        Some(self.pool.count(block))
    }

    /// Says of the blocks what holds of every store, and does nothing.
    pub(crate) fn tell_blocks(&self)
        ensures stored { HoldsPieces self.now.pool self.now.stored_tenants }
        ensures own { All (λ (t : kept.StoredTenant). All HasOwnPiece t.uploads) self.now.stored_tenants }
    {
        self.pool.free();
    }

    /// The place, in its tenant's part, of the upload that a request for `name` sees at `now`.
    pub(crate) fn place(&self, name: &Name, now: Moment) -> Result<usize, Refusal>
        ensures there { IfOk result (λ i. name.now.tenant < length self.now.stored_tenants) }
        ensures visible { IfOk result (λ i. IsVisibleIn self.now name.now.tenant name.now.id now i) }
        ensures refused { IfErr result
            (λ e. visible_upload (part_at self.now name.now.tenant) name.now.id now ≡ Err e) }
    {
        match self.stored_tenants.get(usize::from(name.tenant)) {
            Some(stored_tenant) => stored_tenant.visible(name.id, now),
            None => Err(Refusal::Unknown),
        }
    }

    /// When the upload at a place expires, if it does.
    pub(crate) fn expires(&self, tenant: usize, place: usize) -> Option<Moment>
        requires tenant { tenant < length self.now.stored_tenants }
        requires place { place < length (stored_tenant_at self.now tenant).uploads }
        ensures { result ≡ (upload_at self.now tenant place).expires }
    {
        self.stored_tenants[tenant].uploads[place].expires()
    }

    /// What a HEAD tells of the upload at a place, whose texts are lent.
    pub(crate) fn head_row(&self, tenant: usize, place: usize) -> RowRef<'_>
        requires tenant { tenant < length self.now.stored_tenants }
        requires place { place < length (stored_tenant_at self.now tenant).uploads }
        ensures { result ≡ head_row_of (upload_at self.now tenant place) }
    {
        self.stored_tenants[tenant].uploads[place].head_row()
    }

    /// How far the upload at a place is.
    pub(crate) fn progress(&self, tenant: usize, place: usize) -> Progress
        requires tenant { tenant < length self.now.stored_tenants }
        requires place { place < length (stored_tenant_at self.now tenant).uploads }
        ensures { result ≡ progress_in (head_row_of (upload_at self.now tenant place)) }
    {
        self.stored_tenants[tenant].uploads[place].progress()
    }

    /// These bytes of the upload at a place, whose first ones are there already; the others are copied once behind them. The
    /// error is that the vector has too little room for all and got no more.
    pub(crate) fn read(
        &self,
        tenant: usize,
        place: usize,
        span: ByteSpan,
        begun: Vec<u8>,
    ) -> Result<Vec<u8>, AllocError>
        requires tenant { tenant < length self.now.stored_tenants }
        requires place { place < length (stored_tenant_at self.now tenant).uploads }
        requires begun { begun.items ≡ take (length begun.items) (drop span.first (content_of (upload_at self.now tenant place))) }
        requires few { length begun.items ≤ span.count }
        ensures bytes { IfOk result (λ v. v.items ≡ bytes_at span (content_of (upload_at self.now tenant place))) }
        ensures lacking { OnErr result (vec_capacity begun < length (bytes_at span (content_of (upload_at self.now tenant place)))) }
    {
        self.stored_tenants[tenant].uploads[place].read(&self.pool, span, begun)
    }

    /// Bytes of the upload at a place from an offset on, copied once onto the end of `bytes`: as many as `count`, for which it
    /// has room, or as there are.
    pub(crate) fn read_onto(
        &self,
        tenant: usize,
        place: usize,
        offset: u64,
        count: usize,
        bytes: &mut Vec<u8>,
    )
        requires tenant { tenant < length self.now.stored_tenants }
        requires place { place < length (stored_tenant_at self.now tenant).uploads }
        requires room { vec_len bytes.old + count ≤ vec_capacity bytes.old }
        ensures items { bytes.new.items ≡ bytes.old.items
            ++ take count (drop offset (content_of (upload_at self.now tenant place))) }
        ensures room_kept { vec_capacity bytes.old ≤ vec_capacity bytes.new }
    {
        let upload = &self.stored_tenants[tenant].uploads[place];
        upload.read_onto(&self.pool, offset, count, bytes);
    }

    /// A body of no bytes with room for so many, which a new upload may have. The error is that there was no memory
    /// for the list of their blocks.
    pub(crate) fn body_for(&self, alloc: Global, more: u64) -> Result<Body, AllocError>
        requires blocks { sum_by (charge_with self.now.pool.block_size) (plain_in self.now)
            + blocks_between self.now.pool.block_size 0 more ≤ size_of self.now.pool }
        ensures empty { IfOk result (λ body. body ≡ record no_chain { room = body.room }) }
        ensures listed { IfOk result (λ body. HasRoom self.now.pool body more) }
        ensures memory { OnErr result (0 < blocks_between self.now.pool.block_size 0 more) }
    {
        let body = body_for(alloc, &self.pool, more)?;
        Ok(body)
    }

    /// Creates an upload with these bytes, for which the body has room, and with this end as the tenant's next one. Its texts
    /// are those that were taken, or get a box that is spare. Gives how many blocks were taken for the bytes.
    pub(crate) fn create(
        &mut self,
        tenant: usize,
        new: &NewUpload,
        body: Body,
        bytes: &[u8],
        expires: Option<Moment>,
        taken_texts: Option<SharedTexts>,
    ) -> u64
        requires tenant { tenant < length self.old.stored_tenants }
        requires room { length (stored_tenant_at self.old tenant).uploads < self.old.room }
        requires id { (stored_tenant_at self.old tenant).next + 1 < 2 ^ 64 }
        requires metadata { IsTrue (is_kept_metadata new.now.metadata) }
        requires concat { IsConcatText (new_kind new.now.partial) new.now.concat }
        requires blocks { sum_by (charge_with self.old.pool.block_size) (plain_in self.old)
            + blocks_between self.old.pool.block_size 0 (length bytes.now) ≤ size_of self.old.pool }
        requires empty { body ≡ record no_chain { room = body.room } }
        requires listed { HasRoom self.old.pool body (length bytes.now) }
        requires texts { IsTextsFor self.old.room taken_texts new.now.metadata new.now.concat }
        ensures plain { plain_in self.new ≡ set (plain_in self.old) tenant
            (with_new (part_at self.old tenant) (upload_from new.now bytes.now expires)) }
        ensures taken { result ≡ blocks_between self.old.pool.block_size 0 (length bytes.now) }
        ensures charge { charge_with self.old.pool.block_size (part_at self.new tenant)
            ≡ charge_with self.old.pool.block_size (part_at self.old tenant) + result }
        ensures sizes { SameSizes self.old.pool self.new.pool }
        ensures room_stays { self.new.room ≡ self.old.room }
    {
        let mut body = body;
        let taken = body.put(&mut self.pool, bytes);
        let stored_tenant = &mut self.stored_tenants[tenant];
        let spare = &mut stored_tenant.spare;
        let texts = UploadTexts::placed(spare, taken_texts, new.metadata, new.concat);
        let upload = StoredUpload::new(stored_tenant.next, new, body, expires, texts);
        stored_tenant.uploads.push_reserved(upload);
        stored_tenant.next += 1;
        stored_tenant.charge += taken;
        taken
    }

    /// The place of the upload that a part of a concatenation names, where it is a partial one that a request
    /// sees at `now`.
    fn part(&self, tenant: usize, named: Option<u64>, now: Moment) -> Option<usize>
        requires { tenant < length self.now.stored_tenants }
        ensures place { IfSome result (λ i. IsPartIn self.now tenant named now i) }
        ensures none { IfNone result (part_kept (stored_tenant_at self.now tenant) now named ≡ None) }
    {
        self.stored_tenants[tenant].part(named, now)
    }

    /// What the parts of a concatenation are together at `now`.
    pub(crate) fn parts_seen(&self, tenant: usize, named: &[Option<u64>], now: Moment) -> PartsSeen
        requires { tenant < length self.now.stored_tenants }
        ensures there { result.there ≡ are_there named.now (rows_at self.now tenant named.now now) }
        ensures complete { result.complete ≡ are_complete (rows_at self.now tenant named.now now) }
        ensures len { result.len ≡ min (joined_len (rows_at self.now tenant named.now now)) (2 ^ 64 - 1) }
    {
        let mut seen = PartsSeen {
            there: true,
            complete: true,
            len: 0,
        };
        for part in named {
            seen = match self.part(tenant, *part, now) {
                Some(place) => seen.with(&self.progress(tenant, place)),
                None => seen.with_missing(),
            };
        }
        seen
    }

    /// The pieces of the parts of a concatenation, before their blocks are held for it. The error is that there
    /// was no memory for the lists of them.
    pub(crate) fn list_parts(
        &self,
        alloc: Global,
        tenant: usize,
        named: &[Option<u64>],
        now: Moment,
    ) -> Result<Vec<UnheldPiece>, AllocError>
        requires { tenant < length self.now.stored_tenants }
        ensures pieces { IfOk result (λ v. map segment_of (map as_piece v.items)
            ≡ map segment_of (pieces_named self.now tenant named.now now)) }
        ensures few { IfOk result (λ v. length v.items ≤ length named.now) }
    {
        let mut listed = Vec::with_capacity(alloc, named.len())?;
        for part in named {
            if let Some(place) = self.part(tenant, *part, now) {
                let piece = self.stored_tenants[tenant].uploads[place].list()?;
                listed.push_reserved(piece);
            }
        }
        Ok(listed)
    }

    /// Keeps a final upload, which is joined of the pieces that were listed, as the tenant's next one.
    pub(crate) fn join(&mut self, tenant: usize, ready: ReadyFinal)
        requires tenant { tenant < length self.old.stored_tenants }
        requires room { length (stored_tenant_at self.old tenant).uploads < self.old.room }
        requires id { (stored_tenant_at self.old tenant).next + 1 < 2 ^ 64 }
        requires few { AreFew self.old tenant }
        requires parts { length ready.new.parts ≤ 32 }
        requires len { ready.len ≡ joined_len (rows_at self.old tenant ready.new.parts ready.now) }
        requires metadata { IsTrue (is_kept_metadata ready.new.metadata) }
        requires concat { IsConcatText Final ready.new.concat }
        requires listed { IsListed self.old tenant ready }
        requires texts { IsTextsFor self.old.room ready.texts ready.new.metadata ready.new.concat }
        ensures plain { plain_in self.new ≡ set (plain_in self.old) tenant
            (with_new (part_at self.old tenant)
            (final_upload (parts_found (part_at self.old tenant) ready.entry.now ready.entry.new.parts) ready.entry.new
            ready.entry.expires)) }
        ensures joins { Joins self.old self.new tenant ready.entry.new ready.entry.now }
        ensures sizes { SameSizes self.old.pool self.new.pool }
        ensures room_stays { self.new.room ≡ self.old.room }
        ensures charge { charge_with self.old.pool.block_size (part_at self.new tenant)
            ≡ charge_with self.old.pool.block_size (part_at self.old tenant) }
    {
        let ReadyFinal {
            new,
            len,
            expires,
            unheld,
            pieces,
            texts,
            ..
        } = ready;
        let mut pieces = pieces;
        hold_each(unheld, &mut self.pool, &mut pieces);
        let stored_tenant = &mut self.stored_tenants[tenant];
        let spare = &mut stored_tenant.spare;
        let texts = UploadTexts::placed(spare, texts, new.metadata, new.concat);
        let upload = StoredUpload::joined(stored_tenant.next, &new, pieces, len, expires, texts);
        stored_tenant.uploads.push_reserved(upload);
        stored_tenant.next += 1;
    }

    /// The upload at a place of a tenant's part as a piece of a snapshot; `None` past the last one.
    pub(crate) fn kept_upload(&self, tenant: usize, place: usize) -> Option<KeptUpload<'_>>
        requires { tenant < length self.now.stored_tenants }
        ensures { result ≡ option_map
            (λ e. upload_kept (take place (part_at self.now tenant).uploads) e)
            (slice_get (part_at self.now tenant).uploads place) }
    {
        let stored_tenant = &self.stored_tenants[tenant];
        if place < stored_tenant.uploads.len() {
            Some(KeptUpload::new(&self.pool, stored_tenant, place))
        } else {
            None
        }
    }

    /// What is left of limits where these segments of a final upload are put back, one after another; `None` where one lacks
    /// its bytes or brings them again.
    pub(crate) fn left(
        &self,
        tenant: usize,
        segments: &[RestoredSegment],
        limits: Left,
    ) -> Option<Left>
        requires { tenant < length self.now.stored_tenants }
        ensures { result ≡ option_map
            (λ sent. left_with limits (sent_len sent) (brought_in self.now.pool.block_size segments.now))
            (sent_back (sent_in (part_at self.now tenant).uploads) segments.now) }
    {
        let size = u64::from(self.pool.block_size());
        self.stored_tenants[tenant].left(segments, limits, size)
    }

    /// Whether what stands under the origin of each segment, if anything does, is a partial upload with all of its bytes.
    pub(crate) fn may_be_parts(&self, tenant: usize, segments: &[RestoredSegment]) -> bool
        requires { tenant < length self.now.stored_tenants }
        ensures { result ≡ list_all (λ s. may_be_part (part_at self.now tenant) s.origin) segments.now }
    {
        self.stored_tenants[tenant].may_be_parts(segments)
    }

    /// An empty body for each segment of a final upload, with room for its blocks. The error is that there was no memory for
    /// the lists of them.
    pub(crate) fn rooms_for(
        &self,
        alloc: Global,
        tenant: usize,
        segments: &[RestoredSegment],
    ) -> Result<Vec<Body>, AllocError>
        requires { tenant < length self.now.stored_tenants }
        ensures { IfOk result (λ v. AreRoomsFor self.now.pool.block_size
            (pieces_of (stored_tenant_at self.now tenant)) segments.now v.items) }
    {
        let size = u64::from(self.pool.block_size());
        self.stored_tenants[tenant].rooms_for(alloc, segments, size)
    }

    /// Keeps a final upload that is put back as the tenant's next one. Gives how many blocks were taken for what it
    /// brings.
    pub(crate) fn put_back(&mut self, tenant: usize, ready: ReadyBack) -> u64
        requires { MayKeep self.old tenant ready }
        ensures plain { (sent : List (ℕ × List ℕ))
            → sent_back (sent_in (part_at self.old tenant).uploads) ready.entry.upload.segments ≡ Some sent
            → plain_in self.new ≡ set (plain_in self.old) tenant
            (with_new (part_at self.old tenant) (upload_back ready.entry.upload sent)) }
        ensures taken { result ≡ brought_in self.old.pool.block_size ready.entry.upload.segments }
        ensures sizes { SameSizes self.old.pool self.new.pool }
        ensures room_stays { self.new.room ≡ self.old.room }
    {
        let ReadyBack {
            upload,
            bodies,
            pieces,
            texts,
            ..
        } = ready;
        let before = self.pool.free();
        let mut pieces = pieces;
        let pool = &mut self.pool;
        self.stored_tenants[tenant].bring_each(upload.segments, bodies, pool, &mut pieces);
        let taken = u64::from(before - self.pool.free());
        let stored_tenant = &mut self.stored_tenants[tenant];
        let spare = &mut stored_tenant.spare;
        let texts = UploadTexts::placed(spare, texts, upload.metadata, upload.concat);
        let len = upload.declared.unwrap_or(0);
        let upload = StoredUpload::joined(
            stored_tenant.next,
            &upload.as_final(),
            pieces,
            len,
            upload.expires,
            texts,
        );
        stored_tenant.uploads.push_reserved(upload);
        stored_tenant.next += 1;
        stored_tenant.charge += taken;
        taken
    }

    /// Tells the length and the end of the upload at a place, which is not a final one.
    pub(crate) fn renew(
        &mut self,
        tenant: usize,
        place: usize,
        declared: Option<u64>,
        expires: Option<Moment>,
    )
        requires tenant { tenant < length self.old.stored_tenants }
        requires place { place < length (stored_tenant_at self.old tenant).uploads }
        requires own { (entry_at self.old tenant place).kept.kind ≢ Final }
        ensures plain { plain_in self.new ≡ set (plain_in self.old) tenant
            (with_upload (part_at self.old tenant) place (record {
              id = (entry_at self.old tenant place).id;
              kept = with_bytes (upload_at self.old tenant place) [] declared expires;
            })) }
        ensures pool { self.new.pool ≡ self.old.pool }
        ensures room_stays { self.new.room ≡ self.old.room }
        ensures charge { charge_with self.old.pool.block_size (part_at self.new tenant)
            ≡ charge_with self.old.pool.block_size (part_at self.old tenant) }
    {
        let stored_tenant = &mut self.stored_tenants[tenant];
        stored_tenant.uploads[place].renew(declared, expires);
    }

    /// Makes room in the list of the blocks of the upload at a place for so many more bytes. The error is that there
    /// was no memory for it, and then nothing changes.
    pub(crate) fn reserve(
        &mut self,
        tenant: usize,
        place: usize,
        more: u64,
    ) -> Result<(), AllocError>
        requires tenant { tenant < length self.old.stored_tenants }
        requires place { place < length (stored_tenant_at self.old tenant).uploads }
        requires alone { IsAlone self.old tenant place }
        requires room { sum_by (charge_with self.old.pool.block_size) (plain_in self.old)
            + blocks_between self.old.pool.block_size (offset_of (upload_at self.old tenant place)) more
            ≤ size_of self.old.pool }
        ensures plain { OnOk result (plain_in self.new ≡ plain_in self.old) }
        ensures listed { OnOk result
            (HasRoom self.new.pool (own_chain (entry_at self.new tenant place).kept.pieces) more) }
        ensures pool { self.new.pool ≡ self.old.pool }
        ensures room_stays { self.new.room ≡ self.old.room }
        ensures memory { OnErr result (0 < blocks_between self.old.pool.block_size
            (offset_of (upload_at self.old tenant place)) more) }
        ensures unchanged { OnErr result (self.new ≡ self.old) }
    {
        let stored_tenant = &mut self.stored_tenants[tenant];
        let upload = &mut stored_tenant.uploads[place];
        upload.reserve(&self.pool, more)?;
        Ok(())
    }

    /// Adds bytes, for which room was made, at the end of the upload at a place, and tells its length and its end.
    /// Gives how many blocks were taken for the bytes.
    pub(crate) fn put(
        &mut self,
        tenant: usize,
        place: usize,
        bytes: &[u8],
        declared: Option<u64>,
        expires: Option<Moment>,
    ) -> u64
        requires tenant { tenant < length self.old.stored_tenants }
        requires place { place < length (stored_tenant_at self.old tenant).uploads }
        requires alone { IsAlone self.old tenant place }
        requires room { sum_by (charge_with self.old.pool.block_size) (plain_in self.old)
            + blocks_between self.old.pool.block_size (offset_of (upload_at self.old tenant place)) (length bytes.now)
            ≤ size_of self.old.pool }
        requires listed { HasRoom self.old.pool (own_chain (entry_at self.old tenant place).kept.pieces)
            (length bytes.now) }
        ensures plain { plain_in self.new ≡ set (plain_in self.old) tenant
            (with_upload (part_at self.old tenant) place (record {
              id = (entry_at self.old tenant place).id;
              kept = with_bytes (upload_at self.old tenant place) bytes.now declared expires;
            })) }
        ensures taken { result ≡ blocks_between self.old.pool.block_size
            (offset_of (upload_at self.old tenant place)) (length bytes.now) }
        ensures charge { charge_with self.old.pool.block_size (part_at self.new tenant)
            ≡ charge_with self.old.pool.block_size (part_at self.old tenant) + result }
        ensures sizes { SameSizes self.old.pool self.new.pool }
        ensures room_stays { self.new.room ≡ self.old.room }
    {
        let stored_tenant = &mut self.stored_tenants[tenant];
        let upload = &mut stored_tenant.uploads[place];
        let taken = upload.put(&mut self.pool, bytes);
        upload.renew(declared, expires);
        stored_tenant.charge += taken;
        taken
    }

    /// Ends the upload at a place. Gives how many blocks became free: those that its tenant no longer pays.
    pub(crate) fn remove(&mut self, tenant: usize, place: usize) -> u64
        requires tenant { tenant < length self.old.stored_tenants }
        requires place { place < length (stored_tenant_at self.old tenant).uploads }
        ensures plain { plain_in self.new ≡ set (plain_in self.old) tenant
            (without_upload (part_at self.old tenant) place) }
        ensures charge { charge_with self.old.pool.block_size (part_at self.new tenant) + result
            ≡ charge_with self.old.pool.block_size (part_at self.old tenant) }
        ensures free { free_in self.new.pool ≡ free_in self.old.pool + result }
        ensures sizes { SameSizes self.old.pool self.new.pool }
        ensures room_stays { self.new.room ≡ self.old.room }
    {
        let stored_tenant = &mut self.stored_tenants[tenant];
        let upload = stored_tenant.uploads.remove(place);
        let (freed, texts) = upload.give_back(&mut self.pool);
        texts.give_back(&mut stored_tenant.spare);
        stored_tenant.charge -= freed;
        freed
    }

    /// Ends all uploads that have expired at `now`. Gives how many they were. It goes over all uploads once.
    pub(crate) fn sweep(&mut self, now: Moment) -> usize
        requires few { sum_by (λ part. length part.uploads) (plain_in self.old) < 2 ^ 64 }
        ensures plain { plain_in self.new ≡ map (part_after_sweep now) (plain_in self.old) }
        ensures ended { result + sum_by (λ part. length part.uploads) (plain_in self.new)
            ≡ sum_by (λ part. length part.uploads) (plain_in self.old) }
        ensures sizes { SameSizes self.old.pool self.new.pool }
        ensures room_stays { self.new.room ≡ self.old.room }
    {
        let mut ended = 0;
        for tenant in 0..self.tenants() {
            ended += self.sweep_tenant(tenant, now);
        }
        ended
    }

    // Ends the uploads of a tenant that have expired at `now`. Gives how many they were.
    fn sweep_tenant(&mut self, tenant: usize, now: Moment) -> usize
        requires { tenant < length self.old.stored_tenants }
        ensures plain { plain_in self.new ≡ set (plain_in self.old) tenant
            (part_after_sweep now (part_at self.old tenant)) }
        ensures ended { result + length (part_after_sweep now (part_at self.old tenant)).uploads
            ≡ length (part_at self.old tenant).uploads }
        ensures sizes { SameSizes self.old.pool self.new.pool }
        ensures room_stays { self.new.room ≡ self.old.room }
    {
        let before = self.pool.free();
        let stored_tenant = &mut self.stored_tenants[tenant];
        let ended = stored_tenant.sweep(now, &mut self.pool);
        stored_tenant.charge -= u64::from(self.pool.free() - before);
        ended
    }

    /// How many tenants there are.
    pub(crate) fn tenants(&self) -> usize
        ensures { result ≡ length self.now.stored_tenants }
    {
        self.stored_tenants.len()
    }
}

// A part with no upload for each tenant of the settings, with room for as many as it may have.
fn empty_stored_tenants(alloc: Global, settings: &Settings) -> Result<Vec<StoredTenant>, AllocError>
    ensures stored_tenants { IfOk result (λ v. map stored_tenant_of v.items ≡ opening_stored_tenants settings.now.tenants) }
    ensures charges { IfOk result (λ v. All (λ t. t.charge ≡ 0) v.items) }
    ensures room { IfOk result (λ v. All (HasUploadRoom settings.now.numbers.uploads) v.items) }
{
    let room = settings.numbers().uploads as usize;
    let mut stored_tenants = Vec::with_capacity(alloc, settings.tenant_count())?;
    for place in 0..settings.tenant_count() {
        stored_tenants.push_reserved(StoredTenant::new(alloc, settings.quota(place), room)?);
    }
    Ok(stored_tenants)
}

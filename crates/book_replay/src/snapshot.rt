//! The records of a book's snapshot.
ghost use Rattle.std.specs.Prelude.{◌≡◌, ◌++◌, ◌<◌, [], ◌∷◌, length, map, drop, replicate, IfOk, IsTrue, OnOk};
ghost use Rattle.journal_frames.specs.Frames.{Fits};
ghost use Rattle.upload_book.specs.Book.{plain_of};
ghost use Rattle.upload_book.specs.declared.restored.Restored.TheVariants.{Upload, Next, Totals};
ghost use Rattle.upload_book.specs.PlainBook.{tenant_book};
ghost use Rattle.upload_book.specs.snapshot.Snapshot.{parts_kept, uploads_kept};
ghost use Rattle.book_replay.specs.Snapshot.{ArePut, HasNumbers, IsSnapshot};

use crate::fault::SnapshotFault;
use crate::fitting::tell_kept;
use journal_frames::{HEADER_LEN, PAYLOAD_MAX, open_frame};
use journal_records::{with_kept, with_record};
use std::alloc::Global;
use upload_book::{Book, Change, KeptSegment, KeptUpload, Moment, Restored};

// How many bytes the record of a next id or of the totals has at most.
const SMALL_LEN: usize = 18;

// How many bytes the record of an upload has at least: its moment, which change it is, its tenant, how many segments it has,
// its id, what it is for, that it has no length and no end, and how long its metadata is.
const UPLOAD_LEN: usize = 37;

/// The records of the pieces of a book's snapshot, in their order, each at this moment and behind 24 bytes of room for the
/// header of its frame ([`journal_frames::close_frame`]). A book of the same settings that is made again of them is this one:
/// its uploads, its next ids and its totals. The bytes of the uploads are copied once, from where the book has them, and a
/// record is not moved while it grows.
///
/// `Err` is Memory, or Record where a record has more than 2^32 bytes; then all records are let go.
pub fn snapshot_records(
    alloc: Global,
    book: &Book,
    now: Moment,
) -> Result<Vec<Vec<u8>>, SnapshotFault>
    ensures { IfOk result (λ rooms. IsSnapshot now (plain_of book.now) (map (λ room. room.items) rooms.items)) }
{
    // its contract tells that dates can name the moment
    let _secs = now.secs();
    // the settings tell that the book is lawful
    let _settings = book.settings();
    let mut rooms = Vec::new(alloc);
    put_parts(alloc, &mut rooms, book, now)?;
    let totals = Restored::Totals {
        released: book.released_total(),
    };
    put_piece(alloc, &mut rooms, now, totals)?;
    Ok(rooms)
}

// Puts the records of all tenants' parts.
fn put_parts(
    alloc: Global,
    rooms: &mut Vec<Vec<u8>>,
    book: &Book,
    now: Moment,
) -> Result<(), SnapshotFault>
    ensures { OnOk result (ArePut now (parts_kept 0 (plain_of book.now).tenants)
        (map (λ room. room.items) rooms.old.items) (map (λ room. room.items) rooms.new.items)) }
{
    let count = book.settings().tenant_count();
    for tenant in 0..count {
        put_part(alloc, rooms, book, tenant as u8, now)?;
    }
    Ok(())
}

// Puts those of a tenant's part: of its uploads, each behind that of its id, and of its next id.
fn put_part(
    alloc: Global,
    rooms: &mut Vec<Vec<u8>>,
    book: &Book,
    tenant: u8,
    now: Moment,
) -> Result<(), SnapshotFault>
    requires { tenant < length (plain_of book.now).settings.tenants }
    ensures { OnOk result (ArePut now
        (uploads_kept tenant [] (tenant_book (plain_of book.now) tenant).uploads
        ++ Next tenant (tenant_book (plain_of book.now) tenant).next ∷ [])
        (map (λ room. room.items) rooms.old.items) (map (λ room. room.items) rooms.new.items)) }
{
    let count = book.upload_count(tenant) as usize;
    for place in 0..count {
        let upload = book.kept_upload(tenant, place).unwrap();
        put_upload(alloc, rooms, now, tenant, &upload)?;
    }
    let next = book.next_id(tenant);
    put_piece(alloc, rooms, now, Restored::Next { tenant, next })
}

// Puts those of an upload: of its id as the tenant's next one, and its own.
fn put_upload(
    alloc: Global,
    rooms: &mut Vec<Vec<u8>>,
    now: Moment,
    tenant: u8,
    upload: &KeptUpload,
) -> Result<(), SnapshotFault>
    ensures { OnOk result (ArePut now (Next tenant upload.now.id ∷ Upload tenant upload.now ∷ [])
        (map (λ room. room.items) rooms.old.items) (map (λ room. room.items) rooms.new.items)) }
{
    let next = upload.id();
    put_piece(alloc, rooms, now, Restored::Next { tenant, next })?;
    tell_kept(upload);
    let room = open_room(alloc, upload_len(upload))?;
    let room = with_kept(room, now, tenant, upload)?;
    put_room(rooms, room)
}

// Puts that of a next id or of the totals.
fn put_piece(
    alloc: Global,
    rooms: &mut Vec<Vec<u8>>,
    now: Moment,
    piece: Restored,
) -> Result<(), SnapshotFault>
    requires { HasNumbers piece }
    ensures { OnOk result (ArePut now (piece.entry ∷ [])
        (map (λ room. room.items) rooms.old.items) (map (λ room. room.items) rooms.new.items)) }
{
    let room = open_room(alloc, SMALL_LEN)?;
    let room = with_record(room, now, &Change::Restore(piece))?;
    put_room(rooms, room)
}

// Room for the header of a frame, with memory for so many bytes behind it.
fn open_room(alloc: Global, len: usize) -> Result<Vec<u8>, SnapshotFault>
    ensures { IfOk result (λ room. room.items ≡ replicate 24 0) }
{
    let mut room = Vec::with_capacity(alloc, len.saturating_add(HEADER_LEN))?;
    open_frame(&mut room)?;
    Ok(room)
}

// Puts a record that stands behind room for a header, where a frame holds it.
fn put_room(rooms: &mut Vec<Vec<u8>>, room: Vec<u8>) -> Result<(), SnapshotFault>
    ensures put { OnOk result
        (map (λ room. room.items) rooms.new.items ≡ map (λ room. room.items) rooms.old.items ++ room.items ∷ []) }
    ensures fits { OnOk result (Fits (drop 24 room.items)) }
{
    if !fits_a_frame(&room) {
        return Err(SnapshotFault::Record);
    }
    match rooms.push(room) {
        Ok(()) => Ok(()),
        Err(_) => Err(SnapshotFault::Memory),
    }
}

// Whether a frame holds what stands behind room for its header.
fn fits_a_frame(room: &[u8]) -> bool
    ensures { IsTrue result → Fits (drop 24 room.now) }
{
    room.len() <= HEADER_LEN + PAYLOAD_MAX
}

// How many bytes the record of an upload has: for so many it takes memory at once.
fn upload_len(upload: &KeptUpload) -> usize {
    let row = upload.row();
    let growth = row.growth();
    let mut len: usize = UPLOAD_LEN + row.metadata().len() + row.concat().len();
    if growth.declared.is_some() {
        len += 8;
    }
    if growth.expires.is_some() {
        len += 8;
    }
    for place in 0..upload.segment_count() {
        len = len.saturating_add(segment_len(&upload.segment(place)));
    }
    len
}

// How many of them a segment has: its origin, and its bytes, if it brings them.
fn segment_len(segment: &KeptSegment) -> usize {
    match segment.len() {
        Some(len) => (len as usize).saturating_add(17),
        None => 9,
    }
}

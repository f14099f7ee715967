//! What of a book is more than other settings allow.
ghost use Rattle.std.specs.Prelude.{◌≡◌, ◌<◌, IfNone, IfSome, length};
ghost use Rattle.upload_book.specs.Book.{plain_of};
ghost use Rattle.upload_book.specs.Charge.{charge_in};
ghost use Rattle.upload_book.specs.PlainBook.{tenant_book};
ghost use Rattle.journal_folders.specs.Shortage.{AreWithin, IsShort, IsShortAt, IsTooLong, IsWithin};

use server_words::{Shortage, name_at, shown_bytes};
use upload_book::{Book, KeptUpload, Moment, Name, Settings};

/// What stands in a book and is more than these settings allow, if anything does. Of the first such tenant it is that it has too
/// many uploads, or else the first of them that is too long, or else that it pays more than its quota: blocks of the size of the
/// settings, for each upload to which bytes were sent once. It goes over the tenants that both have, place by place.
pub fn shortage_in(book: &Book, settings: &Settings) -> Option<Shortage>
    ensures short { IfSome result (IsShort (plain_of book.now) settings.now) }
    ensures within { IfNone result (AreWithin (plain_of book.now) settings.now) }
{
    let count = book.settings().tenant_count().min(settings.tenant_count());
    for tenant in 0..count {
        let found = shortage_of(book, settings, tenant);
        if found.is_some() {
            return found;
        }
    }
    None
}

/// That of the tenant at this place, from 0.
fn shortage_of(book: &Book, settings: &Settings, tenant: usize) -> Option<Shortage>
    requires old { tenant < length (plain_of book.now).settings.tenants }
    requires new { tenant < length settings.now.tenants }
    ensures short { IfSome result (IsShortAt (plain_of book.now) settings.now tenant) }
    ensures within { IfNone result (IsWithin (plain_of book.now) settings.now tenant) }
{
    let name = shown_bytes(name_at(book.settings(), tenant));
    let uploads = book.upload_count(tenant as u8);
    let most = settings.numbers().uploads;
    if uploads > most {
        return Some(Shortage::Uploads {
            tenant: name,
            uploads,
            most,
        });
    }
    for place in 0..uploads as usize {
        if let Some(long) = too_long_at(book, settings, tenant as u8, place) {
            return Some(Shortage::MaxSize {
                tenant: name,
                id: long.id,
                length: long.length,
                max: settings.numbers().max_size,
            });
        }
    }
    let pays = blocks_of(book, tenant as u8, settings.numbers().block_size);
    let quota = settings.quota(tenant);
    if pays > quota {
        return Some(Shortage::Quota {
            tenant: name,
            pays,
            quota,
        });
    }
    None
}

/// An upload, with how many bytes it is to have, or has where that is not known.
#[derive(Clone, Copy)]
struct Long {
    id: u64,
    length: u64,
}

/// The tenant's upload at this place, from 0, if it is too long for these settings.
fn too_long_at(book: &Book, settings: &Settings, tenant: u8, place: usize) -> Option<Long>
    requires { tenant < length (plain_of book.now).settings.tenants }
    ensures { IfSome result (λ long.
        IsTooLong (plain_of book.now) settings.now tenant long.id long.length settings.now.numbers.max_size) }
{
    let id = book.kept_upload(tenant, place)?.id();
    // No upload has expired by then.
    let row = book.look(&Name { tenant, id }, Moment::new(0)?).ok()?;
    let length = row.declared.unwrap_or(row.offset);
    if length > settings.numbers().max_size {
        Some(Long { id, length })
    } else {
        None
    }
}

/// How many blocks of this size the tenant's uploads take: for each upload to which bytes were sent once.
fn blocks_of(book: &Book, tenant: u8, size: u64) -> u64
    requires { tenant < length (plain_of book.now).settings.tenants }
    ensures { size ≡ (plain_of book.now).settings.numbers.block_size
        → result ≡ charge_in (plain_of book.now).settings.numbers (tenant_book (plain_of book.now) tenant) }
{
    if size == book.settings().numbers().block_size {
        return book.charge(tenant);
    }
    let mut blocks: u64 = 0;
    for place in 0..book.upload_count(tenant) as usize {
        if let Some(upload) = book.kept_upload(tenant, place) {
            blocks = blocks.saturating_add(blocks_brought(&upload, size));
        }
    }
    blocks
}

/// How many blocks of this size the bytes take that an upload brings which is put back.
fn blocks_brought(upload: &KeptUpload, size: u64) -> u64 {
    let mut blocks: u64 = 0;
    for place in 0..upload.segment_count() {
        let len = upload.segment(place).len().unwrap_or(0);
        blocks = blocks.saturating_add(len.div_ceil(size.max(1)));
    }
    blocks
}

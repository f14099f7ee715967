//! Whether a book may be asked for a change.
ghost use Rattle.std.specs.Prelude.{◌≡◌, ◌↔◌, IsTrue};
ghost use Rattle.std.specs.List.{list_all};
ghost use Rattle.upload_book.specs.Change.{CanBeMade};
ghost use Rattle.upload_book.specs.declared.head_row.Kind.TheVariants.{Final};
ghost use Rattle.upload_book.specs.Lawful.{is_kept_metadata};
ghost use Rattle.book_replay.specs.Made.{can_be_made, can_be_put_back, has_segments, is_concat_text, is_earlier, is_final, is_own, is_restorable, is_upload};

use tus_text::{Concat, PARTS_MAX, check_metadata, read_concat};
use upload_book::{Change, Kind, NewFinal, NewUpload, Restored, RestoredSegment, RestoredUpload};

/// Whether a book of so many tenants may be asked for this change: what [`upload_book::Book::prepare`] requires. It takes
/// no memory.
pub fn can_be_made(tenants: usize, change: &Change) -> bool
    ensures value { result ≡ can_be_made tenants change.now }
    ensures required { IsTrue result ↔ CanBeMade tenants change.now }
{
    match change {
        Change::Create { tenant, new, .. } => usize::from(*tenant) < tenants && is_upload(new),
        Change::Concat { tenant, new } => usize::from(*tenant) < tenants && is_final(new),
        Change::Append { .. } | Change::Terminate(_) | Change::Sweep => true,
        Change::Restore(restored) => can_be_put_back(tenants, restored),
    }
}

// Whether the texts of a creation are accepted ones.
fn is_upload(new: &NewUpload) -> bool
    ensures { result ≡ is_upload new.now }
{
    let kind = if new.partial {
        Kind::Partial
    } else {
        Kind::Plain
    };
    is_kept_metadata(new.metadata) && is_concat_text(kind, new.concat)
}

// Whether a concatenation is of 1 to 32 parts, with accepted texts.
fn is_final(new: &NewFinal) -> bool
    ensures { result ≡ is_final new.now }
{
    let few = !new.parts.is_empty() && new.parts.len() <= PARTS_MAX;
    few && is_kept_metadata(new.metadata) && is_concat_text(Kind::Final, new.concat)
}

// Whether a piece that is put back is of one of so many tenants, where it is of one, and of its form.
fn can_be_put_back(tenants: usize, restored: &Restored) -> bool
    ensures { result ≡ can_be_put_back tenants restored.now }
{
    match restored {
        Restored::Upload { tenant, upload } => {
            usize::from(*tenant) < tenants && is_restorable(upload)
        }
        Restored::Next { tenant, .. } => usize::from(*tenant) < tenants,
        Restored::Totals { .. } => true,
    }
}

// Whether an upload that is put back has the segments of its kind, and accepted texts.
fn is_restorable(upload: &RestoredUpload) -> bool
    ensures { result ≡ is_restorable upload.now }
{
    has_segments(upload.kind, upload.id, upload.segments)
        && is_kept_metadata(upload.metadata)
        && is_concat_text(upload.kind, upload.concat)
}

// Whether these are the segments of an upload of a kind.
fn has_segments(kind: Kind, id: u64, segments: &[RestoredSegment]) -> bool
    ensures { result ≡ has_segments kind id segments.now }
{
    match kind {
        Kind::Plain | Kind::Partial => segments.len() == 1 && are_own(id, segments),
        Kind::Final => {
            !segments.is_empty() && segments.len() <= PARTS_MAX && are_earlier(id, segments)
        }
    }
}

// Whether an upload of its own brings each segment.
fn are_own(id: u64, segments: &[RestoredSegment]) -> bool
    ensures { result ≡ list_all (is_own id) segments.now }
{
    segments.iter().all(|segment| is_own(id, segment))
}

// Whether it brings one.
fn is_own(id: u64, segment: &RestoredSegment) -> bool
    ensures { result ≡ is_own id segment.now }
{
    segment.origin == id && segment.bytes.is_some()
}

// Whether each segment is of an earlier part.
fn are_earlier(id: u64, segments: &[RestoredSegment]) -> bool
    ensures { result ≡ list_all (is_earlier id) segments.now }
{
    segments.iter().all(|segment| is_earlier(id, segment))
}

// Whether one is.
fn is_earlier(id: u64, segment: &RestoredSegment) -> bool
    ensures { result ≡ is_earlier id segment.now }
{
    0 < segment.origin && segment.origin < id
}

// Whether this is a text of metadata that is kept.
fn is_kept_metadata(text: &[u8]) -> bool
    ensures { result ≡ is_kept_metadata text.now }
{
    text.is_empty() || check_metadata(text)
}

// Whether this is a concat text that is kept for an upload of a kind.
fn is_concat_text(kind: Kind, text: &[u8]) -> bool
    ensures { result ≡ is_concat_text kind text.now }
{
    match kind {
        Kind::Plain => text.is_empty(),
        Kind::Partial => text == b"partial".as_slice(),
        Kind::Final => names_parts(text),
    }
}

// Whether a concat text names parts.
fn names_parts(text: &[u8]) -> bool
    ensures { result ≡ is_concat_text Final text.now }
{
    match read_concat(text) {
        Some(Concat::Final(_)) => true,
        Some(Concat::Partial) | None => false,
    }
}

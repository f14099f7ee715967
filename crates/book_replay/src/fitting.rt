//! What the numbers of a change are.
ghost use Rattle.std.specs.Prelude.{◌≡◌, ◌<◌, ◌≤◌, ◌^◌, ℕ, length, option_map, IfSome};
ghost use Rattle.std.specs.List.{AllByRecursion};
ghost use Rattle.journal_records.specs.Records.{FitsBack, FitsChange, FitsChunk, FitsCheck, FitsFinal, FitsFirst, FitsPiece, FitsSegment, FitsUpload, IsNumber};
ghost use Rattle.upload_book.specs.Change.{CanBeMade};
ghost use Rattle.upload_book.specs.snapshot.Restore.{CanBePutBack, IsRestorable};

use tus_text::{Checksum, DIGEST_LEN};
use upload_book::{
    Change, Chunk, FirstChunk, KeptSegment, KeptUpload, Moment, NewFinal, NewUpload, Restored,
    RestoredSegment, RestoredUpload,
};

/// Says of a change which a book may be asked for that a record holds its numbers, and does nothing.
pub fn tell_fits(tenants: usize, change: &Change)
    requires { CanBeMade tenants change.now }
    ensures { FitsChange change.now }
{
    match change {
        Change::Create { new, first, .. } => {
            tell_upload(new);
            tell_first(first);
        }
        Change::Append { name, chunk } => {
            tell_id(name.id);
            tell_chunk(chunk);
        }
        Change::Concat { new, .. } => tell_final(new),
        Change::Terminate(name) => tell_id(name.id),
        Change::Sweep => {}
        Change::Restore(restored) => tell_piece(tenants, restored),
    }
}

/// Says the same of an upload that a book lends, where it has the segments of its kind, and does nothing.
pub(crate) fn tell_kept(upload: &KeptUpload)
    ensures { IsRestorable upload.now → FitsBack upload.now }
{
    let row = upload.row();
    let growth = row.growth();
    tell_id(upload.id());
    tell_number(growth.declared);
    tell_end(growth.expires);
    tell_kept_segments(upload);
    let _metadata = row.metadata().len();
}

fn tell_kept_segments(upload: &KeptUpload)
    ensures { AllByRecursion FitsSegment upload.now.segments }
{
    for place in 0..upload.segment_count() {
        tell_kept_segment(&upload.segment(place));
    }
}

fn tell_kept_segment(segment: &KeptSegment)
    ensures { FitsSegment segment.now }
{
    tell_id(segment.origin());
    tell_number(segment.len());
}

fn tell_piece(tenants: usize, restored: &Restored)
    requires { CanBePutBack tenants restored.now }
    ensures { FitsPiece restored.now }
{
    match restored {
        Restored::Upload { upload, .. } => tell_back(upload),
        Restored::Next { next, .. } => tell_id(*next),
        Restored::Totals { released } => tell_id(*released),
    }
}

fn tell_back(upload: &RestoredUpload)
    requires { IsRestorable upload.now }
    ensures { FitsBack upload.now }
{
    tell_id(upload.id);
    tell_number(upload.declared);
    tell_end(upload.expires);
    tell_segments(upload.segments);
    tell_few(upload);
    let _metadata = upload.metadata.len();
}

fn tell_end(expires: Option<Moment>)
    ensures { IfSome expires (λ secs. secs ≤ 253402300799) }
{
    if let Some(end) = expires {
        let _secs = end.secs();
    }
}

fn tell_few(upload: &RestoredUpload)
    requires { IsRestorable upload.now }
    ensures { length upload.now.segments ≤ 32 }
{}

fn tell_segments(segments: &[RestoredSegment])
    ensures { AllByRecursion FitsSegment segments.now }
{
    if let [segment, rest @ ..] = segments {
        tell_segment(segment);
        tell_segments(rest);
    }
}

fn tell_segment(segment: &RestoredSegment)
    ensures { FitsSegment segment.now }
{
    tell_id(segment.origin);
    tell_brought(segment.bytes);
}

fn tell_brought(bytes: Option<&[u8]>)
    ensures { IfSome (option_map (λ text. text.now) bytes.entry) (λ bytes. IsNumber (length bytes)) }
{
    if let Some(text) = bytes {
        let _len = text.len();
    }
}

fn tell_upload(new: &NewUpload)
    ensures { FitsUpload new.now }
{
    tell_number(new.length);
    let _metadata = new.metadata.len();
    let _concat = new.concat.len();
}

fn tell_first(first: &FirstChunk)
    ensures { FitsFirst first.now }
{
    let _more = first.more;
    tell_check(&first.check);
}

fn tell_chunk(chunk: &Chunk)
    ensures { FitsChunk chunk.now }
{
    let (_offset, _more) = (chunk.offset, chunk.more);
    tell_number(chunk.length);
    tell_check(&chunk.check);
}

fn tell_final(new: &NewFinal)
    requires { length new.now.parts ≤ 32 }
    ensures { FitsFinal new.now }
{
    tell_ids(new.parts);
    let _metadata = new.metadata.len();
}

fn tell_check(check: &Option<Checksum>)
    ensures { FitsCheck check.now }
{
    if let Some(Checksum::Sha1(digest)) = check {
        tell_digest(*digest);
    }
}

fn tell_digest(digest: [u8; DIGEST_LEN])
    ensures { length digest ≡ 20 }
{}

fn tell_id(id: u64)
    ensures { IsNumber id }
{}

fn tell_number(number: Option<u64>)
    ensures { IfSome number IsNumber }
{}

fn tell_ids(ids: &[Option<u64>])
    ensures { AllByRecursion (λ id. IfSome id IsNumber) ids.now }
{
    if let [id, rest @ ..] = ids {
        tell_number(*id);
        tell_ids(rest);
    }
}

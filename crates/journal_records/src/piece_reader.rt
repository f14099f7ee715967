//! The pieces of a book that are put back, each read from the fields of its record.
ghost use Rattle.std.specs.Prelude.{◌≡◌, ◌≤◌, Some, None};
ghost use Rattle.journal_records.specs.Reading.{Gives, back_at, fields_at, many_at, next_at, restore_at, segment_at, segments_at, totals_at};

use crate::fields::{
    byte_of, expires_of, kind_of, name_of, number_of, optional_of, optional_text_of, text_of,
};
use crate::reader::PARTS_MAX;
use arrayvec::ArrayVec;
use upload_book::{Change, Restored, RestoredSegment, RestoredUpload};

/// The segments of an upload that is put back.
pub type Segments<'a> = ArrayVec<RestoredSegment<'a>, PARTS_MAX>;

#[tactic(auto, unfolding(crate::specs::Reading::restore_at))]
pub(crate) fn restore_of<'a, 'b>(
    bytes: &'a [u8],
    segments: &'b mut Segments<'a>,
) -> Option<Change<'b>>
where
    'a: 'b,
    ensures { Gives (λ change. change) result (restore_at bytes.now) }
{
    let (tenant, rest) = byte_of(bytes)?;
    let upload = back_of(rest, segments)?;
    Some(Change::Restore(Restored::Upload { tenant, upload }))
}

#[tactic(auto, unfolding(crate::specs::Reading::next_at))]
pub(crate) fn next_of(bytes: &[u8]) -> Option<Change<'_>>
    ensures { Gives (λ change. change) result (next_at bytes.now) }
{
    let (name, rest) = name_of(bytes)?;
    if rest.is_empty() {
        Some(Change::Restore(Restored::Next {
            tenant: name.tenant,
            next: name.id,
        }))
    } else {
        None
    }
}

#[tactic(auto, unfolding(crate::specs::Reading::totals_at))]
pub(crate) fn totals_of(bytes: &[u8]) -> Option<Change<'_>>
    ensures { Gives (λ change. change) result (totals_at bytes.now) }
{
    let (released, rest) = number_of(bytes)?;
    if rest.is_empty() {
        Some(Change::Restore(Restored::Totals { released }))
    } else {
        None
    }
}

#[tactic(auto, unfolding(crate::specs::Reading::back_at))]
fn back_of<'a, 'b>(bytes: &'a [u8], segments: &'b mut Segments<'a>) -> Option<RestoredUpload<'b>>
where
    'a: 'b,
    ensures { Gives (λ upload. upload) result (back_at bytes.now) }
{
    let rest = put_segments(bytes, segments)?;
    fields_of(segments.as_slice(), rest)
}

// What else an upload has that is put back with these segments.
#[tactic(auto, unfolding(crate::specs::Reading::fields_at))]
fn fields_of<'a>(segments: &'a [RestoredSegment<'a>], bytes: &'a [u8]) -> Option<RestoredUpload<'a>>
    ensures { Gives (λ upload. upload) result (fields_at segments.now bytes.now) }
{
    let (id, rest) = number_of(bytes)?;
    let (kind, rest) = kind_of(rest)?;
    let (declared, rest) = optional_of(rest)?;
    let Some((expires, rest)) = expires_of(rest) else {
        return None;
    };
    let (metadata, concat) = text_of(rest)?;
    Some(RestoredUpload {
        id,
        kind,
        declared,
        segments,
        metadata,
        concat,
        expires,
    })
}

// Puts the segments to their place, and gives the bytes behind them.
#[tactic(auto, unfolding(crate::specs::Reading::segments_at))]
fn put_segments<'a>(bytes: &'a [u8], segments: &mut Segments<'a>) -> Option<&'a [u8]>
    ensures { Gives (λ rest. (segments.new.items, rest.now)) result (segments_at bytes.now) }
{
    let (count, rest) = number_of(bytes)?;
    if count > PARTS_MAX as u64 {
        return None;
    }
    put_run(count, rest, segments)
}

// Puts so many segments to their place, and gives the bytes behind them.
fn put_run<'a>(count: u64, bytes: &'a [u8], segments: &mut Segments<'a>) -> Option<&'a [u8]>
    requires { count ≤ 32 }
    ensures { Gives (λ rest. (segments.new.items, rest.now)) result (many_at segment_at count bytes.now) }
{
    segments.clear();
    let mut rest = bytes;
    for _ in 0..count {
        let Some((segment, behind)) = segment_of(rest) else {
            return None;
        };
        segments.push(segment);
        rest = behind;
    }
    Some(rest)
}

#[tactic(auto, unfolding(crate::specs::Reading::segment_at))]
fn segment_of(bytes: &[u8]) -> Option<(RestoredSegment<'_>, &[u8])>
    ensures { Gives (λ x. (x.0, x.1.now)) result (segment_at bytes.now) }
{
    let (origin, rest) = number_of(bytes)?;
    let (bytes, rest) = optional_text_of(rest)?;
    Some((RestoredSegment { origin, bytes }, rest))
}

ghost use Rattle.std.specs.Prelude.{◌≡◌, ◌≤◌, ℕ, Some, None, MatchOption};
ghost use Rattle.journal_records.specs.Reading.{Gives, append_at, change_at, chunk_at, concat_at, create_at, final_at, first_at, many_at, optional_at, other_at, parts_at, record_at, terminate_at, upload_at};

use crate::fields::{
    byte_of, check_of, flag_more_of, flag_of, name_of, number_of, optional_of, text_of,
};
use crate::kinds::{APPEND, CONCAT, CREATE, NEXT, SWEEP, TERMINATE, TOTALS, UPLOAD};
use crate::piece_reader::{Segments, next_of, restore_of, totals_of};
use arrayvec::ArrayVec;
use upload_book::{Change, Chunk, FirstChunk, Moment, NewFinal, NewUpload, Payload};

/// How many parts a concatenation has at most.
pub const PARTS_MAX: usize = 32;

/// The parts of a concatenation, each by its id; `None` stands for one of another tenant.
pub type PartIds = ArrayVec<Option<u64>, PARTS_MAX>;

/// A change of the book, and the moment at which it was made. Its texts and bytes are lent from the record.
#[derive(Drop)]
pub struct Record<'a> {
    pub now: Moment,
    pub change: Change<'a>,
}

/// Reads a record, all of the bytes. The parts of a concatenation are put to `parts`, and the segments of an upload that is
/// put back to `segments`, from where the change lends them. `None` where the bytes are no record: they come from a file,
/// and may be any. It takes no memory.
#[tactic(auto, unfolding(crate::specs::Reading::moment_at, crate::specs::Reading::record_at))]
pub fn read_record<'a, 'b>(
    bytes: &'a [u8],
    parts: &'b mut PartIds,
    segments: &'b mut Segments<'a>,
) -> Option<Record<'b>>
where
    'a: 'b,
    ensures { Gives (λ read. (read.now, read.change)) result (record_at bytes.now) }
{
    let (secs, rest) = number_of(bytes)?;
    let now = Moment::new(secs)?;
    match change_of(rest, parts, segments) {
        Some(change) => Some(Record { now, change }),
        None => None,
    }
}

// The change of a record, which is all of these bytes.
#[tactic(auto, unfolding(crate::specs::Reading::change_at))]
fn change_of<'a, 'b>(
    bytes: &'a [u8],
    parts: &'b mut PartIds,
    segments: &'b mut Segments<'a>,
) -> Option<Change<'b>>
where
    'a: 'b,
    ensures { Gives (λ change. change) result (change_at bytes.now) }
{
    let (kind, fields) = byte_of(bytes)?;
    if kind == CONCAT {
        return concat_of(fields, parts);
    }
    if kind == UPLOAD {
        return restore_of(fields, segments);
    }
    other_of(kind, fields)
}

// A change that lends no list, by its kind.
fn other_of(kind: u8, fields: &[u8]) -> Option<Change<'_>>
    ensures { Gives (λ change. change) result (other_at kind fields.now) }
{
    match kind {
        CREATE => create_of(fields),
        APPEND => append_of(fields),
        TERMINATE => terminate_of(fields),
        SWEEP if fields.is_empty() => Some(Change::Sweep),
        NEXT => next_of(fields),
        TOTALS => totals_of(fields),
        _ => None,
    }
}

#[tactic(auto, unfolding(crate::specs::Reading::create_at))]
fn create_of(bytes: &[u8]) -> Option<Change<'_>>
    ensures { Gives (λ change. change) result (create_at bytes.now) }
{
    let (tenant, rest) = byte_of(bytes)?;
    let (new, rest) = upload_of(rest)?;
    let first = first_of(rest)?;
    Some(Change::Create { tenant, new, first })
}

#[tactic(auto, unfolding(crate::specs::Reading::append_at))]
fn append_of(bytes: &[u8]) -> Option<Change<'_>>
    ensures { Gives (λ change. change) result (append_at bytes.now) }
{
    let (name, rest) = name_of(bytes)?;
    let chunk = chunk_of(rest)?;
    Some(Change::Append { name, chunk })
}

#[tactic(auto, unfolding(crate::specs::Reading::concat_at))]
fn concat_of<'a, 'b>(bytes: &'a [u8], parts: &'b mut PartIds) -> Option<Change<'b>>
where
    'a: 'b,
    ensures { Gives (λ change. change) result (concat_at bytes.now) }
{
    let (tenant, rest) = byte_of(bytes)?;
    let new = final_of(rest, parts)?;
    Some(Change::Concat { tenant, new })
}

#[tactic(auto, unfolding(crate::specs::Reading::terminate_at))]
fn terminate_of(bytes: &[u8]) -> Option<Change<'_>>
    ensures { Gives (λ change. change) result (terminate_at bytes.now) }
{
    let (name, rest) = name_of(bytes)?;
    if !rest.is_empty() {
        return None;
    }
    Some(Change::Terminate(name))
}

#[tactic(auto, unfolding(crate::specs::Reading::upload_at))]
fn upload_of(bytes: &[u8]) -> Option<(NewUpload<'_>, &[u8])>
    ensures { Gives (λ x. (x.0, x.1.now)) result (upload_at bytes.now) }
{
    let (partial, rest) = flag_of(bytes)?;
    let (length, rest) = optional_of(rest)?;
    let (metadata, rest) = text_of(rest)?;
    let (concat, rest) = text_of(rest)?;
    let new = NewUpload {
        partial,
        length,
        metadata,
        concat,
    };
    Some((new, rest))
}

#[tactic(auto, unfolding(crate::specs::Reading::first_at))]
fn first_of(bytes: &[u8]) -> Option<FirstChunk<'_>>
    ensures { Gives (λ first. first) result (first_at bytes.now) }
{
    let (typed, more, rest) = flag_more_of(bytes)?;
    let (check, rest) = check_of(rest)?;
    Some(FirstChunk {
        typed,
        check,
        bytes: Payload::new(rest),
        more,
    })
}

#[tactic(auto, unfolding(crate::specs::Reading::chunk_at))]
fn chunk_of(bytes: &[u8]) -> Option<Chunk<'_>>
    ensures { Gives (λ chunk. chunk) result (chunk_at bytes.now) }
{
    let (offset, rest) = number_of(bytes)?;
    let (length, rest) = optional_of(rest)?;
    let (typed, more, rest) = flag_more_of(rest)?;
    let (check, rest) = check_of(rest)?;
    Some(Chunk {
        offset,
        length,
        typed,
        check,
        bytes: Payload::new(rest),
        more,
    })
}

#[tactic(auto, unfolding(crate::specs::Reading::final_at))]
fn final_of<'a, 'b>(bytes: &'a [u8], parts: &'b mut PartIds) -> Option<NewFinal<'b>>
where
    'a: 'b,
    ensures { Gives (λ new. new) result (final_at bytes.now) }
{
    let rest = put_parts(bytes, parts)?;
    let (metadata, concat) = text_of(rest)?;
    Some(NewFinal {
        parts: parts.as_slice(),
        metadata,
        concat,
    })
}

// Puts the parts to their place, and gives the bytes behind them.
#[tactic(auto, unfolding(crate::specs::Reading::parts_at))]
fn put_parts<'a>(bytes: &'a [u8], parts: &mut PartIds) -> Option<&'a [u8]>
    ensures { Gives (λ rest. (parts.new.items, rest.now)) result (parts_at bytes.now) }
{
    let (count, rest) = number_of(bytes)?;
    if count > PARTS_MAX as u64 {
        return None;
    }
    put_ids(count, rest, parts)
}

// Puts so many parts to their place, and gives the bytes behind them.
fn put_ids<'a>(count: u64, bytes: &'a [u8], parts: &mut PartIds) -> Option<&'a [u8]>
    requires { count ≤ 32 }
    ensures { Gives (λ rest. (parts.new.items, rest.now)) result (many_at optional_at count bytes.now) }
{
    parts.clear();
    let mut rest = bytes;
    for _ in 0..count {
        let Some((id, behind)) = optional_of(rest) else {
            return None;
        };
        parts.push(id);
        rest = behind;
    }
    Some(rest)
}

//! The uploads of a book as bytes by which they are put back.
ghost use Rattle.std.specs.Prelude.{◌≡◌, ◌++◌, [], Some, length, option_map, unwrap_or, OnOk, IfOk};
ghost use Rattle.upload_book.specs.declared.change.Change.TheVariants.{Restore};
ghost use Rattle.upload_book.specs.declared.restored.Restored.TheVariants.{Upload};
ghost use Rattle.journal_records.specs.Records.{back_bytes, record_bytes, segment_bytes, segments_bytes};

use crate::kinds::UPLOAD;
use crate::piece_writer::{put_end, put_kind};
use crate::writer::{put_number, put_optional, put_text};
use std::alloc::AllocError;
use upload_book::{KeptSegment, KeptUpload, Moment};

/// These bytes, and behind them the record that puts an upload back, of the tenant at this place and at this moment. The bytes
/// of the upload are copied from where the book has them. `Err` where memory is lacking; then all are let go.
pub fn with_kept(
    mut out: Vec<u8>,
    now: Moment,
    tenant: u8,
    upload: &KeptUpload,
) -> Result<Vec<u8>, AllocError>
    ensures { IfOk result (λ bytes. bytes.items ≡ out.items ++ record_bytes now (Restore (Upload tenant upload.now))) }
{
    put_number(&mut out, now.secs())?;
    out.extend_from_slice(&[UPLOAD, tenant])?;
    put_kept(&mut out, upload)?;
    Ok(out)
}

#[tactic(auto, unfolding(crate::specs::Records::back_bytes))]
fn put_kept(out: &mut Vec<u8>, upload: &KeptUpload) -> Result<(), AllocError>
    ensures { OnOk result (out.new.items ≡ out.old.items ++ back_bytes upload.now) }
{
    let row = upload.row();
    let growth = row.growth();
    put_segments(out, upload)?;
    put_number(out, upload.id())?;
    put_kind(out, row.kind())?;
    put_optional(out, growth.declared)?;
    put_end(out, growth.expires)?;
    put_text(out, row.metadata())?;
    out.extend_from_slice(row.concat())
}

fn put_segments(out: &mut Vec<u8>, upload: &KeptUpload) -> Result<(), AllocError>
    ensures { OnOk result (out.new.items ≡ out.old.items ++ segments_bytes upload.now.segments) }
{
    let count = upload.segment_count();
    put_number(out, count as u64)?;
    for place in 0..count {
        put_segment(out, &upload.segment(place))?;
    }
    Ok(())
}

fn put_segment(out: &mut Vec<u8>, segment: &KeptSegment) -> Result<(), AllocError>
    ensures { OnOk result (out.new.items ≡ out.old.items ++ segment_bytes segment.now) }
{
    put_number(out, segment.origin())?;
    let Some(len) = segment.len() else {
        return out.extend_from_slice(&[0]);
    };
    out.extend_from_slice(&[1])?;
    put_number(out, len)?;
    put_bytes(out, segment, len)
}

// Puts the bytes of a segment that brings so many.
fn put_bytes(out: &mut Vec<u8>, segment: &KeptSegment, len: u64) -> Result<(), AllocError>
    requires { option_map length segment.now.bytes ≡ Some len }
    ensures { OnOk result (out.new.items ≡ out.old.items ++ unwrap_or segment.now.bytes []) }
{
    let mut offset: u64 = 0;
    'lent: while offset < len {
        let bytes = segment.bytes_from(offset);
        out.extend_from_slice(bytes)?;
        offset += bytes.len() as u64;
    }
    Ok(())
}

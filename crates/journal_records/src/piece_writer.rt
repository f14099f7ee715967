//! The pieces of a book that are put back, as bytes.
ghost use Rattle.std.specs.Prelude.{◌≡◌, ◌++◌, [], ◌∷◌, OnOk, option_map};
ghost use Rattle.journal_records.specs.Records.{back_bytes, kind_byte, optional, optional_text, piece_bytes, segment_bytes, segments_bytes};

use crate::kinds::{NEXT, TOTALS, UPLOAD};
use crate::writer::{put_number, put_optional, put_text};
use std::alloc::AllocError;
use upload_book::{Kind, Moment, Restored, RestoredSegment, RestoredUpload};

/// Puts a byte for which piece it is, and its fields, behind what is there. Where one of these calls fails, some bytes may
/// stand there.
pub(crate) fn put_piece(out: &mut Vec<u8>, restored: &Restored) -> Result<(), AllocError>
    ensures { OnOk result (out.new.items ≡ out.old.items ++ piece_bytes restored.now) }
{
    match restored {
        Restored::Upload { tenant, upload } => {
            out.extend_from_slice(&[UPLOAD, *tenant])?;
            put_back(out, upload)
        }
        Restored::Next { tenant, next } => {
            out.extend_from_slice(&[NEXT, *tenant])?;
            put_number(out, *next)
        }
        Restored::Totals { released } => {
            out.extend_from_slice(&[TOTALS])?;
            put_number(out, *released)
        }
    }
}

#[tactic(auto, unfolding(crate::specs::Records::back_bytes))]
fn put_back(out: &mut Vec<u8>, upload: &RestoredUpload) -> Result<(), AllocError>
    ensures { OnOk result (out.new.items ≡ out.old.items ++ back_bytes upload.now) }
{
    put_segments(out, upload.segments)?;
    put_number(out, upload.id)?;
    put_kind(out, upload.kind)?;
    put_optional(out, upload.declared)?;
    put_end(out, upload.expires)?;
    put_text(out, upload.metadata)?;
    out.extend_from_slice(upload.concat)
}

pub(crate) fn put_end(out: &mut Vec<u8>, expires: Option<Moment>) -> Result<(), AllocError>
    ensures { OnOk result (out.new.items ≡ out.old.items ++ optional expires) }
{
    match expires {
        None => out.extend_from_slice(&[0]),
        Some(end) => {
            out.extend_from_slice(&[1])?;
            put_number(out, end.secs())
        }
    }
}

pub(crate) fn put_kind(out: &mut Vec<u8>, kind: Kind) -> Result<(), AllocError>
    ensures { OnOk result (out.new.items ≡ out.old.items ++ kind_byte kind ∷ []) }
{
    let byte = match kind {
        Kind::Plain => 0,
        Kind::Partial => 1,
        Kind::Final => 2,
    };
    out.extend_from_slice(&[byte])
}

fn put_segments(out: &mut Vec<u8>, segments: &[RestoredSegment]) -> Result<(), AllocError>
    ensures { OnOk result (out.new.items ≡ out.old.items ++ segments_bytes segments.now) }
{
    put_number(out, segments.len() as u64)?;
    for segment in segments {
        put_segment(out, segment)?;
    }
    Ok(())
}

fn put_segment(out: &mut Vec<u8>, segment: &RestoredSegment) -> Result<(), AllocError>
    ensures { OnOk result (out.new.items ≡ out.old.items ++ segment_bytes segment.now) }
{
    put_number(out, segment.origin)?;
    put_optional_text(out, segment.bytes)
}

fn put_optional_text(out: &mut Vec<u8>, bytes: Option<&[u8]>) -> Result<(), AllocError>
    ensures { OnOk result (out.new.items ≡ out.old.items ++ optional_text (option_map (λ text. text.now) bytes.entry)) }
{
    match bytes {
        None => out.extend_from_slice(&[0]),
        Some(text) => {
            out.extend_from_slice(&[1])?;
            put_text(out, text)
        }
    }
}

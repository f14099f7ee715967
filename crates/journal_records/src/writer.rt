ghost use Rattle.std.specs.Prelude.{◌≡◌, ◌++◌, OnOk, IfOk};
ghost use Rattle.journal_records.specs.Records.{change_bytes, check, chunk_bytes, final_bytes, first_bytes, flag, flag_more, name_bytes, number, optional, parts, record_bytes, text, upload_bytes};

use crate::kinds::{APPEND, CONCAT, CREATE, SWEEP, TERMINATE};
use crate::piece_writer::put_piece;
use std::alloc::AllocError;
use tus_text::Checksum;
use upload_book::{Change, Chunk, FirstChunk, Moment, Name, NewFinal, NewUpload};

/// The bytes with the record of a change and its moment behind them. `Err` where memory is lacking; then they are let
/// go.
pub fn with_record(mut out: Vec<u8>, now: Moment, change: &Change) -> Result<Vec<u8>, AllocError>
    ensures { IfOk result (λ bytes. bytes.items ≡ out.items ++ record_bytes now change.now) }
{
    put_number(&mut out, now.secs())?;
    put_change(&mut out, change)?;
    Ok(out)
}

// Puts a byte for which change it is, and its fields, behind what is there. Where one of these calls fails, some bytes
// may stand there.
fn put_change(out: &mut Vec<u8>, change: &Change) -> Result<(), AllocError>
    ensures { OnOk result (out.new.items ≡ out.old.items ++ change_bytes change.now) }
{
    match change {
        Change::Create { tenant, new, first } => {
            out.extend_from_slice(&[CREATE, *tenant])?;
            put_upload(out, new)?;
            put_first(out, first)
        }
        Change::Append { name, chunk } => {
            out.extend_from_slice(&[APPEND])?;
            put_name(out, name)?;
            put_chunk(out, chunk)
        }
        Change::Concat { tenant, new } => {
            out.extend_from_slice(&[CONCAT, *tenant])?;
            put_final(out, new)
        }
        Change::Terminate(name) => {
            out.extend_from_slice(&[TERMINATE])?;
            put_name(out, name)
        }
        Change::Sweep => out.extend_from_slice(&[SWEEP]),
        Change::Restore(restored) => put_piece(out, restored),
    }
}

#[tactic(auto, unfolding(crate::specs::Records::upload_bytes))]
fn put_upload(out: &mut Vec<u8>, new: &NewUpload) -> Result<(), AllocError>
    ensures { OnOk result (out.new.items ≡ out.old.items ++ upload_bytes new.now) }
{
    put_flag(out, new.partial)?;
    put_optional(out, new.length)?;
    put_text(out, new.metadata)?;
    put_text(out, new.concat)
}

#[tactic(auto, unfolding(crate::specs::Records::first_bytes))]
fn put_first(out: &mut Vec<u8>, first: &FirstChunk) -> Result<(), AllocError>
    ensures { OnOk result (out.new.items ≡ out.old.items ++ first_bytes first.now) }
{
    let bytes = first.bytes.as_slice();
    put_body(out, first.typed, first.more, &first.check, bytes)
}

#[tactic(auto, unfolding(crate::specs::Records::chunk_bytes))]
fn put_chunk(out: &mut Vec<u8>, chunk: &Chunk) -> Result<(), AllocError>
    ensures { OnOk result (out.new.items ≡ out.old.items ++ chunk_bytes chunk.now) }
{
    put_number(out, chunk.offset)?;
    put_optional(out, chunk.length)?;
    let bytes = chunk.bytes.as_slice();
    put_body(out, chunk.typed, chunk.more, &chunk.check, bytes)
}

// Puts whether a body is of its content type, how much more of it is to come, its checksum, and its bytes.
fn put_body(
    out: &mut Vec<u8>,
    typed: bool,
    more: u64,
    told: &Option<Checksum>,
    bytes: &[u8],
) -> Result<(), AllocError>
    ensures { OnOk result (out.new.items ≡ out.old.items ++ flag_more typed more ++ check told.now ++ bytes.now) }
{
    put_flag_more(out, typed, more)?;
    put_check(out, told)?;
    out.extend_from_slice(bytes)
}

#[tactic(auto, unfolding(crate::specs::Records::final_bytes))]
fn put_final(out: &mut Vec<u8>, new: &NewFinal) -> Result<(), AllocError>
    ensures { OnOk result (out.new.items ≡ out.old.items ++ final_bytes new.now) }
{
    put_parts(out, new.parts)?;
    put_text(out, new.metadata)?;
    out.extend_from_slice(new.concat)
}

fn put_parts(out: &mut Vec<u8>, ids: &[Option<u64>]) -> Result<(), AllocError>
    ensures { OnOk result (out.new.items ≡ out.old.items ++ parts ids.now) }
{
    put_number(out, ids.len() as u64)?;
    for id in ids {
        put_optional(out, *id)?;
    }
    Ok(())
}

fn put_name(out: &mut Vec<u8>, name: &Name) -> Result<(), AllocError>
    ensures { OnOk result (out.new.items ≡ out.old.items ++ name_bytes name.now) }
{
    out.extend_from_slice(&[name.tenant])?;
    put_number(out, name.id)
}

pub(crate) fn put_text(out: &mut Vec<u8>, bytes: &[u8]) -> Result<(), AllocError>
    ensures { OnOk result (out.new.items ≡ out.old.items ++ text bytes.now) }
{
    put_number(out, bytes.len() as u64)?;
    out.extend_from_slice(bytes)
}

fn put_check(out: &mut Vec<u8>, told: &Option<Checksum>) -> Result<(), AllocError>
    ensures { OnOk result (out.new.items ≡ out.old.items ++ check told.now) }
{
    match told {
        None => out.extend_from_slice(&[0]),
        Some(Checksum::Sha1(digest)) => {
            out.extend_from_slice(&[1])?;
            out.extend_from_slice(digest)
        }
        Some(Checksum::Other) => out.extend_from_slice(&[2]),
    }
}

pub(crate) fn put_optional(out: &mut Vec<u8>, n: Option<u64>) -> Result<(), AllocError>
    ensures { OnOk result (out.new.items ≡ out.old.items ++ optional n) }
{
    match n {
        None => out.extend_from_slice(&[0]),
        Some(n) => {
            out.extend_from_slice(&[1])?;
            put_number(out, n)
        }
    }
}

fn put_flag(out: &mut Vec<u8>, is_set: bool) -> Result<(), AllocError>
    ensures { OnOk result (out.new.items ≡ out.old.items ++ flag is_set) }
{
    let byte = if is_set { 1 } else { 0 };
    out.extend_from_slice(&[byte])
}

fn put_flag_more(out: &mut Vec<u8>, is_set: bool, more: u64) -> Result<(), AllocError>
    ensures { OnOk result (out.new.items ≡ out.old.items ++ flag_more is_set more) }
{
    if more == 0 {
        return put_flag(out, is_set);
    }
    let byte = if is_set { 3 } else { 2 };
    out.extend_from_slice(&[byte])?;
    put_number(out, more)
}

pub(crate) fn put_number(out: &mut Vec<u8>, n: u64) -> Result<(), AllocError>
    ensures { OnOk result (out.new.items ≡ out.old.items ++ number n) }
{
    out.extend_from_slice(&n.to_be_bytes())
}

ghost use Rattle.std.specs.Prelude.{◌≡◌, ◌+◌, ◌≤◌, ◌^◌, ◌*◌, ◌++◌, length, take, drop, sum, OnOk, OnErr, replicate};
ghost use Rattle.journal_frames.specs.Frames.{balance, frame};

use sqlite_disk::digest_of;
use std::alloc::AllocError;

/// How many bytes of a frame stand before its payload: its length, its balance and its digest.
pub const HEADER_LEN: usize = 24;

/// How many bytes a payload has at most.
pub const PAYLOAD_MAX: usize = 1 << 32;

// How many bytes a body has at most: a digest and a payload.
pub(crate) const BODY_MAX: usize = PAYLOAD_MAX + 8;

/// Puts room for the header of a frame behind what is there. The payload is to be pushed behind it, and the frame then
/// to be closed. `Err` where memory is lacking; then nothing is put.
pub fn open_frame(out: &mut Vec<u8>) -> Result<(), AllocError>
    ensures put { OnOk result (out.new.items ≡ out.old.items ++ replicate 24 0) }
    ensures unchanged { OnErr result (out.new.items ≡ out.old.items) }
{
    out.extend_from_slice(&[0; HEADER_LEN])
}

/// Makes a frame under a key of what stands from `start` on: room for its header, and its payload, which is not moved.
/// It takes no memory.
pub fn close_frame(out: &mut Vec<u8>, start: usize, key: u64)
    requires header { start + 24 ≤ length out.old.items }
    requires payload { length out.old.items ≤ start + 24 + 2 ^ 32 }
    ensures { out.new.items ≡ take start out.old.items ++ frame key (drop (start + 24) out.old.items) }
{
    let (_, payload) = out.split_at(start + HEADER_LEN);
    let header = header_of(key, payload);
    out[start..start + HEADER_LEN].copy_from_slice(&header);
}

/// Puts a frame with this payload behind what is there. `Err` where memory is lacking; then nothing is put.
pub fn push_frame(out: &mut Vec<u8>, key: u64, payload: &[u8]) -> Result<(), AllocError>
    requires { length payload.now ≤ 2 ^ 32 }
    ensures put { OnOk result (out.new.items ≡ out.old.items ++ frame key payload.now) }
    ensures unchanged { OnErr result (out.new.items ≡ out.old.items) }
{
    let start = out.len();
    open_frame(out)?;
    if out.extend_from_slice(payload).is_err() {
        out.truncate(start);
        return Err(AllocError);
    }
    close_frame(out, start, key);
    Ok(())
}

// What stands before a payload in its frame.
fn header_of(key: u64, payload: &[u8]) -> [u8; HEADER_LEN]
    requires { length payload.now ≤ 2 ^ 32 }
    ensures { result ++ payload.now ≡ frame key payload.now }
{
    let digest = digest_of(key, payload).to_be_bytes();
    let len = (8 + payload.len()) as u64;
    let lacking = u64::MAX - len - sum_of(&digest) - sum_of(payload);
    let mut header = [0; HEADER_LEN];
    header[..8].copy_from_slice(&len.to_be_bytes());
    header[8..16].copy_from_slice(&lacking.to_be_bytes());
    header[16..].copy_from_slice(&digest);
    header
}

// How much the length of a body and the sum of its bytes lack to 2^64 - 1.
pub(crate) fn balance(body: &[u8]) -> u64
    requires { length body.now ≤ 2 ^ 32 + 8 }
    ensures { result ≡ balance body.now }
{
    u64::MAX - body.len() as u64 - sum_of(body)
}

// The sum of the bytes.
fn sum_of(bytes: &[u8]) -> u64
    requires { length bytes.now ≤ 2 ^ 32 + 8 }
    ensures value { result ≡ sum bytes.now }
    ensures bound { result ≤ 255 * length bytes.now }
{
    bytes.iter().map(|byte| u64::from(*byte)).sum()
}

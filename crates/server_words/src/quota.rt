//! The quota of a tenant, as a word writes it.
ghost use Rattle.std.specs.Prelude.{◌≡◌};
ghost use Rattle.server_words.specs.Quota.{blocks_of_units, bytes_quota, quota_of, unit_bytes, whole_blocks};

use tus_text::read_number;

/// How many bytes of a text a unit has.
const UNIT_LEN: usize = 3;

/// The quota that a text writes, in blocks of so many bytes: a number of blocks, or of bytes with the unit `KiB`, `MiB`, `GiB`
/// or `TiB`, in whole blocks. None where it is neither, or is 2^64 or more.
pub fn read_quota(text: &[u8], block_size: u64) -> Option<u64>
    ensures { result ≡ quota_of block_size text.now }
{
    match read_number(text) {
        Some(blocks) => Some(blocks),
        None => bytes_quota(text, block_size),
    }
}

/// A number before a unit, in whole blocks.
fn bytes_quota(text: &[u8], block_size: u64) -> Option<u64>
    ensures { result ≡ bytes_quota block_size text.now }
{
    let (number, unit) = text.split_at(text.len().saturating_sub(UNIT_LEN));
    let number = read_number(number)?;
    let unit = unit_bytes(unit)?;
    blocks_of_units(number, unit, block_size)
}

/// A number of units in whole blocks; None where it is 2^64 bytes or more.
fn blocks_of_units(number: u64, unit: u64, block_size: u64) -> Option<u64>
    ensures { result ≡ blocks_of_units block_size number unit }
{
    let bytes = number.checked_mul(unit)?;
    Some(whole_blocks(bytes, block_size))
}

/// How many whole blocks so many bytes are; none, where a block has no byte.
fn whole_blocks(bytes: u64, block_size: u64) -> u64
    ensures { result ≡ whole_blocks block_size bytes }
{
    if block_size == 0 {
        0
    } else {
        bytes / block_size
    }
}

/// How many bytes a unit has.
fn unit_bytes(unit: &[u8]) -> Option<u64>
    ensures { result ≡ unit_bytes unit.now }
{
    if unit == b"KiB".as_slice() {
        Some(1024)
    } else if unit == b"MiB".as_slice() {
        Some(1_048_576)
    } else if unit == b"GiB".as_slice() {
        Some(1_073_741_824)
    } else if unit == b"TiB".as_slice() {
        Some(1_099_511_627_776)
    } else {
        None
    }
}

//! How much memory the process has.

use std::fs::File;
use std::io::{Read, Seek, SeekFrom};
use std::str;

/// The bytes of a page of memory on x86-64, the only processor that the toolchain builds for.
const PAGE_SIZE: u64 = 4_096;

/// The bytes of the process that are in memory, where the system tells them: the second number of the file, in pages.
pub(crate) fn resident_bytes(pages: &Option<File>) -> Option<u64> {
    let mut file = pages.as_ref()?;
    let mut bytes = [0; 128];
    file.seek(SeekFrom::Start(0)).ok()?;
    let count = file.read(&mut bytes).ok()?;
    let text = str::from_utf8(bytes.get(..count)?).ok()?;
    let number = text.split(' ').nth(1)?.parse::<u64>().ok()?;
    number.checked_mul(PAGE_SIZE)
}

//! Each module tests a part, or helps those that do.

mod acme;
mod file;
mod frames;
mod keeper;
mod kept;
mod records;
mod replay;
mod torn_disk;

/// The key of the journals here.
pub(crate) const KEY: u64 = 7;

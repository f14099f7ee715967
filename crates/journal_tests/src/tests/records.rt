//! Records of changes as bytes, and bytes that are none.

mod faults;
mod framed;
mod kept;
mod records;

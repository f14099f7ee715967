//! Each change of the book and its moment as a record of bytes, and records read again exactly; and the frame of a record.
#![tactic(auto)]

mod fields;
mod framing;
mod kept_writer;
mod kinds;
mod laws;
mod piece_reader;
mod piece_writer;
mod reader;
mod writer;

pub use framing::frame_of;
pub use kept_writer::with_kept;
pub use laws::{records_are_read_again, records_are_spelled_so};
pub use piece_reader::Segments;
pub use reader::{PARTS_MAX, PartIds, Record, read_record};
pub use writer::with_record;

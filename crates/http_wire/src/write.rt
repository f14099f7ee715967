//! Replies and refusals, put to what is to be sent.

pub mod file;
pub mod last_date;
pub mod own_fields;
pub mod page;
pub mod reply;
pub mod send;
pub mod write_buffer;

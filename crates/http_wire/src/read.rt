//! The next message, read from bytes.
pub mod connection_fields;
pub mod fields;
pub mod head;
pub mod head_search;
pub mod head_text;
pub mod judge;
pub mod layout;
pub mod pieces;
pub mod read_buffer;
pub mod request;
pub mod stage;

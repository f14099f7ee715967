//! A plain program for each definition. It follows the definition step by step, however slow that is, and is proved
//! equal to it; the tests run it beside the reader. No other code uses these programs.
mod concat;
mod cut;
mod date;
mod metadata;
mod number;
mod path;
mod value;

pub use concat::{PlainConcat, plain_concat};
pub use date::plain_expires;
pub use metadata::plain_metadata;
pub use number::plain_number;
pub use path::plain_path;

//! The heads of a book, shown to readers that take no lock. A board gets a note of each change of the book, and no
//! reader falls behind what it has seen.
#![tactic(auto)]

mod board;
mod board_copy;
mod coming_texts;
mod entering;
mod event;
mod event_log;
mod first_end;
mod head_reader;
mod head_rows;
mod head_table;
mod kept_row;
mod last_changes;
pub mod laws;
mod row_list;
mod showing;
mod totals;

pub use board::Board;
pub use event::{Coming, Event};
pub use event_log::{Opened, SeenEvents};
pub use head_reader::HeadReader;
pub use head_table::HeadTable;
pub use totals::Totals;

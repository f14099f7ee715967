//! The words of the server: what its command line says, the settings that words and numbers give, and what it says of faults.
//! Nothing here opens a file or a socket, or writes to a stream.
#![tactic(auto)]

mod arguments;
mod cause;
mod command_line;
mod difference;
mod explained;
mod fault;
mod journal_fault;
mod options;
mod quota;
mod sentence;
mod settings;
mod settings_file;
mod shortage;
mod tenants;
mod version;

pub use arguments::command_options;
pub use cause::{Cause, PortFault};
pub use command_line::parsed;
pub use difference::{Difference, first_difference, name_at, renewing_difference};
pub use fault::RunFault;
pub use journal_fault::{JournalFault, Mismatch, NoUpload};
pub use options::{CommandOptions, ExportOptions, ServeOptions, TalkOptions, WorkerOptions};
pub use quota::read_quota;
pub use sentence::{Excerpt, NO_TEXT, OUTPUT, UNTOLD, WORDS_MEMORY, shown_bytes};
pub use settings::settings_with;
pub use settings_file::{read_settings, settings_text};
pub use shortage::Shortage;

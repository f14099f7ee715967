//! The folders in which journals lie, each beside the settings that it is of: how they are opened and read, what is told of
//! them, and how a journal gets other settings.
#![tactic(auto)]

mod checking;
mod closing;
mod exporting;
mod held;
mod journal_folder;
mod journals;
mod line;
mod mark;
mod printing;
mod program_fault;
mod reading;
mod renewing;
mod shortage;
mod spare;

pub use checking::check;
pub use exporting::export;
pub use held::{Held, held_in};
pub use journal_folder::{check_settings, open_kept, renew_settings};
pub use journals::{
    Folder, JOURNAL_KEY, JournalFiles, Journals, MachineJournals, MachinePlace, MachineSettings,
    SettingsFile,
};
pub use line::put_number;
pub use program_fault::fault_of_journal;
pub use renewing::open_renewed;

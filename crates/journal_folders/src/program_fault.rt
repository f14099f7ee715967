//! What faults of a journal's file and of its records are to the program.
ghost use Rattle.std.specs.Prelude.{◌≡◌};
ghost use Rattle.journal_folders.specs.ProgramFault.{fault_of_damage, fault_of_file, fault_of_journal, fault_of_kept, fault_of_replay};

use book_replay::ReplayFault;
use journal_file::{Damage, JournalError};
use kept_book::OpenFault;
use server_words::{JournalFault, RunFault};
use sqlite_std_file::OpenError;

/// What it is to the program that a file could not be opened or made.
pub fn fault_of_file(error: OpenError) -> RunFault
    ensures { result ≡ fault_of_file error }
{
    match error {
        OpenError::OutOfMemory => RunFault::Memory,
        OpenError::Busy => RunFault::Journal(JournalFault::Busy),
        OpenError::Io(_) | OpenError::HotJournal => RunFault::Journal(JournalFault::File),
    }
}

/// What the damage of a journal's file is to the program.
pub fn fault_of_damage(damage: Damage) -> RunFault
    ensures { result ≡ fault_of_damage damage }
{
    RunFault::Journal(JournalFault::Damaged {
        at: damage.at,
        len: damage.len,
    })
}

/// What an error of a journal is to the program.
pub fn fault_of_journal(error: JournalError) -> RunFault
    ensures { result ≡ fault_of_journal error }
{
    match error {
        JournalError::Memory => RunFault::Memory,
        JournalError::Damaged(damage) => fault_of_damage(damage),
        _ => RunFault::Journal(JournalFault::Disk),
    }
}

/// What it is to the program that no book was made of records.
pub fn fault_of_replay(fault: ReplayFault) -> RunFault
    ensures { result ≡ fault_of_replay fault }
{
    match fault {
        ReplayFault::Record(number) => RunFault::Journal(JournalFault::Record(number)),
        ReplayFault::Memory => RunFault::Memory,
    }
}

/// What it is to the program that a kept book could not be opened.
pub fn fault_of_kept(fault: OpenFault) -> RunFault
    ensures { result ≡ fault_of_kept fault }
{
    match fault {
        OpenFault::Journal(error) => fault_of_journal(error),
        OpenFault::Replay(fault) => fault_of_replay(fault),
        OpenFault::Memory => RunFault::Memory,
    }
}

//! What faults of a connection and of an opening are to the program.
ghost use Rattle.std.specs.Prelude.{◌≡◌};
ghost use Rattle.tus_program.specs.ProgramFault.{fault_of_opening, fault_of_reopening, fault_of_wire};

use http_wire::WireFault;
use journal_keeper::ReopenFault;
use server_words::{Cause, JournalFault, RunFault};
use tus_shared::OpenFault;

/// What a fault of the connection is to the program.
pub fn fault_of_wire(fault: WireFault) -> RunFault
    ensures { result ≡ fault_of_wire fault }
{
    match fault {
        WireFault::Memory => RunFault::Memory,
        WireFault::Read => RunFault::Wire(Cause::Input),
        WireFault::Write | WireFault::Failed => RunFault::Wire(Cause::Output),
    }
}

/// What a fault of an opening is to the program.
pub fn fault_of_opening(fault: OpenFault) -> RunFault
    ensures { result ≡ fault_of_opening fault }
{
    match fault {
        OpenFault::Desks => RunFault::Words,
        OpenFault::Memory | OpenFault::Board => RunFault::Memory,
    }
}

/// What it is to the program that the changes of a journal's records could not be made again.
pub fn fault_of_reopening(fault: ReopenFault) -> RunFault
    ensures { result ≡ fault_of_reopening fault }
{
    match fault {
        ReopenFault::Record(number) => RunFault::Journal(JournalFault::Record(number)),
        ReopenFault::Memory => RunFault::Memory,
        ReopenFault::Waiting => RunFault::Journal(JournalFault::Disk),
    }
}

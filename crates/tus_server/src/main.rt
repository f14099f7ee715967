//! The server's program: `tus-server talk` holds one conversation over its standard streams, `tus-server serve` answers
//! connections, and `tus-server journal` looks into what either keeps.
#![tactic(auto)]

ghost use Rattle.std.specs.Prelude.{◌≡◌, ◌≢◌};
ghost use Rattle.std.specs.IoError.{error_kind};

use http_wire::Tapped;
use journal_folders::MachineJournals;
use server_words::{NO_TEXT, RunFault, WORDS_MEMORY};
use std::env;
use std::io::{Error, ErrorKind};
use std::process::ExitCode;
use tus_program::{is_watched, report_fault, run};
use tus_workers::SocketListener;

fn main(rt: HostRuntime) -> ExitCode {
    let mut reader = Tapped::new(rt.stdin());
    let mut writer = Tapped::new(rt.stdout());
    let mut errors = Tapped::new(rt.stderr());
    let is_watched = is_watched();
    let status = match words(&rt) {
        Ok(words) => run::<SocketListener, _, _, _, _, _, _, _>(
            &rt,
            &MachineJournals {
                rt: &rt,
                threads: rt,
            },
            rt.alloc(),
            words.as_slice(),
            is_watched,
            &mut reader,
            &mut writer,
            &mut errors,
        ),
        Err(RunFault::Memory) => report_fault(
            &RunFault::Memory,
            WORDS_MEMORY,
            is_watched,
            &mut errors,
        ),
        Err(fault) => report_fault(&fault, NO_TEXT, is_watched, &mut errors),
    };
    ExitCode::from(status)
}

/// The words of the command line, the program's name first. The error is `RunFault::Words` where one is
/// not UTF-8, or `RunFault::Memory`.
fn words(rt: &HostRuntime) -> Result<Vec<String>, RunFault> {
    let words = env::args(rt).map_err(fault_of)?;
    Ok(words.collect(rt.alloc())?)
}

/// What it is to the program that the words could not be read.
fn fault_of(error: Error) -> RunFault
    ensures memory { error_kind error ≡ ErrorKind.OutOfMemory → result ≡ RunFault.Memory }
    ensures words { error_kind error ≢ ErrorKind.OutOfMemory → result ≡ RunFault.Words }
{
    if error.kind() == ErrorKind::OutOfMemory {
        RunFault::Memory
    } else {
        RunFault::Words
    }
}

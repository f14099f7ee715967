//! What broke where a read, a write or a socket failed.
ghost use Rattle.std.specs.Prelude.{◌≡◌};
ghost use Rattle.std.specs.IoError.{error_kind};
ghost use Rattle.server_words.specs.Cause.{port_fault_of};

use std::io::{Error, ErrorKind};

/// What broke.
#[derive(Clone, Copy, Debug, PartialEq, Eq)]
pub enum Cause {
    /// Standard input could not be read.
    Input,
    /// Standard output could not be written.
    Output,
    /// The port could not be had.
    Port(PortFault),
    /// The system gave no sockets for the workers.
    Workers,
    /// A worker could accept no more connections.
    Accept,
    /// The file of the log could not be opened.
    Log,
    /// The port at which numbers are asked for could not be had.
    Metrics,
}

/// Why a port could not be had.
#[derive(Clone, Copy, Debug, PartialEq, Eq)]
pub enum PortFault {
    /// Another program has it.
    Taken,
    /// The user may not have it.
    Forbidden,
    /// The machine has no such address.
    NotHere,
    /// For another reason of the system.
    Refused,
}

impl PortFault {
    /// What an error of listening says of the port.
    pub fn of(error: &Error) -> PortFault
        ensures { result ≡ port_fault_of (error_kind error.now) }
    {
        match error.kind() {
            ErrorKind::AddrInUse => PortFault::Taken,
            ErrorKind::PermissionDenied => PortFault::Forbidden,
            ErrorKind::AddrNotAvailable => PortFault::NotHere,
            _ => PortFault::Refused,
        }
    }
}

ghost use Rattle.std.specs.Prelude.{◌≡◌, Some};
ghost use Rattle.tus_shared.specs.Fault.{open_fault_word};

use std::fmt;
use std::fmt::{Display, Formatter, Write};
use thiserror::Error;

/// Why nothing was opened. It displays its word.
#[derive(Clone, Copy, Debug, PartialEq, Eq, Error)]
pub enum OpenFault {
    /// There are to be no desks, or more than 16.
    Desks,
    /// There was too little memory.
    Memory,
    /// The board, or a reader of it, could not be made.
    Board,
}

impl OpenFault {
    /// The word that names it.
    pub fn word(self) -> &'static str
        ensures { result.now ≡ open_fault_word self }
    {
        match self {
            OpenFault::Desks => "desks",
            OpenFault::Memory => "memory",
            OpenFault::Board => "board",
        }
    }
}

impl Display for OpenFault {
    ghost output = { λ fault. Some (open_fault_word fault) };

    fn fmt<W: Write>(&self, f: &mut Formatter<W>) -> fmt::Result {
        f.write_str(self.word())
    }
}

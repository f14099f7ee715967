ghost use Rattle.std.specs.Prelude.{◌≡◌, Some};
ghost use Rattle.tus_shared.specs.Fault.{work_fault_word};

use std::fmt;
use std::fmt::{Display, Formatter, Write};
use thiserror::Error;

/// Why no desk answered its batch. It displays its word.
#[derive(Clone, Copy, Debug, PartialEq, Eq, Error)]
pub enum WorkFault {
    /// There was too little memory for the lists of replies.
    Memory,
}

impl WorkFault {
    /// The word that names it.
    pub fn word(self) -> &'static str
        ensures { result.now ≡ work_fault_word self }
    {
        match self {
            WorkFault::Memory => "memory",
        }
    }
}

impl Display for WorkFault {
    ghost output = { λ fault. Some (work_fault_word fault) };

    fn fmt<W: Write>(&self, f: &mut Formatter<W>) -> fmt::Result {
        f.write_str(self.word())
    }
}

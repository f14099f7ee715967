ghost use Rattle.std.specs.Prelude.{◌≡◌, Some};
ghost use Rattle.tus_steps.specs.Fault.{run_fault_word};

use std::fmt;
use std::fmt::{Display, Formatter, Write};
use thiserror::Error;

/// Why no request of a run was answered. It displays its word.
#[derive(Clone, Copy, Debug, PartialEq, Eq, Error)]
pub enum RunFault {
    /// There was too little memory for the list of replies.
    Memory,
}

impl RunFault {
    /// The word that names it.
    pub fn word(self) -> &'static str
        ensures { result.now ≡ run_fault_word self }
    {
        match self {
            RunFault::Memory => "memory",
        }
    }
}

impl Display for RunFault {
    ghost output = { λ fault. Some (run_fault_word fault) };

    fn fmt<W: Write>(&self, f: &mut Formatter<W>) -> fmt::Result {
        f.write_str(self.word())
    }
}

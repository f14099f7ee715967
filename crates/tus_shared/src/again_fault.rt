ghost use Rattle.std.specs.Prelude.{◌≡◌, Some};
ghost use Rattle.tus_shared.specs.Fault.{again_fault_word};

use std::fmt;
use std::fmt::{Display, Formatter, Write};
use thiserror::Error;
use upload_book::Refused;

/// Why a change whose record stands in the journal was not made again. It displays its word.
#[derive(Clone, Copy, Debug, PartialEq, Eq, Error)]
pub enum AgainFault {
    /// Records wait to be written, which would come before it.
    Waiting,
    /// It is none that a book may be asked for.
    Change,
    /// The book refuses it, or lacks memory.
    Refused(Refused),
}

impl AgainFault {
    /// The word that names it.
    pub fn word(self) -> &'static str
        ensures { result.now ≡ again_fault_word self }
    {
        match self {
            AgainFault::Waiting => "waiting",
            AgainFault::Change => "change",
            AgainFault::Refused(_) => "refused",
        }
    }
}

impl Display for AgainFault {
    ghost output = { λ fault. Some (again_fault_word fault) };

    fn fmt<W: Write>(&self, f: &mut Formatter<W>) -> fmt::Result {
        f.write_str(self.word())
    }
}

ghost use Rattle.std.specs.Prelude.{◌≡◌, Some};
ghost use Rattle.block_bodies.specs.Faults.{fault_text};

use std::fmt;
use thiserror::Error;

/// Why bytes were not appended. It displays its [`BodyFault::text`].
#[derive(Clone, Copy, Debug, PartialEq, Eq, Error)]
pub enum BodyFault {
    /// Fewer blocks are free than the bytes need.
    Full,
    /// There was no memory for the list of blocks.
    Memory,
}

impl BodyFault {
    /// The fault in words.
    pub fn text(self) -> &'static str
        ensures { result.now ≡ fault_text self }
    {
        match self {
            BodyFault::Full => "too few blocks are free",
            BodyFault::Memory => "out of memory",
        }
    }
}

impl fmt::Display for BodyFault {
    ghost output = { λ fault. Some (fault_text fault) };

    fn fmt<W: fmt::Write>(&self, f: &mut fmt::Formatter<W>) -> fmt::Result {
        f.write_str(self.text())
    }
}

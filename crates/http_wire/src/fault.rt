ghost use Rattle.std.specs.Prelude.{◌≡◌};
ghost use Rattle.http_wire.specs.declared.fault.WireFault.TheVariants.{Memory};

use std::alloc::AllocError;
use std::fmt;
use thiserror::Error;

/// Why a wire stopped, other than by the end of its input or by what the peer sent. It displays this in
/// words.
#[derive(Clone, Copy, Debug, PartialEq, Eq, Error)]
pub enum WireFault {
    /// A read of the reader failed.
    Read,

    /// A write of the writer failed, or took nothing.
    Write,

    /// The buffers of a new wire found no memory.
    Memory,

    /// An earlier call gave a fault.
    Failed,
}

impl fmt::Display for WireFault {
    ghost use Rattle.std.specs.Prelude.{Some};
    ghost use Rattle.http_wire.specs.Fault.{words_of};

    ghost output = { λ fault. Some (words_of fault) };

    fn fmt<W: fmt::Write>(&self, f: &mut fmt::Formatter<W>) -> fmt::Result {
        let words = match self {
            WireFault::Read => "a read failed",
            WireFault::Write => "a write failed",
            WireFault::Memory => "out of memory",
            WireFault::Failed => "the wire failed before",
        };
        write!(f, "{words}")
    }
}

impl From<AllocError> for WireFault {
    ghost from_gives = { λ _ fault. fault ≡ Memory };

    fn from(_: AllocError) -> WireFault {
        WireFault::Memory
    }
}

//! What a connection leaves behind that ended: bytes that nobody read, and its buffers.
ghost use Rattle.std.specs.Prelude.{◌≡◌, ◌≢◌, [], Ok, OnErr, false, true};

use http_wire::{Buffers, Ended, WireFault};

/// The most bytes of buffers that are kept for the next connection.
pub const ROOM_KEPT: usize = 2_097_152;

/// Whether the client of a connection that ended may have sent what nobody read. It has not where it asked for the close
/// itself and all that came was answered.
pub fn may_be_unread(ended: &Result<Ended, WireFault>, buffers: &Buffers) -> bool
    ensures closed { ended.now ≡ Ok Ended.Closed → buffers.now.read_buffer.held ≢ [] → result ≡ true }
    ensures moments { ended.now ≡ Ok Ended.Moments → result ≡ true }
    ensures input { ended.now ≡ Ok Ended.Input → result ≡ false }
    ensures cut { ended.now ≡ Ok Ended.Cut → result ≡ false }
    ensures failed { OnErr ended.now (result ≡ false) }
{
    match ended {
        Ok(Ended::Closed) => buffers.has_rest(),
        Ok(Ended::Moments) => true,
        Ok(Ended::Input | Ended::Cut) | Err(_) => false,
    }
}

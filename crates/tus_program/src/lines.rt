//! The two lines that `serve` prints.
ghost use Rattle.std.specs.Prelude.{◌≡◌, false, IfOk, string_bytes};
ghost use Rattle.http_wire.specs.Writes.{Writes};
ghost use Rattle.tus_program.specs.Lines.{balance_text, listening_text};

use arrayvec::ArrayString;
use http_wire::{Sink, WireFault, put_all};
use journal_folders::put_number;
use std::alloc::{AllocError, Global};
use std::net::SocketAddr;
use tus_shared::Balance;

/// The most bytes of a line: three numbers of 20 digits, and the words between them.
const LINE_MAX: usize = 96;

/// The line with the address and the port where the server listens. The error is that there is no memory for it.
pub fn listening_line(alloc: Global, place: SocketAddr) -> Result<String, AllocError>
    ensures { IfOk result (λ line. string_bytes line ≡ listening_text place) }
{
    format!(in alloc; "listening {place}\n")
}

/// Prints what was charged and released, and what is held. The error is `WireFault::Write`, and then only a prefix of
/// the line was written.
pub fn put_balance<W: Sink>(output: &mut W, balance: Balance) -> Result<(), WireFault>
    requires { W.has_failed output.old ≡ false }
    ensures { Writes (W.contents output.old) (W.contents output.new) (W.has_failed output.new)
        (balance_text balance) result }
{
    put_all(output, balance_line(balance).as_bytes())
}

/// The line with how many blocks were charged and released, and how many the tenants hold.
fn balance_line(balance: Balance) -> ArrayString<LINE_MAX>
    ensures { result.bytes ≡ balance_text balance }
{
    let mut line = ArrayString::new();
    line.push_str("charged ");
    put_number(&mut line, balance.charged, " released ");
    put_number(&mut line, balance.released, " held ");
    put_number(&mut line, balance.held, "\n");
    line
}

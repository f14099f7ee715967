//! A connection over a reader and a writer that wait.
ghost use Rattle.std.specs.Prelude.{◌≡◌, ◌≤◌, ◌++◌, ℕ, List, length, Err, false, OnOk, IfErr};
ghost use Rattle.std.specs.Io.KnownBytes.{Appends, Consumes};
ghost use Rattle.http_wire.specs.RequestLimits.{AreWithin};
ghost use Rattle.http_wire.specs.Fault.{NamesStream};
ghost use Rattle.http_wire.specs.ReadOnWire.{BreaksMessage, TellsEnd, read_limit};
ghost use Rattle.http_wire.specs.inside.Ahead.{SeesEnd, StopsAtEnd};
ghost use Rattle.http_wire.specs.inside.Driving.{CameIn, IsBetween};
ghost use Rattle.http_wire.specs.inside.Sending.{empty_write_buffer};

use crate::connection::{Connection, Wants};
use crate::fault::WireFault;
use crate::source::{Sink, Source};

/// Reads until the next message, or what comes in its place, has come in and is owed an answer, and writes `100 Continue`
/// where it is due. A message that came in before is left as it is. The error is `WireFault::Read` or `WireFault::Write`.
pub fn await_incoming<R: Source, W: Sink>(
    reader: &mut R,
    writer: &mut W,
    connection: &mut Connection,
) -> Result<(), WireFault>
    requires reader { R.has_failed reader.old ≡ false }
    requires writer { W.has_failed writer.old ≡ false }
    requires between { IsBetween connection.old }
    ensures comes { OnOk result ((got text : List ℕ)
        × Consumes (R.remaining reader.old) (R.remaining reader.new) got
        × Appends (W.contents writer.old) (W.contents writer.new) text
        × CameIn (connection.old.read_buffer.held ++ got) text (R.has_failed reader.new) connection.new
        × ((most : ℕ) → AreWithin connection.old.limits most → length got ≤ read_limit most)) }
    ensures breaks { IfErr result (λ f. (got text : List ℕ)
        × Consumes (R.remaining reader.old) (R.remaining reader.new) got
        × Appends (W.contents writer.old) (W.contents writer.new) text
        × BreaksMessage connection.old.limits
        (record { input = connection.old.read_buffer.held ++ got; text = text }) f
        × ((most : ℕ) → AreWithin connection.old.limits most → length got ≤ read_limit most)) }
    ensures end { OnOk result (SeesEnd (R.remaining reader.old) connection.old.read_buffer
        → SeesEnd (R.remaining reader.new) connection.new.read_buffer) }
    ensures tells_end { IfErr result (λ f. TellsEnd connection.new.read_buffer.ended (Err f)) }
    ensures stops { StopsAtEnd reader.old reader.new connection.old.read_buffer connection.new.read_buffer }
    ensures sent { connection.new.write_buffer ≡ empty_write_buffer }
    ensures limits { connection.new.limits ≡ connection.old.limits }
    ensures piece { connection.new.piece ≡ connection.old.piece }
    ensures writer { OnOk result (W.has_failed writer.new ≡ false) }
    ensures fault { IfErr result (λ e. NamesStream (R.has_failed reader.new) (W.has_failed writer.new) e) }
{
    connection.pass_over();
    loop {
        match connection.wants() {
            Wants::Read => {
                if connection.read_from(reader).is_err() {
                    connection.fail();
                    connection.ended()?;
                    return Ok(());
                }
            }
            Wants::Write => connection.flush(writer)?,
            Wants::Answer | Wants::Nothing => return Ok(()),
        }
    }
}

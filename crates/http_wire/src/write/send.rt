ghost use Rattle.std.specs.Prelude.{◌≡◌, ◌≢◌, [], false, drop, IfOk, OnErr};
ghost use Rattle.http_wire.specs.Writes.{Writes};
ghost use Rattle.http_wire.specs.inside.Sending.{empty_write_buffer, TakesSome};

use crate::fault::WireFault;
use crate::source::Sink;
use crate::write::write_buffer::WriteBuffer;

/// Writes all of `bytes`. The error is `WireFault::Write`, and then only a prefix of them was written.
pub fn put_all<W: Sink>(writer: &mut W, bytes: &[u8]) -> Result<(), WireFault>
    requires { W.has_failed writer.old ≡ false }
    ensures { Writes (W.contents writer.old) (W.contents writer.new) (W.has_failed writer.new)
        bytes.now result }
{
    let mut done = 0;
    while done < bytes.len() {
        let (_, rest) = bytes.split_at(done);
        done += write_some(writer, rest)?;
    }
    Ok(())
}

/// Writes all that is pending, piece by piece. The error is `WireFault::Write`, and then only a prefix of it was written.
/// What was not sent then is dropped, since nothing more is written. Where nothing is pending there is no error.
pub fn flush<W: Sink>(writer: &mut W, write_buffer: &mut WriteBuffer) -> Result<(), WireFault>
    requires { W.has_failed writer.old ≡ false }
    ensures writes { Writes (W.contents writer.old) (W.contents writer.new) (W.has_failed writer.new)
        write_buffer.old.pending result }
    ensures empty { write_buffer.new ≡ empty_write_buffer }
    ensures some { OnErr result (write_buffer.old.pending ≢ []) }
{
    let written = send_pending(writer, write_buffer);
    write_buffer.clear();
    written
}

// The same, but what was not sent stays.
fn send_pending<W: Sink>(writer: &mut W, write_buffer: &mut WriteBuffer) -> Result<(), WireFault>
    requires { W.has_failed writer.old ≡ false }
    ensures writes { Writes (W.contents writer.old) (W.contents writer.new) (W.has_failed writer.new)
        write_buffer.old.pending result }
    ensures some { OnErr result (write_buffer.old.pending ≢ []) }
{
    while !write_buffer.is_empty() {
        send_some(writer, write_buffer)?;
    }
    Ok(())
}

// Makes one write of what is pending, and gives how many bytes it took. The error is `WireFault::Write`.
fn send_some<W: Sink>(writer: &mut W, write_buffer: &mut WriteBuffer) -> Result<usize, WireFault>
    requires alive { W.has_failed writer.old ≡ false }
    requires some { write_buffer.old.pending ≢ [] }
    ensures takes { TakesSome (W.contents writer.old) (W.contents writer.new) (W.has_failed writer.new)
        write_buffer.old.pending result }
    ensures left { IfOk result (λ n. write_buffer.new.pending ≡ drop n write_buffer.old.pending) }
{
    match write_buffer.write_to(writer) {
        Ok(0) | Err(_) => Err(WireFault::Write),
        Ok(count) => Ok(count),
    }
}

// Writes some of these bytes, and gives their number. The error is `WireFault::Write`.
fn write_some<W: Sink>(writer: &mut W, bytes: &[u8]) -> Result<usize, WireFault>
    requires alive { W.has_failed writer.old ≡ false }
    requires some { bytes.now ≢ [] }
    ensures { TakesSome (W.contents writer.old) (W.contents writer.new) (W.has_failed writer.new)
        bytes.now result }
{
    match writer.write(bytes) {
        Ok(0) => Err(WireFault::Write),
        Ok(count) => Ok(count),
        Err(_) => Err(WireFault::Write),
    }
}

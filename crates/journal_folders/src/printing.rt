//! What a command that looks into a journal writes.
ghost use Rattle.std.specs.Prelude.{◌≡◌, false, true, IfErr, OnErr, OnOk};
ghost use Rattle.journal_folders.specs.StreamUse.{WritesOrFails};

use http_wire::{Sink, put_all};
use server_words::{Cause, RunFault};

/// Writes all of a text. The error is `RunFault::Wire` with Output, and then a prefix of it was written.
pub fn print<W: Sink>(text: &[u8], writer: &mut W) -> Result<(), RunFault>
    requires { W.has_failed writer.old ≡ false }
    ensures written { WritesOrFails (W.contents writer.old) (W.contents writer.new)
        (W.has_failed writer.new) text.now }
    ensures alive { OnOk result (W.has_failed writer.new ≡ false) }
    ensures failed { OnErr result (W.has_failed writer.new ≡ true) }
    ensures fault { IfErr result (λ fault. fault ≡ RunFault.Wire Cause.Output) }
{
    match put_all(writer, text) {
        Ok(()) => Ok(()),
        Err(_) => Err(RunFault::Wire(Cause::Output)),
    }
}

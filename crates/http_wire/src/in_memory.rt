ghost use Rattle.std.specs.Prelude.{◌≡◌, ◌⊎◌, ◌++◌, ℕ, List, Some, false, IfErr, IfOk};
ghost use Rattle.http_wire.specs.RequestLimits.{alike};
ghost use Rattle.http_wire.specs.Conversation.{Conversation};
ghost use Rattle.http_wire.specs.Turns.{Breaks};

use crate::answer::Answer;
use crate::conversation::{Ended, converse};
use crate::fault::WireFault;
use crate::source::{Source, Tapped};
use std::alloc::Global;
use std::io;
use std::io::Read;
use upload_book::Moment;

/// The bytes that the conversation of some bytes writes, and how it ends: all that [`converse`] promises,
/// over a reader and a writer whose bytes are known. The error is that there was no memory:
/// `WireFault::Memory` at the start, and then no step was made; `WireFault::Write` for what is written,
/// which is then lost, and the steps that were made before it stay.
pub fn conversation_of<A: Answer>(
    alloc: Global,
    input: &[u8],
    answerer: &mut A,
    moments: &[Moment],
) -> Result<(Vec<u8>, Ended), WireFault>
    ensures whole { IfOk result (λ r. Conversation A.steps (alike (A.max_size answerer.old)) moments.now
        (record { input = input.now; text = r.0.items; before = answerer.old; after = answerer.new }) r.1) }
    ensures fault { IfErr result (λ f. (f ≡ WireFault.Memory) ⊎ (f ≡ WireFault.Write)) }
    ensures breaks { IfErr result (λ f. (got rest text : List ℕ) × (input.now ≡ got ++ rest)
        × Breaks A.steps (alike (A.max_size answerer.old)) moments.now
        (record { input = got; text = text; before = answerer.old; after = answerer.new }) f) }
{
    let mut reader = Bytes { rest: input };
    let mut writer = Tapped::new(Vec::new(alloc));
    let ended = converse(alloc, &mut reader, &mut writer, answerer, moments)?;
    Ok((writer.inner, ended))
}

/// A reader of bytes in memory. No read of it fails, and so it has nothing to remember.
#[derive(Drop)]
struct Bytes<'a> {
    rest: &'a [u8],
}

impl Source for Bytes<'_> {
    ghost remaining = { λ bytes. Some bytes.rest.now };

    ghost has_failed = { λ _. false };

    fn read(&mut self, buf: &mut [u8]) -> io::Result<usize> {
        self.rest.read(buf)
    }

    fn failed(&self) -> bool {
        false
    }
}

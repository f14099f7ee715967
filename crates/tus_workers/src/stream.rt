//! A connection's conversation at a desk.
ghost use Rattle.std.specs.Prelude.{◌≡◌, ◌<◌, ◌∷◌, ◌++◌, [], ℕ, List, length, false, None, IfErr, IfOk, IsErr};
ghost use Rattle.std.specs.Io.KnownBytes.{Appends, Consumes};
ghost use Rattle.http_wire.specs.RequestLimits.{alike};
ghost use Rattle.http_wire.specs.Clock.{AreTold, IsTimed, Tells};
ghost use Rattle.http_wire.specs.Fault.{NamesStream};
ghost use Rattle.http_wire.specs.Turns.{Breaks, Converses, IsReadWhen};
ghost use Rattle.tus_workers.specs.Serving.{ServesTurn};

use crate::at_desk::AtDesk;
use http_wire::{Answer, Buffers, Clock, Ended, Sink, Source, Wire, WireFault, serve};
use std::sync::Wait;
use std::sync::ledger::Ledger;
use tus_shared::{Charges, Desk, Gate, Shared};

/// The most messages of one conversation.
pub const MESSAGES_MAX: usize = 4096;

/// A connection that was served: how its conversation ended, and what served it.
#[derive(Drop)]
pub struct ServedStream<C: Charges, R: Ledger, M: Ledger, I, O> {
    pub ended: Result<Ended, WireFault>,
    pub desk: Desk<C, R, M>,
    pub reader: I,
    pub writer: O,
    pub buffers: Buffers,
}

/// Reads messages, lets the desk of a store without a journal answer them and writes the replies, until the input ends, the
/// connection closes or 4,096 messages were read. For each the clock is asked once, when it has come. What ended it may be
/// `WireFault::Read` or `WireFault::Write`; the steps that were made before it stay.
///
/// Each reply is that of a turn at the desk ([`Desk::answer`]): a HEAD is answered beside the lock, and all else is the plain
/// book's step on some lawful book, of which the desk counts what it charged and released. Before a request that is no HEAD
/// the uploads that have expired may be ended. Nobody can say what the other
/// desks did meanwhile, but the events on which the replies rest only grow. Desk and buffers are given back, for the next
/// connection.
pub fn serve_stream<
    C: Charges,
    R: Ledger,
    M: Ledger,
    W: Wait,
    I: Source + Drop,
    O: Sink + Drop,
    K: Clock,
    B: Wait + Drop,
    G: Gate,
>(
    rt: &W,
    buffers: Buffers,
    reader: I,
    writer: O,
    desk: Desk<C, R, M>,
    shared: &Shared<C, R, M, B>,
    clock: &mut K,
    gate: &G,
) -> ServedStream<C, R, M, I, O>
    requires reader { I.has_failed reader ≡ false }
    requires writer { O.has_failed writer ≡ false }
    requires journal { C.journal ≡ None }
    ensures converses { IfOk result.ended (λ e. (moments : List ℕ)
        × AreTold K.tells clock.old clock.new 4096 e moments × (got text : List ℕ)
        × Consumes (I.remaining reader) (I.remaining result.reader) got
        × Appends (O.contents writer) (O.contents result.writer) text
        × Converses (λ old request now reply new. ServesTurn C.settings request now reply old new) (alike C.settings.numbers.max_size) moments
        (record { input = got; text = text; before = desk; after = result.desk }) e) }
    ensures breaks { IfErr result.ended (λ f. (moments : List ℕ) × (last : K)
        × (length moments < 4096) × Tells K.tells clock.old moments last
        × IsTimed K.tells last clock.new (IsErr result.ended) (λ now. (got text : List ℕ)
        × Consumes (I.remaining reader) (I.remaining result.reader) got
        × Appends (O.contents writer) (O.contents result.writer) text
        × Breaks (λ old request now reply new. ServesTurn C.settings request now reply old new) (alike C.settings.numbers.max_size) (moments ++ now ∷ [])
        (record { input = got; text = text; before = desk; after = result.desk }) f)) }
    ensures read { IfOk result.ended (λ e. IsReadWhen e (I.remaining result.reader)) }
    ensures fault { IfErr result.ended (NamesStream (I.has_failed result.reader) (O.has_failed result.writer)) }
{
    let mut answerer = AtDesk::new(rt, desk, shared, gate);
    let mut wire = Wire::with_buffers(buffers, reader, writer, answerer.max_size());
    let ended = serve(&mut wire, &mut answerer, clock, MESSAGES_MAX);
    let (reader, writer, buffers) = wire.into_parts();
    ServedStream {
        ended,
        desk: answerer.into_desk(),
        reader,
        writer,
        buffers,
    }
}

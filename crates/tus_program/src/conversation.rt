//! The conversation of `talk`, over streams that wait.
ghost use Rattle.std.specs.Prelude.{◌≡◌, ◌≢◌, ◌<◌, ◌≤◌, ◌++◌, ◌⊎◌, [], ℕ, List, Err, None, Option, Some, false, true, IfErr, IfSome, OnOk, replicate};
ghost use Rattle.std.specs.Io.KnownBytes.{Appends, Consumes, Keeps};
ghost use Rattle.connection_turns.specs.Turn.{CarriesOn, SendsOn, on_turn};
ghost use Rattle.http_wire.specs.RequestLimits.{alike};
ghost use Rattle.http_wire.specs.Conversation.{Conversation};
ghost use Rattle.http_wire.specs.Fault.{NamesOrMemory, NamesStream};
ghost use Rattle.http_wire.specs.OnConnection.{wanted};
ghost use Rattle.http_wire.specs.Turns.{Breaks};
ghost use Rattle.http_wire.specs.declared.conversation.Ended.{Ended};
ghost use Rattle.tus_program.specs.TalkInPieces.{IsOver, TalksInPieces};

use connection_turns::wants_of;
use http_wire::{
    Answer, Buffers, Clock, Connection, RequestLimits, Sink, Source, Wants, WireFault, converse,
};
use server_words::TalkOptions;
use std::alloc::Global;
use std::sync::Wait;
use tus_workers::MESSAGES_MAX;
use upload_book::Moment;

/// The most bytes of a body that is gathered where others come in pieces.
const GATHERED_MAX: u64 = 16_777_216;

/// Holds one conversation over `reader` and `writer`. Each message and each piece of a body has the moment of the options, and at
/// most 4,096 messages are answered. Where the options have a size of pieces, bodies without a checksum come in such pieces, as
/// [`Connection::by_pieces`] says, and any other body has at most 16 MiB. Else all bodies are gathered, as [`converse`] says.
///
/// It is `Ok` where the conversation ended, in whatever way. The error is `WireFault::Memory`, before anything was read,
/// `WireFault::Read` or `WireFault::Write`; the steps that were made before it stay. What came of a body in pieces is stored where a
/// read failed.
pub(crate) fn hold_conversation<T: Wait, R: Source, W: Sink, A: Answer>(
    rt: &T,
    alloc: Global,
    options: &TalkOptions,
    reader: &mut R,
    writer: &mut W,
    answerer: &mut A,
) -> Result<(), WireFault>
    requires reader { R.has_failed reader.old ≡ false }
    requires writer { W.has_failed writer.old ≡ false }
    ensures known { options.now.piece ≡ None → (input before : List ℕ) → R.remaining reader.old ≡ Some input
        → W.contents writer.old ≡ Some before
        → OnOk result ((e : Ended) × (text : List ℕ) × (W.contents writer.new ≡ Some (before ++ text))
        × Conversation A.steps (alike (A.max_size answerer.old)) (replicate 4096 options.now.moment)
        (record { input = input; text = text; before = answerer.old; after = answerer.new }) e) }
    ensures breaks { options.now.piece ≡ None → IfErr result (λ f. (got text : List ℕ)
        × Consumes (R.remaining reader.old) (R.remaining reader.new) got
        × Appends (W.contents writer.old) (W.contents writer.new) text
        × Breaks A.steps (alike (A.max_size answerer.old)) (replicate 4096 options.now.moment)
        (record { input = got; text = text; before = answerer.old; after = answerer.new }) f) }
    ensures pieces { IfSome options.now.piece (λ n. OnOk result
        ((talks : TalksInPieces A.steps n options.now.moment (A.max_size answerer.old) answerer.old answerer.new
        (R.remaining reader.old) (R.remaining reader.new) (W.contents writer.old) (W.contents writer.new))
        × IsOver talks.passed talks.connection)) }
    ensures broken { IfSome options.now.piece (λ n. IfErr result (λ f. f ≢ WireFault.Memory
        → (talks : TalksInPieces A.steps n options.now.moment (A.max_size answerer.old) answerer.old answerer.new
        (R.remaining reader.old) (R.remaining reader.new) (W.contents writer.old) (W.contents writer.new))
        × (f ≡ WireFault.Read → wanted talks.connection ≢ Wants.Answer))) }
    ensures memory { result ≡ Err WireFault.Memory → Keeps (R.remaining reader.old) (R.remaining reader.new)
        × Keeps (W.contents writer.old) (W.contents writer.new) }
    ensures reader { OnOk result (R.has_failed reader.new ≡ false) }
    ensures writer { OnOk result (W.has_failed writer.new ≡ false) }
    ensures fault { IfErr result (NamesOrMemory (R.has_failed reader.new) (W.has_failed writer.new)) }
{
    match options.piece {
        None => {
            converse(
                alloc,
                reader,
                writer,
                answerer,
                &[options.moment; MESSAGES_MAX],
            )?;
            Ok(())
        }
        Some(piece) => converse_in_pieces(
            rt,
            alloc,
            reader,
            writer,
            answerer,
            piece,
            options.moment,
        ),
    }
}

/// The same in pieces of this size, over a new connection.
fn converse_in_pieces<T: Wait, R: Source, W: Sink, A: Answer>(
    rt: &T,
    alloc: Global,
    reader: &mut R,
    writer: &mut W,
    answerer: &mut A,
    piece: usize,
    now: Moment,
) -> Result<(), WireFault>
    requires reader { R.has_failed reader.old ≡ false }
    requires writer { W.has_failed writer.old ≡ false }
    requires some { 0 < piece }
    ensures pieces { OnOk result ((talks : TalksInPieces A.steps piece now (A.max_size answerer.old) answerer.old answerer.new
        (R.remaining reader.old) (R.remaining reader.new) (W.contents writer.old) (W.contents writer.new))
        × IsOver talks.passed talks.connection) }
    ensures broken { IfErr result (λ f. f ≢ WireFault.Memory
        → (talks : TalksInPieces A.steps piece now (A.max_size answerer.old) answerer.old answerer.new
        (R.remaining reader.old) (R.remaining reader.new) (W.contents writer.old) (W.contents writer.new))
        × (f ≡ WireFault.Read → wanted talks.connection ≢ Wants.Answer)) }
    ensures memory { result ≡ Err WireFault.Memory → Keeps (R.remaining reader.old) (R.remaining reader.new)
        × Keeps (W.contents writer.old) (W.contents writer.new) }
    ensures reader { OnOk result (R.has_failed reader.new ≡ false) }
    ensures writer { OnOk result (W.has_failed writer.new ≡ false) }
    ensures fault { IfErr result (NamesOrMemory (R.has_failed reader.new) (W.has_failed writer.new)) }
{
    let max_size = answerer.max_size();
    let limits = RequestLimits {
        plain: max_size,
        other: max_size.min(GATHERED_MAX),
        ranges: false,
    };
    let buffers = Buffers::new(alloc)?;
    let mut connection = Connection::by_pieces(buffers, limits, Some(piece));
    let mut clock = now;
    carry_on(rt, reader, writer, &mut connection, answerer, &mut clock)
}

/// Reads, answers and writes as a connection wants, until it wants nothing more, or 4,096 messages were answered and all replies
/// were sent. The error is `WireFault::Read` or `WireFault::Write`.
fn carry_on<T: Wait, R: Source, W: Sink, A: Answer, K: Clock>(
    rt: &T,
    reader: &mut R,
    writer: &mut W,
    connection: &mut Connection,
    answerer: &mut A,
    clock: &mut K,
) -> Result<(), WireFault>
    requires reader { R.has_failed reader.old ≡ false }
    requires writer { W.has_failed writer.old ≡ false }
    ensures carries { (count : ℕ) × (count ≤ 4096)
        × CarriesOn A.steps K.tells connection.old.piece count
        (on_turn connection.old answerer.old clock.old (R.remaining reader.old) (W.contents writer.old))
        (on_turn connection.new answerer.new clock.new (R.remaining reader.new) (W.contents writer.new))
        × OnOk result ((wanted connection.new ≡ Wants.Nothing) ⊎ (count ≡ 4096)) }
    ensures sent { OnOk result (connection.new.write_buffer.pending ≡ []) }
    ensures applied { IfErr result (λ f. f ≡ WireFault.Read → wanted connection.new ≢ Wants.Answer) }
    ensures reader { OnOk result (R.has_failed reader.new ≡ false) }
    ensures writer { OnOk result (W.has_failed writer.new ≡ false) }
    ensures fault { IfErr result (NamesStream (R.has_failed reader.new) (W.has_failed writer.new)) }
    ensures limits { connection.new.limits ≡ connection.old.limits }
    ensures piece { connection.new.piece ≡ connection.old.piece }
{
    let mut left = MESSAGES_MAX;
    for _ in rt.forever() {
        match wants_of(connection, left) {
            Wants::Read => read_once(reader, connection, answerer, clock)?,
            Wants::Write => write_once(writer, connection)?,
            Wants::Answer => left -= answer_once(connection, answerer, clock),
            Wants::Nothing => return Ok(()),
        }
    }
    unreachable!()
}

/// Reads once. Where that fails, the connection is told, and what came of a body in pieces is answered, which counts as a message;
/// the error is `WireFault::Read`.
fn read_once<R: Source, A: Answer, K: Clock>(
    reader: &mut R,
    connection: &mut Connection,
    answerer: &mut A,
    clock: &mut K,
) -> Result<(), WireFault>
    requires reader { R.has_failed reader.old ≡ false }
    requires wants { wanted connection.old ≡ Wants.Read }
    ensures carries { (count : ℕ) × (count ≤ 1) × OnOk result (count ≡ 0)
        × ((written : Option (List ℕ)) → CarriesOn A.steps K.tells connection.old.piece count
        (on_turn connection.old answerer.old clock.old (R.remaining reader.old) written)
        (on_turn connection.new answerer.new clock.new (R.remaining reader.new) written)) }
    ensures applied { IfErr result (λ f. wanted connection.new ≢ Wants.Answer) }
    ensures reader { OnOk result (R.has_failed reader.new ≡ false) }
    ensures fault { IfErr result (λ f. (f ≡ WireFault.Read) × (R.has_failed reader.new ≡ true)) }
    ensures limits { connection.new.limits ≡ connection.old.limits }
    ensures piece { connection.new.piece ≡ connection.old.piece }
{
    if connection.read_from(reader).is_ok() {
        return Ok(());
    }
    connection.fail();
    if connection.wants() == Wants::Answer {
        answer_once(connection, answerer, clock);
    }
    Err(WireFault::Read)
}

/// Writes once what is pending, of which there is some. The error is `WireFault::Write`.
fn write_once<W: Sink>(writer: &mut W, connection: &mut Connection) -> Result<(), WireFault>
    requires writer { W.has_failed writer.old ≡ false }
    requires some { connection.old.write_buffer.pending ≢ [] }
    ensures gives { SendsOn connection.old connection.new (W.contents writer.old) (W.contents writer.new) }
    ensures writer { OnOk result (W.has_failed writer.new ≡ false) }
    ensures fault { IfErr result (λ f. (f ≡ WireFault.Write) × (W.has_failed writer.new ≡ true)) }
    ensures limits { connection.new.limits ≡ connection.old.limits }
    ensures piece { connection.new.piece ≡ connection.old.piece }
{
    match connection.write_to(writer) {
        Ok(count) if count > 0 => Ok(()),
        _ => Err(WireFault::Write),
    }
}

/// Lets what came in be answered at the moment that the clock tells, and gives how many messages that ends: none where it was a
/// piece with more to come, and else one.
fn answer_once<A: Answer, K: Clock>(
    connection: &mut Connection,
    answerer: &mut A,
    clock: &mut K,
) -> usize
    requires { wanted connection.old ≡ Wants.Answer }
    ensures carries { (unread written : Option (List ℕ)) → CarriesOn A.steps K.tells connection.old.piece result
        (on_turn connection.old answerer.old clock.old unread written)
        (on_turn connection.new answerer.new clock.new unread written) }
    ensures few { result ≤ 1 }
    ensures answered { wanted connection.new ≢ Wants.Answer }
    ensures limits { connection.new.limits ≡ connection.old.limits }
    ensures piece { connection.new.piece ≡ connection.old.piece }
{
    let now = clock.moment();
    connection.answer(answerer, now);
    if connection.is_in_pieces() { 0 } else { 1 }
}

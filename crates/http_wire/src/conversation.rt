ghost use Rattle.std.specs.Prelude.{◌≡◌, ◌++◌, ℕ, List, None, Some, false, IfOk, IfErr, IfSome, IsErr, OnOk};
ghost use Rattle.std.specs.Io.KnownBytes.{Appends, Consumes};
ghost use Rattle.http_wire.specs.Asking.{BreaksAsked};
ghost use Rattle.http_wire.specs.RequestLimits.{alike};
ghost use Rattle.http_wire.specs.Clock.{IsTimed};
ghost use Rattle.http_wire.specs.Conversation.{Conversation};
ghost use Rattle.http_wire.specs.Fault.{NamesStream, NamesOrMemory};
ghost use Rattle.http_wire.specs.Incoming.{FramedRequest};
ghost use Rattle.http_wire.specs.OnConnection.{IsFresh, at_start, owed_in, wanted};
ghost use Rattle.http_wire.specs.Turns.{Breaks, Converses, EndsByTurn, IsReadWhen, TakesTurn};
ghost use Rattle.http_wire.specs.declared.connection.Wants.TheVariants as Wants;
ghost use Rattle.http_wire.specs.declared.incoming.Incoming.{Incoming};
ghost use Rattle.http_wire.specs.inside.Ahead.{SeesEnd, StopsAtEnd};
ghost use Rattle.http_wire.specs.inside.Driving.{IsBetween};
ghost use Rattle.http_wire.specs.inside.Sending.{empty_write_buffer};
ghost use Rattle.http_wire.specs.inside.TurnFinish.{EndsTurnAtEnd, FinishesTurn};

use crate::answer::Answer;
use crate::clock::Clock;
use crate::connection::Connection;
use crate::driving::await_incoming;
use crate::fault::WireFault;
use crate::source::{Sink, Source};
use std::alloc::Global;
use upload_book::Moment;

/// How a conversation ended.
#[derive(Clone, Copy, Debug, PartialEq, Eq)]
pub enum Ended {
    /// The input ended between two messages.
    Input,
    /// The connection closes after the last reply.
    Closed,
    /// The input ended inside a message.
    Cut,
    /// No moment was left for the next message, and it was not read.
    Moments,
}

/// Reads messages, lets `answerer` answer them and writes their replies until the input ends, the
/// connection closes or no moment is left. The k-th message, a refused or cut one included, has the k-th
/// moment. The error is `WireFault::Memory`, before anything was read, `WireFault::Read` or
/// `WireFault::Write`; after it nothing more is read or written, and the steps that were made before it
/// stay.
pub fn converse<R: Source, W: Sink, A: Answer>(
    alloc: Global,
    reader: &mut R,
    writer: &mut W,
    answerer: &mut A,
    moments: &[Moment],
) -> Result<Ended, WireFault>
    requires reader { R.has_failed reader.old ≡ false }
    requires writer { W.has_failed writer.old ≡ false }
    ensures known { (input before : List ℕ) → R.remaining reader.old ≡ Some input
        → W.contents writer.old ≡ Some before
        → IfOk result (λ e. (text : List ℕ) × (W.contents writer.new ≡ Some (before ++ text))
        × Conversation A.steps (alike (A.max_size answerer.old)) moments.now
        (record { input = input; text = text; before = answerer.old; after = answerer.new }) e) }
    ensures converses { IfOk result (λ e. (got text : List ℕ)
        × Consumes (R.remaining reader.old) (R.remaining reader.new) got
        × Appends (W.contents writer.old) (W.contents writer.new) text
        × Converses A.steps (alike (A.max_size answerer.old)) moments.now
        (record { input = got; text = text; before = answerer.old; after = answerer.new }) e) }
    ensures read { IfOk result (λ e. IsReadWhen e (R.remaining reader.new)) }
    ensures breaks { IfErr result (λ f. (got text : List ℕ)
        × Consumes (R.remaining reader.old) (R.remaining reader.new) got
        × Appends (W.contents writer.old) (W.contents writer.new) text
        × Breaks A.steps (alike (A.max_size answerer.old)) moments.now
        (record { input = got; text = text; before = answerer.old; after = answerer.new }) f) }
    ensures reader { OnOk result (R.has_failed reader.new ≡ false) }
    ensures writer { OnOk result (W.has_failed writer.new ≡ false) }
    ensures fault { IfErr result (NamesOrMemory (R.has_failed reader.new) (W.has_failed writer.new)) }
{
    let mut connection = Connection::new(alloc, answerer.max_size())?;
    take_turns(reader, writer, &mut connection, answerer, moments)
}

// The same over a connection of which nothing was read, which is lent: so none of the ways out of the loop lets it go.
fn take_turns<R: Source, W: Sink, A: Answer>(
    reader: &mut R,
    writer: &mut W,
    connection: &mut Connection,
    answerer: &mut A,
    moments: &[Moment],
) -> Result<Ended, WireFault>
    requires reader { R.has_failed reader.old ≡ false }
    requires writer { W.has_failed writer.old ≡ false }
    requires fresh { IsFresh connection.old }
    requires gathers { connection.old.piece ≡ None }
    requires same { connection.old.limits ≡ alike (A.max_size answerer.old) }
    ensures known { (input before : List ℕ) → R.remaining reader.old ≡ Some input
        → W.contents writer.old ≡ Some before
        → IfOk result (λ e. (text : List ℕ) × (W.contents writer.new ≡ Some (before ++ text))
        × Conversation A.steps (alike (A.max_size answerer.old)) moments.now
        (record { input = input; text = text; before = answerer.old; after = answerer.new }) e) }
    ensures converses { IfOk result (λ e. (got text : List ℕ)
        × Consumes (R.remaining reader.old) (R.remaining reader.new) got
        × Appends (W.contents writer.old) (W.contents writer.new) text
        × Converses A.steps (alike (A.max_size answerer.old)) moments.now
        (record { input = got; text = text; before = answerer.old; after = answerer.new }) e) }
    ensures read { IfOk result (λ e. IsReadWhen e (R.remaining reader.new)) }
    ensures breaks { IfErr result (λ f. (got text : List ℕ)
        × Consumes (R.remaining reader.old) (R.remaining reader.new) got
        × Appends (W.contents writer.old) (W.contents writer.new) text
        × Breaks A.steps (alike (A.max_size answerer.old)) moments.now
        (record { input = got; text = text; before = answerer.old; after = answerer.new }) f) }
    ensures reader { OnOk result (R.has_failed reader.new ≡ false) }
    ensures writer { OnOk result (W.has_failed writer.new ≡ false) }
    ensures fault { IfErr result (NamesOrMemory (R.has_failed reader.new) (W.has_failed writer.new)) }
{
    for moment in moments {
        let mut now = *moment;
        let turn = take_turn(reader, writer, connection, answerer, &mut now)?;
        if let Some(ended) = turn {
            return Ok(ended);
        }
    }
    Ok(Ended::Moments)
}

/// Reads one message, asks the clock for its moment, lets `answerer` answer it and writes the reply, and says
/// whether the conversation ends with it. Where the reader gave its end before, nothing is read. The error is
/// `WireFault::Read` or `WireFault::Write`.
pub fn take_turn<R: Source, W: Sink, A: Answer, C: Clock>(
    reader: &mut R,
    writer: &mut W,
    connection: &mut Connection,
    answerer: &mut A,
    clock: &mut C,
) -> Result<Option<Ended>, WireFault>
    requires reader { R.has_failed reader.old ≡ false }
    requires writer { W.has_failed writer.old ≡ false }
    requires between { IsBetween connection.old }
    ensures turn { IsTimed C.tells clock.old clock.new (IsErr result) (λ now.
        (got text : List ℕ) × Consumes (R.remaining reader.old) (R.remaining reader.new) got
        × Appends (W.contents writer.old) (W.contents writer.new) text
        × TakesTurn A.steps connection.old.limits now
        (record { input = connection.old.read_buffer.held ++ got; text = text; before = answerer.old; after = answerer.new })
        connection.new.read_buffer.held result) }
    ensures asked { IfErr result (λ f. (got text : List ℕ)
        × Consumes (R.remaining reader.old) (R.remaining reader.new) got
        × Appends (W.contents writer.old) (W.contents writer.new) text
        × BreaksAsked A.steps C.tells connection.old.limits clock.old clock.new
        (record { input = connection.old.read_buffer.held ++ got; text = text; before = answerer.old; after = answerer.new }) f) }
    ensures end { IfOk result (λ r. SeesEnd (R.remaining reader.old) connection.old.read_buffer
        → EndsTurnAtEnd (R.remaining reader.new) connection.new.read_buffer r) }
    ensures ends { IfOk result EndsByTurn }
    ensures stops { StopsAtEnd reader.old reader.new connection.old.read_buffer connection.new.read_buffer }
    ensures reader { OnOk result (R.has_failed reader.new ≡ false) }
    ensures writer { OnOk result (W.has_failed writer.new ≡ false) }
    ensures fault { IfErr result (NamesStream (R.has_failed reader.new) (W.has_failed writer.new)) }
    ensures starts { IfOk result (λ r. r ≡ None → connection.new.phase ≡ at_start) }
    ensures sent { connection.new.write_buffer ≡ empty_write_buffer }
    ensures limits { connection.new.limits ≡ connection.old.limits }
    ensures piece { connection.new.piece ≡ connection.old.piece }
{
    await_incoming(reader, writer, connection)?;
    let now = clock.moment();
    finish_turn(writer, connection, answerer, now)
}

// Lets what came in be answered, and sends the answer.
fn finish_turn<W: Sink, A: Answer>(
    writer: &mut W,
    connection: &mut Connection,
    answerer: &mut A,
    now: Moment,
) -> Result<Option<Ended>, WireFault>
    requires writer { W.has_failed writer.old ≡ false }
    requires owed { wanted connection.old ≡ Wants.Answer }
    requires came { (i : Incoming FramedRequest) × (owed_in connection.old.phase ≡ Some i) }
    requires sent { connection.old.write_buffer ≡ empty_write_buffer }
    ensures read_buffer { connection.new.read_buffer ≡ connection.old.read_buffer }
    ensures finishes { IfSome (owed_in connection.old.phase) (λ i. FinishesTurn A.steps now connection.old.read_buffer i
        (W.contents writer.old) (W.contents writer.new) (W.has_failed writer.new)
        answerer.old answerer.new result) }
    ensures starts { IfOk result (λ r. r ≡ None → connection.new.phase ≡ at_start) }
    ensures sent { connection.new.write_buffer ≡ empty_write_buffer }
    ensures limits { connection.new.limits ≡ connection.old.limits }
    ensures piece { connection.new.piece ≡ connection.old.piece }
{
    connection.answer(answerer, now);
    connection.flush(writer)?;
    connection.ended()
}

//! A turn of a connection over streams that would block: it does what the connection wants as far as that goes.
ghost use Rattle.std.specs.Prelude.{◌≡◌, ◌≢◌, ◌<◌, ◌≤◌, ◌-◌, ◌⊎◌, [], List, ℕ, false, true, OnErr};
ghost use Rattle.std.specs.Io.KnownBytes.{Consumes};
ghost use Rattle.http_wire.specs.OnConnection.{body_in, wanted};
ghost use Rattle.http_wire.specs.History.{HasHistory, History, took};
ghost use Rattle.connection_turns.specs.Turn.{CarriesOn, SendsOn, on_turn};
ghost use Rattle.connection_turns.specs.inside.Steps.{answer_step, messages_of};

use crate::holding::Durability;
use crate::observer::Observer;
use http_wire::{Clock, Connection, Incoming, Tapped, Wants};
use std::io;
use std::io::{ErrorKind, Read, Write};
use tus_steps::Request;

/// How many bytes a turn moves before it ends. The last read or write may go past it.
const TURN_BYTES: usize = 262_144;

/// How many messages a turn answers at most.
const TURN_MESSAGES: usize = 16;

/// How many reads, writes and answers a turn has at most.
pub(crate) const TURN_STEPS: usize = 1024;

/// For how many bytes a read asks at least. One that brings fewer has brought all that had come.
const READ_SIZE: usize = 16_384;

/// Where a turn ended.
#[derive(Clone, Copy, Debug, PartialEq, Eq)]
pub enum TurnOutcome {
    /// A read would have blocked: it waits for bytes, or the end of the input.
    AwaitsBytes,
    /// A write would have blocked: it waits for room.
    AwaitsRoom,
    /// A message came that may not be answered yet.
    AwaitsTurn,
    /// A reply is pending that is held back: see [`Durability`].
    AwaitsKeeping,
    /// The turn came to its bounds. No event need tell of what is left to do, so it is to be taken up again without one.
    HasMore,
    /// The conversation is over, or had all its messages, and all of it was sent.
    Over,
    /// A write failed, or took nothing. Nothing more can be sent.
    Failed,
    /// There was no memory for the buffers of a connection.
    NoMemory,
}

/// What tells whether a request may be answered now, or something else has to end first.
pub trait Precedence {
    /// Whether every request may be answered now, so that none need be read for this.
    fn may_all_pass(&self) -> bool;

    /// Whether this request may be answered now.
    fn may_pass(&self, request: &Request) -> bool;
}

/// Each request may be answered when it has come.
#[derive(Clone, Copy)]
pub struct AsTheyCome;

impl Precedence for AsTheyCome {
    fn may_all_pass(&self) -> bool {
        true
    }

    fn may_pass(&self, _request: &Request) -> bool {
        true
    }
}

/// What a connection reads from, and what it writes to.
#[derive(Drop)]
pub struct Streams<R, W> {
    pub reader: R,
    pub writer: W,
}

/// A turn that was taken, with the streams for the next.
#[derive(Drop)]
pub struct Turned<R, W> {
    pub outcome: TurnOutcome,
    /// How many bytes were read and written.
    pub moved: usize,
    /// How many messages may still be answered.
    pub left: usize,
    pub streams: Streams<R, W>,
}

/// What a turn may take.
#[derive(Clone, Copy)]
pub struct Share {
    /// How many messages may still be answered.
    pub messages: usize,
    /// Whether it reads until a read would block, or the input ended. Else it reads no more after a read that brought all that
    /// had come: an event tells of what comes later, but not of an end that came with it.
    pub reads_on: bool,
}

// What one read, write or answer came to.
#[derive(Clone, Copy, PartialEq, Eq)]
pub(crate) enum Step {
    Read(usize),
    Sent(usize),
    // A call that a signal interrupted, or a read that failed, of which the connection knows.
    Again,
    Answered,
    // A piece of a body was answered, and more of the body is to come.
    Took,
    Stops(TurnOutcome),
}

// What a step may be.
#[derive(Clone, Copy)]
struct Allowed {
    // So many messages may still be answered.
    left: usize,
    // More bytes may have come than were read.
    read: bool,
    // What is pending may be sent.
    send: bool,
}

/// Does what a connection wants, until a read or a write would block, a message may not be answered yet, a reply is held
/// back, 262,144 bytes were moved, 16 messages were answered, its share was taken or all is over. The observer is told of
/// each. A call that a signal interrupted is made again. A read that fails is told to the connection, which may still owe an
/// answer. It answers the messages of its share, each at the moment that the clock tells then; refusals and the end of the
/// input count as messages, and pieces of a body with more to come do not. Where all are had, it reads no more, and is over once all was sent. The connection and the
/// streams are as the next turn needs them. Where the answerer holds back its replies, nothing is written: see
/// [`crate::send_pending`].
pub fn take_turn<
    R: Read + Drop,
    W: Write + Drop,
    A: Durability,
    K: Clock,
    P: Precedence,
    O: Observer,
>(
    connection: &mut Connection,
    streams: Streams<R, W>,
    answerer: &mut A,
    clock: &mut K,
    precedence: &P,
    share: Share,
    observer: &mut O,
) -> Turned<R, W>
    ensures carries { CarriesOn A.steps K.tells connection.old.piece (share.messages - result.left)
        (on_turn connection.old answerer.old clock.old (R.remaining streams.reader) (W.contents streams.writer))
        (on_turn connection.new answerer.new clock.new (R.remaining result.streams.reader) (W.contents result.streams.writer)) }
    ensures held { A.holds_back answerer.old ≡ true → W.contents result.streams.writer ≡ W.contents streams.writer }
    ensures bytes { result.outcome ≡ TurnOutcome.AwaitsBytes → wanted connection.new ≡ Wants.Read }
    ensures room { result.outcome ≡ TurnOutcome.AwaitsRoom → connection.new.write_buffer.pending ≢ [] }
    ensures over { result.outcome ≡ TurnOutcome.Over → connection.new.write_buffer.pending ≡ [] }
    ensures turn { result.outcome ≡ TurnOutcome.AwaitsTurn → wanted connection.new ≡ Wants.Answer }
    ensures left { result.left ≤ share.messages }
    ensures limits { connection.new.limits ≡ connection.old.limits }
    ensures piece { connection.new.piece ≡ connection.old.piece }
{
    let mut streams = streams;
    let mut moved: usize = 0;
    let mut left = share.messages;
    let mut may_read = true;
    let holds_back = answerer.holds_back();
    for _ in 0..TURN_STEPS {
        if is_spent(moved, share.messages.saturating_sub(left)) {
            return Turned {
                outcome: TurnOutcome::HasMore,
                moved,
                left,
                streams,
            };
        }
        let allowed = Allowed {
            left,
            read: may_read,
            send: !holds_back,
        };
        let (after, step) = take_step(
            connection, streams, answerer, clock, precedence, allowed, observer,
        );
        streams = after;
        observe_bytes(observer, step);
        if let Step::Stops(outcome) = step {
            return Turned {
                outcome,
                moved,
                left,
                streams,
            };
        }
        moved = moved.saturating_add(bytes_in(step));
        left = left.saturating_sub(messages_in(step));
        may_read = share.reads_on || (may_read && !has_read_all(step));
    }
    Turned {
        outcome: TurnOutcome::HasMore,
        moved,
        left,
        streams,
    }
}

// Whether a turn has come to its bounds.
pub(crate) fn is_spent(moved: usize, answered: usize) -> bool {
    moved >= TURN_BYTES || answered >= TURN_MESSAGES
}

// Tells the observer of the bytes that a step moved.
fn observe_bytes<O: Observer>(observer: &mut O, step: Step) {
    match step {
        Step::Read(count) => observer.has_read(count),
        Step::Sent(count) => observer.has_sent(count),
        _ => {}
    }
}

// How many bytes a step moved.
pub(crate) fn bytes_in(step: Step) -> usize {
    match step {
        Step::Read(count) | Step::Sent(count) => count,
        _ => 0,
    }
}

// Whether a step has read all bytes that had come: an event will tell of others.
fn has_read_all(step: Step) -> bool {
    match step {
        Step::Read(count) => count < READ_SIZE,
        _ => false,
    }
}

// How many messages a step answered.
fn messages_in(step: Step) -> usize
    ensures { result ≡ messages_of step }
{
    match step {
        Step::Answered => 1,
        _ => 0,
    }
}

// Does once what a connection wants: a read, a write or an answer.
fn take_step<R: Read + Drop, W: Write + Drop, A: Durability, K: Clock, P: Precedence, O: Observer>(
    connection: &mut Connection,
    streams: Streams<R, W>,
    answerer: &mut A,
    clock: &mut K,
    precedence: &P,
    allowed: Allowed,
    observer: &mut O,
) -> (Streams<R, W>, Step)
    ensures carries { CarriesOn A.steps K.tells connection.old.piece (messages_of result.1)
        (on_turn connection.old answerer.old clock.old (R.remaining streams.reader) (W.contents streams.writer))
        (on_turn connection.new answerer.new clock.new (R.remaining result.0.reader) (W.contents result.0.writer)) }
    ensures held { allowed.send ≡ false → W.contents result.0.writer ≡ W.contents streams.writer }
    ensures bytes { result.1 ≡ Step.Stops TurnOutcome.AwaitsBytes → wanted connection.new ≡ Wants.Read }
    ensures room { result.1 ≡ Step.Stops TurnOutcome.AwaitsRoom → connection.new.write_buffer.pending ≢ [] }
    ensures over { result.1 ≡ Step.Stops TurnOutcome.Over → connection.new.write_buffer.pending ≡ [] }
    ensures turn { result.1 ≡ Step.Stops TurnOutcome.AwaitsTurn → wanted connection.new ≡ Wants.Answer }
    ensures more { result.1 ≢ Step.Stops TurnOutcome.HasMore }
    ensures allowed { result.1 ≡ Step.Answered → 0 < allowed.left }
    ensures limits { connection.new.limits ≡ connection.old.limits }
    ensures piece { connection.new.piece ≡ connection.old.piece }
{
    let Streams { reader, writer } = streams;
    match wants_of(connection, allowed.left) {
        Wants::Read if !allowed.read => (
            Streams { reader, writer },
            Step::Stops(TurnOutcome::AwaitsBytes),
        ),
        Wants::Read => {
            let (reader, step) = receive(connection, reader);
            (Streams { reader, writer }, step)
        }
        Wants::Write if !allowed.send => (
            Streams { reader, writer },
            Step::Stops(TurnOutcome::AwaitsKeeping),
        ),
        Wants::Write => {
            let (writer, step) = send(connection, writer);
            (Streams { reader, writer }, step)
        }
        Wants::Answer => {
            if !may_pass(connection, precedence) {
                return (
                    Streams { reader, writer },
                    Step::Stops(TurnOutcome::AwaitsTurn),
                );
            }
            let now = clock.moment();
            observer.asks(connection);
            connection.answer(answerer, now);
            observer.has_answered(connection);
            (Streams { reader, writer }, step_of_answer(connection))
        }
        Wants::Nothing => (Streams { reader, writer }, Step::Stops(TurnOutcome::Over)),
    }
}

// What an answer came to that left the connection so.
fn step_of_answer(connection: &Connection) -> Step
    ensures { result ≡ answer_step (body_in connection.now.phase) }
{
    if connection.is_in_pieces() {
        Step::Took
    } else {
        Step::Answered
    }
}

// Whether what came in may be answered now.
fn may_pass<P: Precedence>(connection: &Connection, precedence: &P) -> bool {
    if precedence.may_all_pass() {
        return true;
    }
    if let Some(piece) = connection.piece() {
        return precedence.may_pass(&piece.request());
    }
    match connection.incoming() {
        Some(Incoming::Message(message)) => precedence.may_pass(&message.request()),
        _ => true,
    }
}

/// What a connection wants of which so many messages may still be answered. Where there are none, it reads no more, and only sends
/// what is pending.
pub fn wants_of(connection: &mut Connection, left: usize) -> Wants
    ensures history { (p : History) → HasHistory p connection.old → HasHistory p connection.new }
    ensures read { result ≡ Wants.Read → wanted connection.new ≡ Wants.Read }
    ensures write { result ≡ Wants.Write → connection.new.write_buffer.pending ≢ [] }
    ensures answer { result ≡ Wants.Answer → wanted connection.new ≡ Wants.Answer }
    ensures wants { 0 < left → result ≡ wanted connection.new }
    ensures some { result ≡ Wants.Answer → 0 < left }
    ensures some_read { result ≡ Wants.Read → 0 < left }
    ensures nothing { result ≡ Wants.Nothing → (wanted connection.new ≡ Wants.Nothing) ⊎ (left ≡ 0) }
    ensures sent { result ≡ Wants.Nothing → connection.new.write_buffer.pending ≡ [] }
    ensures limits { connection.new.limits ≡ connection.old.limits }
    ensures piece { connection.new.piece ≡ connection.old.piece }
{
    if left > 0 {
        connection.wants()
    } else if connection.pending_len() > 0 {
        Wants::Write
    } else {
        Wants::Nothing
    }
}

// Reads once. A read that a signal interrupted brought nothing; one that fails is told to the connection.
fn receive<R: Read + Drop>(connection: &mut Connection, reader: R) -> (R, Step)
    requires { wanted connection.old ≡ Wants.Read }
    ensures takes { (p : History) → HasHistory p connection.old → (got : List ℕ)
        × Consumes (R.remaining reader) (R.remaining result.0) got × HasHistory (took p got) connection.new }
    ensures blocked { result.1 ≡ Step.Stops TurnOutcome.AwaitsBytes → wanted connection.new ≡ Wants.Read }
    ensures other { (outcome : TurnOutcome) → result.1 ≡ Step.Stops outcome → outcome ≡ TurnOutcome.AwaitsBytes }
    ensures moves { result.1 ≢ Step.Answered }
    ensures limits { connection.new.limits ≡ connection.old.limits }
    ensures piece { connection.new.piece ≡ connection.old.piece }
{
    let mut tapped = Tapped::new(reader);
    let read = connection.read_from(&mut tapped);
    let step = step_of_read(connection, read);
    (tapped.inner, step)
}

// What a read came to that gave this. One that failed is told to the connection.
fn step_of_read(connection: &mut Connection, read: io::Result<usize>) -> Step
    requires { OnErr read (wanted connection.old ≡ Wants.Read) }
    ensures history { (p : History) → HasHistory p connection.old → HasHistory p connection.new }
    ensures blocked { result ≡ Step.Stops TurnOutcome.AwaitsBytes → wanted connection.new ≡ Wants.Read }
    ensures other { (outcome : TurnOutcome) → result ≡ Step.Stops outcome → outcome ≡ TurnOutcome.AwaitsBytes }
    ensures moves { result ≢ Step.Answered }
    ensures limits { connection.new.limits ≡ connection.old.limits }
    ensures piece { connection.new.piece ≡ connection.old.piece }
{
    match read {
        Ok(count) => Step::Read(count),
        Err(error) => match error.kind() {
            ErrorKind::WouldBlock => Step::Stops(TurnOutcome::AwaitsBytes),
            ErrorKind::Interrupted => Step::Again,
            _ => {
                connection.fail();
                Step::Again
            }
        },
    }
}

// Writes once. A write that a signal interrupted took nothing, and is made again.
pub(crate) fn send<W: Write + Drop>(connection: &mut Connection, writer: W) -> (W, Step)
    requires { connection.old.write_buffer.pending ≢ [] }
    ensures gives { SendsOn connection.old connection.new (W.contents writer) (W.contents result.0) }
    ensures blocked { result.1 ≡ Step.Stops TurnOutcome.AwaitsRoom → connection.new.write_buffer.pending ≢ [] }
    ensures other { (outcome : TurnOutcome) → result.1 ≡ Step.Stops outcome → (outcome ≡ TurnOutcome.AwaitsRoom) ⊎ (outcome ≡ TurnOutcome.Failed) }
    ensures moves { result.1 ≢ Step.Answered }
    ensures limits { connection.new.limits ≡ connection.old.limits }
    ensures piece { connection.new.piece ≡ connection.old.piece }
{
    let mut tapped = Tapped::new(writer);
    let written = connection.write_to(&mut tapped);
    let step = match written {
        Ok(0) => Step::Stops(TurnOutcome::Failed),
        Ok(count) => Step::Sent(count),
        Err(error) => match error.kind() {
            ErrorKind::WouldBlock => Step::Stops(TurnOutcome::AwaitsRoom),
            ErrorKind::Interrupted => Step::Again,
            _ => Step::Stops(TurnOutcome::Failed),
        },
    };
    (tapped.inner, step)
}

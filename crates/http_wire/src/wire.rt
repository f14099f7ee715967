ghost use Rattle.std.specs.Prelude.{◌≡◌, ◌<◌, ◌^◌, false, IfOk, IfErr};
ghost use Rattle.std.specs.Bool.{OnTrue};
ghost use Rattle.std.specs.Borrow.{sem};
ghost use Rattle.std.specs.Io.BufRead.{Rests};
ghost use Rattle.http_wire.specs.Incoming.{map_read};
ghost use Rattle.http_wire.specs.Message.{framed};
ghost use Rattle.http_wire.specs.ReadOnWire.{ReadsOn};
ghost use Rattle.http_wire.specs.WriteOnWire.{WritesOn};
ghost use Rattle.http_wire.specs.ReplyText.{reply_text, refusal_text};
ghost use Rattle.http_wire.specs.Streams.{streams};
ghost use Rattle.http_wire.specs.TurnOnWire.{TurnOn};
ghost use Rattle.http_wire.specs.WireState.{fresh_wire, state_after};
ghost use Rattle.http_wire.specs.inside.WireModel.{wire_of, IsWire, read_by};
ghost use Rattle.tus_steps.specs.PlacedReply.{reply_in};
ghost use Rattle.tus_steps.specs.declared.reply.Reply.TheVariants.{Deleted};

use crate::answer::Answer;
use crate::buffers::Buffers;
use crate::clock::Clock;
use crate::connection::Connection;
use crate::conversation::{Ended, take_turn};
use crate::driving::await_incoming;
use crate::fault::WireFault;
use crate::framing::Framing;
use crate::incoming::{Cut, Incoming};
use crate::message::Message;
use crate::refusal::WireRefusal;
use crate::source::{Sink, Source};
use std::alloc::Global;
use std::marker::Model;
use tus_steps::PlacedReply;
use upload_book::Moment;

/// What a wire still does.
#[derive(Clone, Copy, PartialEq, Eq)]
enum State {
    /// It reads and writes.
    Open,
    /// It writes: the input ended or was refused.
    Ended,
    /// Nothing: a read or a write failed.
    Failed,
}

/// The wire of a connection: requests come in from a reader, and replies go out to a writer.
///
/// A contract sees its reader and its writer, the bytes that were read ahead, the most bytes of a body,
/// and whether it still reads and still writes.
#[derive(Drop)]
pub struct Wire<R: Source + Drop, W: Sink + Drop> {
    reader: R,
    writer: W,
    connection: Connection,
    state: State,
}

impl<R: Source + Drop, W: Sink + Drop> Model for Wire<R, W> {
    ghost use Rattle.http_wire.specs.OnWire.{OnWire, wire_code};

    ghost Value = { OnWire R W };

    ghost coded = { wire_code R.code W.code };

    ghost use Rattle.http_wire.specs.Streams.{streams};
    ghost use Rattle.http_wire.specs.inside.WireModel.{wire_of, IsWire};

    ghost view = { λ w. wire_of w.reader w.writer w.connection w.state };

    ghost invariant = { λ w. IsWire (streams R.remaining R.has_failed W.contents W.has_failed)
        w.reader w.writer w.connection w.state };
}

impl<R: Source + Drop, W: Sink + Drop> Wire<R, W> {
    ghost use Rattle.http_wire.specs.contracts.wire.Wire.{the_row};

    /// A wire on which nothing was read or written. A body has at most `max_size` bytes. The error is
    /// `WireFault::Memory`.
    pub fn new(alloc: Global, reader: R, writer: W, max_size: u64) -> Result<Self, WireFault>
        requires reader { R.has_failed reader ≡ false }
        requires writer { W.has_failed writer ≡ false }
        requires size { max_size < 2 ^ 62 }
        ensures fresh { IfOk result (λ w. w ≡ fresh_wire reader writer max_size) }
        ensures memory { IfErr result (λ e. e ≡ WireFault.Memory) }
    {
        let buffers = Buffers::new(alloc)?;
        Ok(Wire::with_buffers(buffers, reader, writer, max_size))
    }

    /// The same over buffers that another connection has left, so that it takes no memory. What they hold
    /// is not read.
    pub fn with_buffers(buffers: Buffers, reader: R, writer: W, max_size: u64) -> Self
        requires reader { R.has_failed reader ≡ false }
        requires writer { W.has_failed writer ≡ false }
        requires size { max_size < 2 ^ 62 }
        ensures { result ≡ fresh_wire reader writer max_size }
    {
        Wire {
            reader,
            writer,
            connection: Connection::with_buffers(buffers, max_size),
            state: State::Open,
        }
    }

    /// The reader, the writer and the buffers. What was read ahead is lost.
    pub fn into_parts(self) -> (R, W, Buffers)
        ensures reader { result.0 ≡ self.reader }
        ensures writer { result.1 ≡ self.writer }
    {
        (self.reader, self.writer, self.connection.into_buffers())
    }

    /// Whether it still reads. Then it also writes, and nothing has failed.
    pub fn is_open(&self) -> bool
        ensures reads { result ≡ self.now.reads }
        ensures reader { OnTrue result (R.has_failed self.now.reader ≡ false) }
        ensures writer { OnTrue result (W.has_failed self.now.writer ≡ false) }
    {
        self.state == State::Open
    }

    /// Reads the next message, and writes `100 Continue` where it is due. It reads at most 16,384 bytes of a head, a body,
    /// and 16,384 bytes ahead, which stay for the next call. The error is
    /// `WireFault::Read` where a read failed, `WireFault::Write` where a write did, and then, as after a
    /// body that a failed read cut, every later call gives `WireFault::Failed`. After a message that was
    /// cut or refused, and after the end, it gives `Incoming::End`.
    pub fn read_request(&mut self) -> Result<Incoming<Message<'_>>, WireFault>
        ensures* { sem 𝓛 (Rests (the_row R.row W.row R.Source W.Sink) self.entry
            (λ new. ReadsOn (streams R.remaining R.has_failed W.contents W.has_failed)
            self.old new (map_read framed result))) }
    {
        match self.state {
            State::Open => {
                next_incoming(
                    &mut self.reader,
                    &mut self.writer,
                    &mut self.connection,
                    &mut self.state,
                )?;
                match self.connection.incoming() {
                    Some(incoming) => Ok(incoming),
                    None => Ok(Incoming::End),
                }
            }
            State::Ended => Ok(Incoming::End),
            State::Failed => Err(WireFault::Failed),
        }
    }

    /// Takes a turn: reads the next message, asks the clock for its moment, lets `answerer` answer it and
    /// writes the reply. Where the conversation ends with it, it says how; then, and on a wire that reads no
    /// more, every later call gives `Ended::Input`. The error is `WireFault::Read` or `WireFault::Write`, and
    /// then every later call gives `WireFault::Failed`.
    pub fn take_turn<A: Answer, C: Clock>(
        &mut self,
        answerer: &mut A,
        clock: &mut C,
    ) -> Result<Option<Ended>, WireFault>
        ensures turn { TurnOn (streams R.remaining R.has_failed W.contents W.has_failed) A.steps
            C.tells
            (record { wire = self.old; state = answerer.old; clock = clock.old })
            (record { wire = self.new; state = answerer.new; clock = clock.new }) result }
    {
        match self.state {
            State::Open => {
                let turn = take_turn(
                    &mut self.reader,
                    &mut self.writer,
                    &mut self.connection,
                    answerer,
                    clock,
                );
                self.state = match &turn {
                    Ok(None) => State::Open,
                    Ok(Some(_)) => State::Ended,
                    Err(_) => State::Failed,
                };
                turn
            }
            State::Ended => Ok(Some(Ended::Input)),
            State::Failed => Err(WireFault::Failed),
        }
    }

    /// Writes the reply to a message that came at this moment. The bytes of an upload are freed once they are
    /// written, and in every case what is in the reply's place then answers no request. The error is
    /// `WireFault::Write` where a write failed, and then a prefix of it was written and every later call gives
    /// `WireFault::Failed`.
    pub fn write_reply(
        &mut self,
        reply: &mut PlacedReply,
        now: Moment,
        framing: Framing,
    ) -> Result<(), WireFault>
        ensures writes { WritesOn (streams R.remaining R.has_failed W.contents W.has_failed)
            (reply_text (reply_in reply.old) now framing) self.old self.new result }
        ensures gone { reply_in reply.new ≡ Deleted }
    {
        if self.state == State::Failed {
            reply.let_go();
            return Err(WireFault::Failed);
        }
        self.connection.put_reply(reply, now, framing);
        let written = self.connection.flush(&mut self.writer);
        if written.is_err() {
            self.state = State::Failed;
        }
        written
    }

    /// The same for a refusal of the wire.
    pub fn write_refusal(
        &mut self,
        refusal: WireRefusal,
        now: Moment,
        framing: Framing,
    ) -> Result<(), WireFault>
        ensures { WritesOn (streams R.remaining R.has_failed W.contents W.has_failed)
            (refusal_text refusal now framing) self.old self.new result }
    {
        if self.state == State::Failed {
            return Err(WireFault::Failed);
        }
        self.connection.put_refusal(refusal, now, framing);
        let written = self.connection.flush(&mut self.writer);
        if written.is_err() {
            self.state = State::Failed;
        }
        written
    }
}

// Reads the next message of a wire that has these, and reads.
fn next_incoming<R: Source, W: Sink>(
    reader: &mut R,
    writer: &mut W,
    connection: &mut Connection,
    state: &mut State,
) -> Result<(), WireFault>
    requires open { state.old ≡ State.Open }
    requires wire { IsWire (streams R.remaining R.has_failed W.contents W.has_failed)
        reader.old writer.old connection.old state.old }
    ensures wire { IsWire (streams R.remaining R.has_failed W.contents W.has_failed)
        reader.new writer.new connection.new state.new }
    ensures reads { ReadsOn (streams R.remaining R.has_failed W.contents W.has_failed)
        (wire_of reader.old writer.old connection.old state.old)
        (wire_of reader.new writer.new connection.new state.new)
        (read_by result connection.new) }
{
    let came = await_incoming(reader, writer, connection);
    *state = state_after(&came, connection);
    came
}

// What a wire still does after it read this.
fn state_after(came: &Result<(), WireFault>, connection: &Connection) -> State
    ensures { result ≡ state_after (read_by came.now connection.now) }
{
    if came.is_err() {
        return State::Failed;
    }
    match connection.incoming() {
        Some(Incoming::Message(_)) => State::Open,
        Some(Incoming::CutPatch(_, Cut::Fault)) => State::Failed,
        _ => State::Ended,
    }
}

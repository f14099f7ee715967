//! A client that a worker holds beside others.
ghost use Rattle.std.specs.Prelude.{◌≡◌, ◌<◌, ◌≤◌, ◌^◌, ◌-◌, Some, None, true, IfOk, IfSome, OnErr, nat_lt, if◌then◌else◌};
ghost use Rattle.std.proofs.Props.{props};
ghost use Rattle.http_wire.specs.RequestLimits.{AreSmall};
ghost use Rattle.http_wire.specs.History.{HasHistory, History, nothing_yet};
ghost use Rattle.connection_turns.specs.Sending.{IsAfterSending};
ghost use Rattle.connection_turns.specs.Turn.{HasHistoryWithin, Passes, SendsOnWithin, and_then, around};

use crate::holding::Durability;
use crate::observer::Observer;
use crate::pace::Busy;
use crate::sending::{Sent, send_pending};
use crate::turn::{Precedence, Share, Streams, TurnOutcome, Turned, take_turn};
use crate::unread::{ROOM_KEPT, may_be_unread};
use http_wire::{Buffers, Clock, Connection, Ended, Message, RequestLimits};
use std::alloc::{AllocError, Global};
use std::io::{Read, Write};

/// The most buffers that a worker keeps for connections to come, and the most bytes that they have room for together.
const BUFFERS_KEPT: usize = 64;

const ROOM_IN_ALL: usize = 16_777_216;

/// How many bytes of messages a connection has room for at first.
const FIRST_ROOM: usize = 65_536;

/// What a worker holds of one client: its connection, or none while the client is silent and all was answered and sent, so that
/// it costs no buffers then; and how many of its messages may still be answered.
#[derive(Drop)]
pub struct ClientConnection {
    connection: Option<Connection>,
    left: usize,
    limits: RequestLimits,
    piece: Option<usize>,
    ghost small: { AreSmall limits } by { Prim.hlevel props },
    ghost some: { IfSome piece (λ n. 0 < n) } by { Prim.hlevel props },
}

impl ClientConnection {
    /// A client of which nothing was read. Its bodies have at most as many bytes as `limits` tell, each below 2^62. It has at most
    /// `left` messages. Where there is a `piece`, above 0, longer bodies of PATCH and POST without a checksum are taken in pieces
    /// of so many bytes, as [`Connection::by_pieces`] says.
    pub fn new(limits: RequestLimits, piece: Option<usize>, left: usize) -> Self
        requires limits { AreSmall limits }
        requires some { IfSome piece (λ n. 0 < n) }
        ensures begins { HasHistoryWithin limits piece nothing_yet result.connection }
        ensures limits { result.limits ≡ limits }
        ensures piece { result.piece ≡ piece }
        ensures left { result.left ≡ left }
    {
        ClientConnection {
            connection: None,
            left,
            limits,
            piece,
        }
    }

    /// Takes a turn of its connection, as [`take_turn`] says, with all messages that are left, and puts the connection away
    /// where the client is silent then. Its buffers are of `free` where there are some, and go back there. The outcome is
    /// `TurnOutcome::NoMemory` where there was no memory for new ones, and then nothing passed.
    pub fn attend<
        R: Read + Drop,
        W: Write + Drop,
        A: Durability,
        K: Clock,
        P: Precedence,
        O: Observer,
    >(
        &mut self,
        alloc: Global,
        free: &mut Vec<Buffers>,
        streams: Streams<R, W>,
        answerer: &mut A,
        clock: &mut K,
        precedence: &P,
        reads_on: bool,
        observer: &mut O,
    ) -> Turned<R, W>
        ensures carries { (p : History) → HasHistoryWithin self.old.limits self.old.piece p self.old.connection → (more : History)
            × Passes A.steps K.tells self.old.piece (self.old.left - self.new.left)
            (around answerer.old clock.old (R.remaining streams.reader) (W.contents streams.writer))
            (around answerer.new clock.new (R.remaining result.streams.reader) (W.contents result.streams.writer)) more
            × HasHistoryWithin self.old.limits self.old.piece (and_then p more) self.new.connection }
        ensures held { A.holds_back answerer.old ≡ true → W.contents result.streams.writer ≡ W.contents streams.writer }
        ensures left { self.new.left ≤ self.old.left }
        ensures limits { self.new.limits ≡ self.old.limits }
        ensures piece { self.new.piece ≡ self.old.piece }
    {
        let opened = open(self.connection.take(), alloc, free, self.limits, self.piece);
        let Ok(mut connection) = opened else {
            return Turned {
                outcome: TurnOutcome::NoMemory,
                moved: 0,
                left: self.left,
                streams,
            };
        };
        let turned = take_turn(
            &mut connection,
            streams,
            answerer,
            clock,
            precedence,
            Share {
                messages: self.left,
                reads_on,
            },
            observer,
        );
        self.left = turned.left;
        self.connection = put_away(connection, free);
        turned
    }

    /// Sends what is pending, as [`send_pending`] says, and puts the connection away where the client is silent then. Its
    /// buffers go back to `free`.
    pub fn send<W: Write + Drop>(&mut self, free: &mut Vec<Buffers>, writer: W) -> Sent<W>
        ensures sends { SendsOnWithin self.old.limits self.old.piece self.old.connection self.new.connection (W.contents writer) (W.contents result.writer) }
        ensures outcome { IsAfterSending result.outcome }
        ensures left { self.new.left ≡ self.old.left }
        ensures limits { self.new.limits ≡ self.old.limits }
        ensures piece { self.new.piece ≡ self.old.piece }
    {
        let Some(mut connection) = self.connection.take() else {
            return Sent {
                outcome: TurnOutcome::HasMore,
                moved: 0,
                writer,
            };
        };
        let sent = send_pending(&mut connection, writer);
        self.connection = put_away(connection, free);
        sent
    }

    /// Has at most so many of its messages be answered from now on.
    pub fn limit(&mut self, messages: usize)
        ensures left { self.new ≡ record self.old { left = if nat_lt messages self.old.left then messages else self.old.left } }
    {
        if messages < self.left {
            self.left = messages;
        }
    }

    /// How many of its messages may still be answered.
    pub fn left(&self) -> usize
        ensures { result ≡ self.now.left }
    {
        self.left
    }

    /// What the client is at.
    pub fn busy(&self) -> Busy {
        match &self.connection {
            None => Busy::Idle,
            Some(connection) if connection.pending_len() > 0 => Busy::Reply,
            Some(connection) if connection.under_way().is_some() => Busy::Body,
            Some(_) => Busy::Head,
        }
    }

    /// How many bytes of replies are to be sent.
    pub fn pending_len(&self) -> usize {
        match &self.connection {
            Some(connection) => connection.pending_len(),
            None => 0,
        }
    }

    /// How many bytes are held of a body that it sends, and of replies that it takes; and while no body is under way, those for
    /// which its buffers have room since a large one came.
    pub fn held(&self) -> usize {
        let Some(connection) = &self.connection else {
            return 0;
        };
        let read = if connection.under_way().is_some() || connection.room() <= FIRST_ROOM {
            connection.body_held()
        } else {
            connection.room()
        };
        read.saturating_add(connection.pending_len())
    }

    /// The message whose body it sends, with what came of that.
    pub fn under_way(&self) -> Option<Message<'_>> {
        match &self.connection {
            None => None,
            Some(connection) => connection.under_way(),
        }
    }

    /// Whether the client may have sent what nobody read, once its conversation is over: see `may_be_unread`. Where all was
    /// answered and sent, it has had all of its messages, and may have sent more. Its buffers go back to `free`.
    pub fn leaves_unread(&mut self, free: &mut Vec<Buffers>) -> bool {
        let Some(connection) = self.connection.take() else {
            return true;
        };
        let ended = connection.ended();
        let buffers = connection.into_buffers();
        let unread = match ended {
            Ok(ended) => may_be_unread(&Ok(ended.unwrap_or(Ended::Moments)), &buffers),
            Err(fault) => may_be_unread(&Err(fault), &buffers),
        };
        keep(buffers, free);
        unread
    }
}

// The connection of a client, or a new one where it had none. The error is that there was no memory for that.
fn open(
    connection: Option<Connection>,
    alloc: Global,
    free: &mut Vec<Buffers>,
    limits: RequestLimits,
    piece: Option<usize>,
) -> Result<Connection, AllocError>
    requires limits { AreSmall limits }
    requires some { IfSome piece (λ n. 0 < n) }
    ensures history { IfOk result (λ c. (p : History) → HasHistoryWithin limits piece p connection
        → HasHistoryWithin limits piece p (Some c)) }
    ensures none { OnErr result (connection ≡ None) }
{
    match connection {
        Some(connection) => Ok(connection),
        None => {
            let buffers = match free.pop() {
                Some(buffers) => buffers,
                None => Buffers::new(alloc)?,
            };
            Ok(Connection::by_pieces(buffers, limits, piece))
        }
    }
}

// The connection, or none where it is idle: its buffers are kept then.
fn put_away(connection: Connection, free: &mut Vec<Buffers>) -> Option<Connection>
    ensures { (p : History) → HasHistory p connection → HasHistoryWithin connection.limits connection.piece p result }
{
    if !connection.is_idle() {
        return Some(connection);
    }
    keep(connection.into_buffers(), free);
    None
}

// Keeps buffers for another connection, unless there are many, these are large, or there is no memory for the list.
fn keep(buffers: Buffers, free: &mut Vec<Buffers>) {
    let kept = free.iter().fold(
        buffers.room(),
        |sum, other| sum.saturating_add(other.room()),
    );
    if buffers.room() <= ROOM_KEPT && kept <= ROOM_IN_ALL && free.len() < BUFFERS_KEPT {
        let _ = free.push(buffers);
    }
}

//! A client with its stream, as its worker holds it.
ghost use Rattle.std.specs.Prelude.{◌≡◌};
ghost use Rattle.tus_workers.specs.Turns.{list_in};

use crate::witness::Witness;
use connection_turns::{
    AsTheyCome, Busy, ClientBounds, ClientConnection, Durability, Late, Observer, Pace, Precedence,
    Streams, TurnOutcome, Turned,
};
use http_wire::{Buffers, Clock};
use mio::net::TcpStream;
use mio::{Interest, Registry, Token};
use std::alloc::Global;
use std::io;
use std::io::{ErrorKind, Read, Write};
use std::net::Shutdown;
use turn_lists::TurnList;
use unfinished_bodies::BodyPlace;

/// For how many seconds the rest of a refused input is read, and how many bytes of it.
const LINGER_SECONDS: u64 = 5;

const REST_BYTES: usize = 67_108_864;

/// How many bytes of such a rest are read at once, and how often in one turn.
const REST_SIZE: usize = 16_384;

const REST_READS: usize = 16;

/// For how many seconds a message waits for another one to end, at most.
const PATIENCE_SECONDS: u64 = 2;

/// Whether a client is still talked with.
#[derive(Clone, Copy)]
enum Standing {
    Talks,
    /// Its message waits for another one to end, since this second.
    Waits(u64),
    /// Its conversation is over, and it was told so. What it still sends is dropped, up to so many bytes.
    Lingers(usize),
}

/// What becomes of a client after a turn.
#[derive(Clone, Copy, PartialEq, Eq)]
pub(crate) enum Next {
    /// An event will tell when there is more to do.
    Waits,
    /// Its next turn comes by this list, and no event need tell of it.
    Stands(TurnList),
    /// Its connection is closed.
    Ends,
}

impl Next {
    /// The list by which the next turn comes, if by one.
    pub fn list(self) -> Option<TurnList>
        ensures { result ≡ list_in self }
    {
        match self {
            Next::Stands(list) => Some(list),
            Next::Waits | Next::Ends => None,
        }
    }
}

/// In place of the stream of a client that is cut off: each call fails.
#[derive(Drop)]
struct Gone;

impl Read for Gone {
    fn read(&mut self, _buf: &mut [u8]) -> io::Result<usize> {
        Err(io::Error::from(ErrorKind::TimedOut))
    }
}

impl Write for Gone {
    fn write(&mut self, _buf: &[u8]) -> io::Result<usize> {
        Err(io::Error::from(ErrorKind::TimedOut))
    }

    fn flush(&mut self) -> io::Result<()> {
        Ok(())
    }
}

/// A client, with its stream.
#[derive(Drop)]
pub(crate) struct Client<'n> {
    stream: TcpStream,
    client_connection: ClientConnection,
    standing: Standing,
    // How fast its conversation goes, or, where that is over, since when.
    pace: Pace,
    /// Where its half-read body, or the rest of its reply, stands in the table of all workers.
    pub place: Option<BodyPlace>,
    // Whether its input has ended, or its stream failed, so far as events told.
    has_closed: bool,
    /// Whether in its last turn it came to another message, or from one part of a message to another.
    pub has_gone_on: bool,
    /// Whether it ended since a write failed, or memory was lacking.
    pub has_failed: bool,
    /// Who sees its turns, and what was seen of its requests.
    pub witness: Witness<'n>,
}

impl<'n> Client<'n> {
    /// A client that came at this second, whose turns this witness sees.
    pub fn new(
        stream: TcpStream,
        client_connection: ClientConnection,
        second: u64,
        witness: Witness<'n>,
    ) -> Self {
        Client {
            stream,
            client_connection,
            standing: Standing::Talks,
            pace: Pace::new(second),
            place: None,
            has_closed: false,
            has_gone_on: false,
            has_failed: false,
            witness,
        }
    }

    /// Has its stream told of by its key, whenever bytes have come or there is room again, and also at once. Small replies
    /// are sent at once. The error is the system's.
    pub fn register(&mut self, registry: &Registry, key: usize) -> io::Result<()> {
        let _ = self.stream.set_nodelay(true);
        let both = Interest::READABLE | Interest::WRITABLE;
        registry.register(&mut self.stream, Token(key), both)
    }

    /// Notes that its input has ended, or its stream failed.
    pub fn close(&mut self) {
        self.has_closed = true;
    }

    /// Has it end after one more message at most.
    pub fn end_soon(&mut self) {
        self.client_connection.limit(1);
    }

    /// Whether it is talked with, and neither a message of it nor a reply is under way.
    pub fn is_idle(&self) -> bool {
        match self.client_connection() {
            Some(client_connection) => client_connection.busy() == Busy::Idle,
            None => false,
        }
    }

    /// What is held for it, while it is talked with.
    pub fn client_connection(&self) -> Option<&ClientConnection> {
        match self.standing {
            Standing::Talks | Standing::Waits(_) => Some(&self.client_connection),
            Standing::Lingers(_) => None,
        }
    }

    /// Whether its message has waited for another one as long as it may.
    pub fn has_waited(&self, second: u64) -> bool {
        match self.standing {
            Standing::Waits(since) => second.saturating_sub(since) >= PATIENCE_SECONDS,
            _ => false,
        }
    }

    /// Takes a turn of its conversation at this second, or drops what it still sends.
    pub fn turn<A: Durability, K: Clock, P: Precedence>(
        &mut self,
        alloc: Global,
        free: &mut Vec<Buffers>,
        answerer: &mut A,
        clock: &mut K,
        precedence: &P,
        second: u64,
    ) -> Next {
        if let Standing::Lingers(rest) = self.standing {
            return self.drop_rest(rest);
        }
        let outcome = self.talk(alloc, free, answerer, clock, precedence, second);
        let since = match self.standing {
            Standing::Waits(since) if !self.has_gone_on => since,
            _ => second,
        };
        self.standing = Standing::Talks;
        match outcome {
            TurnOutcome::AwaitsBytes | TurnOutcome::AwaitsRoom => Next::Waits,
            TurnOutcome::HasMore => Next::Stands(TurnList::HasMore),
            TurnOutcome::AwaitsTurn => {
                self.standing = Standing::Waits(since);
                Next::Stands(TurnList::WaitsForTurn)
            }
            TurnOutcome::AwaitsKeeping => Next::Stands(TurnList::WaitsForKeeping),
            TurnOutcome::Over => self.end(free, second),
            TurnOutcome::Failed | TurnOutcome::NoMemory => {
                self.has_failed = true;
                Next::Ends
            }
        }
    }

    fn talk<A: Durability, K: Clock, P: Precedence>(
        &mut self,
        alloc: Global,
        free: &mut Vec<Buffers>,
        answerer: &mut A,
        clock: &mut K,
        precedence: &P,
        second: u64,
    ) -> TurnOutcome {
        let streams = Streams {
            reader: &self.stream,
            writer: &self.stream,
        };
        let (left, was_busy) = (self.client_connection.left(), self.client_connection.busy());
        let Turned { outcome, moved, .. } = self.client_connection.attend(
            alloc,
            free,
            streams,
            answerer,
            clock,
            precedence,
            self.has_closed,
            &mut self.witness,
        );
        let has_answered = self.client_connection.left() != left;
        let busy = self.client_connection.busy();
        self.has_gone_on = has_answered || busy != was_busy;
        self.pace.note(second, moved as u64, busy, has_answered);
        if self.witness.take_stored() && busy == Busy::Body {
            self.pace.begin_piece(second);
        }
        outcome
    }

    /// Sends at this second what was held back, as far as that goes.
    pub fn send(&mut self, free: &mut Vec<Buffers>, second: u64) -> Next {
        let sent = self.client_connection.send(free, &self.stream);
        self.witness.has_sent(sent.moved);
        self.has_gone_on = false;
        self.pace.note(
            second,
            sent.moved as u64,
            self.client_connection.busy(),
            false,
        );
        match sent.outcome {
            TurnOutcome::AwaitsRoom => Next::Waits,
            TurnOutcome::Failed => {
                self.has_failed = true;
                Next::Ends
            }
            _ => Next::Stands(TurnList::HasMore),
        }
    }

    // Its conversation is over. Where it may have sent what nobody read, it is told that nothing follows: a close with unread
    // bytes would take the last reply from it.
    fn end(&mut self, free: &mut Vec<Buffers>, second: u64) -> Next {
        if !self.client_connection.leaves_unread(free) {
            return Next::Ends;
        }
        let _ = self.stream.shutdown(Shutdown::Write);
        self.standing = Standing::Lingers(REST_BYTES);
        self.pace = Pace::new(second);
        Next::Stands(TurnList::HasMore)
    }

    // Drops what it still sends, of which there are to be at most so many bytes.
    fn drop_rest(&mut self, rest: usize) -> Next {
        let mut rest = rest;
        let mut bytes = [0; REST_SIZE];
        for _ in 0..REST_READS {
            match self.stream.read(&mut bytes) {
                Ok(0) => return Next::Ends,
                Ok(count) => rest = rest.saturating_sub(count),
                Err(error) => match error.kind() {
                    ErrorKind::Interrupted => {}
                    ErrorKind::WouldBlock => {
                        self.standing = Standing::Lingers(rest);
                        return Next::Waits;
                    }
                    _ => return Next::Ends,
                },
            }
        }
        self.standing = Standing::Lingers(rest);
        if rest == 0 {
            Next::Ends
        } else {
            Next::Stands(TurnList::HasMore)
        }
    }

    /// Tells its connection that no more will come, nor can be sent. What came of a body that is applied when it is cut is
    /// kept.
    pub fn cut<A: Durability, K: Clock>(
        &mut self,
        alloc: Global,
        free: &mut Vec<Buffers>,
        answerer: &mut A,
        clock: &mut K,
    ) {
        if let Standing::Lingers(_) = self.standing {
            return;
        }
        let streams = Streams {
            reader: Gone,
            writer: Gone,
        };
        let _ = self.client_connection.attend(
            alloc,
            free,
            streams,
            answerer,
            clock,
            &AsTheyCome,
            true,
            &mut self.witness,
        );
        let _ = self.client_connection.leaves_unread(free);
    }

    /// Whether it is to be cut off at this second.
    pub fn is_late(&self, second: u64, bounds: ClientBounds) -> bool {
        match self.standing {
            Standing::Talks => self.pace.lateness(second, bounds).is_some(),
            Standing::Waits(_) => false,
            Standing::Lingers(_) => second.saturating_sub(self.pace.moved) > LINGER_SECONDS,
        }
    }

    /// For what it is to be cut off at this second, while it is talked with.
    pub fn lateness(&self, second: u64, bounds: ClientBounds) -> Option<Late> {
        match self.standing {
            Standing::Talks => self.pace.lateness(second, bounds),
            _ => None,
        }
    }

    /// How many bytes of the replies that were put are not sent yet.
    pub fn unsent(&self) -> u64 {
        match self.standing {
            Standing::Talks | Standing::Waits(_) => self.client_connection.pending_len() as u64,
            Standing::Lingers(_) => 0,
        }
    }

    /// Has its rate counted anew at this second, where ten seconds have passed.
    pub fn renew_pace(&mut self, second: u64) {
        self.pace.renew(second);
    }
}

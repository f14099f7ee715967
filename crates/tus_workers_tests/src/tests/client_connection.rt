//! Clients that a worker holds, over streams in memory that would block.

use crate::tests::opening::moment;
use crate::tests::texts::CUT_PATCH;
use connection_turns::{
    AsTheyCome, Busy, ClientConnection, Precedence, Streams, TurnOutcome, Turned, Unwatched,
};
use http_wire::{Buffers, RequestLimits};
use std::alloc::Global;
use std::cell::Cell;
use std::io;
use std::io::{ErrorKind, Read, Write};
use std::process::Abort;
use std::test::Fail;
use tus_steps::Request;
use upload_book::Book;
use worked_example::{CREATED, HEAD, LOOKED, PATCH, PATCHED, POST, settings};

/// A reader of some bytes, which would block before each piece of them, and at their end.
#[derive(Drop)]
pub(crate) struct Arriving<'a> {
    pub rest: &'a [u8],
    pub piece: usize,
    pub has_blocked: bool,
}

impl Read for Arriving<'_> {
    fn read(&mut self, buf: &mut [u8]) -> io::Result<usize> {
        self.has_blocked = !self.has_blocked;
        if self.has_blocked || self.rest.is_empty() {
            return Err(io::Error::from(ErrorKind::WouldBlock));
        }
        let count = self.piece.min(buf.len()).min(self.rest.len());
        let (first, rest) = self.rest.split_at(count);
        buf[..count].copy_from_slice(first);
        self.rest = rest;
        Ok(count)
    }
}

/// A writer that keeps what is written, and would block before each piece. It fails where no piece has a byte.
#[derive(Drop)]
pub(crate) struct Leaving {
    pub written: Vec<u8>,
    pub piece: usize,
    pub has_blocked: bool,
}

impl Write for Leaving {
    fn write(&mut self, buf: &[u8]) -> io::Result<usize> {
        self.has_blocked = !self.has_blocked;
        if self.has_blocked {
            return Err(io::Error::from(ErrorKind::WouldBlock));
        }
        let count = self.piece.min(buf.len());
        self.written.extend_from_slice(&buf[..count])?;
        Ok(count)
    }

    fn flush(&mut self) -> io::Result<()> {
        Ok(())
    }
}

/// All bytes in one piece, and all replies.
const AT_ONCE: [usize; 2] = [usize::MAX, usize::MAX];

/// More turns than any test takes.
const TURNS_MAX: usize = 10_000;

/// A client that sent these bytes, in such pieces, and takes its replies in such pieces.
#[derive(Drop)]
struct Client<'a> {
    client_connection: ClientConnection,
    free: Vec<Buffers>,
    streams: Streams<Arriving<'a>, Leaving>,
    /// How many turns had more to do.
    rounds: u64,
    outcome: TurnOutcome,
}

impl<'a> Client<'a> {
    /// A client that may have so many messages answered.
    fn new(alloc: Global, sent: &'a [u8], pieces: [usize; 2], left: usize) -> Self {
        let [read, written] = pieces;
        let reader = Arriving {
            rest: sent,
            piece: read,
            has_blocked: false,
        };
        let writer = Leaving {
            written: Vec::new(alloc),
            piece: written,
            has_blocked: false,
        };
        Client {
            client_connection: ClientConnection::new(RequestLimits::alike(64), None, left),
            free: Vec::new(alloc),
            streams: Streams { reader, writer },
            rounds: 0,
            outcome: TurnOutcome::HasMore,
        }
    }

    /// One with a new book, after all of its turns.
    fn ran(
        rt: &impl Abort,
        alloc: Global,
        sent: &'a [u8],
        pieces: [usize; 2],
        left: usize,
    ) -> Result<Self, Fail> {
        let mut book = Book::new(alloc, settings()?)?;
        Ok(Client::new(alloc, sent, pieces, left).run(rt, alloc, &mut book))
    }

    /// How many buffers are free where it is over and may leave bytes unread.
    fn is_over(self) -> Option<usize> {
        let Client {
            mut client_connection,
            mut free,
            outcome,
            ..
        } = self;
        let leaves = client_connection.leaves_unread(&mut free);
        (outcome == TurnOutcome::Over && leaves).then_some(free.len())
    }

    /// Takes turns until it waits for bytes that do not come, or is over.
    fn run(self, rt: &impl Abort, alloc: Global, book: &mut Book) -> Self {
        let Client {
            mut client_connection,
            mut free,
            mut streams,
            mut rounds,
            mut outcome,
        } = self;
        let mut clock = moment(rt);
        for _ in 0..TURNS_MAX {
            let turned = client_connection.attend(
                alloc,
                &mut free,
                streams,
                book,
                &mut clock,
                &AsTheyCome,
                false,
                &mut Unwatched,
            );
            let Turned {
                outcome: after,
                streams: back,
                ..
            } = turned;
            streams = back;
            outcome = after;
            match outcome {
                TurnOutcome::HasMore => rounds = u64::saturating_add(rounds, 1),
                TurnOutcome::AwaitsBytes if streams.reader.rest.is_empty() => break,
                TurnOutcome::AwaitsBytes | TurnOutcome::AwaitsRoom => {}
                TurnOutcome::AwaitsTurn
                | TurnOutcome::AwaitsKeeping
                | TurnOutcome::Over
                | TurnOutcome::Failed
                | TurnOutcome::NoMemory => break,
            }
        }
        Client {
            client_connection,
            free,
            streams,
            rounds,
            outcome,
        }
    }
}

/// One text of the first parts and then of so many of the last.
pub(crate) fn text_of(
    alloc: Global,
    parts: &[&[u8]],
    last: &[u8],
    times: usize,
) -> Result<Vec<u8>, Fail> {
    let mut text = Vec::new(alloc);
    for part in parts {
        text.extend_from_slice(part)?;
    }
    for _ in 0..times {
        text.extend_from_slice(last)?;
    }
    Ok(text)
}

/// An upload is created, and its first bytes come; then so many HEADs. All come and leave in pieces.
fn assert_looks(
    rt: &impl Abort,
    alloc: Global,
    heads: usize,
    pieces: [usize; 2],
    rounds: Option<u64>,
) -> Result<(), Fail> {
    let sent = text_of(alloc, &[POST, PATCH], HEAD, heads)?;
    let expected = text_of(alloc, &[CREATED, PATCHED], LOOKED, heads)?;
    let client = Client::ran(rt, alloc, &sent, pieces, 4096)?;
    assert_eq!(rt; client.outcome, TurnOutcome::AwaitsBytes);
    assert!(rt; client.streams.writer.written.as_slice() == expected.as_slice());
    assert_eq!(rt; client.free.len(), 1, "the buffers of a silent client");
    if let Some(rounds) = rounds {
        assert_eq!(rt; client.rounds, rounds, "{heads} HEADs");
    }
    Ok(())
}

#[test]
fn pieces_that_would_block(rt: HostRuntime) -> Result<(), Fail> {
    for piece in [1, 7, 4096] {
        assert_looks(&rt, rt.alloc(), 3, [piece, piece], None)?;
    }
    Ok(())
}

/// A turn answers 16 messages, and has more to do then, though no byte may come any more. These are 16, 17, 32 and 42
/// messages.
#[test]
fn a_burst_is_answered_in_turns(rt: HostRuntime) -> Result<(), Fail> {
    for (heads, rounds) in [(14, 1), (15, 1), (30, 2), (40, 2)] {
        assert_looks(&rt, rt.alloc(), heads, AT_ONCE, Some(rounds))?;
    }
    Ok(())
}

#[test]
fn the_last_message_ends_it(rt: HostRuntime) -> Result<(), Fail> {
    let sent = text_of(rt.alloc(), &[POST, PATCH], HEAD, 1)?;
    let expected = text_of(rt.alloc(), &[CREATED, PATCHED], HEAD, 0)?;
    let client = Client::ran(&rt, rt.alloc(), &sent, [usize::MAX, 50], 2)?;
    assert!(rt; client.streams.writer.written.as_slice() == expected.as_slice());
    assert_eq!(rt; client.is_over(), Some(1));
    Ok(())
}

/// What lets no HEAD pass, until it was asked so often.
#[derive(Drop)]
struct After {
    asked: Cell<u64>,
}

impl Precedence for After {
    fn may_all_pass(&self) -> bool {
        false
    }

    fn may_pass(&self, request: &Request) -> bool {
        let left = self.asked.get();
        self.asked.set(left.saturating_sub(1));
        left == 0 || !request.method.is_head()
    }
}

/// The HEAD behind a creation waits, once; it is answered then, with no byte more.
#[test]
fn a_message_waits_for_its_turn(rt: HostRuntime) -> Result<(), Fail> {
    let sent = text_of(rt.alloc(), &[POST, HEAD], HEAD, 0)?;
    let mut book = Book::new(rt.alloc(), settings()?)?;
    let client = Client::new(rt.alloc(), &sent, AT_ONCE, 4096);
    let Client {
        mut client_connection,
        mut free,
        mut streams,
        ..
    } = client;
    let after = After {
        asked: Cell::new(2),
    };
    let mut clock = moment(&rt);
    let mut outcomes = Vec::new(rt.alloc());
    for _ in 0..5 {
        let turned = client_connection.attend(
            rt.alloc(),
            &mut free,
            streams,
            &mut book,
            &mut clock,
            &after,
            false,
            &mut Unwatched,
        );
        outcomes.push(turned.outcome)?;
        streams = turned.streams;
    }
    let expected = [
        TurnOutcome::AwaitsBytes,
        TurnOutcome::AwaitsTurn,
        TurnOutcome::AwaitsRoom,
        TurnOutcome::AwaitsBytes,
        TurnOutcome::AwaitsBytes,
    ];
    assert!(&rt; outcomes.as_slice() == expected.as_slice());
    Ok(())
}

/// What a client is at, after these bytes, which it sends in one piece and whose replies it takes as soon.
#[test]
fn what_a_client_is_at(rt: HostRuntime) -> Result<(), Fail> {
    let rows: [(&[u8], Busy, usize); 4] = [
        (b"", Busy::Idle, 0),
        (HEAD, Busy::Idle, 0),
        (b"HEAD /fil", Busy::Head, 0),
        (CUT_PATCH, Busy::Body, 2),
    ];
    for (sent, busy, held) in rows {
        let client = Client::ran(&rt, rt.alloc(), sent, AT_ONCE, 4096)?;
        assert_eq!(&rt; client.client_connection.busy(), busy);
        assert_eq!(&rt; client.client_connection.held(), held);
        assert_eq!(&rt; client.client_connection.under_way().is_some(), held > 0);
    }
    Ok(())
}

/// A client that was answered all of its messages, and of which nothing is held, may have sent more.
#[test]
fn the_last_message_of_all_ends_it(rt: HostRuntime) -> Result<(), Fail> {
    let client = Client::ran(&rt, rt.alloc(), HEAD, AT_ONCE, 1)?;
    assert!(&rt; client.is_over().is_some());
    Ok(())
}

#[test]
fn a_write_that_takes_nothing_ends_it(rt: HostRuntime) -> Result<(), Fail> {
    let client = Client::ran(&rt, rt.alloc(), POST, [usize::MAX, 0], 4096)?;
    assert_eq!(rt; client.outcome, TurnOutcome::Failed);
    Ok(())
}

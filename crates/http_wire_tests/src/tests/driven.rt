//! Streams that would block before each piece of theirs, and a connection that is driven over them.

ghost use Rattle.std.specs.Prelude.{◌≡◌, ◌≢◌, ◌≤◌, []};
ghost use Rattle.std.specs.Bool.{OnTrue};
ghost use Rattle.http_wire.specs.OnConnection.{wanted};

use crate::tests::hostile::Dice;
use crate::tests::spoken::{Spoken, offset_of};
use http_wire::{Connection, Ended, Tapped, Wants, WireFault};
use std::alloc::Global;
use std::io::{ErrorKind, Read, Write};
use std::process::Abort;
use std::{io, mem};
use upload_book::{Book, Moment};

/// How many bytes the pieces of a stream have.
#[derive(Clone, Copy)]
pub enum Pieces {
    /// The first one so many, and the next one as many as there are.
    Two(usize),
    /// So many each.
    Each(usize),
    /// So many by chance, up to this number.
    Chance(Dice, usize),
}

impl Pieces {
    /// How many bytes the next piece has at most.
    fn next(&mut self) -> usize {
        match self {
            Pieces::Two(first) => mem::replace(first, usize::MAX),
            Pieces::Each(count) => *count,
            Pieces::Chance(dice, most) => dice.roll(*most).saturating_add(1),
        }
    }
}

/// A reader of some bytes, which would block before each piece and before the end.
#[derive(Drop)]
pub struct Arriving<'a> {
    rest: &'a [u8],
    pieces: Pieces,
    has_blocked: bool,
}

impl<'a> Arriving<'a> {
    pub fn new(rest: &'a [u8], pieces: Pieces) -> Self {
        Arriving {
            rest,
            pieces,
            has_blocked: false,
        }
    }
}

impl Read for Arriving<'_> {
    fn read(&mut self, buf: &mut [u8]) -> io::Result<usize> {
        self.has_blocked = !self.has_blocked;
        if self.has_blocked {
            return Err(io::Error::from(ErrorKind::WouldBlock));
        }
        let most = self.pieces.next().min(buf.len());
        self.rest.read(&mut buf[..most])
    }
}

/// A writer that keeps what is written, and would block before each piece. It counts the pieces.
#[derive(Drop)]
pub struct Leaving {
    pub written: Vec<u8>,
    pub writes: u64,
    pieces: Pieces,
    has_blocked: bool,
}

impl Leaving {
    pub fn new(alloc: Global, pieces: Pieces) -> Self {
        Leaving {
            written: Vec::new(alloc),
            writes: 0,
            pieces,
            has_blocked: false,
        }
    }
}

impl Write for Leaving {
    fn write(&mut self, buf: &[u8]) -> io::Result<usize> {
        self.has_blocked = !self.has_blocked;
        if self.has_blocked {
            return Err(io::Error::from(ErrorKind::WouldBlock));
        }
        let count = self.pieces.next().min(buf.len());
        self.written.extend_from_slice(&buf[..count])?;
        self.writes = self.writes.saturating_add(1);
        Ok(count)
    }

    fn flush(&mut self) -> io::Result<()> {
        Ok(())
    }
}

/// More steps than any conversation of the tests takes between two answers.
const STEPS_MAX: usize = 100_000;

/// Drives a connection over these streams, does what it wants, and answers the k-th message at the k-th moment, all its pieces
/// included; once no moment is left it writes what is pending. The reader's and the writer's errors are that they would block.
pub fn drive(
    rt: &impl Abort,
    connection: &mut Connection,
    reader: &mut Arriving<'_>,
    writer: &mut Leaving,
    book: &mut Book,
    moments: &[Moment],
) -> Result<Ended, WireFault> {
    for now in moments {
        if !answers_one(rt, connection, reader, writer, book, *now) {
            break;
        }
    }
    send_rest(rt, connection, writer);
    end_of(connection)
}

/// What a connection that is driven over these streams says, and what it leaves in its book.
pub fn spoken_over(
    rt: &impl Abort,
    connection: &mut Connection,
    mut reader: Arriving<'_>,
    mut writer: Leaving,
    book: &mut Book,
    moments: &[Moment],
) -> Spoken<'static> {
    let ended = drive(rt, connection, &mut reader, &mut writer, book, moments);
    Spoken {
        text: writer.written,
        ended,
        offset: offset_of(book),
        rest: b"",
    }
}

/// Does what a connection wants until it wants an answer, and answers, and so on until a message was answered. Says whether it
/// came to that.
fn answers_one(
    rt: &impl Abort,
    connection: &mut Connection,
    reader: &mut Arriving<'_>,
    writer: &mut Leaving,
    book: &mut Book,
    now: Moment,
) -> bool {
    for _ in 0..STEPS_MAX {
        if !comes_to_an_answer(rt, connection, reader, writer) {
            return false;
        }
        connection.answer(book, now);
        if !connection.is_in_pieces() {
            return true;
        }
    }
    panic!(rt; "a body comes to no end")
}

/// How a conversation ended, which has not ended by itself where no moment is left.
fn end_of(connection: &Connection) -> Result<Ended, WireFault> {
    Ok(connection.ended()?.unwrap_or(Ended::Moments))
}

/// Does what a connection wants until it wants an answer, or nothing more.
fn comes_to_an_answer(
    rt: &impl Abort,
    connection: &mut Connection,
    reader: &mut Arriving<'_>,
    writer: &mut Leaving,
) -> bool
    ensures { OnTrue result (wanted connection.new ≡ Wants.Answer) }
{
    for _ in 0..STEPS_MAX {
        match connection.wants() {
            Wants::Read => receive(rt, connection, reader),
            Wants::Write => send(rt, connection, writer),
            Wants::Answer => return true,
            Wants::Nothing => return false,
        }
    }
    panic!(rt; "a connection comes to no answer")
}

/// Reads once. The reader has to be read again where it would have blocked.
fn receive(rt: &impl Abort, connection: &mut Connection, reader: &mut Arriving<'_>)
    requires { wanted connection.old ≡ Wants.Read }
{
    let mut tapped = Tapped::new(reader);
    if let Err(error) = connection.read_from(&mut tapped) {
        assert!(rt; error.kind() == ErrorKind::WouldBlock, "a read");
    }
}

/// Writes once. The writer has to be written to again where it would have blocked.
fn send(rt: &impl Abort, connection: &mut Connection, writer: &mut Leaving)
    requires { connection.old.write_buffer.pending ≢ [] }
{
    let mut tapped = Tapped::new(writer);
    match connection.write_to(&mut tapped) {
        Ok(count) => assert!(rt; count > 0, "a write that took nothing"),
        Err(error) => assert!(rt; error.kind() == ErrorKind::WouldBlock, "a write"),
    }
}

/// Writes all that is pending, as a caller does that writes by itself what the connection lends.
fn send_rest(rt: &impl Abort, connection: &mut Connection, writer: &mut Leaving) {
    for _ in 0..STEPS_MAX {
        if connection.pending().is_empty() {
            return;
        }
        let count = match writer.write(connection.pending()) {
            Ok(count) => count,
            Err(error) => {
                assert!(rt; error.kind() == ErrorKind::WouldBlock, "a write");
                0
            }
        };
        connection.sent(count);
    }
    panic!(rt; "what is pending does not become less")
}

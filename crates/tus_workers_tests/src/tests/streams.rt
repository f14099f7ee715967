//! One desk that serves a connection after another, over readers and writers in memory.

ghost use Rattle.std.specs.Prelude.{◌≡◌};

use crate::tests::serving::{Scene, served};
use crate::tests::texts::{CUT_PATCH, DELETE, GONE, LOOKED_CUT};
use http_wire::{Buffers, Clock, Ended, Tapped, WireFault};
use std::alloc::Global;
use std::io;
use std::io::{ErrorKind, Read, Write};
use std::process::Abort;
use std::sync::Wait;
use std::sync::ledger::Ledger;
use std::test::Fail;
use tus_shared::{Charges, Desk, NoGate, Shared};
use tus_workers::{ServedStream, serve_stream};
use upload_book::Moment;
use worked_example::{CREATED, HEAD, LOOKED, PATCH, PATCHED, POST};

/// The last second that a moment may be.
const LAST_SECOND: u64 = 253_402_300_799;

// A reader of some pieces, at most one of them a read. Where `fails`, the read after the last of them fails, and else it is
// at the end.
#[derive(Drop)]
struct Input<'a> {
    pieces: &'a [&'a [u8]],
    next: usize,
    fails: bool,
}

impl Read for Input<'_> {
    fn read(&mut self, buf: &mut [u8]) -> io::Result<usize> {
        let Some(piece) = self.pieces.get(self.next) else {
            return if self.fails {
                Err(io::Error::from(ErrorKind::Other))
            } else {
                Ok(0)
            };
        };
        let count = piece.len().min(buf.len());
        buf[..count].copy_from_slice(&piece[..count]);
        self.next = self.next.saturating_add(1);
        Ok(count)
    }
}

// A writer that keeps what is written.
#[derive(Drop)]
struct Output(Vec<u8>);

impl Write for Output {
    fn write(&mut self, buf: &[u8]) -> io::Result<usize> {
        self.0.extend_from_slice(buf)?;
        Ok(buf.len())
    }

    fn flush(&mut self) -> io::Result<()> {
        Ok(())
    }
}

// A clock that tells these seconds, one after another, and the last of them from then on.
#[derive(Drop)]
struct Seconds {
    told: &'static [u64],
    next: usize,
}

impl Clock for Seconds {
    ghost tells = { λ before now after. Unit {0} };

    fn moment(&mut self) -> Moment {
        let second = self.told.get(self.next).or(self.told.last());
        self.next = self.next.saturating_add(1);
        Moment::new(second.copied().unwrap_or(0).min(LAST_SECOND)).unwrap()
    }
}

/// What a client sends and when each message has come, how its connection ends, and what is written to it.
pub struct Row {
    pieces: &'static [&'static [u8]],
    seconds: &'static [u64],
    fails: bool,
    ended: Result<Ended, WireFault>,
    written: &'static [&'static [u8]],
}

static FIRST_UPLOAD: [Row; 1] = [Row {
    pieces: &[POST, PATCH, HEAD],
    seconds: &[1000],
    fails: false,
    ended: Ok(Ended::Input),
    written: &[CREATED, PATCHED, LOOKED],
}];

// A read fails in the body of a PATCH, and the client looks on another connection what came of it.
static READ_FAULT: [Row; 2] = [
    Row {
        pieces: &[POST, CUT_PATCH],
        seconds: &[1000],
        fails: true,
        ended: Err(WireFault::Read),
        written: &[CREATED],
    },
    Row {
        pieces: &[HEAD],
        seconds: &[1000],
        fails: false,
        ended: Ok(Ended::Input),
        written: &[LOOKED_CUT],
    },
];

// An upload expires while its connection lasts. It is ended before the next request that is no HEAD, so its blocks are
// released.
static EXPIRED: [Row; 1] = [Row {
    pieces: &[POST, PATCH, DELETE],
    seconds: &[1000, 1000, 5000],
    fails: false,
    ended: Ok(Ended::Input),
    written: &[CREATED, PATCHED, GONE],
}];

/// Asserts that these texts were written, one after another, and nothing else.
pub fn assert_written(rt: &impl Abort, written: &[u8], texts: &[&[u8]]) {
    let mut rest = written;
    for text in texts {
        rest = rest.strip_prefix(*text).expect(rt, "the next reply");
    }
    assert!(rt; rest.is_empty());
}

/// Serves the connection of a row at a desk, and gives back the desk and the buffers.
pub fn serve_row<C: Charges, R: Ledger, M: Ledger, W: Wait + Abort>(
    rt: &W,
    alloc: Global,
    shared: &Shared<C, R, M, &W>,
    desk: Desk<C, R, M>,
    buffers: Buffers,
    row: &Row,
) -> (Desk<C, R, M>, Buffers)
    requires journal { C.journal ≡ None }
{
    let reader = Tapped::new(Input {
        pieces: row.pieces,
        next: 0,
        fails: row.fails,
    });
    let writer = Tapped::new(Output(Vec::new(alloc)));
    let mut clock = Seconds {
        told: row.seconds,
        next: 0,
    };
    let served = serve_stream(
        rt, buffers, reader, writer, desk, shared, &mut clock, &NoGate,
    );
    let ServedStream {
        ended,
        desk,
        reader: _,
        writer,
        buffers,
    } = served;
    assert!(rt; ended == row.ended);
    assert_written(rt, &writer.inner.0, row.written);
    (desk, buffers)
}

#[test]
fn the_first_upload(rt: HostRuntime) -> Result<(), Fail> {
    served(&rt, rt.alloc(), 1, &Scene::Rows(&FIRST_UPLOAD), [2, 0, 2])
}

#[test]
fn a_read_that_fails_in_a_body_keeps_what_came(rt: HostRuntime) -> Result<(), Fail> {
    served(&rt, rt.alloc(), 1, &Scene::Rows(&READ_FAULT), [1, 0, 1])
}

#[test]
fn an_upload_that_expires_while_a_connection_lasts(rt: HostRuntime) -> Result<(), Fail> {
    served(&rt, rt.alloc(), 1, &Scene::Rows(&EXPIRED), [2, 2, 0])
}

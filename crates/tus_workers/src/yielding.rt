//! The stream of a connection as its worker reads and writes it.

use std::cell::Cell;
use std::io;
use std::io::{ErrorKind, Read, Write};
use std::net::TcpStream;
use std::sync::atomic::{AtomicU64, Ordering};
use std::thread::yield_now;

/// How many connections may be open before their workers let others run first.
const MANY: u64 = 3;

/// How often a call is made again that a signal interrupted.
const SIGNALS_MAX: u32 = 1_000_000;

/// The stream of a connection. A call that a signal interrupted is made again. Where many connections are open, it lets other
/// threads run before the first byte of each message: when its turn comes back, the message is often there, and the thread
/// need not sleep.
#[derive(Drop)]
pub struct YieldingStream<'s, 'o> {
    stream: &'s TcpStream,
    // How many connections are open.
    open: &'o AtomicU64,
    // Whether the next byte is the first of a message, so far as is known: nothing was read yet, or a reply was written
    // since.
    between: Cell<bool>,
}

impl<'s, 'o> YieldingStream<'s, 'o> {
    /// A stream of which nothing was read.
    pub fn new(stream: &'s TcpStream, open: &'o AtomicU64) -> Self {
        YieldingStream {
            stream,
            open,
            between: Cell::new(true),
        }
    }
}

impl Read for &YieldingStream<'_, '_> {
    fn read(&mut self, buf: &mut [u8]) -> io::Result<usize> {
        if self.between.replace(false) && self.open.load(Ordering::Relaxed) > MANY {
            yield_now();
        }
        let mut stream = self.stream;
        for _ in 0..SIGNALS_MAX {
            match stream.read(buf) {
                Err(error) if error.kind() == ErrorKind::Interrupted => {}
                other => return other,
            }
        }
        Err(io::Error::from(ErrorKind::Interrupted))
    }
}

impl Write for &YieldingStream<'_, '_> {
    fn write(&mut self, buf: &[u8]) -> io::Result<usize> {
        self.between.set(true);
        let mut stream = self.stream;
        for _ in 0..SIGNALS_MAX {
            match stream.write(buf) {
                Err(error) if error.kind() == ErrorKind::Interrupted => {}
                other => return other,
            }
        }
        Err(io::Error::from(ErrorKind::Interrupted))
    }

    fn flush(&mut self) -> io::Result<()> {
        Ok(())
    }
}

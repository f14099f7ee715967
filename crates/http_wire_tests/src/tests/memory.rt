ghost use Rattle.std.specs.Prelude.{◌≤◌};

use std::alloc::Global;
use std::io;
use std::io::{ErrorKind, Read, Write};

/// A reader of some bytes: the first read gives at most `first` of them, each later one at most
/// `more`. The read after `reads` of them fails, and reads after that one would give bytes again.
#[derive(Drop)]
pub struct Input<'a> {
    pub rest: &'a [u8],
    pub first: usize,
    pub more: usize,
    pub reads: usize,
}

impl<'a> Input<'a> {
    /// A reader that gives at most `piece` bytes a read, and never fails.
    pub fn new(rest: &'a [u8], piece: usize) -> Self {
        Input {
            rest,
            first: piece,
            more: piece,
            reads: usize::MAX,
        }
    }
}

impl Read for Input<'_> {
    fn read(&mut self, buf: &mut [u8]) -> io::Result<usize> {
        if self.reads == 0 {
            self.reads = usize::MAX;
            return Err(io::Error::from(ErrorKind::Other));
        }
        self.reads -= 1;
        let most = self.first.min(buf.len());
        self.first = self.more;
        self.rest.read(&mut buf[..most])
    }
}

/// A writer that keeps what is written, at most `piece` bytes a write. The write after `writes` of them
/// fails, or takes no byte where not `fails`, and writes after that one would take bytes again.
#[derive(Drop)]
pub struct Output {
    pub written: Vec<u8>,
    pub piece: usize,
    pub writes: usize,
    pub fails: bool,
}

impl Output {
    /// A writer that takes all, and never fails.
    pub fn new(alloc: Global) -> Self {
        Output {
            written: Vec::new(alloc),
            piece: usize::MAX,
            writes: usize::MAX,
            fails: true,
        }
    }
}

impl Write for Output {
    fn write(&mut self, buf: &[u8]) -> io::Result<usize> {
        if self.writes == 0 {
            self.writes = usize::MAX;
            return if self.fails {
                Err(io::Error::from(ErrorKind::Other))
            } else {
                Ok(0)
            };
        }
        self.writes -= 1;
        let count = self.piece.min(buf.len());
        self.written.extend_from_slice(&buf[..count])?;
        Ok(count)
    }

    fn flush(&mut self) -> io::Result<()> {
        Ok(())
    }
}

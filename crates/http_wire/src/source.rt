ghost use Rattle.std.specs.Prelude.{◌≡◌, ℕ, List, Option, Bool, false, is_err};
ghost use Rattle.std.specs.Io.{ReadsAtMost, WritesAtMost};
ghost use Rattle.std.specs.Io.KnownBytes.{ReadConsumes, WriteAppends};
ghost use Rattle.http_wire.specs.Streams.{took_nothing};

use std::io;
use std::io::{Read, Write};

/// A reader that remembers whether a call of it failed.
pub trait Source {
    // The bytes that reads will give from here on, where they are known.
    ghost remaining: { Self → Option (List ℕ) };

    // Some call failed.
    ghost has_failed: { Self → Bool };

    /// Reads bytes into the start of `buf` and gives their number, 0 at the end of the input (or of
    /// no room). An error takes nothing, and `failed` is true from then on. After an error nothing is
    /// read.
    fn read(&mut self, buf: &mut [u8]) -> io::Result<usize>
        requires { has_failed self.old ≡ false }
        ensures bound { ReadsAtMost result buf.new }
        ensures bytes { ReadConsumes (remaining self.old) (remaining self.new) result buf.new }
        ensures failed { has_failed self.new ≡ is_err result };

    /// Whether a call failed.
    fn failed(&self) -> bool
        ensures { result ≡ has_failed self.now };
}

/// A writer that remembers whether a call of it failed.
pub trait Sink {
    // The bytes that were written, where they are known.
    ghost contents: { Self → Option (List ℕ) };

    // Some call failed.
    ghost has_failed: { Self → Bool };

    /// Writes bytes from the start of `bytes` and gives their number. An error writes nothing; after
    /// an error, or where none of some bytes were taken, `failed` is true, and nothing more is written.
    fn write(&mut self, bytes: &[u8]) -> io::Result<usize>
        requires { has_failed self.old ≡ false }
        ensures bound { WritesAtMost result bytes.now }
        ensures bytes { WriteAppends (contents self.old) (contents self.new) result bytes.now }
        ensures failed { has_failed self.new ≡ took_nothing result bytes.now };

    /// Whether a call failed.
    fn failed(&self) -> bool
        ensures { result ≡ has_failed self.now };
}

/// A reader or a writer of `std` that remembers whether a call of it failed: only such a call sets the mark. A call that
/// a signal interrupted is one that failed.
#[derive(Drop)]
pub struct Tapped<T> {
    pub inner: T,
    failed: bool,
}

impl<T> Tapped<T> {
    /// A reader or a writer none of whose calls failed yet.
    pub fn new(inner: T) -> Self
        ensures inner { result.inner ≡ inner }
        ensures failed { result.failed ≡ false }
    {
        Tapped {
            inner,
            failed: false,
        }
    }
}

impl<R: Read> Source for Tapped<R> {
    ghost remaining = { λ t. R.remaining t.inner };

    ghost has_failed = { λ t. t.failed };

    fn read(&mut self, buf: &mut [u8]) -> io::Result<usize> {
        let result = self.inner.read(buf);
        if result.is_err() {
            self.failed = true;
        }
        result
    }

    fn failed(&self) -> bool {
        self.failed
    }
}

impl<W: Write> Sink for Tapped<W> {
    ghost contents = { λ t. W.contents t.inner };

    ghost has_failed = { λ t. t.failed };

    fn write(&mut self, bytes: &[u8]) -> io::Result<usize> {
        let result = self.inner.write(bytes);
        match &result {
            Ok(0) => {
                if !bytes.is_empty() {
                    self.failed = true;
                }
            }
            Ok(_) => {}
            Err(_) => self.failed = true,
        }
        result
    }

    fn failed(&self) -> bool {
        self.failed
    }
}

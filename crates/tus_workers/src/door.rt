//! Where a worker takes in clients, beside those that it holds.
ghost use Rattle.std.specs.Prelude.{◌≡◌, ◌+◌, ◌<◌, ◌^◌, false, nat_eq};

use crate::accept::Accept;
use mio::net::TcpStream;
use mio::{Events, Poll, Registry, Token};
use std::io;
use std::io::ErrorKind;
use std::time::Duration;

/// The token of the listener. No client has it, since there are fewer keys.
pub(crate) const LISTENER: Token = Token(usize::MAX);

/// Where a worker is told of connections, together with its clients. Several workers each have one at the same socket: then
/// each takes one connection when it is told of some, and asks to be told again, so that the others get theirs.
#[derive(Drop)]
pub(crate) struct Door {
    poll: Poll,
    // How many connections are still to be accepted.
    left: u64,
    // A connection may wait.
    has_rung: bool,
    // It was said that none could be accepted.
    has_complained: bool,
}

/// What came of an accept.
pub(crate) enum Entry {
    /// This one came in.
    Came(TcpStream),
    /// None came.
    Nobody,
    /// None could be accepted, which is to be said. It is so once.
    Refused,
}

impl Door {
    /// A door for so many connections.
    pub fn new(poll: Poll, connections: u64) -> Self
        ensures { result.left ≡ connections }
    {
        Door {
            poll,
            left: connections,
            has_rung: true,
            has_complained: false,
        }
    }

    /// Has it told of connections from now on that this acceptor would give. The error is the system's.
    pub fn open<A: Accept>(&self, acceptor: &mut A) -> io::Result<()>
        ensures counts { A.accepted acceptor.new ≡ A.accepted acceptor.old }
        ensures failed { A.has_failed acceptor.new ≡ A.has_failed acceptor.old }
        ensures stopped { A.is_stopped acceptor.new ≡ A.is_stopped acceptor.old }
    {
        acceptor.listen_with(self.poll.registry(), LISTENER)
    }

    /// Whether all of its connections were accepted.
    pub fn is_done(&self) -> bool
        ensures { result ≡ nat_eq self.now.left 0 }
    {
        self.left == 0
    }

    /// Where the streams of clients are registered.
    pub fn registry(&self) -> &Registry {
        self.poll.registry()
    }

    /// Waits until a client or the listener is ready, another worker wakes this one, or for so long. The error is the
    /// system's.
    pub fn wait(&mut self, events: &mut Events, most: Duration) -> io::Result<()>
        ensures { self.new.left ≡ self.old.left }
    {
        self.poll.poll(events, Some(most))
    }

    /// Tells that a connection may wait. So it is also tried again where an accept had failed.
    pub fn ring(&mut self)
        ensures { self.new.left ≡ self.old.left }
    {
        self.has_rung = true;
    }

    /// Whether a connection may wait that is to be accepted.
    pub fn has_rung(&self) -> bool {
        self.has_rung && self.left > 0
    }

    /// Accepts one connection, if one may wait. A signal, or a client that is gone again, ends nothing.
    pub fn accept<A: Accept>(&mut self, acceptor: &mut A) -> Entry
        requires within { A.accepted acceptor.old + self.old.left < 2 ^ 64 }
        requires unstopped { A.is_stopped acceptor.old ≡ false }
        ensures counts { A.accepted acceptor.new + self.new.left ≡ A.accepted acceptor.old + self.old.left }
        ensures failed { A.has_failed acceptor.new ≡ A.has_failed acceptor.old }
        ensures stopped { A.is_stopped acceptor.new ≡ A.is_stopped acceptor.old }
    {
        if !self.has_rung || self.left == 0 {
            return Entry::Nobody;
        }
        self.has_rung = false;
        match acceptor.accept_waiting() {
            Ok(Some(stream)) => {
                self.left -= 1;
                self.listen_again(acceptor);
                Entry::Came(stream)
            }
            Ok(None) => Entry::Nobody,
            Err(error) => self.pass_over(error.kind(), acceptor),
        }
    }

    // An accept failed so.
    fn pass_over<A: Accept>(&mut self, kind: ErrorKind, acceptor: &mut A) -> Entry
        ensures left { self.new.left ≡ self.old.left }
        ensures counts { A.accepted acceptor.new ≡ A.accepted acceptor.old }
        ensures failed { A.has_failed acceptor.new ≡ A.has_failed acceptor.old }
        ensures stopped { A.is_stopped acceptor.new ≡ A.is_stopped acceptor.old }
    {
        if kind == ErrorKind::Interrupted || kind == ErrorKind::ConnectionAborted {
            self.listen_again(acceptor);
            return Entry::Nobody;
        }
        if self.has_complained {
            return Entry::Nobody;
        }
        self.has_complained = true;
        Entry::Refused
    }

    // Has it told of again, if a connection waits there.
    fn listen_again<A: Accept>(&mut self, acceptor: &mut A)
        ensures left { self.new.left ≡ self.old.left }
        ensures counts { A.accepted acceptor.new ≡ A.accepted acceptor.old }
        ensures failed { A.has_failed acceptor.new ≡ A.has_failed acceptor.old }
        ensures stopped { A.is_stopped acceptor.new ≡ A.is_stopped acceptor.old }
    {
        if acceptor
            .listen_again(self.poll.registry(), LISTENER)
            .is_err()
        {
            self.has_rung = true;
        }
    }
}

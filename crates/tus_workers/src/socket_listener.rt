ghost use Rattle.std.specs.Prelude.{◌≡◌, ℕ, ◌+◌, IfOk, OnErr, is_some, if◌then◌else◌};

use crate::accept::{Accept, Listener};
use mio::{Interest, Registry, Token, net as ready};
use std::io;
use std::io::ErrorKind;
use std::net::{Net, SocketAddr, TcpListener, TcpStream};

/// How many clients that are gone before they were accepted are passed over in one accept.
const GONE_MAX: u32 = 1_000_000;

/// A listener at a socket of this machine.
#[derive(Drop)]
pub struct SocketListener {
    listener: TcpListener,
    asked: SocketAddr,
    place: SocketAddr,
}

/// What one worker accepts connections from at a [`SocketListener`].
#[derive(Drop)]
pub struct SocketAcceptor {
    // None once it was stopped.
    listener: Option<TcpListener>,
    // The same where it is told of, and waits for nobody.
    watched: Option<ready::TcpListener>,
    accepted: u64,
    failed: bool,
    stopped: bool,
}

impl Listener for SocketListener {
    type Acceptor = SocketAcceptor;

    ghost asked = { λ l. l.asked };

    ghost place = { λ l. l.place };

    fn listen<N: Net<Stream = TcpStream, Listener = TcpListener>>(
        net: &N,
        wanted: SocketAddr,
    ) -> io::Result<Self> {
        let listener = TcpListener::bind(net, wanted)?;
        let place = listener.local_addr()?;
        Ok(SocketListener {
            listener,
            asked: wanted,
            place,
        })
    }

    fn place(&self) -> SocketAddr {
        self.place
    }

    fn acceptor(&self) -> io::Result<SocketAcceptor> {
        Ok(SocketAcceptor {
            listener: Some(self.listener.try_clone()?),
            watched: None,
            accepted: 0,
            failed: false,
            stopped: false,
        })
    }
}

impl Accept for SocketAcceptor {
    ghost accepted = { λ a. a.accepted };

    ghost has_failed = { λ a. a.failed };

    ghost is_stopped = { λ a. a.stopped };

    fn accept(&mut self) -> io::Result<TcpStream> {
        match next_client(&self.listener) {
            Ok(stream) => {
                self.accepted += 1;
                Ok(stream)
            }
            Err(error) => {
                self.failed = true;
                Err(error)
            }
        }
    }

    fn failed(&self) -> bool {
        self.failed
    }

    fn listen_with(&mut self, registry: &Registry, token: Token) -> io::Result<()> {
        let Some(listener) = &self.listener else {
            return Err(io::Error::from(ErrorKind::NotConnected));
        };
        let listener = listener.try_clone()?;
        listener.set_nonblocking(true)?;
        let mut watched = ready::TcpListener::from_std(listener);
        registry.register(&mut watched, token, Interest::READABLE)?;
        self.watched = Some(watched);
        Ok(())
    }

    fn listen_again(&mut self, registry: &Registry, token: Token) -> io::Result<()> {
        match &mut self.watched {
            Some(watched) => registry.reregister(watched, token, Interest::READABLE),
            None => Ok(()),
        }
    }

    fn accept_waiting(&mut self) -> io::Result<Option<ready::TcpStream>> {
        let came = client_waiting(&self.watched)?;
        if came.is_some() {
            self.accepted += 1;
        }
        Ok(came)
    }

    fn give_up(&mut self) {
        self.failed = true;
    }

    fn stop(&mut self) {
        self.listener = None;
        self.watched = None;
        self.stopped = true;
    }
}

// Waits for the next client that is still there.
fn next_client(listener: &Option<TcpListener>) -> io::Result<TcpStream> {
    let Some(listener) = listener else {
        return Err(io::Error::from(ErrorKind::NotConnected));
    };
    for _ in 0..GONE_MAX {
        match listener.accept() {
            Ok((stream, _)) => return Ok(stream),
            Err(error) if error.kind() == ErrorKind::ConnectionAborted => {}
            Err(error) => return Err(error),
        }
    }
    Err(io::Error::from(ErrorKind::ConnectionAborted))
}

// The next client at a listener that waits for nobody, if one is there.
fn client_waiting(listener: &Option<ready::TcpListener>) -> io::Result<Option<ready::TcpStream>> {
    let Some(listener) = listener else {
        return Ok(None);
    };
    match listener.accept() {
        Ok((stream, _)) => Ok(Some(stream)),
        Err(error) if error.kind() == ErrorKind::WouldBlock => Ok(None),
        Err(error) => Err(error),
    }
}

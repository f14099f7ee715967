//! A listener whose acceptors fail.

ghost use Rattle.std.specs.Prelude.{◌≡◌};

use mio::{Registry, Token, net as ready};
use std::io;
use std::io::ErrorKind;
use std::net::{Net, SocketAddr, TcpListener, TcpStream};
use tus_workers::{Accept, Listener};

/// A listener of which each acceptor gives one connection and then fails. None is told of connections.
#[derive(Drop)]
pub struct Script<L> {
    listener: L,
}

#[derive(Drop)]
pub struct ScriptedAcceptor<A> {
    acceptor: A,
    has_given: bool,
}

impl<L: Listener> Listener for Script<L> {
    type Acceptor = ScriptedAcceptor<L::Acceptor>;

    ghost asked = { λ s. L.asked s.listener };

    ghost place = { λ s. L.place s.listener };

    fn listen<N: Net<Stream = TcpStream, Listener = TcpListener>>(
        net: &N,
        wanted: SocketAddr,
    ) -> io::Result<Self> {
        let listener = L::listen(net, wanted)?;
        Ok(Script { listener })
    }

    fn place(&self) -> SocketAddr {
        self.listener.place()
    }

    fn acceptor(&self) -> io::Result<ScriptedAcceptor<L::Acceptor>> {
        let acceptor = self.listener.acceptor()?;
        Ok(ScriptedAcceptor {
            acceptor,
            has_given: false,
        })
    }
}

impl<A: Accept> Accept for ScriptedAcceptor<A> {
    ghost accepted = { λ a. A.accepted a.acceptor };

    ghost has_failed = { λ a. A.has_failed a.acceptor };

    ghost is_stopped = { λ a. A.is_stopped a.acceptor };

    fn accept(&mut self) -> io::Result<TcpStream> {
        if self.has_given {
            self.acceptor.give_up();
            return Err(io::Error::from(ErrorKind::Other));
        }
        self.has_given = true;
        self.acceptor.accept()
    }

    fn failed(&self) -> bool {
        self.acceptor.failed()
    }

    fn listen_with(&mut self, _registry: &Registry, _token: Token) -> io::Result<()> {
        Err(io::Error::from(ErrorKind::Other))
    }

    fn listen_again(&mut self, _registry: &Registry, _token: Token) -> io::Result<()> {
        Err(io::Error::from(ErrorKind::Other))
    }

    fn accept_waiting(&mut self) -> io::Result<Option<ready::TcpStream>> {
        Err(io::Error::from(ErrorKind::Other))
    }

    fn give_up(&mut self) {
        self.acceptor.give_up();
    }

    fn stop(&mut self) {
        self.acceptor.stop();
    }
}

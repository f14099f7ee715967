ghost use Rattle.std.specs.Prelude.{◌≡◌, ℕ, ◌+◌, ◌^◌, ◌-◌, ◌<◌, Bool, false, true, IfOk, OnErr, OnOk, is_err, is_some, if◌then◌else◌};
ghost use Rattle.std.specs.declared.net.socket_addr.SocketAddr.{SocketAddr};

use mio::{Registry, Token, net as ready};
use std::io;
use std::net::{Net, SocketAddr, TcpListener, TcpStream};

/// What one worker accepts its connections from: one after another, each of which it waits for, or, after
/// [`Accept::listen_with`], as they come. It remembers whether an accept failed for good, and whether it was stopped.
pub trait Accept {
    // How many connections it gave.
    ghost accepted: { Self → ℕ };

    // Some accept failed for good.
    ghost has_failed: { Self → Bool };

    // It was stopped.
    ghost is_stopped: { Self → Bool };

    /// Waits for the next connection. An error gives none, and `failed` is true from then on. After an error, or once it was
    /// stopped, nothing is accepted.
    fn accept(&mut self) -> io::Result<TcpStream>
        requires alive { has_failed self.old ≡ false }
        requires unstopped { is_stopped self.old ≡ false }
        requires room { accepted self.old < 2 ^ 64 - 1 }
        ensures failed { has_failed self.new ≡ is_err result }
        ensures stopped { is_stopped self.new ≡ is_stopped self.old }
        ensures given { OnOk result (accepted self.new ≡ accepted self.old + 1) }
        ensures refused { OnErr result (accepted self.new ≡ accepted self.old) };

    /// Whether an accept failed for good.
    fn failed(&self) -> bool
        ensures { result ≡ has_failed self.now };

    /// Has the registry tell, under this token, of connections that wait. The error is the system's.
    fn listen_with(&mut self, registry: &Registry, token: Token) -> io::Result<()>
        ensures failed { has_failed self.new ≡ has_failed self.old }
        ensures stopped { is_stopped self.new ≡ is_stopped self.old }
        ensures given { accepted self.new ≡ accepted self.old };

    /// Has it told of once more, if a connection waits by now. The error is the system's.
    fn listen_again(&mut self, registry: &Registry, token: Token) -> io::Result<()>
        ensures failed { has_failed self.new ≡ has_failed self.old }
        ensures stopped { is_stopped self.new ≡ is_stopped self.old }
        ensures given { accepted self.new ≡ accepted self.old };

    /// The next connection, if one waits. An error gives none, and may pass. Once it was stopped, nothing is accepted.
    fn accept_waiting(&mut self) -> io::Result<Option<ready::TcpStream>>
        requires unstopped { is_stopped self.old ≡ false }
        requires room { accepted self.old < 2 ^ 64 - 1 }
        ensures failed { has_failed self.new ≡ has_failed self.old }
        ensures stopped { is_stopped self.new ≡ is_stopped self.old }
        ensures given { IfOk result (λ came. accepted self.new
            ≡ accepted self.old + (if is_some came then 1 else 0)) }
        ensures refused { OnErr result (accepted self.new ≡ accepted self.old) };

    /// Accepts nothing more, as after an accept that failed.
    fn give_up(&mut self)
        ensures failed { has_failed self.new ≡ true }
        ensures stopped { is_stopped self.new ≡ is_stopped self.old }
        ensures given { accepted self.new ≡ accepted self.old };

    /// Lets its socket go, since a stop was asked for: nothing is accepted from then on.
    fn stop(&mut self)
        ensures stopped { is_stopped self.new ≡ true }
        ensures failed { has_failed self.new ≡ has_failed self.old }
        ensures given { accepted self.new ≡ accepted self.old };
}

/// Where a server listens. Each worker has an acceptor of it.
pub trait Listener {
    type Acceptor: Accept;

    // The address and the port that it was asked for.
    ghost asked: { Self → SocketAddr };

    // The address and the port at which it listens.
    ghost place: { Self → SocketAddr };

    /// Listens at this address of the machine and this port; port 0 is any that is free. An error says that they could not
    /// be had.
    fn listen<N: Net<Stream = TcpStream, Listener = TcpListener>>(
        net: &N,
        wanted: SocketAddr,
    ) -> io::Result<Self>
    where
        Self: Sized,
        ensures { IfOk result (λ listener. asked listener ≡ wanted) };

    /// The address and the port at which it listens.
    fn place(&self) -> SocketAddr
        ensures { result ≡ place self.now };

    /// One more acceptor, which has accepted nothing. An error says that it could not be had.
    fn acceptor(&self) -> io::Result<Self::Acceptor>
        ensures alive { IfOk result (λ acceptor. Self.Acceptor.has_failed acceptor ≡ false) }
        ensures unstopped { IfOk result (λ acceptor. Self.Acceptor.is_stopped acceptor ≡ false) }
        ensures new { IfOk result (λ acceptor. Self.Acceptor.accepted acceptor ≡ 0) };
}

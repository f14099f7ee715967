//! Where numbers are asked for: a second listener, which answers `GET /metrics`, `GET /health`, and, from this machine,
//! `POST /stop`.

use crate::question::{Question, question_in};
use mio::net::{TcpListener, TcpStream};
use mio::{Events, Interest, Registry, Token};
use slab::Slab;
use std::alloc::{AllocError, Global};
use std::io::{ErrorKind, Read, Write};
use std::net::SocketAddr;
use std::{io, net};

/// The token of the listener. No client has it, since there are fewer keys.
const DOOR: usize = usize::MAX - 2;

/// The most connections that are held, and the most questions that wait for their replies. The token of each is below that of
/// the listener by its key and one more.
pub const ASKERS_MAX: usize = 16;

/// The most bytes of a request that are read.
const REQUEST_MAX: usize = 8_192;

/// For how many seconds a connection is held.
const SECONDS_MAX: u64 = 5;

/// How many bytes are read at once, and how often in one turn.
const READ_SIZE: usize = 1_024;

const READS_MAX: usize = 16;

/// A question of one connection.
#[derive(Clone, Copy)]
pub struct Asked {
    /// The connection, to which [`MetricsDoor::reply`] sends the reply: less than [`ASKERS_MAX`].
    pub key: usize,
    /// What it asks for.
    pub question: Question,
}

/// A connection of somebody who asks.
#[derive(Drop)]
struct Asker {
    stream: TcpStream,
    // It is on this machine.
    is_near: bool,
    // What came of the request.
    request: Vec<u8>,
    // The question that came and is not answered yet, and whether one came at all.
    question: Option<Question>,
    has_asked: bool,
    // What is to be sent, and how much of it was.
    reply: Vec<u8>,
    sent: usize,
    // When the connection came.
    since: u64,
}

/// A listener at which numbers are asked for, beside the clients of a worker, and who asks. Events tell of it and of these by the
/// tokens from `usize::MAX - 18` to `usize::MAX - 2`, which nobody else may have at its registry.
#[derive(Drop)]
pub struct MetricsDoor {
    listener: TcpListener,
    askers: Slab<Asker>,
    // An accept failed in this second. It is tried again in the next one, since the listener would be told of at once.
    failed: Option<u64>,
}

impl MetricsDoor {
    /// A door at this listener, of which the registry tells. The error is the system's, or that memory is lacking.
    pub fn open(
        alloc: Global,
        listener: net::TcpListener,
        registry: &Registry,
    ) -> io::Result<MetricsDoor> {
        listener.set_nonblocking(true)?;
        let mut listener = TcpListener::from_std(listener);
        registry.register(&mut listener, Token(DOOR), Interest::READABLE)?;
        let askers = Slab::with_capacity(alloc, ASKERS_MAX)?;
        Ok(MetricsDoor {
            listener,
            askers,
            failed: None,
        })
    }

    /// Takes in who comes, reads and sends what can be, and lets go who stays longer than 5 seconds at this second. The registry is
    /// that at which it was opened, and the events are those that it told of.
    pub fn serve(&mut self, alloc: Global, registry: &Registry, events: &Events, second: u64) {
        for event in events.iter() {
            let token = event.token().0;
            if token == DOOR {
                self.take_in(alloc, registry, second);
            } else if token < DOOR && DOOR - token <= ASKERS_MAX {
                self.turn(DOOR - token - 1);
            }
        }
        self.recover(registry, second);
        self.let_go(second);
    }

    /// The next question that came and is not answered yet. It is given once.
    pub fn next_question(&mut self) -> Option<Asked> {
        for key in 0..ASKERS_MAX {
            if let Some(asker) = self.askers.get_mut(key)
                && let Some(question) = asker.question.take()
            {
                return Some(Asked { key, question });
            }
        }
        None
    }

    /// Sends this reply to who asked by the connection with this key, as far as that goes without waiting; the rest is sent as
    /// events tell of room. Where there is none, since memory was lacking, the connection ends. A key that no connection has any
    /// more changes nothing.
    pub fn reply(&mut self, key: usize, reply: Option<Vec<u8>>) {
        let Some(reply) = reply else {
            let _ = self.askers.try_remove(key);
            return;
        };
        if let Some(asker) = self.askers.get_mut(key) {
            asker.reply = reply;
        }
        self.turn(key);
    }

    /// Whether a reply is still to be sent.
    pub fn owes(&self) -> bool {
        (0..ASKERS_MAX).any(|key| match self.askers.get(key) {
            Some(asker) => asker.has_asked,
            None => false,
        })
    }

    // Takes in one connection, if one waits. One that finds no place is let go.
    fn take_in(&mut self, alloc: Global, registry: &Registry, second: u64) {
        match self.listener.accept() {
            Ok((stream, peer)) if self.askers.len() < ASKERS_MAX => {
                let is_near = is_near(&stream, &peer);
                self.admit(alloc, registry, stream, is_near, second);
            }
            Err(error) if error.kind() != ErrorKind::WouldBlock => {
                self.failed = Some(second);
                return;
            }
            _ => {}
        }
        self.listen_again(registry);
    }

    // Has it told of once more, if a connection waits by now.
    fn listen_again(&mut self, registry: &Registry) {
        let _ = registry.reregister(&mut self.listener, Token(DOOR), Interest::READABLE);
    }

    // Listens again, where an accept failed in an earlier second.
    fn recover(&mut self, registry: &Registry, second: u64) {
        if self.failed.is_some_and(|failed| failed != second) {
            self.failed = None;
            self.listen_again(registry);
        }
    }

    fn admit(
        &mut self,
        alloc: Global,
        registry: &Registry,
        stream: TcpStream,
        is_near: bool,
        second: u64,
    ) {
        let asker = Asker {
            stream,
            is_near,
            request: Vec::new(alloc),
            question: None,
            has_asked: false,
            reply: Vec::new(alloc),
            sent: 0,
            since: second,
        };
        let Ok(key) = self.askers.insert(asker) else {
            return;
        };
        let both = Interest::READABLE | Interest::WRITABLE;
        let is_told = match self.askers.get_mut(key) {
            Some(asker) if key < ASKERS_MAX => {
                registry
                    .register(&mut asker.stream, Token(DOOR - 1 - key), both)
                    .is_ok()
            }
            _ => false,
        };
        if !is_told {
            let _ = self.askers.try_remove(key);
        }
    }

    // Reads and sends what can be on this connection. It ends once its reply was sent, or where it failed.
    fn turn(&mut self, key: usize) {
        let Some(asker) = self.askers.get_mut(key) else {
            return;
        };
        if !asker.go_on() {
            let _ = self.askers.try_remove(key);
        }
    }

    // Lets go who has stayed too long at this second.
    fn let_go(&mut self, second: u64) {
        for key in 0..ASKERS_MAX {
            let is_late = match self.askers.get(key) {
                Some(asker) => second.saturating_sub(asker.since) > SECONDS_MAX,
                None => false,
            };
            if is_late {
                let _ = self.askers.try_remove(key);
            }
        }
    }
}

impl Asker {
    // Reads and sends what can be. It is false where the connection is over.
    fn go_on(&mut self) -> bool {
        self.read() && self.send()
    }

    // Reads what came, until it is known what it asks for. What comes after that is dropped. It is false where the input ended
    // before, or the request is too long.
    fn read(&mut self) -> bool {
        let mut bytes = [0; READ_SIZE];
        for _ in 0..READS_MAX {
            match self.stream.read(&mut bytes) {
                Ok(0) => return self.has_asked,
                Ok(count) => {
                    if !self.take(&bytes, count) {
                        return false;
                    }
                }
                Err(error) => return error.kind() == ErrorKind::WouldBlock,
            }
        }
        true
    }

    // Takes so many bytes that came. It is false where the request is too long, or memory is lacking.
    fn take(&mut self, bytes: &[u8], count: usize) -> bool {
        if self.has_asked {
            return true;
        }
        let came = bytes.get(..count).unwrap_or(b"");
        if self.request.len().saturating_add(came.len()) > REQUEST_MAX
            || self.request.extend_from_slice(came).is_err()
        {
            return false;
        }
        self.question = question_in(&self.request, self.is_near);
        self.has_asked = self.question.is_some();
        true
    }

    // Sends what can be of the reply. It is false once all of it was sent, or where that failed.
    fn send(&mut self) -> bool {
        for _ in 0..READS_MAX {
            let rest = self.reply.get(self.sent..).unwrap_or(b"");
            if rest.is_empty() {
                return self.reply.is_empty();
            }
            match self.stream.write(rest) {
                Ok(count) if count > 0 => self.sent = self.sent.saturating_add(count),
                Ok(_) => return false,
                Err(error) => return error.kind() == ErrorKind::WouldBlock,
            }
        }
        true
    }
}

// Whether who asks is on this machine: at a loopback address, or at the one that was asked.
fn is_near(stream: &TcpStream, peer: &SocketAddr) -> bool {
    let peer = peer.ip().to_canonical();
    match stream.local_addr() {
        Ok(own) if own.ip().to_canonical() == peer => true,
        _ => peer.is_loopback(),
    }
}

/// A reply with this status (its number and its reason), these lines of fields, each with CRLF at its end, and this text, after
/// which the connection ends. The error is that memory is lacking.
pub fn reply_with(
    alloc: Global,
    status: &[u8],
    fields: &[u8],
    text: &[u8],
) -> Result<Vec<u8>, AllocError> {
    let mut reply = Vec::new(alloc);
    let length = text.len().to_string(alloc)?;
    reply.extend_from_slice(b"HTTP/1.1 ")?;
    reply.extend_from_slice(status)?;
    reply.extend_from_slice(b"\r\n")?;
    reply.extend_from_slice(fields)?;
    reply.extend_from_slice(
        b"Content-Type: text/plain; version=0.0.4; charset=utf-8\r\nConnection: close\r\nContent-Length: ",
    )?;
    reply.extend_from_slice(length.as_bytes())?;
    reply.extend_from_slice(b"\r\n\r\n")?;
    reply.extend_from_slice(text)?;
    Ok(reply)
}

//! Many clients at one worker, each on a connection of this machine.

use crate::tests::serving::{Scene, served};
use crate::tests::texts::MISSED;
use std::alloc::{AllocError, Global};
use std::io;
use std::io::{Read, Write};
use std::net::{Net, Shutdown, TcpStream};
use std::process::Abort;
use std::test::Fail;
use std::time::Duration;
use worked_example::HEAD;

/// What clients there are, and how many of them may be served at once.
#[derive(Clone, Copy)]
pub struct Connections {
    pub clients: u64,
    /// How many HEADs each sends.
    pub heads: usize,
    /// In pieces of how many bytes every second one sends them, and the others.
    pieces: [usize; 2],
    pub at_once: usize,
}

// So many times these bytes.
fn repeated(alloc: Global, bytes: &[u8], times: usize) -> Result<Vec<u8>, AllocError> {
    let mut all = Vec::new(alloc);
    for _ in 0..times {
        all.extend_from_slice(bytes)?;
    }
    Ok(all)
}

// A client at this port that has sent these bytes in pieces of so many, and says that nothing follows.
fn client<N: Net<Stream = TcpStream>>(
    net: &N,
    port: u16,
    sent: &[u8],
    piece: usize,
) -> io::Result<TcpStream> {
    let stream = TcpStream::connect(net, ("127.0.0.1", port))?;
    stream.set_nodelay(true)?;
    stream.set_read_timeout(Some(Duration::from_secs(30)))?;
    let mut writer = &stream;
    for part in sent.chunks(piece.max(1)) {
        writer.write_all(part)?;
    }
    stream.shutdown(Shutdown::Write)?;
    Ok(stream)
}

/// The clients, which have sent their HEADs to this port.
pub fn connected<N: Net<Stream = TcpStream>>(
    net: &N,
    alloc: Global,
    port: u16,
    connections: Connections,
) -> Result<Vec<TcpStream>, Fail> {
    let sent = repeated(alloc, HEAD, connections.heads)?;
    let [even, odd] = connections.pieces;
    let mut clients = Vec::new(alloc);
    for number in 0..connections.clients {
        let piece = if number % 2 == 0 { even } else { odd };
        clients.push(client(net, port, &sent, piece)?)?;
    }
    Ok(clients)
}

/// Each client was answered so many HEADs, and no more.
pub fn assert_answered(
    rt: &impl Abort,
    alloc: Global,
    clients: &[TcpStream],
    heads: usize,
) -> Result<(), Fail> {
    let expected = repeated(alloc, MISSED, heads)?;
    for client in clients {
        let mut text = Vec::new(alloc);
        let mut reader = client;
        let _ = reader.read_to_end(&mut text)?;
        assert!(rt; text.as_slice() == expected.as_slice());
    }
    Ok(())
}

/// Every second one sends a byte at a time.
const FIFTY: Connections = Connections {
    clients: 50,
    heads: 1,
    pieces: [1, usize::MAX],
    at_once: 64,
};

#[test]
fn fifty_clients_at_once(rt: HostRuntime) -> Result<(), Fail> {
    served(&rt, rt.alloc(), 1, &Scene::AtOnce(FIFTY), [0, 0, 0])
}

/// The others wait until a place is free.
#[test]
fn more_clients_than_places(rt: HostRuntime) -> Result<(), Fail> {
    let connections = Connections {
        at_once: 3,
        ..FIFTY
    };
    served(&rt, rt.alloc(), 1, &Scene::AtOnce(connections), [0, 0, 0])
}

/// More messages than a turn answers come in one write, and no byte after them: no event tells of those that are left.
#[test]
fn bursts(rt: HostRuntime) -> Result<(), Fail> {
    let connections = Connections {
        clients: 2,
        heads: 833,
        pieces: [usize::MAX, 1000],
        at_once: 2,
    };
    served(&rt, rt.alloc(), 1, &Scene::AtOnce(connections), [0, 0, 0])
}

//! Workers at desks, and clients on connections of this machine.

use crate::tests::opening::moment;
use crate::tests::serving::{Scene, served};
use crate::tests::streams::assert_written;
use std::alloc::Global;
use std::io;
use std::io::{Read, Write};
use std::net::{Net, Shutdown, TcpStream};
use std::process::Abort;
use std::test::Fail;
use std::time::Duration;
use upload_book::{Book, ByteSpan, Name};

/// A client at this port that has sent these messages, and says that nothing follows.
pub fn client<N: Net<Stream = TcpStream>>(
    net: &N,
    port: u16,
    messages: &[&[u8]],
) -> io::Result<TcpStream> {
    let stream = TcpStream::connect(net, ("127.0.0.1", port))?;
    stream.set_read_timeout(Some(Duration::from_secs(30)))?;
    let mut writer = &stream;
    for message in messages {
        writer.write_all(message)?;
    }
    stream.shutdown(Shutdown::Write)?;
    Ok(stream)
}

/// Asserts that a client gets these replies, and nothing else.
pub fn assert_replies(rt: &impl Abort, alloc: Global, stream: &TcpStream, replies: &[&[u8]]) {
    let mut text = Vec::new(alloc);
    let mut reader = stream;
    let _ = reader.read_to_end(&mut text).expect(rt, "the replies");
    assert_written(rt, &text, replies);
}

/// The first upload of beta is complete.
pub fn assert_content(rt: &impl Abort, book: &Book) {
    let name = Name { tenant: 1, id: 1 };
    let content = book
        .content(
            &name,
            moment(rt),
            ByteSpan::front(u64::MAX),
            book.none_begun(),
        )
        .expect(rt, "a content");
    assert!(rt; content.as_slice() == b"abcd".as_slice());
}

#[test]
fn two_workers_serve_two_clients(rt: HostRuntime) -> Result<(), Fail> {
    served(&rt, rt.alloc(), 2, &Scene::Both, [3, 0, 3])
}

// What a worker served before an accept failed is settled.
#[test]
fn a_worker_ends_where_an_accept_fails(rt: HostRuntime) -> Result<(), Fail> {
    served(&rt, rt.alloc(), 2, &Scene::BothUntilAFault, [3, 0, 3])
}

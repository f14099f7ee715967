ghost use Rattle.std.specs.Prelude.{◌≡◌, ◌≢◌, [], false, true, IfOk};
ghost use Rattle.http_wire.specs.inside.Sending.{empty_write_buffer};

use crate::read::fields::FieldMap;
use crate::read::head::FIELD_LIMIT;
use crate::read::read_buffer::ReadBuffer;
use crate::write::write_buffer::WriteBuffer;
use httparse::spans::{EMPTY_HEADER_SPAN, HeaderSpan};
use std::alloc::{AllocError, Global};
use tus_steps::PlacedReply;

/// The memory that the messages of a connection share: what was read ahead, where the fields of the head
/// that was read last stand, in their order and by their names, a reply in its place, and what is to be sent of it. After a connection they serve another
/// ([`Connection::with_buffers`](crate::Connection::with_buffers), [`Wire::with_buffers`](crate::Wire::with_buffers)).
#[derive(Drop)]
pub struct Buffers {
    pub(crate) read_buffer: ReadBuffer,
    pub(crate) spans: Box<[HeaderSpan; FIELD_LIMIT]>,
    pub(crate) fields: FieldMap,
    pub(crate) reply: Box<PlacedReply>,
    pub(crate) write_buffer: WriteBuffer,
    // Whether the last message was refused: what followed its head was not read.
    pub(crate) is_refused: bool,
}

impl Buffers {
    /// Buffers that hold nothing, with memory for 65,536 bytes of messages. The error is that memory is lacking.
    pub fn new(alloc: Global) -> Result<Self, AllocError>
        ensures held { IfOk result (λ b. b.read_buffer.held ≡ []) }
        ensures ended { IfOk result (λ b. b.read_buffer.ended ≡ false) }
        ensures write_buffer { IfOk result (λ b. b.write_buffer ≡ empty_write_buffer) }
        ensures room { IfOk result (λ b. b.read_buffer.room ≡ 65536) }
    {
        let read_buffer = ReadBuffer::new(alloc)?;
        let write_buffer = WriteBuffer::new(alloc)?;
        Ok(Buffers {
            read_buffer,
            spans: Box::new(alloc, [EMPTY_HEADER_SPAN; FIELD_LIMIT])?,
            fields: FieldMap::new(alloc)?,
            reply: Box::new(alloc, PlacedReply::new())?,
            write_buffer,
            is_refused: false,
        })
    }

    /// Begins anew, for another connection: nothing is held, lent or pending. The memory stays.
    pub(crate) fn renew(&mut self)
        ensures read_buffer { self.new.read_buffer ≡ record self.old.read_buffer { lent = []; held = []; ended = false } }
        ensures write_buffer { self.new.write_buffer ≡ empty_write_buffer }
    {
        self.read_buffer.renew();
        self.write_buffer.clear();
        self.is_refused = false;
    }

    /// For how many bytes of messages they have memory: 65,536 at first, and more after a large body.
    pub fn room(&self) -> usize
        ensures { result ≡ self.now.read_buffer.room }
    {
        self.read_buffer.room()
    }

    /// Whether the client may have sent bytes that belong to no message which was answered: the last message was refused,
    /// and its rest not read, or bytes of a next one are held.
    pub fn has_rest(&self) -> bool
        ensures held { self.now.read_buffer.held ≢ [] → result ≡ true }
    {
        self.is_refused || !self.read_buffer.held().is_empty()
    }
}

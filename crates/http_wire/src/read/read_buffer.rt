ghost use Rattle.std.specs.Prelude.{◌≡◌, ◌⊎◌, ◌↔◌, ◌+◌, ◌^◌, ◌<◌, ◌≤◌, ◌++◌, [], true, false, length, take, drop, IfOk, OnOk, OnErr, IfErr, is_err, slice_range, vec_len, vec_capacity};
ghost use Rattle.std.specs.Int.{IsNextPowerOfTwo};
ghost use Rattle.std.specs.Io.KnownBytes.{Consumes, Keeps, IsAtEnd};
ghost use Rattle.http_wire.specs.inside.Ahead.{Ahead, Grew};

use crate::source::Source;
use std::alloc::{AllocError, Global};
use std::io;
use std::marker::Model;

/// The fewest bytes that a read asks for.
pub const READ_SIZE: usize = 16_384;

/// The most bytes by which a buffer is written ahead of those that came.
const WIDEN_MAX: usize = 65_536;

/// The bytes that a new read buffer has room for.
pub const FIRST_ROOM: usize = 65_536;

/// The one buffer between a reader and the messages that are read from it. It is read into in large
/// pieces; a message is lent from it without a copy, and what was read past it stays for the next.
///
/// Its memory is taken for a whole message, and written only as bytes come: no client makes the server
/// write more than twice what it sent, and one read's bytes, nor 65,536 more than what it sent.
#[derive(Drop)]
pub struct ReadBuffer {
    // `buffer[start..at]` is lent, `buffer[at..end]` is held.
    buffer: Vec<u8>,
    start: usize,
    at: usize,
    end: usize,
    ended: bool,
    // For how many bytes there is memory.
    room: usize,
}

impl Model for ReadBuffer {
    ghost use Rattle.std.specs.Prelude.{◌≤◌, slice_range, vec_len, vec_capacity};
    ghost use Rattle.http_wire.specs.inside.Ahead.{Ahead};
    ghost use Rattle.http_wire.specs.declared.read.read_buffer.TheConstants.{FIRST_ROOM};

    ghost Value = { Ahead };

    ghost view = { λ b. record {
      lent = slice_range b.buffer.items b.start b.at;
      held = slice_range b.buffer.items b.at b.end;
      ended = b.ended;
      room = b.room;
    } };

    ghost invariant = { λ b. (b.start ≤ b.at) × (b.at ≤ b.end) × (b.end ≤ vec_len b.buffer)
        × (vec_len b.buffer ≤ b.room) × (b.room ≤ vec_capacity b.buffer) × (FIRST_ROOM ≤ b.room) };
}

impl ReadBuffer {
    /// A read buffer that holds nothing. The error is that memory is lacking.
    pub fn new(alloc: Global) -> Result<Self, AllocError>
        ensures held { IfOk result (λ b. b.held ≡ []) }
        ensures lent { IfOk result (λ b. b.lent ≡ []) }
        ensures ended { IfOk result (λ b. b.ended ≡ false) }
        ensures room { IfOk result (λ b. b.room ≡ FIRST_ROOM) }
    {
        Ok(ReadBuffer {
            buffer: Vec::with_capacity(alloc, FIRST_ROOM)?,
            start: 0,
            at: 0,
            end: 0,
            ended: false,
            room: FIRST_ROOM,
        })
    }

    /// Begins anew, for another reader: nothing is held or lent, and no end was seen. The room stays.
    pub fn renew(&mut self)
        ensures { self.new ≡ record self.old { lent = []; held = []; ended = false } }
    {
        self.start = 0;
        self.at = 0;
        self.end = 0;
        self.ended = false;
    }

    /// For how many bytes there is memory.
    pub fn room(&self) -> usize
        ensures { result ≡ self.now.room }
    {
        self.room
    }

    /// The bytes that were read and belong to no message yet.
    pub fn held(&self) -> &[u8]
        ensures bytes { result.now ≡ self.now.held }
        ensures room { FIRST_ROOM ≤ self.now.room }
    {
        let (at, end) = (self.at, self.end);
        &self.buffer.as_slice()[at..end]
    }

    /// The bytes of the message that was taken last.
    pub fn lent(&self) -> &[u8]
        ensures { result.now ≡ self.now.lent }
    {
        let (start, at) = (self.start, self.at);
        &self.buffer.as_slice()[start..at]
    }

    /// Whether the reader gave its end.
    pub fn is_ended(&self) -> bool
        ensures { result ≡ self.now.ended }
    {
        self.ended
    }

    /// Ends the input here: no more of it will be read.
    pub fn end(&mut self)
        ensures { self.new ≡ record self.old { ended = true } }
    {
        self.ended = true;
    }

    /// Drops the first `count` bytes that are held, and what is lent.
    pub fn skip(&mut self, count: usize)
        requires { count ≤ length self.old.held }
        ensures { self.new ≡ record self.old { lent = []; held = drop count self.old.held } }
    {
        self.at += count;
        self.start = self.at;
    }

    /// Lends the first `count` bytes that are held, in place of what was lent.
    pub fn lend(&mut self, count: usize)
        requires { count ≤ length self.old.held }
        ensures { self.new ≡ record self.old {
          lent = take count self.old.held;
          held = drop count self.old.held;
        } }
    {
        self.start = self.at;
        self.at += count;
    }

    /// Holds the first `count` bytes that are lent again, where nothing else is held, and lets go of the others. No byte is moved.
    pub fn take_back(&mut self, count: usize)
        requires none { self.old.held ≡ [] }
        requires lent { count ≤ length self.old.lent }
        ensures { self.new ≡ record self.old { lent = []; held = take count self.old.lent } }
    {
        self.at = self.start;
        self.end = self.start + count;
    }

    /// Makes room for `total` bytes held at once and one more read after them: the least power of two that suffices,
    /// so that a message which is a little longer than the last moves nothing. Where there is room enough, it stays.
    /// The error is that there is no memory, which comes only where there was not room enough, so never for 49,152
    /// bytes or fewer. Then nothing changed.
    pub fn reserve(&mut self, total: usize) -> Result<(), AllocError>
        requires { total + READ_SIZE ≤ 2 ^ 63 }
        ensures held { self.new.held ≡ self.old.held }
        ensures ended { self.new.ended ≡ self.old.ended }
        ensures ok { OnOk result (total + READ_SIZE ≤ self.new.room) }
        ensures exact { OnOk result (self.old.room < total + READ_SIZE
            → IsNextPowerOfTwo (total + READ_SIZE) self.new.room) }
        ensures kept { OnOk result (total + READ_SIZE ≤ self.old.room
            → self.new.room ≡ self.old.room) }
        ensures err { OnErr result (self.new ≡ self.old) }
        ensures memory { OnErr result (self.old.room < total + READ_SIZE) }
        ensures sure { OnErr result (49152 < total) }
    {
        let needed = total + READ_SIZE;
        let count = self.end - self.at;
        if self.room < needed {
            let room = needed.next_power_of_two();
            self.buffer = moved(
                &self.buffer.as_slice()[self.at..self.end],
                room,
                *self.buffer.allocator(),
            )?;
            self.room = room;
            self.at = 0;
        } else {
            self.at = place_with_room(&mut self.buffer, self.at, count, needed, self.room);
        }
        self.start = self.at;
        self.end = self.at + count;
        Ok(())
    }

    /// Reads once, in place of what was lent, and gives how many bytes came, at most `most`: none where the reader gave its
    /// end. The error is the reader's, and then nothing came.
    pub fn fill<R: Source>(&mut self, reader: &mut R, most: usize) -> io::Result<usize>
        requires alive { R.has_failed reader.old ≡ false }
        requires unended { self.old.ended ≡ false }
        requires room { length self.old.held + READ_SIZE ≤ self.old.room }
        requires most { 0 < most }
        ensures grew { Grew (R.remaining reader.old) (R.remaining reader.new) self.old self.new }
        ensures count { IfOk result (λ n. length self.new.held ≡ length self.old.held + n) }
        ensures few { IfOk result (λ n. n ≤ most) }
        ensures ended { IfOk result (λ n. (n ≡ 0) ↔ (self.new.ended ≡ true)) }
        ensures lent { self.new.lent ≡ [] }
        ensures room { self.new.room ≡ self.old.room }
        ensures fits { length self.new.held ≤ self.new.room }
        ensures end { OnOk result (self.new.ended ≡ true → IsAtEnd (R.remaining reader.new)) }
        ensures failed { R.has_failed reader.new ≡ is_err result }
        ensures unread { OnErr result ((self.new.held ≡ self.old.held)
            × (self.new.ended ≡ self.old.ended)
            × Keeps (R.remaining reader.old) (R.remaining reader.new)) }
    {
        let count = self.end - self.at;
        let needed = count + READ_SIZE;
        self.at = place_with_room(&mut self.buffer, self.at, count, needed, self.room);
        self.start = self.at;
        self.end = self.at + count;
        widen(&mut self.buffer, self.end, needed, self.room);
        let more = read_after(reader, &mut self.buffer, self.end, most)?;
        self.ended = more == 0;
        self.end += more;
        Ok(more)
    }
}

// These bytes in a buffer of their own, with memory for `room` bytes.
fn moved(bytes: &[u8], room: usize, alloc: Global) -> Result<Vec<u8>, AllocError>
    requires { length bytes.now ≤ room }
    ensures items { IfOk result (λ b. b.items ≡ bytes.now) }
    ensures room { IfOk result (λ b. room ≤ vec_capacity b) }
{
    let mut buffer = Vec::with_capacity(alloc, room)?;
    let copied = buffer.extend_from_slice(bytes);
    prove!(copied.is_ok());
    Ok(buffer)
}

// Where the `count` bytes from `at` on stand after they were moved to the start, which is done only where fewer
// than `needed` bytes of the room follow `at`. Where there are none, the start of the room is theirs: so a large body is read
// there, and its first bytes are not moved.
fn place_with_room(
    buffer: &mut Vec<u8>,
    at: usize,
    count: usize,
    needed: usize,
    room: usize,
) -> usize
    requires inside { at + count ≤ vec_len buffer.old }
    requires room { vec_len buffer.old ≤ room }
    requires fits { needed ≤ room }
    ensures len { vec_len buffer.new ≡ vec_len buffer.old }
    ensures capacity { vec_capacity buffer.new ≡ vec_capacity buffer.old }
    ensures inside { result + count ≤ vec_len buffer.new }
    ensures room { result + needed ≤ room }
    ensures bytes { slice_range buffer.new.items result (result + count)
        ≡ slice_range buffer.old.items at (at + count) }
{
    if count == 0 {
        return 0;
    }
    if room - at >= needed {
        return at;
    }
    buffer.copy_within(at..at + count, 0);
    0
}

// Makes the buffer as long as a read after `end` asks for, where it is not: at least by a read's bytes, and by
// `needed` more where there is room, but by 65,536 at most.
fn widen(buffer: &mut Vec<u8>, end: usize, needed: usize, room: usize)
    requires end { end ≤ vec_len buffer.old }
    requires fits { end + READ_SIZE ≤ room }
    requires needed { READ_SIZE ≤ needed }
    requires len { vec_len buffer.old ≤ room }
    requires room { room ≤ vec_capacity buffer.old }
    ensures bytes { take end buffer.new.items ≡ take end buffer.old.items }
    ensures read { end + READ_SIZE ≤ vec_len buffer.new }
    ensures len { vec_len buffer.new ≤ room }
    ensures few { (vec_len buffer.new ≡ vec_len buffer.old)
        ⊎ ((vec_len buffer.new ≤ end + needed) × (vec_len buffer.new ≤ end + 65536)) }
    ensures room { room ≤ vec_capacity buffer.new }
{
    if buffer.len() < end + READ_SIZE {
        let more = needed.min(room - end).min(WIDEN_MAX);
        let wider = buffer.resize(end + more, 0);
        prove!(wider.is_ok());
    }
}

// One read of at most `most` bytes into `buffer` from the place `at` on.
fn read_after<R: Source>(
    reader: &mut R,
    buffer: &mut Vec<u8>,
    at: usize,
    most: usize,
) -> io::Result<usize>
    requires alive { R.has_failed reader.old ≡ false }
    requires inside { at < vec_len buffer.old }
    requires most { 0 < most }
    ensures len { vec_len buffer.new ≡ vec_len buffer.old }
    ensures capacity { vec_capacity buffer.new ≡ vec_capacity buffer.old }
    ensures bound { IfOk result (λ n. at + n ≤ vec_len buffer.new) }
    ensures few { IfOk result (λ n. n ≤ most) }
    ensures before { take at buffer.new.items ≡ take at buffer.old.items }
    ensures bytes { IfOk result (λ n. Consumes (R.remaining reader.old) (R.remaining reader.new)
        (slice_range buffer.new.items at (at + n))) }
    ensures end { IfOk result (λ n. n ≡ 0 → IsAtEnd (R.remaining reader.new)) }
    ensures err { OnErr result (Keeps (R.remaining reader.old) (R.remaining reader.new)) }
    ensures failed { R.has_failed reader.new ≡ is_err result }
{
    let end = at + most.min(buffer.len() - at);
    reader.read(&mut buffer.as_mut_slice()[at..end])
}

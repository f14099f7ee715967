//! What is to be sent on a connection, until it was sent.
ghost use Rattle.std.specs.Prelude.{◌≡◌, ◌≢◌, ◌≤◌, ◌++◌, [], ℕ, List, true, false, length, take, drop, IfOk, OnErr};
ghost use Rattle.std.specs.Bool.{OnTrue, OnFalse};
ghost use Rattle.std.specs.Io.KnownBytes.{Appends};
ghost use Rattle.http_wire.specs.Conversation.{continue_text};
ghost use Rattle.http_wire.specs.ReplyText.{refusal_text, reply_text};
ghost use Rattle.http_wire.specs.inside.ReplyPage.{content_sent};
ghost use Rattle.http_wire.specs.inside.Sending.{empty_write_buffer, following, IsUnsent};
ghost use Rattle.http_wire.specs.Streams.{took_nothing};
ghost use Rattle.tus_steps.specs.PlacedReply.{reply_in};
ghost use Rattle.tus_steps.specs.declared.reply.Reply.TheVariants.{Deleted};

use crate::framing::Framing;
use crate::refusal::WireRefusal;
use crate::source::Sink;
use crate::write::page::{EARLIER_MAX, PAGE_SIZE, Page, REPLY_MAX};
use crate::write::reply::{put_refusal, put_reply};
use std::alloc::{AllocError, Global};
use std::marker::Model;
use std::{io, mem};
use tus_steps::{PlacedReply, ReplyKind};
use upload_book::{Content, Moment};

/// What a client that waits for it reads before it sends a body (RFC 9110, section 15.2.1).
const CONTINUE: &[u8] = b"HTTP/1.1 100 Continue\r\n\r\n";

/// What is to be sent: a page with replies, one behind the other, and after it the bytes of an upload that have no room on
/// it. A contract sees the bytes that are pending, and whether one more reply has room: no bytes of an upload follow the
/// page, and it has at most 8,192 bytes, with those that were sent. The page is emptied once all of it was sent. Where
/// nothing is pending, there is room, and no bytes of an upload are kept.
#[derive(Drop)]
pub struct WriteBuffer {
    page: Page,
    // How many bytes of the page were sent.
    page_sent: usize,
    tail: Option<Tail>,
}

impl Model for WriteBuffer {
    ghost use Rattle.http_wire.specs.inside.Sending.{OnOutbox, write_buffer_of, IsCleared};

    ghost Value = { OnOutbox };

    ghost view = { λ o. write_buffer_of o.page o.page_sent o.tail };

    ghost invariant = { λ o. IsCleared o.page o.page_sent o.tail };
}

impl WriteBuffer {
    /// A write buffer with nothing in it. The error is that memory is lacking.
    pub fn new(alloc: Global) -> Result<Self, AllocError>
        ensures { IfOk result (λ o. o ≡ empty_write_buffer) }
    {
        let page = Page::new(alloc)?;
        Ok(WriteBuffer {
            page,
            page_sent: 0,
            tail: None,
        })
    }

    /// Whether one more reply may be put. Where not, something is pending.
    pub fn has_room(&self) -> bool
        ensures room { result ≡ self.now.has_room }
        ensures some { OnFalse result (self.now.pending ≢ []) }
        ensures few { OnTrue result (length self.now.pending ≤ 8192) }
    {
        self.tail.is_none() && self.page.as_slice().len() <= EARLIER_MAX
    }

    /// Whether nothing is pending. Then there is room.
    pub fn is_empty(&self) -> bool
        ensures empty { OnTrue result (self.now ≡ empty_write_buffer) }
        ensures some { OnFalse result (self.now.pending ≢ []) }
    {
        self.pending().is_empty()
    }

    /// How many bytes are pending in all.
    pub fn len(&self) -> usize
        ensures { result ≡ length self.now.pending }
    {
        let page = self.page.as_slice().len() - self.page_sent;
        match &self.tail {
            Some(tail) => page + tail.pending().len(),
            None => page,
        }
    }

    /// The next bytes that are pending, from where they are: a prefix of all, which is empty only where nothing is pending.
    pub fn pending(&self) -> &[u8]
        ensures prefix { (rest : List ℕ) × (self.now.pending ≡ result.now ++ rest) }
        ensures some { result.now ≡ [] → self.now ≡ empty_write_buffer }
    {
        let page = self.page.as_slice();
        if self.page_sent < page.len() {
            let (_, rest) = page.split_at(self.page_sent);
            return rest;
        }
        match &self.tail {
            Some(tail) => tail.pending(),
            None => b"",
        }
    }

    /// Drops the first bytes that are pending, which were sent. The bytes of an upload are freed with the last of them.
    /// Where there was room, there still is.
    pub fn sent(&mut self, count: usize)
        requires { count ≤ length self.old.pending }
        ensures pending { self.new.pending ≡ drop count self.old.pending }
        ensures empty { self.new.pending ≡ [] → self.new ≡ empty_write_buffer }
        ensures room { self.old.has_room ≡ true → self.new.has_room ≡ true }
    {
        let left = self.page.as_slice().len() - self.page_sent;
        if count < left {
            self.page_sent += count;
            return;
        }
        self.page.clear();
        self.page_sent = 0;
        self.tail = after_sent(self.tail.take(), count - left);
    }

    /// Makes one write of bytes that are pending, drops those that were taken, and gives their number. Where it is 0, the
    /// writer has failed. The error is the writer's: nothing was written then, and all is pending as before. Where there
    /// was room, there still is.
    pub fn write_to<W: Sink>(&mut self, writer: &mut W) -> io::Result<usize>
        requires alive { W.has_failed writer.old ≡ false }
        requires some { self.old.pending ≢ [] }
        ensures count { IfOk result (λ n. n ≤ length self.old.pending) }
        ensures taken { IfOk result (λ n. Appends (W.contents writer.old) (W.contents writer.new)
            (take n self.old.pending)) }
        ensures left { IfOk result (λ n. self.new.pending ≡ drop n self.old.pending) }
        ensures empty { self.new.pending ≡ [] → self.new ≡ empty_write_buffer }
        ensures room { self.old.has_room ≡ true → self.new.has_room ≡ true }
        ensures none { OnErr result (Appends (W.contents writer.old) (W.contents writer.new) []) }
        ensures same { OnErr result (self.new ≡ self.old) }
        ensures failed { W.has_failed writer.new ≡ took_nothing result self.old.pending }
    {
        let count = writer.write(self.pending())?;
        self.sent(count);
        Ok(count)
    }

    /// Drops all that is pending.
    pub fn clear(&mut self)
        ensures { self.new ≡ empty_write_buffer }
    {
        self.page.clear();
        self.page_sent = 0;
        self.tail = None;
    }

    /// Puts `100 Continue` behind what is pending.
    pub fn put_continue(&mut self)
        requires { self.old.has_room ≡ true }
        ensures { self.new.pending ≡ self.old.pending ++ continue_text true }
    {
        self.page.put(CONTINUE);
    }

    /// Puts a refusal of the wire at the moment of its message behind what is pending.
    pub fn put_refusal(&mut self, refusal: WireRefusal, now: Moment, framing: Framing)
        requires { self.old.has_room ≡ true }
        ensures { self.new.pending ≡ self.old.pending ++ refusal_text refusal now framing }
    {
        put_refusal(&mut self.page, refusal, now, framing);
    }

    /// Puts the reply to a message at the message's moment behind what is pending. The bytes of an upload are taken out of
    /// the reply: where it has at most 8,192 bytes with them, the page takes a copy, since a second write would cost more,
    /// and else they are sent from where they are. What is in the reply's place then answers no request.
    pub fn put_reply(&mut self, reply: &mut PlacedReply, now: Moment, framing: Framing)
        requires { self.old.has_room ≡ true }
        ensures text { self.new.pending ≡ self.old.pending ++ reply_text (reply_in reply.old) now framing }
        ensures gone { reply_in reply.new ≡ Deleted }
    {
        let limit = self.page.as_slice().len() + REPLY_MAX;
        put_reply(&mut self.page, reply, now, framing);
        self.tail = follow(&mut self.page, limit, take_content(reply, framing));
    }
}

// The bytes of an upload that a reply sends after its page, taken out of it.
fn take_content(reply: &mut PlacedReply, framing: Framing) -> Option<Content>
    ensures taken { following result ≡ content_sent (reply_in reply.old) framing }
    ensures gone { reply_in reply.new ≡ Deleted }
{
    let kind = mem::replace(&mut reply.kind, ReplyKind::Deleted);
    if framing.bare {
        return None;
    }
    match kind {
        ReplyKind::Content { bytes, .. } => Some(bytes),
        _ => None,
    }
}

// Puts the bytes that follow a page on it where it then has at most so many; else they are what follows it.
fn follow(page: &mut Page, limit: usize, content: Option<Content>) -> Option<Tail>
    requires { limit ≤ PAGE_SIZE }
    ensures text { page.new ++ following result ≡ page.old ++ following content }
    ensures len { length page.old ≤ length page.new }
    ensures unsent { IsUnsent result }
{
    let content = content?;
    let left = content.as_slice().len();
    if left == 0 {
        return None;
    }
    if page.as_slice().len().saturating_add(left) <= limit {
        page.put(content.as_slice());
        return None;
    }
    Some(Tail { content, left })
}

// What follows a page after some of its bytes were sent: nothing after the last.
fn after_sent(tail: Option<Tail>, count: usize) -> Option<Tail>
    requires { count ≤ length (following tail) }
    ensures rest { following result ≡ drop count (following tail) }
    ensures unsent { IsUnsent result }
{
    let mut tail = tail?;
    tail.sent(count);
    if tail.pending().is_empty() {
        None
    } else {
        Some(tail)
    }
}

// The bytes of an upload that follow a page. A contract sees those that are pending.
#[derive(Drop)]
struct Tail {
    content: Content,
    // How many of them are pending: the last ones.
    left: usize,
}

impl Model for Tail {
    ghost use Rattle.std.specs.Prelude.{List, ℕ, ◌≤◌, ◌-◌, drop, length};

    ghost Value = { List ℕ };

    ghost view = { λ t. drop (length t.content - t.left) t.content };

    ghost invariant = { λ t. t.left ≤ length t.content };
}

impl Tail {
    // The bytes that are pending.
    fn pending(&self) -> &[u8]
        ensures { result.now ≡ self.now }
    {
        let bytes = self.content.as_slice();
        let (_, rest) = bytes.split_at(bytes.len() - self.left);
        rest
    }

    // Drops the first bytes, which were sent.
    fn sent(&mut self, count: usize)
        requires { count ≤ length self.old }
        ensures { self.new ≡ drop count self.old }
    {
        self.left -= count;
    }
}

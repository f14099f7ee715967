ghost use Rattle.std.specs.Prelude.{◌≡◌, ◌+◌, ◌≤◌, [], ◌++◌, length, IfOk, vec_capacity, decimal, codes};
ghost use Rattle.tus_text.specs.Date.{expires_text};

use crate::write::last_date::LastDate;
use itoa::Buffer;
use std::alloc::{AllocError, Global};
use std::marker::Model;
use tus_text::MEDIA_TYPE_MAX;
use upload_book::Moment;

/// The most bytes of earlier replies on a page when one more begins.
pub const EARLIER_MAX: usize = 8_192;

/// The most bytes that one reply takes of a page: more than its head and the word of a refusal.
pub const REPLY_MAX: usize = 8_192;

/// The most bytes that a page takes. The bounds of a page below count a reply behind [`EARLIER_MAX`] bytes of others.
pub const PAGE_SIZE: usize = EARLIER_MAX + REPLY_MAX;

/// The most bytes of a page with the lines that every reply begins with: its status, date and version.
pub const OPENING_MAX: usize = EARLIER_MAX + 200;

/// The most bytes of the line of a number, a date or a path.
pub const LINE_MAX: usize = 100;

/// The most bytes of the line that tells of a file.
pub const FILE_MAX: usize = 900;

/// The most bytes of a page before the two long lines, which are those of metadata and of a
/// concatenation.
pub const SHORT_MAX: usize = OPENING_MAX + 10 * LINE_MAX + FILE_MAX;

/// The most bytes of a page with the fields of the steps. Metadata has at most 1,024 bytes, and a
/// concatenation 2,048.
pub const FIELDS_MAX: usize = SHORT_MAX + 4_000;

/// The most bytes of the lines that tell the type and the length of a body.
pub const CONTENT_MAX: usize = MEDIA_TYPE_MAX + LINE_MAX;

/// The most bytes of what ends a head: the lines of the body, that of the connection and the empty line.
pub const ENDING_MAX: usize = CONTENT_MAX + LINE_MAX;

/// The most bytes of a page with the head of a reply.
pub const HEAD_MAX: usize = FIELDS_MAX + ENDING_MAX;

/// Where replies are put together, one behind the other, before they are written. Its memory is taken once, so that no
/// reply needs any. A contract sees the bytes that were put.
#[derive(Drop)]
pub struct Page {
    text: Vec<u8>,
    last_date: LastDate,
    // The last date that was put in a line. Uploads that change within one second mostly expire within one.
    last_moment: LastDate,
}

impl Model for Page {
    ghost use Rattle.std.specs.Prelude.{List, ℕ, ◌≤◌, vec_capacity};
    ghost use Rattle.http_wire.specs.declared.write.page.TheConstants.{PAGE_SIZE};

    ghost Value = { List ℕ };

    ghost view = { λ p. p.text.items };

    ghost invariant = { λ p. PAGE_SIZE ≤ vec_capacity p.text };
}

impl Page {
    /// An empty page. The error is that memory is lacking.
    pub fn new(alloc: Global) -> Result<Self, AllocError>
        ensures { IfOk result (λ p. p ≡ []) }
    {
        let text = Vec::with_capacity(alloc, PAGE_SIZE)?;
        Ok(Page {
            text,
            last_date: LastDate::new(),
            last_moment: LastDate::new(),
        })
    }

    /// Takes all bytes off the page.
    pub fn clear(&mut self)
        ensures { self.new ≡ [] }
    {
        self.text.clear();
    }

    /// The date of a moment. It is kept for the other replies within the same second.
    pub fn date_at(&mut self, moment: Moment) -> [u8; 29]
        ensures date { result ≡ expires_text moment }
        ensures same { self.new ≡ self.old }
    {
        self.last_date.at(moment)
    }

    /// The bytes that were put.
    pub fn as_slice(&self) -> &[u8]
        ensures { result.now ≡ self.now }
    {
        self.text.as_slice()
    }

    /// Puts some bytes after the others.
    pub fn put(&mut self, bytes: &[u8])
        requires { length self.old + length bytes.now ≤ PAGE_SIZE }
        ensures { self.new ≡ self.old ++ bytes.now }
    {
        let put = self.text.extend_from_slice(bytes);
        prove!(put.is_ok());
    }
}

impl Page {
    ghost use Rattle.http_wire.specs.ReplyText.{line, line_if, number_line, text_line, moment_line};

    /// Puts the line of a field.
    #[tactic(auto, unfolding(crate::specs::ReplyText::line))]
    pub fn put_line(&mut self, name: &[u8], value: &[u8])
        requires { length self.old + length name.now + length value.now + 4 ≤ PAGE_SIZE }
        ensures text { self.new ≡ self.old ++ line name.now value.now }
        ensures len { length self.new ≡ length self.old + length name.now + length value.now + 4 }
    {
        self.put(name);
        self.put(b": ");
        self.put(value);
        self.put(b"\r\n");
    }

    /// Puts the line of a field, where the test holds.
    #[tactic(auto, unfolding(crate::specs::ReplyText::line_if))]
    pub fn put_line_if(&mut self, test: bool, name: &[u8], value: &[u8])
        requires { length self.old + length name.now + length value.now + 4 ≤ PAGE_SIZE }
        ensures text { self.new ≡ self.old ++ line_if test name.now value.now }
        ensures len { length self.new ≤ length self.old + length name.now + length value.now + 4 }
    {
        if test {
            self.put_line(name, value);
        }
    }

    /// Puts the line of a field, where it has a value.
    #[tactic(auto, unfolding(crate::specs::ReplyText::text_line))]
    pub fn put_text_line(&mut self, name: &[u8], value: &[u8])
        requires { length self.old + length name.now + length value.now + 4 ≤ PAGE_SIZE }
        ensures text { self.new ≡ self.old ++ text_line name.now value.now }
        ensures len { length self.new ≤ length self.old + length name.now + length value.now + 4 }
    {
        if !value.is_empty() {
            self.put_line(name, value);
        }
    }

    /// Puts the line of a field that is a number, where there is one.
    #[tactic(auto, unfolding(crate::specs::ReplyText::number_line))]
    pub fn put_number_line(&mut self, name: &[u8], number: Option<u64>)
        requires { length self.old + length name.now + 24 ≤ PAGE_SIZE }
        ensures text { self.new ≡ self.old ++ number_line name.now number }
        ensures len { length self.new ≤ length self.old + length name.now + 24 }
    {
        if let Some(number) = number {
            let mut digits = Buffer::new();
            self.put_line(name, digits.format(number).as_bytes());
        }
    }

    /// Puts the line of a field that is a date, where there is one.
    #[tactic(auto, unfolding(crate::specs::ReplyText::moment_line))]
    pub fn put_moment_line(&mut self, name: &[u8], moment: Option<Moment>)
        requires { length self.old + length name.now + 33 ≤ PAGE_SIZE }
        ensures text { self.new ≡ self.old ++ moment_line name.now moment }
        ensures len { length self.new ≤ length self.old + length name.now + 33 }
    {
        if let Some(moment) = moment {
            let date = self.last_moment.at(moment);
            self.put_line(name, &date);
        }
    }
}

//! The lines of a log.
ghost use Rattle.std.specs.Prelude.{◌≡◌, ◌≤◌, ◌++◌, length, OnOk, decimal, codes};
ghost use Rattle.service_watch.specs.Escape.{shown};
ghost use Rattle.service_watch.specs.Line.{answer, cut_text, date, method_name, method_word, question, request_text, sent_word, status_word, word};

use crate::cut::Cut;
use crate::escape::put_shown;
use crate::put::put_number;
use std::alloc::AllocError;
use std::marker::Model;
use tus_steps::Method;
use tus_text::write_expires;
use upload_book::Moment;

/// What a line of the log tells of one request. A text that has no bytes, or a value that is not there, is told as a hyphen.
#[derive(Drop)]
pub struct RequestLine<'a> {
    /// When its reply was written.
    pub moment: Moment,
    /// The address and the port of its client.
    pub peer: &'a [u8],
    pub tenant: &'a [u8],
    /// The method in force; none where no whole head came.
    pub method: Option<Method>,
    /// Its path, as it came from outside.
    pub path: &'a [u8],
    /// The status of the reply; none where no reply was given.
    pub status: Option<u16>,
    /// The word of the refusal.
    pub word: &'a [u8],
    /// How many bytes were read for it, and how many were written.
    pub received: u64,
    pub sent: u64,
    /// How many microseconds it took from its first byte on.
    pub micros: u64,
    /// Whether all of its reply was sent.
    pub was_sent: bool,
}

impl<'a> Model for RequestLine<'a> {
    ghost use Rattle.service_watch.specs.RequestLine as spec;

    ghost Value = { spec.RequestLine };

    ghost view = { λ l. record {
      moment = l.moment;
      peer = l.peer.now;
      tenant = l.tenant.now;
      method = l.method;
      path = l.path.now;
      status = l.status;
      word = l.word.now;
      received = l.received;
      sent = l.sent;
      micros = l.micros;
      was_sent = l.was_sent;
    } };
}

/// What a line of the log tells of a connection that was cut off.
#[derive(Drop)]
pub struct CutLine<'a> {
    pub moment: Moment,
    /// The address and the port of its client.
    pub peer: &'a [u8],
    pub cut: Cut,
}

impl<'a> Model for CutLine<'a> {
    ghost use Rattle.service_watch.specs.CutLine as spec;

    ghost Value = { spec.CutLine };

    ghost view = { λ l. record { moment = l.moment; peer = l.peer.now; cut = l.cut } };
}

/// The method in force, as HTTP names it; `other` for one that is not served. At most 7 bytes.
pub fn method_name(method: Method) -> &'static [u8]
    ensures name { result.now ≡ method_name method }
    ensures short { length result.now ≤ 7 }
{
    match method {
        Method::Post => b"POST",
        Method::Head => b"HEAD",
        Method::Get => b"GET",
        Method::Patch => b"PATCH",
        Method::Delete => b"DELETE",
        Method::Options => b"OPTIONS",
        Method::Other => b"other",
    }
}

/// Puts the line of a request behind what is there.
#[tactic(auto, unfolding(crate::specs::Line::request_text))]
pub(crate) fn put_request(out: &mut Vec<u8>, line: &RequestLine) -> Result<(), AllocError>
    ensures { OnOk result (out.new.items ≡ out.old.items ++ request_text line.now) }
{
    put_date(out, line.moment)?;
    put_question(out, line)?;
    put_answer(out, line)?;
    out.extend_from_slice(b"\n")
}

/// Puts the line of a connection that was cut off behind what is there.
#[tactic(auto, unfolding(crate::specs::Line::cut_text))]
pub(crate) fn put_cut(out: &mut Vec<u8>, line: &CutLine) -> Result<(), AllocError>
    ensures { OnOk result (out.new.items ≡ out.old.items ++ cut_text line.now) }
{
    put_date(out, line.moment)?;
    put_text(out, line.peer)?;
    put_word(out, b"cut")?;
    put_word(out, line.cut.name())?;
    out.extend_from_slice(b"\n")
}

#[tactic(auto, unfolding(crate::specs::Line::question))]
fn put_question(out: &mut Vec<u8>, line: &RequestLine) -> Result<(), AllocError>
    ensures { OnOk result (out.new.items ≡ out.old.items ++ question line.now) }
{
    put_text(out, line.peer)?;
    put_text(out, line.tenant)?;
    put_word(out, word_of_method(line.method))?;
    put_text(out, line.path)
}

#[tactic(auto, unfolding(crate::specs::Line::answer))]
fn put_answer(out: &mut Vec<u8>, line: &RequestLine) -> Result<(), AllocError>
    ensures { OnOk result (out.new.items ≡ out.old.items ++ answer line.now) }
{
    put_status(out, line.status)?;
    put_text(out, line.word)?;
    put_count(out, line.received)?;
    put_count(out, line.sent)?;
    put_count(out, line.micros)?;
    put_word(out, word_of_sending(line.was_sent))
}

#[tactic(auto, unfolding(crate::specs::Line::date))]
fn put_date(out: &mut Vec<u8>, moment: Moment) -> Result<(), AllocError>
    ensures { OnOk result (out.new.items ≡ out.old.items ++ date moment) }
{
    out.extend_from_slice(b"\"")?;
    out.extend_from_slice(&write_expires(moment.secs()))?;
    out.extend_from_slice(b"\"")
}

#[tactic(auto, unfolding(crate::specs::Line::word))]
fn put_word(out: &mut Vec<u8>, text: &[u8]) -> Result<(), AllocError>
    ensures { OnOk result (out.new.items ≡ out.old.items ++ word text.now) }
{
    out.extend_from_slice(b" ")?;
    out.extend_from_slice(text)
}

#[tactic(auto, unfolding(crate::specs::Line::word))]
fn put_text(out: &mut Vec<u8>, text: &[u8]) -> Result<(), AllocError>
    ensures { OnOk result (out.new.items ≡ out.old.items ++ word (shown text.now)) }
{
    out.extend_from_slice(b" ")?;
    put_shown(out, text)
}

#[tactic(auto, unfolding(crate::specs::Line::word))]
fn put_count(out: &mut Vec<u8>, count: u64) -> Result<(), AllocError>
    ensures { OnOk result (out.new.items ≡ out.old.items ++ word (decimal count)) }
{
    out.extend_from_slice(b" ")?;
    put_number(out, count)
}

fn put_status(out: &mut Vec<u8>, status: Option<u16>) -> Result<(), AllocError>
    ensures { OnOk result (out.new.items ≡ out.old.items ++ word (status_word status)) }
{
    match status {
        None => put_word(out, b"-"),
        Some(status) => put_count(out, u64::from(status)),
    }
}

fn word_of_method(method: Option<Method>) -> &'static [u8]
    ensures { result.now ≡ method_word method }
{
    match method {
        None => b"-",
        Some(method) => method_name(method),
    }
}

fn word_of_sending(was_sent: bool) -> &'static [u8]
    ensures { result.now ≡ sent_word was_sent }
{
    if was_sent { b"sent" } else { b"unsent" }
}

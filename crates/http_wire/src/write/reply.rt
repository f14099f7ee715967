//! The bytes of the replies, put on a page; the bytes of an upload are not copied to it.
ghost use Rattle.std.specs.Prelude.{◌≡◌, ◌+◌, ◌≤◌, ◌++◌, length, codes};
ghost use Rattle.http_wire.specs.inside.ReplyPage.{page_text, word_in};
ghost use Rattle.http_wire.specs.ReplyText.{line, status_line, reason_in, reasons, opening, ending, content_fields, word_body, body_in, content_status, media_in, reply_status, refusal_text};
ghost use Rattle.http_wire.specs.Refusal as wire;
ghost use Rattle.tus_steps.specs.PlacedReply.{reply_in};

use crate::framing::Framing;
use crate::refusal::WireRefusal;
use crate::write::file::{ANY_TYPE, file_type};
use crate::write::own_fields::put_own_fields;
use crate::write::page::{
    CONTENT_MAX, EARLIER_MAX, ENDING_MAX, FIELDS_MAX, HEAD_MAX, OPENING_MAX, Page,
};
use itoa::Buffer;
use tus_steps::{Extent, PlacedReply, ReplyKind};
use tus_text::{METADATA_MAX, Text};
use upload_book::Moment;

/// Puts the bytes of a reply at the moment of its message behind the earlier ones, but for the bytes of an upload, which
/// follow the page.
#[tactic(auto, unfolding(crate::specs::ReplyText::reply_head))]
pub fn put_reply(page: &mut Page, reply: &PlacedReply, now: Moment, framing: Framing)
    requires { length page.old ≤ EARLIER_MAX }
    ensures { page.new ≡ page.old ++ page_text (reply_in reply.now) now framing }
{
    let status = reply_status(reply);
    put_opening(page, status, now);
    let mut told = Text::empty();
    let media = media_in(reply, &mut told);
    put_own_fields(page, reply, media);
    let bare = framing.bare || status == 204;
    put_ending(page, bare, framing.close, media, body_len(reply));
    if !bare {
        put_word_of(page, reply);
    }
}

/// Puts the bytes of a refusal of the wire at the moment of its message behind the earlier ones.
#[tactic(auto, unfolding(crate::specs::ReplyText::refusal_text))]
pub fn put_refusal(page: &mut Page, refusal: WireRefusal, now: Moment, framing: Framing)
    requires { length page.old ≤ EARLIER_MAX }
    ensures { page.new ≡ page.old ++ refusal_text refusal now framing }
{
    let status = refusal.status();
    put_opening(page, status, now);
    let bare = framing.bare || status == 204;
    let word = refusal.word().as_bytes();
    put_ending(
        page,
        bare,
        framing.close,
        b"text/plain",
        word.len() as u64 + 1,
    );
    if !bare {
        put_word(page, word);
    }
}

// The lines that every reply begins with.
#[tactic(auto, unfolding(crate::specs::ReplyText::opening))]
fn put_opening(page: &mut Page, status: u16, now: Moment)
    requires { length page.old ≤ EARLIER_MAX }
    ensures text { page.new ≡ page.old ++ opening status now }
    ensures len { length page.new ≤ OPENING_MAX }
{
    put_status_line(page, status);
    let date = page.date_at(now);
    page.put_line(b"Date", &date);
    put_version_line(page);
}

// The line of the protocol's version. As it never changes, it is put at once.
#[tactic(auto, unfolding(crate::specs::ReplyText::line))]
fn put_version_line(page: &mut Page)
    requires { length page.old + 22 ≤ OPENING_MAX }
    ensures text { page.new ≡ page.old ++ line (codes "Tus-Resumable") (codes "1.0.0") }
    ensures len { length page.new ≡ length page.old + 22 }
{
    page.put(b"Tus-Resumable: 1.0.0\r\n");
}

#[tactic(auto, unfolding(crate::specs::ReplyText::status_line))]
fn put_status_line(page: &mut Page, status: u16)
    requires { length page.old ≤ EARLIER_MAX }
    ensures text { page.new ≡ page.old ++ status_line status }
    ensures len { length page.new ≤ EARLIER_MAX + 64 }
{
    page.put(b"HTTP/1.1 ");
    let mut digits = Buffer::new();
    page.put(digits.format(status).as_bytes());
    page.put(b" ");
    page.put(reason(status));
    page.put(b"\r\n");
}

fn reason(status: u16) -> &'static [u8]
    ensures text { result.now ≡ reason_in reasons status }
    ensures len { length result.now ≤ 31 }
{
    match status {
        200 => b"OK",
        201 => b"Created",
        204 => b"No Content",
        206 => b"Partial Content",
        400 => b"Bad Request",
        403 => b"Forbidden",
        404 => b"Not Found",
        405 => b"Method Not Allowed",
        409 => b"Conflict",
        410 => b"Gone",
        411 => b"Length Required",
        412 => b"Precondition Failed",
        413 => b"Content Too Large",
        415 => b"Unsupported Media Type",
        416 => b"Range Not Satisfiable",
        431 => b"Request Header Fields Too Large",
        460 => b"Checksum Mismatch",
        503 => b"Service Unavailable",
        507 => b"Insufficient Storage",
        _ => b"",
    }
}

/// The status of a reply.
pub fn reply_status(reply: &PlacedReply) -> u16
    ensures { result ≡ reply_status (reply_in reply.now) }
{
    match &reply.kind {
        ReplyKind::Created { .. } => 201,
        ReplyKind::Head => 200,
        ReplyKind::Content { extent, .. } => content_status(*extent),
        ReplyKind::Unsatisfiable { .. } => 416,
        ReplyKind::Options { .. } | ReplyKind::Patched { .. } | ReplyKind::Deleted => 204,
        ReplyKind::Refused { refusal, .. } => refusal.status(),
    }
}

// The status of a reply that gives these bytes of an upload.
fn content_status(extent: Extent) -> u16
    ensures { result ≡ content_status extent }
{
    match extent {
        Extent::Plain | Extent::Whole => 200,
        Extent::Range { .. } => 206,
    }
}

// The word of a GET that asks for a range of bytes of which the upload has none.
const RANGE_WORD: &[u8] = b"range";

// What the body of a reply is. A type that the metadata of an upload tells is decoded to `told`.
fn media_in<'a>(reply: &PlacedReply, told: &'a mut Text<METADATA_MAX>) -> &'a [u8]
    ensures text { result.now ≡ media_in (reply_in reply.now) }
    ensures len { length result.now ≤ 255 }
{
    match &reply.kind {
        ReplyKind::Content {
            extent: Extent::Plain,
            ..
        } => ANY_TYPE,
        ReplyKind::Content { .. } => file_type(reply.row.metadata.as_slice(), told),
        ReplyKind::Unsatisfiable { .. } | ReplyKind::Refused { .. } => b"text/plain",
        _ => b"",
    }
}

fn body_len(reply: &PlacedReply) -> u64
    ensures { result ≡ length (body_in (reply_in reply.now)) }
{
    match &reply.kind {
        ReplyKind::Content { bytes, .. } => bytes.as_slice().len() as u64,
        ReplyKind::Unsatisfiable { .. } => RANGE_WORD.len() as u64 + 1,
        ReplyKind::Refused { refusal, .. } => refusal.word().len() as u64 + 1,
        _ => 0,
    }
}

// The word of a reply that refuses.
fn put_word_of(page: &mut Page, reply: &PlacedReply)
    requires { length page.old ≤ HEAD_MAX }
    ensures { page.new ≡ page.old ++ word_in (reply_in reply.now) }
{
    match &reply.kind {
        ReplyKind::Unsatisfiable { .. } => put_word(page, RANGE_WORD),
        ReplyKind::Refused { refusal, .. } => put_word(page, refusal.word().as_bytes()),
        _ => {}
    }
}

fn put_word(page: &mut Page, word: &[u8])
    requires room { length page.old ≤ HEAD_MAX }
    requires word { length word.now ≤ 20 }
    ensures { page.new ≡ page.old ++ word_body word.now }
{
    page.put(word);
    page.put(b"\n");
}

// What follows the fields of the steps, to the empty line.
#[tactic(auto, unfolding(crate::specs::ReplyText::ending))]
fn put_ending(page: &mut Page, bare: bool, close: bool, media: &[u8], len: u64)
    requires room { length page.old ≤ FIELDS_MAX }
    requires media { length media.now ≤ 255 }
    ensures text { page.new ≡ page.old ++ ending bare close media.now len }
    ensures len { length page.new ≤ length page.old + ENDING_MAX }
{
    if !bare {
        put_content_fields(page, media, len);
    }
    page.put_line_if(close, b"Connection", b"close");
    page.put(b"\r\n");
}

#[tactic(auto, unfolding(crate::specs::ReplyText::content_fields))]
fn put_content_fields(page: &mut Page, media: &[u8], len: u64)
    requires room { length page.old ≤ FIELDS_MAX }
    requires media { length media.now ≤ 255 }
    ensures text { page.new ≡ page.old ++ content_fields media.now len }
    ensures len { length page.new ≤ length page.old + CONTENT_MAX }
{
    page.put_text_line(b"Content-Type", media);
    page.put_number_line(b"Content-Length", Some(len));
}

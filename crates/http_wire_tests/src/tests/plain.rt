//! A conversation by a plain, slow program. It has the whole input at once and goes over it byte by byte, and it shares
//! nothing with the wire but the parser of heads. The steps on the book are those of the server.

use crate::tests::replies::{Page, Replied};
use http_wire::{Ended, Framing, WireRefusal};
use httparse::{EMPTY_HEADER, Header, Request as Head, Status};
use std::alloc::Global;
use std::process::Abort;
use tus_steps::{Field, Method, RangeAsked, Reply, Request, TusFields, answer};
use tus_text::{read_number, read_path};
use upload_book::{Book, Moment};

/// What an input begins with.
enum NextMessage<'a> {
    /// A request, how its reply is framed, whether it waits for `100 Continue`, how many bytes its body has, and what follows
    /// it. Where its body was cut, nothing follows.
    Request(Request<'a>, Framing, bool, usize, Option<&'a [u8]>),
    /// A request that the wire refuses, and how the reply is framed.
    Refused(WireRefusal, Framing),
    /// The end of the input.
    End(Ended),
}

/// A conversation that takes bodies in pieces: how many bytes a piece has, and what it wrote.
#[derive(Clone, Copy)]
pub struct InPieces<'a> {
    pub size: usize,
    pub written: &'a [u8],
}

/// What the conversation of an input writes, and how it ends. The k-th message has the k-th moment. Where another one takes bodies
/// in pieces, a refused body that is longer than a piece closes, if it does so there: it may have come as one.
pub fn plain_conversation(
    rt: &impl Abort,
    alloc: Global,
    input: &[u8],
    book: &mut Book,
    moments: &[Moment],
    pieces: Option<InPieces<'_>>,
) -> (Vec<u8>, Ended) {
    let max_size = book.settings().numbers().max_size;
    let mut page = Page::new(alloc);
    let mut left = input;
    for now in moments {
        match begins(left, max_size) {
            NextMessage::End(ended) => return (page.text, ended),
            NextMessage::Refused(refusal, framing) => {
                page.put_refusal(rt, refusal, *now, framing);
                return (page.text, Ended::Closed);
            }
            NextMessage::Request(mut request, framing, is_waiting, len, rest) => {
                if is_waiting {
                    page.put(rt, b"HTTP/1.1 100 Continue\r\n\r\n");
                }
                let pieces = pieces.filter(|pieces| is_plain(&request) && len > pieces.size);
                if rest.is_none() && !is_applied_when_cut(&request, pieces) {
                    return (page.text, Ended::Cut);
                }
                if pieces.is_some() {
                    request.more = len.saturating_sub(request.body.len()) as u64;
                }
                let reply = answer(book, &request, *now);
                let replied = Replied::of(rt, alloc, &reply);
                if let Some(pieces) = pieces
                    && matches!(reply, Reply::Refused { .. })
                    && request.body.len() >= pieces.size
                {
                    let before = page.text.len();
                    page.put_reply(rt, &replied, *now, closing(framing));
                    if rest.is_none() || pieces.written.starts_with(page.text.as_slice()) {
                        return (page.text, Ended::Closed);
                    }
                    page.text.truncate(before);
                }
                let Some(rest) = rest else {
                    return (page.text, Ended::Cut);
                };
                page.put_reply(rt, &replied, *now, framing);
                if framing.close {
                    return (page.text, Ended::Closed);
                }
                left = rest;
            }
        }
    }
    (page.text, Ended::Moments)
}

// Whether a request is a PATCH or a POST without a checksum.
fn is_plain(request: &Request) -> bool {
    matches!(request.method, Method::Patch | Method::Post)
        && matches!(request.fields.checksum, Field::Absent)
}

// Whether what came of a request is applied, though its body was cut: that of a PATCH, and of a creation whose first piece came.
fn is_applied_when_cut(request: &Request, pieces: Option<InPieces<'_>>) -> bool {
    let is_patch = matches!(request.method, Method::Patch);
    let has_piece = pieces.is_some_and(|pieces| request.body.len() >= pieces.size);
    is_plain(request) && (is_patch || has_piece)
}

// The same framing, after which the connection closes.
fn closing(framing: Framing) -> Framing {
    Framing {
        close: true,
        ..framing
    }
}

// The framing of a refusal by a head that is not known.
const UNKNOWN: Framing = Framing {
    bare: false,
    close: true,
};

fn begins(input: &[u8], max_size: u64) -> NextMessage<'_> {
    let blank = input
        .iter()
        .take_while(|b| **b == b'\r' || **b == b'\n')
        .count();
    let text = input.get(blank..).unwrap_or(b"");
    let Some((head, rest)) = head_and_rest(text) else {
        return if input.len() >= 16_384 {
            NextMessage::Refused(WireRefusal::HeadSize, UNKNOWN)
        } else if text.is_empty() {
            NextMessage::End(Ended::Input)
        } else {
            NextMessage::End(Ended::Cut)
        };
    };
    let lines = head.iter().filter(|b| **b == b'\n').count();
    if blank.saturating_add(head.len()) > 16_384 || lines > 66 {
        return NextMessage::Refused(WireRefusal::HeadSize, UNKNOWN);
    }
    let mut headers = [EMPTY_HEADER; 64];
    let mut parsed = Head::new(&mut headers);
    match parsed.parse(head) {
        Ok(Status::Complete(len)) if len == head.len() => with_head(&parsed, rest, max_size),
        _ => NextMessage::Refused(WireRefusal::Head, UNKNOWN),
    }
}

// The shortest prefix of a text that ends with an empty line, and what follows it.
fn head_and_rest(text: &[u8]) -> Option<(&[u8], &[u8])> {
    for len in 0..=text.len() {
        let (head, rest) = text.split_at(len);
        if head.ends_with(b"\n\n") || head.ends_with(b"\n\r\n") {
            return Some((head, rest));
        }
    }
    None
}

// What the fields of a head have under a name.
fn named<'a>(headers: &[Header<'a>], name: &str) -> Field<'a> {
    let mut field = Field::Absent;
    for header in headers {
        if header.name.eq_ignore_ascii_case(name) {
            field = match field {
                Field::Absent => Field::One(header.value),
                _ => Field::Many,
            };
        }
    }
    field
}

fn method_of(name: &[u8]) -> Method {
    let methods = [
        (b"POST".as_slice(), Method::Post),
        (b"HEAD".as_slice(), Method::Head),
        (b"PATCH".as_slice(), Method::Patch),
        (b"GET".as_slice(), Method::Get),
        (b"DELETE".as_slice(), Method::Delete),
        (b"OPTIONS".as_slice(), Method::Options),
    ];
    for (text, method) in methods {
        if text == name {
            return method;
        }
    }
    Method::Other
}

// Whether a Connection field says that the connection closes.
fn closes(headers: &[Header<'_>]) -> bool {
    for header in headers {
        if header.name.eq_ignore_ascii_case("connection") {
            for token in header.value.split(|b| *b == b',') {
                if token.trim_ascii().eq_ignore_ascii_case(b"close") {
                    return true;
                }
            }
        }
    }
    false
}

// How many bytes the body has, or why the request is refused.
fn body_len(headers: &[Header<'_>], minor: u8, max_size: u64) -> Result<usize, WireRefusal> {
    match named(headers, "host") {
        Field::Absent if minor == 1 => return Err(WireRefusal::Host),
        Field::Many => return Err(WireRefusal::Host),
        _ => {}
    }
    let Field::Absent = named(headers, "transfer-encoding") else {
        return Err(WireRefusal::Coding);
    };
    let len = match named(headers, "content-length") {
        Field::Absent => Some(0),
        Field::One(text) => read_number(text),
        Field::Many => None,
    };
    match len {
        None => Err(WireRefusal::ContentLength),
        Some(len) if len > max_size => Err(WireRefusal::BodySize),
        Some(len) => Ok(len as usize),
    }
}

// What the fields of tus have in a head.
fn tus_fields<'a>(headers: &[Header<'a>]) -> TusFields<Field<'a>> {
    TusFields {
        version: named(headers, "tus-resumable"),
        length: named(headers, "upload-length"),
        defer: named(headers, "upload-defer-length"),
        offset: named(headers, "upload-offset"),
        metadata: named(headers, "upload-metadata"),
        concat: named(headers, "upload-concat"),
        checksum: named(headers, "upload-checksum"),
        media: named(headers, "content-type"),
    }
}

// The method that a request of this method asks for, which may stand for another.
fn asked_method(headers: &[Header<'_>], own: Method) -> Method {
    match named(headers, "x-http-method-override") {
        Field::Absent => own,
        Field::One(name) => method_of(name),
        Field::Many => Method::Other,
    }
}

// Whether a head says that its client waits for `100 Continue` before it sends the body.
fn expects_continue(headers: &[Header<'_>]) -> bool {
    match named(headers, "expect") {
        Field::One(text) => text.eq_ignore_ascii_case(b"100-continue"),
        _ => false,
    }
}

// A body of this length, and what follows it; or what there is of it, and nothing.
fn body_and_rest(text: &[u8], len: usize) -> (&[u8], Option<&[u8]>) {
    match text.split_at_checked(len) {
        Some((body, after)) => (body, Some(after)),
        None => (text, None),
    }
}

// What a head that was parsed begins, with the bytes that follow it.
fn with_head<'a>(head: &Head<'_, 'a>, rest: &'a [u8], max_size: u64) -> NextMessage<'a> {
    let headers = &*head.headers;
    let minor = head.version.unwrap_or(1);
    let own = method_of(head.method.unwrap_or("").as_bytes());
    let bare = matches!(own, Method::Head);
    match body_len(headers, minor, max_size) {
        Ok(len) => {
            let close = minor == 0 || closes(headers);
            let is_waiting = minor == 1 && expects_continue(headers) && len > 0;
            let (body, after) = body_and_rest(rest, len);
            let request = Request {
                method: asked_method(headers, own),
                path: read_path(head.path.unwrap_or("").as_bytes()),
                fields: tus_fields(headers),
                body,
                range: RangeAsked::Unserved,
                given: 0,
                more: 0,
            };
            NextMessage::Request(request, Framing { bare, close }, is_waiting, len, after)
        }
        Err(refusal) => NextMessage::Refused(refusal, Framing { bare, close: true }),
    }
}

//! What a request at the port for numbers asks for.
ghost use Rattle.std.specs.Prelude.{◌≡◌, ◌&&◌, not, length, All};
ghost use Rattle.std.specs.List.{list_any};
ghost use Rattle.httparse.specs.Spans.{IsHeaderWithin, span_bytes};
ghost use Rattle.admin_port.specs.Question.{Asks, asked_by, is_origin, read_by, stop_by};

use httparse::Status;
use httparse::spans::{EMPTY_HEADER_SPAN, HeaderSpan, parse_request};

/// The most fields of a request.
const FIELDS_MAX: usize = 64;

/// What somebody asks for.
#[derive(Clone, Copy, Debug, PartialEq, Eq)]
pub enum Question {
    /// All numbers.
    Metrics,
    /// Whether the service is there.
    Health,
    /// That the service end, asked for on this machine.
    Stop,
    /// The same, asked for from another machine, or by a page in a browser.
    StopFromElsewhere,
    /// Where a stop is asked for, but by another method.
    StopByOtherMethod,
    /// Something else, or nothing that is a request.
    Other,
}

/// What a request asks for of which these bytes came; `is_near` is that its sender is on this machine. None is that its head may
/// become whole, and is not yet. It takes no memory.
pub fn question_in(bytes: &[u8], is_near: bool) -> Option<Question>
    ensures { Asks is_near bytes.now result }
{
    let mut spans = [EMPTY_HEADER_SPAN; FIELDS_MAX];
    match parse_request(bytes, &mut spans) {
        Ok(Status::Complete(line)) => {
            let may_stop = may_stop(is_near, bytes, &spans[..line.headers]);
            Some(asked_by(line.method.of(bytes), line.path.of(bytes), may_stop))
        }
        Ok(Status::Partial) => None,
        Err(_) => Some(Question::Other),
    }
}

const STOP: &[u8] = b"/stop";

const METRICS: &[u8] = b"/metrics";

const HEALTH: &[u8] = b"/health";

const POST: &[u8] = b"POST";

const GET: &[u8] = b"GET";

// What a method at a target asks for.
fn asked_by(method: &[u8], target: &[u8], may_stop: bool) -> Question
    ensures { result ≡ asked_by method.now target.now may_stop }
{
    if target == STOP {
        stop_by(method, may_stop)
    } else if target == METRICS {
        read_by(method, Question::Metrics)
    } else if target == HEALTH {
        read_by(method, Question::Health)
    } else {
        Question::Other
    }
}

fn stop_by(method: &[u8], may_stop: bool) -> Question
    ensures { result ≡ stop_by method.now may_stop }
{
    if method != POST {
        Question::StopByOtherMethod
    } else if may_stop {
        Question::Stop
    } else {
        Question::StopFromElsewhere
    }
}

fn read_by(method: &[u8], question: Question) -> Question
    ensures { result ≡ read_by method.now question }
{
    if method == GET {
        question
    } else {
        Question::Other
    }
}

// Whether who sent a head with these fields may stop the service.
fn may_stop(is_near: bool, head: &[u8], spans: &[HeaderSpan]) -> bool
    requires { All (IsHeaderWithin (length head.now)) spans.now }
    ensures { result ≡ (is_near && not (list_any (λ s. is_origin (span_bytes head.now s.name)) spans.now)) }
{
    is_near && !has_origin(head, spans)
}

// Whether a field of a head tells of a page, whose writer may have asked.
fn has_origin(head: &[u8], spans: &[HeaderSpan]) -> bool
    requires { All (IsHeaderWithin (length head.now)) spans.now }
    ensures { result ≡ list_any (λ s. is_origin (span_bytes head.now s.name)) spans.now }
{
    for span in spans {
        if is_origin(span.name.of(head)) {
            return true;
        }
    }
    false
}

fn is_origin(name: &[u8]) -> bool
    ensures { result ≡ is_origin name.now }
{
    name.eq_ignore_ascii_case(b"origin")
}

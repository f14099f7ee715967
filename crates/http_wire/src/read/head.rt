ghost use Rattle.std.specs.Prelude.{◌≡◌, ◌≤◌, ◌<◌, ◌^◌, None, ℕ, List, length, IfOk, MatchOption};
ghost use Rattle.httparse.specs.Grammar.{RequestHead};
ghost use Rattle.httparse.specs.Spans.{IsWithin};
ghost use Rattle.http_wire.specs.RequestLimits.{AreSmall};
ghost use Rattle.http_wire.specs.Judge.{judge};
ghost use Rattle.http_wire.specs.Layout.{IsLayoutWithin, field_at};
ghost use Rattle.http_wire.specs.inside.HeadFields.{AreInside, ShowFields};
ghost use Rattle.http_wire.specs.inside.HeadLayout.{HasLine, IsLine, JudgesHead, ReadsLayout};
ghost use Rattle.tus_steps.specs.Field.{text_of};
ghost use Rattle.http_wire.specs.NextMessage.{Parses, method_of, method_by, closing, unknown_framing};

use crate::framing::Framing;
use crate::read::connection_fields::asks_to_continue;
use crate::read::fields::{FieldMap, HeadFields};
use crate::read::head_text::has_many_lines;
use crate::read::judge::judge;
use crate::read::layout::Layout;
use crate::refusal::WireRefusal;
use crate::request_limits::RequestLimits;
use httparse::Status;
use httparse::spans::{HeaderSpan, RequestSpans, parse_request};
use tus_steps::{Field, Method};

/// The most fields of a head.
pub const FIELD_LIMIT: usize = 64;

/// A request that the wire refuses by its head, and how its reply is framed.
#[derive(Clone, Copy)]
pub struct RefusedHead {
    pub refusal: WireRefusal,
    pub framing: Framing,
}

/// The framing of a refusal by a head that is not known.
pub const UNKNOWN_FRAMING: Framing = Framing {
    bare: false,
    close: true,
};

/// The layout of a head and of the body that follows it, or the first refusal of the wire that applies. The body has at most
/// as many bytes as `limits` tell. Where the fields stand is written to `spans`, and where those that count do, to
/// `map`; what these had is not read. It takes no memory.
pub fn read_layout(
    head: &[u8],
    spans: &mut [HeaderSpan; FIELD_LIMIT],
    map: &mut FieldMap,
    limits: RequestLimits,
) -> Result<Layout, RefusedHead>
    requires limits { AreSmall limits }
    ensures within { IfOk result (λ p. IsLayoutWithin (length head.now) p) }
    ensures size { IfOk result (λ p. p.body_len < 2 ^ 62) }
    ensures gives { ReadsLayout limits head.now result }
{
    if has_many_lines(head) {
        return Err(unknown(WireRefusal::HeadSize));
    }
    let Some(line) = parse(head, spans) else {
        return Err(unknown(WireRefusal::Head));
    };
    layout_of(
        line,
        head,
        &map.gather(head, &spans[..line.headers]),
        limits,
    )
}

fn unknown(refusal: WireRefusal) -> RefusedHead
    ensures { result ≡ record { refusal = refusal; framing = unknown_framing } }
{
    RefusedHead {
        refusal,
        framing: UNKNOWN_FRAMING,
    }
}

// The layout of a head that was parsed, and whose fields were gathered.
fn layout_of(
    line: RequestSpans,
    head: &[u8],
    fields: &HeadFields,
    limits: RequestLimits,
) -> Result<Layout, RefusedHead>
    requires limits { AreSmall limits }
    requires method { IsWithin (length head.now) line.method }
    requires target { IsWithin (length head.now) line.path }
    requires fields { AreInside (length head.now) fields.now }
    ensures within { IfOk result (λ p. IsLayoutWithin (length head.now) p) }
    ensures size { IfOk result (λ p. p.body_len < 2 ^ 62) }
    ensures shown { (h : RequestHead) → HasLine head.now line h
        → ShowFields head.now fields.now h.fields
        → JudgesHead limits head.now h result }
{
    let own = method_of(line.method.of(head));
    let framing = Framing {
        bare: own.is_head(),
        close: line.version == 0 || fields.has_close,
    };
    let method = method_by(own, fields.instead.of(head));
    let most = limits.most(method, fields.tus.checksum.of(head));
    match judge_fields(most, line.version, head, fields) {
        Err(refusal) => Err(RefusedHead {
            refusal,
            framing: closing(framing),
        }),
        Ok(body_len) => {
            let expect = fields.expect.of(head);
            Ok(Layout {
                method,
                framing,
                is_waiting: line.version == 1 && asks_to_continue(expect) && body_len > 0,
                head_len: head.len(),
                body_len: body_len as usize,
                given: 0,
                more: 0,
                created: None,
                target: line.path,
                fields: fields.tus,
                range: limits.range(fields.range.of(head), fields.condition.of(head)),
            })
        }
    }
}

// The length of the body of a head with these fields, or the first refusal by them that applies.
fn judge_fields(most: u64, minor: u8, head: &[u8], fields: &HeadFields) -> Result<u64, WireRefusal>
    requires { AreInside (length head.now) fields.now }
    ensures judges { result ≡ judge most minor (field_at head.now fields.now.host)
        (field_at head.now fields.now.coding) (field_at head.now fields.now.length) }
    ensures few { IfOk result (λ n. n ≤ most) }
{
    let host = fields.host.of(head);
    let coding = fields.coding.of(head);
    let length = fields.length.of(head);
    judge(most, minor, host, coding, length)
}

/// The framing of a reply after which the connection closes.
pub fn closing(framing: Framing) -> Framing
    ensures { result ≡ closing framing }
{
    Framing {
        bare: framing.bare,
        close: true,
    }
}

const POST: &[u8] = b"POST";

const HEAD: &[u8] = b"HEAD";

const PATCH: &[u8] = b"PATCH";

const GET: &[u8] = b"GET";

const DELETE: &[u8] = b"DELETE";

const OPTIONS: &[u8] = b"OPTIONS";

// The method that a name stands for, which is compared by exact case.
fn method_of(name: &[u8]) -> Method
    ensures { result ≡ method_of name.now }
{
    if name == POST {
        Method::Post
    } else if name == HEAD {
        Method::Head
    } else if name == PATCH {
        Method::Patch
    } else if name == GET {
        Method::Get
    } else if name == DELETE {
        Method::Delete
    } else if name == OPTIONS {
        Method::Options
    } else {
        Method::Other
    }
}

// The method in force: the one that an override names in place of the request's own.
fn method_by(own: Method, instead: Field<'_>) -> Method
    ensures { (name : List ℕ) → own ≡ method_of name → result ≡ method_by name (text_of instead.entry) }
{
    match instead {
        Field::Absent => own,
        Field::One(value) => method_of(value),
        Field::Many => Method::Other,
    }
}

// The spans of a head that is one of a request as a whole.
fn parse(head: &[u8], spans: &mut [HeaderSpan; FIELD_LIMIT]) -> Option<RequestSpans>
    ensures { MatchOption result (Parses head.now None) (λ line. (h : RequestHead)
        × IsLine head.now spans.new line h) }
{
    match parse_request(head, spans) {
        Ok(Status::Complete(line)) => {
            if line.len == head.len() {
                Some(line)
            } else {
                None
            }
        }
        Ok(Status::Partial) => None,
        Err(_) => None,
    }
}

//! The fields of a head that count, by their names.
ghost use Rattle.std.specs.Prelude.{◌≡◌, ℕ, List, [], ◌∷◌, length, map, All, codes, OnOk};
ghost use Rattle.std.specs.List.{list_any};
ghost use Rattle.http_header.specs.HeaderMap.{insert};
ghost use Rattle.httparse.specs.Spans.{IsHeaderWithin, span_bytes};
ghost use Rattle.http_wire.specs.ConnectionFields.{closes};
ghost use Rattle.http_header.specs.Token.{lowercase};
ghost use Rattle.http_wire.specs.Layout.{IsInside, field_at};
ghost use Rattle.http_wire.specs.inside.HeadFields.{IsFieldMap, Shows, added, changed, closes_by, found_by, found_in, head_fields, never, place_in, spans_named, with_value};

use crate::read::connection_fields::has_close;
use http_header::{HeaderMap, HeaderName, Values};
use httparse::spans::{HeaderSpan, Span};
use std::alloc::{AllocError, Global};
use std::marker::Model;
use tus_steps::{Field, TusFields};

/// Where the value of a field stands in a head.
#[derive(Clone, Copy)]
pub enum FieldSpan {
    /// No field has the name.
    Absent,

    /// One field has it, and its value stands here.
    One(Span),

    /// Two or more fields have it.
    Many,
}

impl FieldSpan {
    ghost use Rattle.tus_steps.specs.Field.{text_of, is_absent as absent_in};

    /// Whether no field has the name.
    pub fn is_absent(self) -> bool
        ensures { (head : List ℕ) → result ≡ absent_in (field_at head self) }
    {
        matches!(self, FieldSpan::Absent)
    }

    /// What stands there in the head.
    pub fn of(self, head: &[u8]) -> Field<'_>
        requires { IsInside (length head.now) self }
        ensures { text_of result ≡ field_at head.now self }
    {
        match self {
            FieldSpan::Absent => Field::Absent,
            FieldSpan::One(span) => Field::One(span.of(head)),
            FieldSpan::Many => Field::Many,
        }
    }

    // With one more field of the name, whose value stands there.
    fn with(self, value: Span) -> FieldSpan
        ensures { result ≡ added self value }
    {
        match self {
            FieldSpan::Absent => FieldSpan::One(value),
            FieldSpan::One(_) | FieldSpan::Many => FieldSpan::Many,
        }
    }
}

/// Where the fields of a head stand that count.
#[derive(Clone, Copy)]
pub struct HeadFields {
    pub host: FieldSpan,
    /// `Content-Length`.
    pub length: FieldSpan,
    /// `Transfer-Encoding`.
    pub coding: FieldSpan,
    pub expect: FieldSpan,
    /// `X-HTTP-Method-Override`.
    pub instead: FieldSpan,
    pub range: FieldSpan,
    /// `If-Range`.
    pub condition: FieldSpan,
    /// Whether a Connection field has the token `close`.
    pub has_close: bool,
    /// The fields that count for the steps.
    pub tus: TusFields<FieldSpan>,
}

/// What was found under a name: the number of the head that had it last, from 1, and where it stands there.
#[derive(Clone, Copy)]
pub struct Found {
    number: u64,
    place: FieldSpan,
}

impl Found {
    // Nothing in any head.
    const NEVER: Found = Found {
        number: 0,
        place: FieldSpan::Absent,
    };

    // What was found in the head of this number: nothing, if another had the name last.
    fn in_head(&self, number: u64) -> FieldSpan
        ensures { result ≡ found_in number self.now }
    {
        if self.number == number {
            self.place
        } else {
            FieldSpan::Absent
        }
    }

    // With one more value in the head of this number.
    fn with(&self, number: u64, value: Span) -> Found
        ensures { result ≡ with_value number value self.now }
    {
        Found {
            number,
            place: self.in_head(number).with(value),
        }
    }
}

/// How many names count.
const NAME_COUNT: usize = 16;

/// The fields that count by their names, which are told without regard to case: where the values of each stand in the head
/// that was read last. It takes memory only where it is made, since the names are put in there. Between two heads it is
/// cleared of values, and keeps the names.
#[derive(Drop)]
pub struct FieldMap {
    found: HeaderMap<Found>,
    // How many heads were read. What was found in an earlier one counts no more, so counting a head clears the map.
    heads: u64,
}

impl Model for FieldMap {
    ghost use Rattle.std.specs.Prelude.{ℕ};
    ghost use Rattle.http_wire.specs.inside.HeadFields.{IsFieldMap};

    ghost Value = { ℕ };

    ghost view = { λ m. m.heads };

    ghost invariant = { λ m. IsFieldMap m.heads m.found };
}

impl FieldMap {
    /// A map in which nothing was found. The error is that memory is lacking.
    pub fn new(alloc: Global) -> Result<Self, AllocError> {
        let Ok(mut found) = HeaderMap::with_capacity(alloc, NAME_COUNT) else {
            return Err(AllocError);
        };
        name_all(&mut found)?;
        Ok(FieldMap { found, heads: 0 })
    }

    /// Where the fields of `head` stand that count, in one pass over all of them. Any other field is passed over. It takes
    /// no memory.
    pub fn gather(&mut self, head: &[u8], spans: &[HeaderSpan]) -> HeadFields
        requires within { All (IsHeaderWithin (length head.now)) spans.now }
        ensures { result ≡ head_fields head.now spans.now }
    {
        self.heads = next_head(&mut self.found, self.heads);
        note_all(&mut self.found, self.heads, head, spans);
        fields_in(&self.found, self.heads, head, spans)
    }
}

// Puts each name that counts into an empty map.
fn name_all(map: &mut HeaderMap<Found>) -> Result<(), AllocError>
    requires { map.old ≡ [] }
    ensures { OnOk result (map.new ≡ found_by (λ _. never)) }
{
    put(map, HeaderName::from_static("host"))?;
    put(map, HeaderName::from_static("expect"))?;
    put(map, HeaderName::from_static("content-length"))?;
    put(map, HeaderName::from_static("transfer-encoding"))?;
    put(map, HeaderName::from_static("x-http-method-override"))?;
    put(map, HeaderName::from_static("connection"))?;
    put(map, HeaderName::from_static("range"))?;
    put(map, HeaderName::from_static("if-range"))?;
    put(map, HeaderName::from_static("tus-resumable"))?;
    put(map, HeaderName::from_static("upload-length"))?;
    put(map, HeaderName::from_static("upload-defer-length"))?;
    put(map, HeaderName::from_static("upload-offset"))?;
    put(map, HeaderName::from_static("upload-metadata"))?;
    put(map, HeaderName::from_static("upload-concat"))?;
    put(map, HeaderName::from_static("upload-checksum"))?;
    put(map, HeaderName::from_static("content-type"))
}

// Puts a name into the map, under which nothing was found.
fn put(map: &mut HeaderMap<Found>, name: HeaderName) -> Result<(), AllocError>
    ensures { OnOk result (map.new ≡ insert map.old name never) }
{
    match map.insert(name, Found::NEVER) {
        Ok(_) => Ok(()),
        Err(_) => Err(AllocError),
    }
}

// The number of the next head, in which nothing was found yet. After 2^64 - 1 heads they are counted anew.
fn next_head(map: &mut HeaderMap<Found>, heads: u64) -> u64
    requires { IsFieldMap heads map.old }
    ensures { (head : List ℕ) → Shows result head [] map.new }
{
    if heads == u64::MAX {
        forget_all(map);
        return 1;
    }
    heads + 1
}

// Forgets what was found in any head.
fn forget_all(map: &mut HeaderMap<Found>)
    requires { (heads : ℕ) × IsFieldMap heads map.old }
    ensures { map.new ≡ found_by (λ _. never) }
{
    forget(map, b"host");
    forget(map, b"expect");
    forget(map, b"content-length");
    forget(map, b"transfer-encoding");
    forget(map, b"x-http-method-override");
    forget(map, b"connection");
    forget(map, b"range");
    forget(map, b"if-range");
    forget(map, b"tus-resumable");
    forget(map, b"upload-length");
    forget(map, b"upload-defer-length");
    forget(map, b"upload-offset");
    forget(map, b"upload-metadata");
    forget(map, b"upload-concat");
    forget(map, b"upload-checksum");
    forget(map, b"content-type");
}

// Forgets what was found under a name.
fn forget(map: &mut HeaderMap<Found>, name: &[u8])
    ensures { map.new ≡ changed (λ _. never) map.old (lowercase name.now) }
{
    if let Some(found) = map.get_mut(name) {
        *found = Found::NEVER;
    }
}

// Notes the fields of a head, each under its name if that counts.
fn note_all(map: &mut HeaderMap<Found>, number: u64, head: &[u8], spans: &[HeaderSpan])
    requires within { All (IsHeaderWithin (length head.now)) spans.now }
    requires none { Shows number head.now [] map.old }
    ensures { Shows number head.now spans.now map.new }
{
    for span in spans {
        note(map, number, head, *span);
    }
}

// Notes one more field of a head, if its name counts.
fn note(map: &mut HeaderMap<Found>, number: u64, head: &[u8], span: HeaderSpan)
    requires { IsHeaderWithin (length head.now) span }
    ensures { map.new ≡ changed (with_value number span.value) map.old (lowercase (span_bytes head.now span.name)) }
{
    if let Some(found) = map.get_mut(span.name.of(head)) {
        *found = found.with(number, span.value);
    }
}

// What was found in the head of this number, which has these fields: name by name, in the order in which they were put in.
fn fields_in(map: &HeaderMap<Found>, number: u64, head: &[u8], spans: &[HeaderSpan]) -> HeadFields
    requires within { All (IsHeaderWithin (length head.now)) spans.now }
    requires shows { Shows number head.now spans.now map.now }
    ensures { result ≡ head_fields head.now spans.now }
{
    let mut found = map.values();
    let host = next_place(&mut found, number);
    let expect = next_place(&mut found, number);
    let length = next_place(&mut found, number);
    let coding = next_place(&mut found, number);
    let instead = next_place(&mut found, number);
    let connection = next_place(&mut found, number);
    let range = next_place(&mut found, number);
    let condition = next_place(&mut found, number);
    let version = next_place(&mut found, number);
    let upload_length = next_place(&mut found, number);
    let defer = next_place(&mut found, number);
    let offset = next_place(&mut found, number);
    let metadata = next_place(&mut found, number);
    let concat = next_place(&mut found, number);
    let checksum = next_place(&mut found, number);
    let media = next_place(&mut found, number);
    HeadFields {
        host,
        length,
        coding,
        expect,
        instead,
        range,
        condition,
        has_close: closes(connection, head, spans),
        tus: TusFields {
            version,
            length: upload_length,
            defer,
            offset,
            metadata,
            concat,
            checksum,
            media,
        },
    }
}

// What was found in the head of this number under the next name.
fn next_place(found: &mut Values<'_, Found>, number: u64) -> FieldSpan
    ensures { (f : Found) (rest : List Found) → found.old ≡ f ∷ rest → (result ≡ found_in number f) × (found.new ≡ rest) }
{
    match found.next() {
        Some(found) => found.in_head(number),
        None => FieldSpan::Absent,
    }
}

// Whether a Connection field has the token `close`. `place` is where the one of them stands, if there is one.
fn closes(place: FieldSpan, head: &[u8], spans: &[HeaderSpan]) -> bool
    requires within { All (IsHeaderWithin (length head.now)) spans.now }
    requires place { place ≡ place_in (spans_named head.now (codes "connection") spans.now) }
    ensures { result ≡ closes (map (span_bytes head.now) (spans_named head.now (codes "connection") spans.now)) }
{
    match place {
        FieldSpan::Absent => false,
        FieldSpan::One(value) => has_close(value.of(head)),
        FieldSpan::Many => any_closes(head, spans),
    }
}

// Whether one of several Connection fields has the token `close`.
fn any_closes(head: &[u8], spans: &[HeaderSpan]) -> bool
    requires { All (IsHeaderWithin (length head.now)) spans.now }
    ensures { result ≡ list_any (closes_by head.now) spans.now }
{
    spans.iter().any(|span| closes_by(head, *span))
}

// Whether this is a Connection field that has the token `close`.
fn closes_by(head: &[u8], span: HeaderSpan) -> bool
    requires { IsHeaderWithin (length head.now) span }
    ensures { result ≡ closes_by head.now span }
{
    span.name.of(head).eq_ignore_ascii_case(b"connection") && has_close(span.value.of(head))
}

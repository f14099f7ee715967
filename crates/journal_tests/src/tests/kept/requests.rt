//! A script of forty changes, five times eight: an upload of acme, created with two bytes and patched twice; a partial one, a
//! final one of it, and the end of the partial one; one whose length is told later; and the end of the first.
use crate::tests::acme::FIELDS as PLAIN;
use std::process::Abort;
use tus_steps::{Field, Method, RangeAsked, Request, TusFields};
use tus_text::read_path;
use upload_book::Moment;

/// How many changes the script has.
pub(crate) const CHANGES: u64 = 40;

// Those of a request of the script, which may have bytes.
const FIELDS: TusFields<Field<'static>> = TusFields {
    media: Field::One(b"application/offset+octet-stream"),
    ..PLAIN
};

/// The moment of all requests.
pub(crate) fn moment(rt: &impl Abort) -> Moment {
    let Some(moment) = Moment::new(1000) else {
        panic!(rt; "no moment");
    };
    moment
}

// The final upload of each eight changes, of the partial one before it.
static FINALS: [&[u8]; 5] = [
    b"final;/files/acme/2",
    b"final;/files/acme/6",
    b"final;/files/acme/10",
    b"final;/files/acme/14",
    b"final;/files/acme/18",
];

/// The change of this number, from 0, of an upload whose path this is.
pub(crate) fn request(number: u64, path: &[u8]) -> Request<'static> {
    let (method, fields, body) = asked(number % 8, number / 8);
    Request {
        method,
        path: read_path(path),
        fields,
        body,
        range: RangeAsked::Unserved,
        given: 0,
        more: 0,
    }
}

/// A HEAD of an upload.
pub(crate) fn head(path: &[u8]) -> Request<'static> {
    Request {
        method: Method::Head,
        path: read_path(path),
        fields: FIELDS,
        body: b"",
        range: RangeAsked::Unserved,
        given: 0,
        more: 0,
    }
}

// What the change at a place of the eight asks for, when these come for the time of this number.
fn asked(place: u64, time: u64) -> (Method, TusFields<Field<'static>>, &'static [u8]) {
    match place {
        0 => (Method::Post, with_length(b"6"), b"ab"),
        1 => (Method::Patch, at_offset(b"2"), b"cd"),
        2 => (Method::Patch, at_offset(b"4"), b"ef"),
        3 => (Method::Post, with_concat(b"partial", b"2"), b"xy"),
        4 => (Method::Post, final_of(time), b""),
        6 => (Method::Post, DEFERRED, b"z"),
        _ => (Method::Delete, FIELDS, b""),
    }
}

const DEFERRED: TusFields<Field<'static>> = TusFields {
    defer: Field::One(b"1"),
    ..FIELDS
};

fn with_length(length: &'static [u8]) -> TusFields<Field<'static>> {
    TusFields {
        length: Field::One(length),
        ..FIELDS
    }
}

fn at_offset(offset: &'static [u8]) -> TusFields<Field<'static>> {
    TusFields {
        offset: Field::One(offset),
        ..FIELDS
    }
}

fn with_concat(concat: &'static [u8], length: &'static [u8]) -> TusFields<Field<'static>> {
    TusFields {
        concat: Field::One(concat),
        ..with_length(length)
    }
}

fn final_of(time: u64) -> TusFields<Field<'static>> {
    TusFields {
        concat: match FINALS.get(time as usize) {
            Some(text) => Field::One(text),
            None => Field::Absent,
        },
        ..FIELDS
    }
}

// The uploads of acme, by their ids from 1.
static UPLOADS: [&[u8]; 20] = [
    b"/files/acme/1",
    b"/files/acme/2",
    b"/files/acme/3",
    b"/files/acme/4",
    b"/files/acme/5",
    b"/files/acme/6",
    b"/files/acme/7",
    b"/files/acme/8",
    b"/files/acme/9",
    b"/files/acme/10",
    b"/files/acme/11",
    b"/files/acme/12",
    b"/files/acme/13",
    b"/files/acme/14",
    b"/files/acme/15",
    b"/files/acme/16",
    b"/files/acme/17",
    b"/files/acme/18",
    b"/files/acme/19",
    b"/files/acme/20",
];

fn upload(place: u64) -> &'static [u8] {
    match UPLOADS.get(place as usize) {
        Some(path) => path,
        None => b"",
    }
}

// The path of the change of this number. Each eight changes make four uploads.
fn path_of(number: u64) -> &'static [u8] {
    let first = number / 8 * 4;
    match number % 8 {
        0 | 3 | 4 | 6 => b"/files/acme",
        5 => upload(first + 1),
        _ => upload(first),
    }
}

/// The change of this number.
pub(crate) fn change(number: u64) -> Request<'static> {
    request(number, path_of(number))
}

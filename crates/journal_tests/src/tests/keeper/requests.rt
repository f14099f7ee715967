//! What desks are asked here.
use crate::tests::acme::{FIELDS, NUMBERS};
use std::process::Abort;
use tus_shared::Turn;
use tus_steps::{Field, Method, RangeAsked, Request, TusFields};
use tus_text::read_path;
use upload_book::{Moment, Numbers, Settings};

const LARGE: Numbers = Numbers {
    blocks: 1_000,
    block_size: 65_536,
    max_size: 12 << 20,
    ..NUMBERS
};

/// The settings of acme with 50 MiB, and uploads of at most 12 MiB.
pub(crate) fn large_settings(rt: &impl Abort) -> Settings {
    let Ok(settings) = Settings::new(LARGE, &[(b"acme", 1_000)]) else {
        panic!(rt; "no settings");
    };
    settings
}

/// What is asked of acme.
#[derive(Clone, Copy)]
pub(crate) enum Asked<'a> {
    /// A creation of six bytes.
    Create,
    /// A creation whose length is told later.
    Begin,
    /// The first bytes of the upload at a path.
    Patch(&'static [u8], &'a [u8]),
    /// The end of the upload at a path.
    Delete(&'static [u8]),
}

fn request(asked: Asked<'_>) -> Request<'_> {
    match asked {
        Asked::Create => Request {
            method: Method::Post,
            path: read_path(b"/files/acme"),
            fields: TusFields {
                length: Field::One(b"6"),
                ..FIELDS
            },
            body: b"",
            range: RangeAsked::Unserved,
            given: 0,
            more: 0,
        },
        Asked::Begin => Request {
            method: Method::Post,
            path: read_path(b"/files/acme"),
            fields: TusFields {
                defer: Field::One(b"1"),
                ..FIELDS
            },
            body: b"",
            range: RangeAsked::Unserved,
            given: 0,
            more: 0,
        },
        Asked::Patch(path, body) => Request {
            method: Method::Patch,
            path: read_path(path),
            fields: TusFields {
                offset: Field::One(b"0"),
                media: Field::One(b"application/offset+octet-stream"),
                ..FIELDS
            },
            body,
            range: RangeAsked::Unserved,
            given: 0,
            more: 0,
        },
        Asked::Delete(path) => Request {
            method: Method::Delete,
            path: read_path(path),
            fields: FIELDS,
            body: b"",
            range: RangeAsked::Unserved,
            given: 0,
            more: 0,
        },
    }
}

/// A turn that asks this at second 1000.
pub(crate) fn turn<'a>(rt: &impl Abort, asked: Asked<'a>) -> Turn<'a> {
    Turn {
        request: request(asked),
        now: Moment::new(1000).expect(rt, "a moment"),
    }
}

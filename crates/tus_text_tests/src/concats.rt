//! What values of Upload-Concat say, by the reader and by the plain program.
use crate::plain::{PlainConcat, plain_concat};
use std::process::Abort;
use tus_text::{Concat, PartPath, read_concat};

// Tenants and ids.
type Paths = &'static [(&'static [u8], u64)];

fn assert_part(rt: &impl Abort, part: &PartPath, tenant: &[u8], id: u64) {
    assert!(rt; part.tenant.as_slice() == tenant, "tenant of upload {id}");
    assert!(rt; part.id == id, "upload {id}");
}

fn assert_parts(rt: &impl Abort, parts: &[PartPath], paths: Paths) {
    assert!(rt; parts.len() == paths.len());
    for (part, (tenant, id)) in parts.iter().zip(paths) {
        assert_part(rt, part, tenant, *id);
    }
}

fn assert_read(rt: &impl Abort, text: &[u8], paths: Paths, row: usize) {
    let Some(Concat::Final(parts)) = read_concat(text) else {
        panic!(rt; "row {row}");
    };
    assert_parts(rt, parts.as_slice(), paths);
}

fn assert_plain(rt: &impl Abort, text: &[u8], paths: Paths, row: usize) {
    let Some(PlainConcat { parts: Some(parts) }) = plain_concat(text) else {
        panic!(rt; "row {row}");
    };
    assert_parts(rt, parts.parts.as_slice(), paths);
}

// The text is a list of these parts.
fn assert_final(rt: &impl Abort, text: &[u8], paths: Paths, row: usize) {
    assert_read(rt, text, paths, row);
    assert_plain(rt, text, paths, row);
}

// The text says nothing of an upload.
fn assert_none(rt: &impl Abort, text: &[u8], row: usize) {
    assert!(rt; read_concat(text).is_none(), "row {row}");
    assert!(rt; plain_concat(text).is_none(), "row {row}");
}

fn assert_partial(rt: &impl Abort, text: &[u8]) {
    assert!(rt; matches!(read_concat(text), Some(Concat::Partial)));
    assert!(rt; matches!(plain_concat(text), Some(PlainConcat { parts: None })));
}

static FINALS: [(&[u8], Paths); 3] = [
    (
        b"final;/files/acme/1 http://h:1/files/acme/2",
        &[(b"acme", 1), (b"acme", 2)],
    ),
    (b"final;  /files/acme/7", &[(b"acme", 7)]),
    (
        b"final;/files/acme/2   /files/beta/2 /files/acme/2",
        &[(b"acme", 2), (b"beta", 2), (b"acme", 2)],
    ),
];

#[test]
fn concats(rt: HostRuntime) {
    assert_partial(&rt, b"partial");
    for (row, (text, paths)) in FINALS.iter().enumerate() {
        assert_final(&rt, text, paths, row);
    }
}

static OTHERS: [&[u8]; 15] = [
    b"",
    b"Partial",
    b" partial",
    b"partial;",
    b"final",
    b"final;",
    b"final; ",
    b"Final;/files/acme/1",
    b"final;/files/acme/1 ",
    b"final;/files/acme/1,/files/acme/2",
    b"final;/files/acme/1\t/files/acme/2",
    b"final;/files/acme/1 x",
    b"final;/files/acme",
    b"final;/files/acme/1 /files/acme/",
    b"final;/files/acme/1 /files/acme/0",
];

#[test]
fn no_concats(rt: HostRuntime) {
    for (row, text) in OTHERS.iter().enumerate() {
        assert_none(&rt, text, row);
    }
}

// The first bytes of `final;` and then of a space and a target, 14 bytes, over and over.
fn many_parts<const N: usize>() -> [u8; N] {
    let mut text = [0; N];
    for place in 0..N {
        text[place] = if place < 6 {
            b"final;"[place]
        } else {
            b" /files/acme/1"[(place - 6) % 14]
        };
    }
    text
}

static THIRTY_TWO: [(&[u8], u64); 32] = [(b"acme", 1); 32];

static ONE: [(&[u8], u64); 1] = [(b"acme", 1)];

#[test]
fn a_concat_of_many_parts(rt: HostRuntime) {
    assert_final(&rt, &many_parts::<454>(), &THIRTY_TWO, 0);
    assert_none(&rt, &many_parts::<468>(), 1);
}

#[test]
fn a_concat_of_many_bytes(rt: HostRuntime) {
    let part = b"/files/acme/1";
    let mut text = [b' '; 2_049];
    text[..6].copy_from_slice(b"final;");
    text[2_035..2_048].copy_from_slice(part);
    assert_final(&rt, &text[..2_048], &ONE, 0);
    text[2_035] = b' ';
    text[2_036..].copy_from_slice(part);
    assert_none(&rt, &text, 1);
}

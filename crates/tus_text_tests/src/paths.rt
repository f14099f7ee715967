//! The paths that targets name, by the reader and by the plain program.
use crate::plain::plain_path;
use std::process::Abort;
use tus_text::{Path, read_path};

// Whether a path names this tenant, and this upload where there is an id.
fn is_named(path: &Path, tenant: &[u8], id: Option<u64>) -> bool {
    match path {
        Path::Create { tenant: named } => named.as_slice() == tenant && id.is_none(),
        Path::Upload {
            tenant: named,
            id: number,
        } => { named.as_slice() == tenant && id == Some(*number) }
        Path::Other => false,
    }
}

static PATHS: [(&[u8], &[u8], Option<u64>); 11] = [
    (b"/files/acme", b"acme", None),
    (b"/files/acme/", b"acme", None),
    (b"/files/beta", b"beta", None),
    (b"/files/acme/1", b"acme", Some(1)),
    (b"/files/gamma/1", b"gamma", Some(1)),
    (b"/files/a-1/10", b"a-1", Some(10)),
    (
        b"/files/acme/18446744073709551615",
        b"acme",
        Some(18_446_744_073_709_551_615),
    ),
    (b"http://h:1/files/acme/2", b"acme", Some(2)),
    (b"HTTPS://h/files/acme", b"acme", None),
    (b"hTtp://h%20:1/files/acme/", b"acme", None),
    (
        b"/files/abcdefghijklmnopqrstuvwxyz012345",
        b"abcdefghijklmnopqrstuvwxyz012345",
        None,
    ),
];

fn assert_path(rt: &impl Abort, target: &[u8], tenant: &[u8], id: Option<u64>, row: usize) {
    assert!(rt; is_named(&read_path(target), tenant, id), "row {row}");
    assert!(rt; is_named(&plain_path(target), tenant, id), "row {row}");
}

#[test]
fn paths_of_a_tenant(rt: HostRuntime) {
    for (row, (target, tenant, id)) in PATHS.iter().enumerate() {
        assert_path(&rt, target, tenant, *id, row);
    }
}

static OTHERS: [&[u8]; 22] = [
    b"",
    b"*",
    b"/",
    b"/other",
    b"/files",
    b"/files/",
    b"/files//1",
    b"files/acme",
    b"/files/acme/0",
    b"/files/acme/01",
    b"/files/acme/1/",
    b"/files/acme/+1",
    b"/files/acme/18446744073709551616",
    b"/files/acme/1?x",
    b"/files/acme%31",
    b"/files/Acme",
    b"/files/abcdefghijklmnopqrstuvwxyz0123456",
    b"http:///files/acme",
    b"http://h?x/files/acme",
    b"http://h",
    b"ftp://h/files/acme",
    b"http:/files/acme",
];

fn assert_other(rt: &impl Abort, target: &[u8], row: usize) {
    assert!(rt; matches!(read_path(target), Path::Other), "row {row}");
    assert!(rt; matches!(plain_path(target), Path::Other), "row {row}");
}

#[test]
fn other_paths(rt: HostRuntime) {
    for (row, target) in OTHERS.iter().enumerate() {
        assert_other(&rt, target, row);
    }
}

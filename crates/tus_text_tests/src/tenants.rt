//! Names of tenants, and the texts that keep them.
use crate::rows::assert_rows;
use tus_text::{Tenant, is_tenant_name};

static TENANTS: [(&[u8], bool); 7] = [
    (b"acme", true),
    (b"-0-", true),
    (b"abcdefghijklmnopqrstuvwxyz012345", true),
    (b"abcdefghijklmnopqrstuvwxyz0123456", false),
    (b"", false),
    (b"Acme", false),
    (b"a/b", false),
];

fn is_name(name: &[u8], is_one: bool) -> bool {
    is_tenant_name(name) == is_one
}

#[test]
fn tenants(rt: HostRuntime) {
    assert_rows(&rt, &TENANTS, is_name);
}

#[test]
fn texts_keep_their_bytes(rt: HostRuntime) {
    let name = b"abcdefghijklmnopqrstuvwxyz012345".as_slice();
    let text = Tenant::of(name);
    assert!(rt; text.copied().as_slice() == name);
    assert!(rt; !text.is_empty());
    assert!(rt; Tenant::empty().is_empty());
}

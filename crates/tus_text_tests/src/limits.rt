//! The numbers that callers read from the constants; the tests of each reader stand at them.
use tus_text::{CONCAT_MAX, LAST_SECOND, METADATA_MAX, PARTS_MAX, TENANT_MAX};

#[test]
fn limits(rt: HostRuntime) {
    assert!(rt; METADATA_MAX == 1_024);
    assert!(rt; CONCAT_MAX == 2_048);
    assert!(rt; PARTS_MAX == 32);
    assert!(rt; TENANT_MAX == 32);
    assert!(rt; LAST_SECOND == 253_402_300_799);
}

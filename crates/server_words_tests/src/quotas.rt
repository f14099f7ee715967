//! Quotas, as texts write them.
use server_words::read_quota;

/// A text, and the quota that is wanted of it for blocks of 4096 bytes.
static QUOTAS: [(&[u8], u64); 9] = [
    (b"4096", 4096),
    (b"0", 0),
    (b"16MiB", 4096),
    (b"4KiB", 1),
    (b"3KiB", 0),
    (b"7KiB", 1),
    (b"1GiB", 262_144),
    (b"1TiB", 268_435_456),
    (b"0MiB", 0),
];

/// Texts that are no quota.
static NO_QUOTAS: [&[u8]; 6] = [b"16mib", b"16MB", b"16PiB", b"MiB", b"1.5MiB", b"16 MiB"];

/// A text, the bytes of a block, and the quota that is wanted.
type Row = (&'static [u8], u64, Option<u64>);

static OTHER_BLOCKS: [Row; 5] = [
    (b"16MiB", 65536, Some(256)),
    (b"1KiB", 1000, Some(1)),
    (b"16777215TiB", 1, Some(18_446_742_974_197_923_840)),
    (b"16777216TiB", 1, None),
    (b"18446744073709551616", 1, None),
];

fn is_as_wanted(row: &Row) -> bool {
    read_quota(row.0, row.1) == row.2
}

#[test]
fn quotas_of_texts(rt: HostRuntime) {
    for (text, quota) in &QUOTAS {
        assert!(rt; is_as_wanted(&(text, 4096, Some(*quota))));
    }
    for text in &NO_QUOTAS {
        assert!(rt; is_as_wanted(&(text, 4096, None)));
    }
    for row in &OTHER_BLOCKS {
        assert!(rt; is_as_wanted(row));
    }
}

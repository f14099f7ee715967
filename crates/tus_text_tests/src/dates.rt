//! Dates: as they are written, as the plain program writes them, and as they are read.
use crate::plain::plain_expires;
use std::process::Abort;
use tus_text::{read_expires, write_expires};

static DATES: [(u64, &[u8]); 4] = [
    (1000, b"Thu, 01 Jan 1970 00:16:40 GMT"),
    (4600, b"Thu, 01 Jan 1970 01:16:40 GMT"),
    (784_111_777, b"Sun, 06 Nov 1994 08:49:37 GMT"),
    (253_402_300_799, b"Fri, 31 Dec 9999 23:59:59 GMT"),
];

fn is_read(text: &[u8], secs: Option<u64>) -> bool {
    read_expires(text) == secs
}

fn assert_written(rt: &impl Abort, secs: u64, text: &[u8], row: usize) {
    assert!(rt; secs <= 253_402_300_799);
    assert!(rt; write_expires(secs).as_slice() == text, "row {row}");
    assert!(rt; plain_expires(secs).as_slice() == text, "row {row}");
}

#[test]
fn dates(rt: HostRuntime) {
    for (row, (secs, text)) in DATES.iter().enumerate() {
        assert_written(&rt, *secs, text, row);
        assert!(rt; is_read(text, Some(*secs)), "row {row}");
    }
}

static OTHER_FORMATS: [&[u8]; 2] = [
    b"Sunday, 06-Nov-94 08:49:37 GMT",
    b"Sun Nov  6 08:49:37 1994",
];

static NO_DATES: [&[u8]; 7] = [
    b"",
    b"1000",
    b"Sun, 06 Nov 1994 08:49:37 GMT ",
    b"Mon, 06 Nov 1994 08:49:37 GMT",
    b"Thu, 30 Feb 1995 08:49:37 GMT",
    b"Wed, 31 Dec 1969 23:59:59 GMT",
    b"Sat, 01 Jan 10000 00:00:00 GMT",
];

// Asserts that the same is read of each text.
fn assert_read(rt: &impl Abort, texts: &[&[u8]], secs: Option<u64>) {
    for (row, text) in texts.iter().enumerate() {
        assert!(rt; is_read(text, secs), "row {row}");
    }
}

#[test]
fn dates_of_other_formats(rt: HostRuntime) {
    assert_read(&rt, &OTHER_FORMATS, Some(784_111_777));
    assert_read(&rt, &NO_DATES, None);
}

//! Bytes that are no record.
use journal_records::{PARTS_MAX, PartIds, Segments, read_record};
use std::alloc::Global;
use std::process::Abort;

// Whether the bytes are a record.
fn is_record(bytes: &[u8]) -> bool {
    let mut parts = PartIds::new();
    let mut segments = Segments::new();
    read_record(bytes, &mut parts, &mut segments).is_some()
}

// Bytes that are a record, each beside some that are not.
static RECORDS: [&[u8]; 4] = [
    // the last second of the year 9999
    &[0, 0, 0, 58, 255, 244, 65, 127, 4],
    // a DELETE, a next id and totals
    &[0, 0, 0, 0, 0, 0, 0, 0, 3, 0, 0, 0, 0, 0, 0, 0, 0, 1],
    &[0, 0, 0, 0, 0, 0, 0, 0, 6, 0, 0, 0, 0, 0, 0, 0, 0, 1],
    &[0, 0, 0, 0, 0, 0, 0, 0, 7, 0, 0, 0, 0, 0, 0, 0, 0],
];

static NO_RECORDS: [&[u8]; 9] = [
    // the next second, one of seven bytes, and none
    &[0, 0, 0, 58, 255, 244, 65, 128, 4],
    &[0, 0, 0, 0, 0, 0, 1],
    &[],
    // no kind, and one past the greatest
    &[0, 0, 0, 0, 0, 0, 0, 0],
    &[0, 0, 0, 0, 0, 0, 0, 0, 8],
    // a byte behind a sweep, a DELETE, a next id and totals
    &[0, 0, 0, 0, 0, 0, 0, 0, 4, 0],
    &[0, 0, 0, 0, 0, 0, 0, 0, 3, 0, 0, 0, 0, 0, 0, 0, 0, 1, 0],
    &[0, 0, 0, 0, 0, 0, 0, 0, 6, 0, 0, 0, 0, 0, 0, 0, 0, 1, 0],
    &[0, 0, 0, 0, 0, 0, 0, 0, 7, 0, 0, 0, 0, 0, 0, 0, 0, 0],
];

#[test]
fn records(rt: HostRuntime) {
    for (place, bytes) in RECORDS.iter().enumerate() {
        assert!(rt; is_record(bytes), "row {place}");
    }
}

#[test]
fn no_records(rt: HostRuntime) {
    for (place, bytes) in NO_RECORDS.iter().enumerate() {
        assert!(rt; !is_record(bytes), "row {place}");
    }
}

// Puts bytes behind others.
fn put(rt: &impl Abort, out: &mut Vec<u8>, bytes: &[u8]) {
    assert!(rt; out.extend_from_slice(bytes).is_ok());
}

// A PATCH of the upload 0/0 at 0 with these fields behind its offset.
fn is_patch(rt: &impl Abort, alloc: Global, fields: &[u8]) -> bool {
    let mut bytes = Vec::new(alloc);
    put(rt, &mut bytes, &[0; 8]);
    put(rt, &mut bytes, &[1]);
    put(rt, &mut bytes, &[0; 17]);
    put(rt, &mut bytes, fields);
    is_record(&bytes)
}

static NO_PATCHES: [&[u8]; 8] = [
    // no length, no type, no checksum
    &[],
    &[0],
    &[0, 0],
    // no such length, no such type, no such checksum
    &[2, 0, 0],
    &[0, 2, 0],
    &[0, 0, 3],
    // a length of seven bytes, a digest of nineteen
    &[1, 0, 0, 0, 0, 0, 0, 0],
    &[
        0, 0, 1, 0, 0, 0, 0, 0, 0, 0, 0, 0, 0, 0, 0, 0, 0, 0, 0, 0, 0, 0,
    ],
];

#[test]
fn fields_of_a_patch(rt: HostRuntime) {
    assert!(rt; is_patch(&rt, rt.alloc(), &[0, 0, 0]));
    for (place, fields) in NO_PATCHES.iter().enumerate() {
        assert!(rt; !is_patch(&rt, rt.alloc(), fields), "row {place}");
    }
}

// A concatenation of so many parts of other tenants, without texts.
fn is_concatenation(rt: &impl Abort, alloc: Global, parts: u8) -> bool {
    let mut bytes = Vec::new(alloc);
    put(rt, &mut bytes, &[0; 8]);
    put(rt, &mut bytes, &[2, 0, 0, 0, 0, 0, 0, 0, 0, parts]);
    for _ in 0..parts {
        put(rt, &mut bytes, &[0]);
    }
    put(rt, &mut bytes, &[0; 8]);
    is_record(&bytes)
}

#[test]
fn parts(rt: HostRuntime) {
    assert!(rt; PARTS_MAX == 32);
    assert!(rt; is_concatenation(&rt, rt.alloc(), 0));
    assert!(rt; is_concatenation(&rt, rt.alloc(), 32));
    assert!(rt; !is_concatenation(&rt, rt.alloc(), 33));
}

// An upload of the first tenant that is put back with so many segments, each of the origin 0 and without bytes, and with
// these fields behind its id. Of its texts only `Upload-Metadata` stands behind them, which is empty.
fn is_back(rt: &impl Abort, alloc: Global, segments: u8, fields: &[u8]) -> bool {
    let mut bytes = Vec::new(alloc);
    put(rt, &mut bytes, &[0; 8]);
    put(rt, &mut bytes, &[5, 0, 0, 0, 0, 0, 0, 0, 0, segments]);
    for _ in 0..segments {
        put(rt, &mut bytes, &[0; 9]);
    }
    put(rt, &mut bytes, &[0; 8]);
    put(rt, &mut bytes, fields);
    put(rt, &mut bytes, &[0; 8]);
    is_record(&bytes)
}

#[test]
fn segments(rt: HostRuntime) {
    assert!(rt; is_back(&rt, rt.alloc(), 32, &[2, 0, 0]));
    assert!(rt; !is_back(&rt, rt.alloc(), 33, &[2, 0, 0]));
}

static NOT_BACK: [&[u8]; 4] = [
    // no such kind, length or end
    &[3, 0, 0],
    &[0, 2, 0],
    &[0, 0, 2],
    // an end at the second after the last of the year 9999
    &[0, 0, 1, 0, 0, 0, 58, 255, 244, 65, 128],
];

#[test]
fn fields_of_an_upload(rt: HostRuntime) {
    // an end at the last second of the year 9999
    assert!(rt;
        is_back(
            &rt,
            rt.alloc(),
            1,
            &[0, 0, 1, 0, 0, 0, 58, 255, 244, 65, 127]
        )
    );
    for (place, fields) in NOT_BACK.iter().enumerate() {
        assert!(rt; !is_back(&rt, rt.alloc(), 1, fields), "row {place}");
    }
}

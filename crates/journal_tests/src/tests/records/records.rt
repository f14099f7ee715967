//! One record of each change, as bytes that were written by hand.
use journal_records::{PartIds, Segments, read_record, with_record};
use std::alloc::Global;
use std::process::Abort;
use tus_text::Checksum;
use upload_book::{
    Change, Chunk, FirstChunk, Kind, Moment, Name, NewFinal, NewUpload, Payload, Restored,
    RestoredSegment, RestoredUpload,
};

// The second 258 since 1970.
const MOMENT: u64 = 258;

fn moment(rt: &impl Abort) -> Moment {
    let Some(moment) = Moment::new(MOMENT) else {
        panic!(rt; "no moment");
    };
    moment
}

// Whether the change makes these bytes behind others.
fn is_written(rt: &impl Abort, alloc: Global, change: &Change, bytes: &[u8]) -> bool {
    let out = Vec::from_slice(alloc, b"..").expect(rt, "memory");
    let written = with_record(out, moment(rt), change).expect(rt, "memory");
    written.len() == bytes.len() + 2 && written.starts_with(b"..") && written.ends_with(bytes)
}

// Whether what is read of these bytes makes them again.
fn is_read(rt: &impl Abort, alloc: Global, bytes: &[u8]) -> bool {
    let mut parts = PartIds::new();
    let mut segments = Segments::new();
    match read_record(bytes, &mut parts, &mut segments) {
        Some(record) => {
            record.now.secs() == MOMENT && is_written(rt, alloc, &record.change, bytes)
        }
        None => false,
    }
}

// These bytes are the record of the change.
fn assert_record(rt: &impl Abort, alloc: Global, change: &Change, bytes: &[u8]) {
    assert!(rt; is_written(rt, alloc, change, bytes), "not written");
    assert!(rt; is_read(rt, alloc, bytes), "not read");
}

const CREATION: &[u8] = &[
    0, 0, 0, 0, 0, 0, 1, 2, // the moment
    0, // a creation
    3, // the tenant
    1, // a part
    1, 0, 0, 0, 0, 0, 0, 0, 5, // of five bytes
    0, 0, 0, 0, 0, 0, 0, 1, b'k', // metadata
    0, 0, 0, 0, 0, 0, 0, 7, b'p', b'a', b'r', b't', b'i', b'a', b'l', // Upload-Concat
    1, // the content type of a PATCH
    2, // a checksum by another algorithm
    b'a', b'b',
];

#[test]
fn a_creation(rt: HostRuntime) {
    let change = Change::Create {
        tenant: 3,
        new: NewUpload {
            partial: true,
            length: Some(5),
            metadata: b"k",
            concat: b"partial",
        },
        first: FirstChunk {
            typed: true,
            check: Some(Checksum::Other),
            bytes: Payload::new(b"ab"),
            more: 0,
        },
    };
    assert_record(&rt, rt.alloc(), &change, CREATION);
}

const DIGEST: [u8; 20] = [
    10, 11, 12, 13, 14, 15, 16, 17, 18, 19, 20, 21, 22, 23, 24, 25, 26, 27, 28, 29,
];

const PATCH: &[u8] = &[
    0, 0, 0, 0, 0, 0, 1, 2, // the moment
    1, // a PATCH
    0, 0, 0, 0, 0, 0, 0, 1, 0, // tenant and id
    0, 0, 0, 0, 0, 0, 0, 9, // the offset
    0, // no length
    0, // another content type
    1, 10, 11, 12, 13, 14, 15, 16, 17, 18, 19, 20, 21, 22, 23, 24, 25, 26, 27, 28, 29, // SHA-1
    b'x',
];

#[test]
fn a_patch(rt: HostRuntime) {
    let change = Change::Append {
        name: Name { tenant: 0, id: 256 },
        chunk: Chunk {
            offset: 9,
            length: None,
            typed: false,
            check: Some(Checksum::Sha1(DIGEST)),
            bytes: Payload::new(b"x"),
            more: 0,
        },
    };
    assert_record(&rt, rt.alloc(), &change, PATCH);
}

const CONCATENATION: &[u8] = &[
    0, 0, 0, 0, 0, 0, 1, 2, // the moment
    2, // a concatenation
    15, // the tenant
    0, 0, 0, 0, 0, 0, 0, 2, // two parts
    1, 0, 0, 0, 0, 0, 0, 0, 7, // one by its id
    0, // one of another tenant
    0, 0, 0, 0, 0, 0, 0, 0, // no metadata
    b'f', b'i', b'n', b'a', b'l', b';',
];

#[test]
fn a_concatenation(rt: HostRuntime) {
    let change = Change::Concat {
        tenant: 15,
        new: NewFinal {
            parts: &[Some(7), None],
            metadata: b"",
            concat: b"final;",
        },
    };
    assert_record(&rt, rt.alloc(), &change, CONCATENATION);
}

const END: &[u8] = &[
    0, 0, 0, 0, 0, 0, 1, 2, // the moment
    3, // a DELETE
    255, 255, 255, 255, 255, 255, 255, 255, 255, // tenant and id
];

#[test]
fn an_end(rt: HostRuntime) {
    let change = Change::Terminate(Name {
        tenant: 255,
        id: u64::MAX,
    });
    assert_record(&rt, rt.alloc(), &change, END);
}

const SWEEP: &[u8] = &[0, 0, 0, 0, 0, 0, 1, 2, 4];

#[test]
fn a_sweep(rt: HostRuntime) {
    assert_record(&rt, rt.alloc(), &Change::Sweep, SWEEP);
}

const UPLOAD: &[u8] = &[
    0, 0, 0, 0, 0, 0, 1, 2, // the moment
    5, // an upload that is put back
    3, // the tenant
    0, 0, 0, 0, 0, 0, 0, 2, // two segments
    0, 0, 0, 0, 0, 0, 0, 7, // of upload 7
    1, 0, 0, 0, 0, 0, 0, 0, 2, b'a', b'b', // with its bytes
    0, 0, 0, 0, 0, 0, 0, 7, // the same
    0, // without them
    0, 0, 0, 0, 0, 0, 0, 9, // its id
    2, // a final one
    1, 0, 0, 0, 0, 0, 0, 0, 4, // of four bytes
    0, // no end
    0, 0, 0, 0, 0, 0, 0, 0, // no metadata
    b'f', b';', // Upload-Concat
];

#[test]
fn an_upload_that_is_put_back(rt: HostRuntime) {
    let segments = [
        RestoredSegment {
            origin: 7,
            bytes: Some(b"ab"),
        },
        RestoredSegment {
            origin: 7,
            bytes: None,
        },
    ];
    let upload = RestoredUpload {
        id: 9,
        kind: Kind::Final,
        declared: Some(4),
        segments: &segments,
        metadata: b"",
        concat: b"f;",
        expires: None,
    };
    let change = Change::Restore(Restored::Upload { tenant: 3, upload });
    assert_record(&rt, rt.alloc(), &change, UPLOAD);
}

const OPEN_UPLOAD: &[u8] = &[
    0, 0, 0, 0, 0, 0, 1, 2, // the moment
    5, // an upload that is put back
    0, // the tenant
    0, 0, 0, 0, 0, 0, 0, 1, // one segment
    0, 0, 0, 0, 0, 0, 0, 1, // its own
    1, 0, 0, 0, 0, 0, 0, 0, 0, // without a byte
    0, 0, 0, 0, 0, 0, 0, 1, // its id
    0, // one of its own
    0, // no length
    1, 0, 0, 0, 0, 0, 0, 1, 3, // its end
    0, 0, 0, 0, 0, 0, 0, 1, b'k', // metadata, and no Upload-Concat
];

#[test]
fn an_open_upload_that_is_put_back(rt: HostRuntime) {
    let segments = [RestoredSegment {
        origin: 1,
        bytes: Some(b""),
    }];
    let upload = RestoredUpload {
        id: 1,
        kind: Kind::Plain,
        declared: None,
        segments: &segments,
        metadata: b"k",
        concat: b"",
        expires: Moment::new(259),
    };
    let change = Change::Restore(Restored::Upload { tenant: 0, upload });
    assert_record(&rt, rt.alloc(), &change, OPEN_UPLOAD);
}

const NEXT_ID: &[u8] = &[
    0, 0, 0, 0, 0, 0, 1, 2, // the moment
    6, // a next id
    3, 0, 0, 0, 0, 0, 0, 1, 0, // tenant and id
];

#[test]
fn a_next_id(rt: HostRuntime) {
    let change = Change::Restore(Restored::Next {
        tenant: 3,
        next: 256,
    });
    assert_record(&rt, rt.alloc(), &change, NEXT_ID);
}

const TOTALS: &[u8] = &[
    0, 0, 0, 0, 0, 0, 1, 2, // the moment
    7, // totals
    0, 0, 0, 0, 0, 0, 1, 4, // what was released
];

#[test]
fn totals(rt: HostRuntime) {
    let change = Change::Restore(Restored::Totals { released: 260 });
    assert_record(&rt, rt.alloc(), &change, TOTALS);
}

//! Books, changes, and their records as frames.
use crate::tests::KEY;
use book_replay::replay;
use journal_frames::{Frames, push_frame};
use journal_records::with_record;
use std::alloc::Global;
use std::process::Abort;
use tus_text::Checksum;
use upload_book::{
    Book, Change, Chunk, FirstChunk, Moment, Name, NewFinal, NewUpload, Numbers, Payload, Settings,
};

/// The settings of acme with 8 blocks and beta with 4, of 4 bytes each.
pub(crate) fn settings(rt: &impl Abort) -> Settings {
    settings_of(rt, 4)
}

/// The same with blocks of so many bytes.
pub(crate) fn settings_of(rt: &impl Abort, block_size: u64) -> Settings {
    let numbers = Numbers {
        blocks: 12,
        block_size,
        lifetime: 3600,
        finished_lifetime: 0,
        max_size: 64,
        uploads: 4,
        last_id: u64::MAX - 1,
        last_total: u64::MAX,
    };
    let Ok(settings) = Settings::new(numbers, &[(b"acme", 8), (b"beta", 4)]) else {
        panic!(rt; "no settings");
    };
    settings
}

/// The name of an upload of acme.
pub(crate) fn acme(id: u64) -> Name {
    Name { tenant: 0, id }
}

// A creation with these first bytes.
fn begun<'a>(tenant: u8, new: NewUpload<'a>, bytes: &'a [u8]) -> Change<'a> {
    let first = FirstChunk {
        typed: true,
        check: None,
        bytes: Payload::new(bytes),
        more: 0,
    };
    Change::Create { tenant, new, first }
}

/// A creation for the tenant at this place, with these texts and first bytes.
pub(crate) fn creation<'a>(
    tenant: u8,
    partial: bool,
    metadata: &'a [u8],
    concat: &'a [u8],
    bytes: &'a [u8],
) -> Change<'a> {
    let new = NewUpload {
        partial,
        length: Some(5),
        metadata,
        concat,
    };
    begun(tenant, new, bytes)
}

/// A creation for acme with this first byte, whose length is told later.
pub(crate) fn deferred(byte: &[u8]) -> Change<'_> {
    let new = NewUpload {
        partial: false,
        length: None,
        metadata: b"",
        concat: b"",
    };
    begun(0, new, byte)
}

/// A PATCH of an upload of acme.
pub(crate) fn patch<'a>(
    id: u64,
    offset: u64,
    check: Option<Checksum>,
    bytes: &'a [u8],
) -> Change<'a> {
    Change::Append {
        name: acme(id),
        chunk: Chunk {
            offset,
            length: None,
            typed: true,
            check,
            bytes: Payload::new(bytes),
            more: 0,
        },
    }
}

/// A concatenation for the tenant at this place.
pub(crate) fn joined<'a>(
    tenant: u8,
    parts: &'a [Option<u64>],
    metadata: &'a [u8],
    concat: &'a [u8],
) -> Change<'a> {
    Change::Concat {
        tenant,
        new: NewFinal {
            parts,
            metadata,
            concat,
        },
    }
}

/// A moment, by its second.
pub(crate) fn at(rt: &impl Abort, secs: u64) -> Moment {
    let Some(moment) = Moment::new(secs) else {
        panic!(rt; "no moment");
    };
    moment
}

/// Puts the record of a change at this second behind others.
pub(crate) fn put(
    rt: &impl Abort,
    alloc: Global,
    frames: &mut Vec<u8>,
    secs: u64,
    change: &Change,
) {
    let record = with_record(Vec::new(alloc), at(rt, secs), change).expect(rt, "memory");
    assert!(rt; record.len() <= 1000);
    assert!(rt; push_frame(frames, KEY, &record).is_ok());
}

/// The book that is made of the records in these frames.
pub(crate) fn replayed(rt: &impl Abort, alloc: Global, frames: &[u8]) -> Book {
    replayed_in(rt, alloc, settings(rt), frames)
}

/// The same with other settings.
pub(crate) fn replayed_in(
    rt: &impl Abort,
    alloc: Global,
    settings: Settings,
    frames: &[u8],
) -> Book {
    let Ok(book) = replay(alloc, settings, records(frames)) else {
        panic!(rt; "no book");
    };
    book
}

/// The records of these bytes.
pub(crate) fn records(frames: &[u8]) -> Frames<'_> {
    Frames::new(KEY, frames)
}

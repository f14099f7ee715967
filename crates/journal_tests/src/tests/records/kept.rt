//! An upload of a book as the record that puts it back, as bytes that were written by hand.
ghost use Rattle.std.specs.Prelude.{◌≡◌, [], false};

use journal_records::with_kept;
use std::alloc::Global;
use std::process::Abort;
use upload_book::{Book, Moment, Name, NewUpload, Numbers, Settings};
use worked_example::hello;

const NUMBERS: Numbers = Numbers {
    blocks: 8,
    block_size: 4,
    lifetime: 3600,
    finished_lifetime: 0,
    max_size: 64,
    uploads: 4,
    last_id: 99,
    last_total: 99,
};

// One of its own, of ten bytes, without metadata.
fn new_upload() -> NewUpload<'static>
    ensures metadata { result.metadata ≡ [] }
    ensures concat { result.concat ≡ [] }
    ensures own { result.partial ≡ false }
{
    NewUpload {
        partial: false,
        length: Some(10),
        metadata: b"",
        concat: b"",
    }
}

// An upload of the first tenant with five of its bytes, in blocks of four.
fn create(rt: &impl Abort, book: &mut Book, now: Moment) {
    let acme = book.settings().tenant(b"acme").expect(rt, "acme");
    assert!(rt; book.create(acme, new_upload(), now).is_ok());
    assert!(rt;
        book.append(&Name { tenant: 0, id: 1 }, hello(), now)
            .is_ok()
    );
}

const BYTES: [u8; 77] = [
    b'.', b'.', // what stood there
    0, 0, 0, 0, 0, 0, 1, 2, // the moment
    5, // an upload that is put back
    0, // the tenant
    0, 0, 0, 0, 0, 0, 0, 1, // one segment
    0, 0, 0, 0, 0, 0, 0, 1, // its own
    1, 0, 0, 0, 0, 0, 0, 0, 5, b'h', b'e', b'l', b'l', b'o', // with its bytes
    0, 0, 0, 0, 0, 0, 0, 1, // its id
    0, // one of its own
    1, 0, 0, 0, 0, 0, 0, 0, 10, // of ten bytes
    1, 0, 0, 0, 0, 0, 0, 15, 18, // its end, an hour later
    // no metadata, and no Upload-Concat
    0, 0, 0, 0, 0, 0, 0, 0,
];

// A book with that upload.
fn some_book(rt: &impl Abort, alloc: Global, now: Moment) -> Book {
    let settings = Settings::new(NUMBERS, &[(b"acme", 8)]).expect(rt, "settings");
    let mut book = Book::new(alloc, settings).expect(rt, "memory");
    create(rt, &mut book, now);
    book
}

// Whether the upload makes these bytes.
fn is_written(rt: &impl Abort, alloc: Global, book: &Book, now: Moment, bytes: &[u8]) -> bool {
    let acme = book.settings().tenant(b"acme").expect(rt, "acme");
    let kept = book.kept_upload(acme, 0).expect(rt, "an upload");
    let out = Vec::from_slice(alloc, b"..").expect(rt, "memory");
    let written = with_kept(out, now, acme, &kept).expect(rt, "memory");
    written.as_slice() == bytes
}

#[test]
fn an_upload_of_a_book(rt: HostRuntime) {
    let now = Moment::new(258).expect(&rt, "a moment");
    let book = some_book(&rt, rt.alloc(), now);
    assert!(rt; is_written(&rt, rt.alloc(), &book, now, &BYTES));
}

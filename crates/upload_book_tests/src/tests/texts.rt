//! Texts that a book keeps, and names that are no upload's.
ghost use Rattle.upload_book.specs.Begun.{IsBegun};
ghost use Rattle.upload_book.specs.Book.{plain_of};

use crate::tests::books::{
    ACME, BETA, acme, create, end, moment, new_book, new_final, new_upload, numbers, part, send,
};
use std::alloc::Global;
use std::process::Abort;
use tus_text::check_metadata;
use upload_book::{
    Begun, Book, Bounds, ByteSpan, Chunk, Created, Kind, Moment, Name, NewFinal, NewUpload,
    Payload, Refusal, Refused, Settings,
};
use worked_example::NUMBERS;

const METADATA: &[u8] = b"a YQ==,b";

// A complete partial upload of beta with texts.
fn partial(rt: &impl Abort, book: &mut Book) -> Created {
    assert!(rt; check_metadata(METADATA));
    let beta = book.settings().tenant(BETA).expect(rt, "beta");
    let new = NewUpload {
        partial: true,
        length: Some(0),
        metadata: METADATA,
        concat: b"partial",
    };
    let made = book.create(beta, new, moment(rt, 1000));
    made.expect(rt, "a partial upload")
}

// A final upload of acme's first one twice, with texts.
fn twice(rt: &impl Abort, book: &mut Book) -> Created {
    assert!(rt; check_metadata(METADATA));
    let acme = book.settings().tenant(ACME).expect(rt, "acme");
    let parts = [Some(1), Some(1)];
    let new = NewFinal {
        metadata: METADATA,
        ..new_final(rt, &parts)
    };
    let made = book.concat(acme, new, moment(rt, 1000));
    made.expect(rt, "a final upload")
}

// An upload that was just made has this kind, the texts that it was made with, and the end that it was told.
fn assert_shown(rt: &impl Abort, book: &Book, made: Created, kind: Kind, concat: &[u8]) {
    let row = book.look(&made.name, moment(rt, 1000));
    let row = row.expect(rt, "an upload");
    assert!(rt; row.kind == kind && row.expires == made.expires);
    assert!(rt; row.metadata.as_slice() == METADATA);
    assert!(rt; row.concat.as_slice() == concat);
}

#[test]
fn a_partial_upload_keeps_its_texts(rt: HostRuntime) {
    let mut book = new_book(&rt, rt.alloc(), NUMBERS);
    let made = partial(&rt, &mut book);
    assert!(rt; made.name == Name { tenant: 1, id: 1 } && made.expires == Moment::new(4600));
    assert_shown(&rt, &book, made, Kind::Partial, b"partial");
}

#[test]
fn a_final_upload_keeps_its_texts(rt: HostRuntime) {
    let mut book = new_book(&rt, rt.alloc(), NUMBERS);
    part(&rt, &mut book, b"");
    let made = twice(&rt, &mut book);
    assert!(rt; made.name == acme(2) && made.expires.is_none());
    assert_shown(&rt, &book, made, Kind::Final, b"final;/files/acme/1");
}

// A book in which a tenant may have 65 uploads: memory for their texts is taken as they are created.
fn book_of_many(rt: &impl Abort, alloc: Global) -> Book {
    let numbers = numbers!(uploads: 65);
    let tenants: [(&[u8], u64); 2] = [(ACME, 8), (BETA, 4)];
    let settings = Settings::within(Bounds::Wide, numbers, &tenants);
    let settings = settings.expect(rt, "settings");
    Book::new(alloc, settings).expect(rt, "a book")
}

#[test]
fn one_of_many_keeps_its_texts(rt: HostRuntime) {
    let mut book = book_of_many(&rt, rt.alloc());
    let made = partial(&rt, &mut book);
    assert_shown(&rt, &book, made, Kind::Partial, b"partial");
}

#[test]
fn a_final_one_of_many_keeps_its_texts(rt: HostRuntime) {
    let mut book = book_of_many(&rt, rt.alloc());
    part(&rt, &mut book, b"");
    let made = twice(&rt, &mut book);
    end(&rt, &mut book, 1);
    assert_shown(&rt, &book, made, Kind::Final, b"final;/files/acme/1");
}

#[test]
fn the_last_of_many(rt: HostRuntime) {
    let mut book = book_of_many(&rt, rt.alloc());
    for _ in 0..65 {
        create(&rt, &mut book, ACME, None);
    }
    let acme = book.settings().tenant(ACME).expect(&rt, "acme");
    let refused = book.create(acme, new_upload(false, None), moment(&rt, 1000));
    assert!(&rt; refused == Err(Refusal::Uploads));
    end(&rt, &mut book, 7);
    create(&rt, &mut book, ACME, None);
}

// Asserts that no upload of this name can be seen, read or ended.
fn assert_unknown(rt: &impl Abort, book: &mut Book, name: &Name) {
    let now = moment(rt, 1000);
    assert!(rt; book.look(name, now).err() == Some(Refusal::Unknown));
    let content = book.content(name, now, ByteSpan::front(1), book.none_begun());
    assert!(rt; content.err() == Some(Refusal::Unknown));
    assert!(rt; book.content_len(name, now).err() == Some(Refusal::Unknown));
    assert!(rt; book.terminate(name, now).err() == Some(Refusal::Unknown));
}

// Asserts that no upload of this name takes a byte.
fn assert_no_append(rt: &impl Abort, book: &mut Book, name: &Name) {
    let chunk = Chunk {
        offset: 0,
        length: None,
        typed: true,
        check: None,
        bytes: Payload::new(b"x"),
        more: 0,
    };
    let refused = Refused {
        refusal: Refusal::Unknown,
        expires: None,
    };
    assert!(rt; book.append(name, chunk, moment(rt, 1000)) == Err(refused));
}

// A third tenant has no upload, and is refused as an unknown one is.
#[test]
fn a_tenant_that_is_not_there(rt: HostRuntime) {
    let mut book = new_book(&rt, rt.alloc(), NUMBERS);
    let name = Name { tenant: 2, id: 1 };
    assert_unknown(&rt, &mut book, &name);
    assert_no_append(&rt, &mut book, &name);
}

// A GET of some of the upload's bytes hands over these, of which the first may have been copied before.
fn assert_handed_over(
    rt: &impl Abort,
    book: &Book,
    name: &Name,
    span: ByteSpan,
    begun: Begun,
    bytes: &[u8],
)
    requires { IsBegun (plain_of book.now) name.now begun.first begun.bytes.items }
{
    let content = book.content(name, moment(rt, 1000), span, begun);
    let content = content.expect(rt, "a content").into_vec();
    assert!(rt; content.as_slice() == bytes);
}

// Places and numbers of bytes, and which of `abcde` these are.
static SPANS: &[(u64, u64, &[u8])] = &[
    (0, 5, b"abcde"),
    (0, u64::MAX, b"abcde"),
    (1, 2, b"bc"),
    (3, 2, b"de"),
    (4, 9, b"e"),
    (5, 1, b""),
    (u64::MAX, u64::MAX, b""),
    (2, 0, b""),
];

#[test]
fn a_content_is_handed_over(rt: HostRuntime) {
    let mut book = new_book(&rt, rt.alloc(), NUMBERS);
    part(&rt, &mut book, b"abcde");
    let name = acme(1);
    for (first, count, bytes) in SPANS {
        let span = ByteSpan {
            first: *first,
            count: *count,
        };
        assert_handed_over(&rt, &book, &name, span, book.none_begun(), bytes);
    }
    assert!(rt; book.content_len(&name, moment(&rt, 1000)) == Ok(5));
}

#[test]
fn a_content_is_copied_piece_by_piece(rt: HostRuntime) {
    let mut book = new_book(&rt, rt.alloc(), NUMBERS);
    part(&rt, &mut book, b"abcde");
    let name = acme(1);
    let begun = begun_at(&rt, rt.alloc(), &book, &name, 0, b"abcd");
    assert_handed_over(&rt, &book, &name, ByteSpan::front(5), begun, b"abcde");
    let begun = begun_at(&rt, rt.alloc(), &book, &name, 1, b"bcde");
    let span = ByteSpan { first: 1, count: 4 };
    assert_handed_over(&rt, &book, &name, span, begun, b"bcde");
}

// What was begun elsewhere, or is more than is asked for, is copied anew.
#[test]
fn a_content_begins_elsewhere(rt: HostRuntime) {
    let mut book = new_book(&rt, rt.alloc(), NUMBERS);
    part(&rt, &mut book, b"abcde");
    let name = acme(1);
    let begun = begun_at(&rt, rt.alloc(), &book, &name, 1, b"bcde");
    assert_handed_over(&rt, &book, &name, ByteSpan::front(5), begun, b"abcde");
    let begun = begun_at(&rt, rt.alloc(), &book, &name, 1, b"bcde");
    let span = ByteSpan { first: 1, count: 2 };
    assert_handed_over(&rt, &book, &name, span, begun, b"bc");
}

// Bytes of the upload from a place on, copied in two pieces of at most three: these, four at most.
fn begun_at(
    rt: &impl Abort,
    alloc: Global,
    book: &Book,
    name: &Name,
    first: u64,
    bytes: &[u8],
) -> Begun
    ensures { IsBegun (plain_of book.now) name.now result.first result.bytes.items }
{
    let mut begun = Begun {
        first,
        bytes: Vec::with_capacity(alloc, 4).expect(rt, "memory"),
    };
    book.read_ahead(name, moment(rt, 1000), &mut begun, 3);
    assert!(rt; begun.bytes.len() == 3 && bytes.starts_with(&begun.bytes));
    book.read_ahead(name, moment(rt, 1000), &mut begun, 3);
    assert!(rt; begun.bytes.as_slice() == bytes);
    begun
}

// Acme's first upload, which has five of its nine bytes.
fn unfinished(rt: &impl Abort, book: &mut Book) {
    create(rt, book, ACME, Some(9));
    send(rt, book, 1, b"abcde");
}

// Why there are no bytes of an upload so far.
fn refused_so_far(rt: &impl Abort, book: &Book, name: &Name) -> Option<Refusal> {
    book.so_far(name, moment(rt, 1000), book.no_room()).err()
}

#[test]
fn the_bytes_so_far(rt: HostRuntime) {
    let mut book = new_book(&rt, rt.alloc(), NUMBERS);
    unfinished(&rt, &mut book);
    let bytes = book.so_far(&acme(1), moment(&rt, 1000), book.no_room());
    assert!(rt; bytes.expect(&rt, "the bytes").as_slice() == b"abcde".as_slice());
    assert!(rt; refused_so_far(&rt, &book, &acme(2)) == Some(Refusal::Unknown));
    end(&rt, &mut book, 1);
    assert!(rt; refused_so_far(&rt, &book, &acme(1)) == Some(Refusal::Gone));
}

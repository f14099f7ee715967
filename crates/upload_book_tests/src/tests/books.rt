//! The books of the tests, and what is asked of them.

ghost use Rattle.std.specs.Prelude.{◌≡◌, ◌<◌, ◌≤◌, [], length};
ghost use Rattle.upload_book.specs.Create.{new_kind};
ghost use Rattle.upload_book.specs.declared.head_row.Kind.TheVariants.{Final};
ghost use Rattle.upload_book.specs.Lawful.{IsConcatText};

use std::alloc::Global;
use std::process::Abort;
use tus_text::{Checksum, Concat, read_concat};
use upload_book::{
    Appended, Book, Chunk, Moment, Name, NewFinal, NewUpload, Numbers, Payload, Refused,
};
use worked_example::settings_of;

pub const ACME: &[u8] = b"acme";

pub const BETA: &[u8] = b"beta";

/// The numbers of the worked example but for these fields.
macro_rules! numbers {
    ($($name:ident: $value:expr),*) => {
        upload_book::Numbers {
            $($name: $value,)*
            ..worked_example::NUMBERS
        }
    };
}

pub(crate) use numbers;

/// The digest of `hello` by SHA-1, as sha1sum has it.
pub const HELLO: Checksum = Checksum::Sha1([
    0xaa, 0xf4, 0xc6, 0x1d, 0xdc, 0xc5, 0xe8, 0xa2, 0xda, 0xbe, 0xde, 0x0f, 0x3b, 0x48, 0x2c, 0xd9,
    0xae, 0xa9, 0x43, 0x4d,
]);

/// That of no bytes.
pub const NOTHING: Checksum = Checksum::Sha1([
    0xda, 0x39, 0xa3, 0xee, 0x5e, 0x6b, 0x4b, 0x0d, 0x32, 0x55, 0xbf, 0xef, 0x95, 0x60, 0x18, 0x90,
    0xaf, 0xd8, 0x07, 0x09,
]);

/// A book of acme with 8 blocks and beta with 4.
pub fn new_book(rt: &impl Abort, alloc: Global, numbers: Numbers) -> Book {
    let settings = settings_of(numbers).expect(rt, "settings");
    Book::new(alloc, settings).expect(rt, "a book")
}

pub fn moment(rt: &impl Abort, secs: u64) -> Moment {
    Moment::new(secs).expect(rt, "a moment")
}

/// The name of an upload of acme.
pub fn acme(id: u64) -> Name {
    Name { tenant: 0, id }
}

/// A partial upload or one of its own, of this length, without metadata.
pub fn new_upload<'a>(partial: bool, length: Option<u64>) -> NewUpload<'a>
    ensures metadata { result.metadata ≡ [] }
    ensures concat { IsConcatText (new_kind result.partial) result.concat }
{
    NewUpload {
        partial,
        length,
        metadata: b"",
        concat: if partial {
            b"partial".as_slice()
        } else {
            b"".as_slice()
        },
    }
}

/// Creates an upload of a tenant at second 1000, of this length.
pub fn create(rt: &impl Abort, book: &mut Book, tenant: &[u8], length: Option<u64>) {
    let tenant = book.settings().tenant(tenant).expect(rt, "a tenant");
    let made = book.create(tenant, new_upload(false, length), moment(rt, 1000));
    assert!(rt; made.is_ok());
}

/// A PATCH of an upload of acme at second 1000, which tells no length.
fn patch(
    rt: &impl Abort,
    book: &mut Book,
    id: u64,
    offset: u64,
    bytes: &[u8],
) -> Result<Appended, Refused> {
    let chunk = Chunk {
        offset,
        length: None,
        typed: true,
        check: None,
        bytes: Payload::new(bytes),
        more: 0,
    };
    book.append(&acme(id), chunk, moment(rt, 1000))
}

/// Sends the first bytes of an upload of acme.
pub fn send(rt: &impl Abort, book: &mut Book, id: u64, bytes: &[u8]) {
    assert!(rt; patch(rt, book, id, 0, bytes).is_ok());
}

/// Ends an upload of acme.
pub fn end(rt: &impl Abort, book: &mut Book, id: u64) {
    assert!(rt; book.terminate(&acme(id), moment(rt, 1000)).is_ok());
}

/// Makes a complete partial upload of acme.
pub fn part(rt: &impl Abort, book: &mut Book, bytes: &[u8]) {
    let acme = book.settings().tenant(ACME).expect(rt, "acme");
    let new = new_upload(true, Some(bytes.len() as u64));
    let made = book.create(acme, new, moment(rt, 1000));
    let made = made.expect(rt, "a part");
    send(rt, book, made.name.id, bytes);
}

/// A concatenation of parts, with a text of some. The book keeps that, and does not read it.
pub fn new_final<'a>(rt: &impl Abort, parts: &'a [Option<u64>]) -> NewFinal<'a>
    ensures some { 0 < length result.parts }
    ensures few { length result.parts ≤ 32 }
    ensures metadata { result.metadata ≡ [] }
    ensures concat { IsConcatText Final result.concat }
{
    assert!(rt; !parts.is_empty() && parts.len() <= 32);
    let concat = b"final;/files/acme/1";
    let Some(Concat::Final(_)) = read_concat(concat) else {
        panic!(rt; "a concat text");
    };
    NewFinal {
        parts,
        metadata: b"",
        concat,
    }
}

/// Makes a final upload of acme.
pub fn join(rt: &impl Abort, book: &mut Book, parts: &[Option<u64>]) {
    let acme = book.settings().tenant(ACME).expect(rt, "acme");
    let made = book.concat(acme, new_final(rt, parts), moment(rt, 1000));
    assert!(rt; made.is_ok());
}

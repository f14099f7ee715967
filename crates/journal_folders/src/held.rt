//! How much a book holds.
ghost use Rattle.std.specs.Prelude.{◌≡◌, ◌+◌, ◌<◌, Err, IfNone, IfSome, length};
ghost use Rattle.journal_folders.specs.Held.{IsHeldFor, IsHeldIn, bytes_in, bytes_told, capped};
ghost use Rattle.upload_book.specs.Book.{plain_of};
ghost use Rattle.upload_book.specs.Look.{look_answer};
ghost use Rattle.upload_book.specs.PlainBook.{answer_of, tenant_book};

use upload_book::{Book, Moment, Name, Refusal};

/// How many uploads there are, and how many bytes they have together. A final upload has those of its parts once more.
#[derive(Clone, Copy, Debug, PartialEq, Eq)]
pub struct Held {
    pub uploads: u64,
    pub bytes: u64,
}

impl Held {
    /// Nothing.
    pub fn none() -> Held
        ensures { result ≡ record { uploads = 0; bytes = 0 } }
    {
        Held {
            uploads: 0,
            bytes: 0,
        }
    }

    /// Both together.
    pub fn and(self, other: Held) -> Held
        ensures uploads { result.uploads ≡ capped (self.uploads + other.uploads) }
        ensures bytes { result.bytes ≡ capped (self.bytes + other.bytes) }
    {
        Held {
            uploads: self.uploads.saturating_add(other.uploads),
            bytes: self.bytes.saturating_add(other.bytes),
        }
    }
}

/// What the book holds for all of its tenants, those uploads too that have expired.
pub fn held_in(book: &Book) -> Held
    ensures { IsHeldIn (plain_of book.now) result }
{
    let count = book.settings().tenant_count();
    let mut all = Held::none();
    for tenant in 0..count {
        all = all.and(held_for(book, tenant as u8));
    }
    all
}

/// What the book holds for the tenant at this place, from 0.
fn held_for(book: &Book, tenant: u8) -> Held
    requires { tenant < length (plain_of book.now).settings.tenants }
    ensures { IsHeldFor (plain_of book.now).settings.numbers (tenant_book (plain_of book.now) tenant) result }
{
    Held {
        uploads: book.upload_count(tenant),
        bytes: bytes_for(book, tenant),
    }
}

/// How many bytes the uploads of the tenant at this place have together. Each id that was given is looked for.
fn bytes_for(book: &Book, tenant: u8) -> u64
    requires { tenant < length (plain_of book.now).settings.tenants }
    ensures { result ≡ capped (bytes_in (plain_of book.now).settings.numbers (tenant_book (plain_of book.now) tenant)) }
{
    // Its contract tells that the book is lawful, so that all ids which were given are below the last number.
    let _ = book.settings();
    let mut bytes: u64 = 0;
    for id in 1..u64::MAX {
        match bytes_at(book, &Name { tenant, id }) {
            Some(more) => bytes = bytes.saturating_add(more),
            None => return bytes,
        }
    }
    bytes
}

/// How many bytes the upload of this name has, none where it has ended; None where its id was never given.
fn bytes_at(book: &Book, name: &Name) -> Option<u64>
    ensures told { IfSome result (λ bytes. bytes ≡ bytes_told (answer_of (plain_of book.now) name.now.tenant (look_answer name.now.id 0))) }
    ensures unknown { IfNone result (answer_of (plain_of book.now) name.now.tenant (look_answer name.now.id 0) ≡ Err Refusal.Unknown) }
{
    let Some(start) = Moment::new(0) else {
        unreachable!("dates can name the first second");
    };
    match book.look(name, start) {
        Ok(row) => Some(row.offset),
        Err(Refusal::Unknown) => None,
        Err(_) => Some(0),
    }
}

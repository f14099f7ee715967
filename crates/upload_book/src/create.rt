ghost use Rattle.std.specs.Prelude.{◌≡◌, ◌<◌, ◌≤◌, ◌^◌, Ok, Err, length, IfOk, IfErr, IsTrue, OnOk, OnErr};
ghost use Rattle.upload_book.specs.Book.{plain_of};
ghost use Rattle.upload_book.specs.Create.{new_kind, creation_refusal, create_answer, create_empty_answer, first_end, part_after_create, part_after_create_empty};
ghost use Rattle.upload_book.specs.Operation as operation;
ghost use Rattle.upload_book.specs.declared.refusal.Refusal.TheVariants.{Memory};
ghost use Rattle.upload_book.specs.Lawful.{IsConcatText, is_kept_metadata};
ghost use Rattle.upload_book.specs.Operation.{MayLackMemory};
ghost use Rattle.upload_book.specs.PlainBook.{answer_of, book_after};
ghost use Rattle.upload_book.specs.Ready.{IsReadyForUpload};
ghost use Rattle.upload_book.specs.Refusal.{IsAnswer};
ghost use Rattle.upload_book.specs.BlockStore.{part_at};

use crate::block_store::BlockStore;
use crate::board_line::Account;
use crate::book::Book;
use crate::checksum::{is_mismatch, is_of_other_algorithm};
use crate::expiry::renewed;
use crate::head_row::{Kind, Name};
use crate::moment::Moment;
use crate::payload::Payload;
use crate::progress::{blocks_added, ends_past};
use crate::ready::ReadyUpload;
use crate::refusal::Refusal;
use crate::settings::Numbers;
use crate::texts::texts_ahead;
use std::marker::Model;
use tus_text::Checksum;

/// The upload that a creation asks for (tus 1.0.0, Creation and Concatenation). A contract sees its texts
/// as lists of bytes.
#[derive(Drop)]
pub struct NewUpload<'a> {
    /// Whether it is a part of a later final upload.
    pub partial: bool,
    /// Its length in bytes, or None where that will be told later.
    pub length: Option<u64>,
    /// `Upload-Metadata`; empty where there is none.
    pub metadata: &'a [u8],
    /// `Upload-Concat`: `partial` for a part, and empty otherwise.
    pub concat: &'a [u8],
}

impl<'a> Model for NewUpload<'a> {
    ghost use Rattle.upload_book.specs.NewUpload as spec;

    ghost Value = { spec.NewUpload };

    ghost view = { λ new. record {
      partial = new.partial;
      length = new.length;
      metadata = new.metadata.now;
      concat = new.concat.now;
    } };
}

impl<'a> NewUpload<'a> {
    /// Whether it is a part of a later upload, or one of its own.
    pub(crate) fn kind(&self) -> Kind
        ensures { result ≡ new_kind self.now.partial }
    {
        if self.partial {
            Kind::Partial
        } else {
            Kind::Plain
        }
    }

    // When it expires, if it does, where it is created now with so many bytes.
    fn first_end(&self, numbers: &Numbers, len: u64, now: Moment) -> Option<Moment>
        ensures { result ≡ first_end numbers.now self.now len now }
    {
        let is_complete = self.length == Some(len);
        renewed(numbers, self.kind(), false, is_complete, None, now)
    }
}

/// The first bytes of an upload, which its creation carries, and what it says of them (tus 1.0.0, Creation
/// With Upload and Checksum). A contract sees the bytes as a list.
#[derive(Drop)]
pub struct FirstChunk<'a> {
    /// Whether the content type is `application/offset+octet-stream`.
    pub typed: bool,
    /// `Upload-Checksum`, which came with the bytes.
    pub check: Option<Checksum>,
    pub bytes: Payload<'a>,
    /// How many bytes are to come behind these, each by a PATCH of the upload.
    pub more: u64,
}

impl<'a> Model for FirstChunk<'a> {
    ghost use Rattle.upload_book.specs.FirstChunk as spec;

    ghost Value = { spec.FirstChunk };

    ghost view = { λ first. record {
      typed = first.typed;
      check = first.check;
      bytes = first.bytes;
      more = first.more;
    } };
}

impl<'a> FirstChunk<'a> {
    ghost use Rattle.upload_book.specs.FirstChunk.{no_chunk};

    /// No bytes: what a creation carries that sends none.
    pub fn none() -> FirstChunk<'a>
        ensures { result ≡ no_chunk }
    {
        FirstChunk {
            typed: true,
            check: None,
            bytes: Payload::new(b""),
            more: 0,
        }
    }
}

/// The upload that was created.
#[derive(Clone, Copy, Debug, PartialEq, Eq)]
pub struct Created {
    pub name: Name,
    /// When it expires, if it does.
    pub expires: Option<Moment>,
}

impl Book {
    /// Creates an upload of the tenant at this place, under the next id. It has no bytes. It takes no memory but for its
    /// texts, and that only where the settings allow a tenant more than 64 uploads.
    ///
    /// It is refused, in this order, as TooLong where the length is above the greatest size, as
    /// Uploads where the tenant has its greatest number of uploads, expired ones included, and as
    /// Spent where the tenant's ids are used up. Where none of them applies and the settings allow a tenant more than 64
    /// uploads, it may be refused as Memory: there was none for its texts. A refusal leaves the book as it was, and uses no id.
    pub fn create(&mut self, tenant: u8, new: NewUpload, now: Moment) -> Result<Created, Refusal>
        requires tenant_there { tenant < length (plain_of self.old).settings.tenants }
        requires metadata { IsTrue (is_kept_metadata new.metadata) }
        requires concat { IsConcatText (new_kind new.partial) new.concat }
        ensures answer { IsAnswer (answer_of (plain_of self.old) tenant (create_empty_answer tenant new.entry now))
            (MayLackMemory (plain_of self.old) (operation.Create tenant new.entry) now) (Err Memory) result }
        ensures accepted { OnOk result (plain_of self.new ≡ book_after (plain_of self.old) tenant
            (part_after_create_empty new.entry now)) }
        ensures refused { OnErr result (self.new ≡ self.old) }
    {
        // the settings tell that the book is lawful, so no more was charged than may be
        let _lawful = self.settings();
        self.create_with(tenant, new, FirstChunk::none(), now)
    }

    /// Creates an upload of the tenant at this place, under the next id, with its first bytes. They are copied
    /// once. One of its own that is complete with them expires as finished ones do, where these end by themselves, and any
    /// other a lifetime after `now`. Its tenant pays the blocks that the bytes take.
    ///
    /// It is refused by the first of these that applies: Media; TooLong, where the length is above the greatest
    /// size, or the bytes go past the length; Algorithm; Mismatch; Uploads, where the tenant has its greatest
    /// number of uploads, expired ones included; Spent, where the tenant's ids are used up, or the blocks that
    /// all tenants may be charged; Quota. Bytes that are to come behind the first count for TooLong, Spent and
    /// Quota. Where none of them does and the bytes, with those that are to come, take a block or more, or the settings
    /// allow a tenant more than 64 uploads, it may be refused as Memory: there was none for the list of the upload's blocks,
    /// or for its texts. A refusal leaves the book as it was, and uses no id.
    pub fn create_with(
        &mut self,
        tenant: u8,
        new: NewUpload,
        first: FirstChunk,
        now: Moment,
    ) -> Result<Created, Refusal>
        requires tenant_there { tenant < length (plain_of self.old).settings.tenants }
        requires metadata { IsTrue (is_kept_metadata new.metadata) }
        requires concat { IsConcatText (new_kind new.partial) new.concat }
        ensures answer { IsAnswer
            (answer_of (plain_of self.old) tenant
            (create_answer tenant new.entry first.entry now (plain_of self.old).charged))
            (MayLackMemory (plain_of self.old) (operation.CreateWith tenant new.entry first.entry) now)
            (Err Memory) result }
        ensures accepted { OnOk result (plain_of self.new ≡ book_after (plain_of self.old) tenant
            (part_after_create new.entry first.entry now (plain_of self.old).charged)) }
        ensures refused { OnErr result (self.new ≡ self.old) }
    {
        let ready = self.ready_for_upload(tenant, new, first, now)?;
        Ok(self.put_upload(ready))
    }

    // Makes room for a creation's first bytes, for all that are to come behind them, and for its texts, or finds why it is
    // refused. It changes nothing.
    pub(crate) fn ready_for_upload<'a>(
        &self,
        tenant: u8,
        new: NewUpload<'a>,
        first: FirstChunk<'a>,
        now: Moment,
    ) -> Result<ReadyUpload<'a>, Refusal>
        requires tenant_there { tenant < length (plain_of self.now).settings.tenants }
        requires metadata { IsTrue (is_kept_metadata new.metadata) }
        requires concat { IsConcatText (new_kind new.partial) new.concat }
        ensures tenant { IfOk result (λ r. r.tenant ≡ tenant) }
        ensures new { IfOk result (λ r. r.new ≡ new.entry) }
        ensures first { IfOk result (λ r. r.first ≡ first.entry) }
        ensures now { IfOk result (λ r. r.now ≡ now) }
        ensures ready { IfOk result (IsReadyForUpload self.now) }
        ensures refused { IfErr result (λ why. IsAnswer
            (answer_of (plain_of self.now) tenant
            (create_answer tenant new.entry first.entry now (plain_of self.now).charged))
            (MayLackMemory (plain_of self.now) (operation.CreateWith tenant new.entry first.entry) now)
            (Err Memory) (Err why)) }
    {
        let account = self.account(tenant);
        let place = usize::from(tenant);
        let numbers = self.settings.numbers();
        if let Some(refusal) = creation_refusal(
            numbers,
            &account,
            &self.store,
            place,
            &new,
            &first,
        ) {
            return Err(refusal);
        }
        let len = first.bytes.len() as u64;
        let count = len + first.more;
        let expires = new.first_end(numbers, len, now);
        let Ok(body) = self.store.body_for(self.alloc, count) else {
            return Err(Refusal::Memory);
        };
        match texts_ahead(self.alloc, numbers, new.metadata, new.concat) {
            Ok(texts) => Ok(ReadyUpload {
                tenant,
                new,
                first,
                now,
                expires,
                body,
                texts,
            }),
            Err(_) => Err(Refusal::Memory),
        }
    }

    // Creates an upload.
    pub(crate) fn put_upload(&mut self, ready: ReadyUpload) -> Created
        requires { IsReadyForUpload self.old ready }
        ensures answer { answer_of (plain_of self.old) ready.entry.tenant
            (create_answer ready.entry.tenant ready.entry.new ready.entry.first ready.entry.now (plain_of self.old).charged)
            ≡ Ok result }
        ensures after { plain_of self.new ≡ book_after (plain_of self.old) ready.entry.tenant
            (part_after_create ready.entry.new ready.entry.first ready.entry.now (plain_of self.old).charged) }
    {
        let ReadyUpload {
            tenant,
            new,
            first,
            expires,
            body,
            texts,
            ..
        } = ready;
        let bytes = first.bytes.as_slice();
        let place = usize::from(tenant);
        let id = self.store.next(place);
        let created = Created {
            name: Name { tenant, id },
            expires,
        };
        // the numbers tell that what may be charged in all is a number
        let _in_range = self.settings.numbers();
        let store = &mut self.store;
        self.charged += store.create(place, &new, body, bytes, created.expires, texts);
        self.expiries.set_end(created.name, None, created.expires);
        created
    }
}

// Why the next creation of the tenant at this place is refused on its account, if it is.
fn creation_refusal(
    numbers: &Numbers,
    account: &Account,
    store: &BlockStore,
    tenant: usize,
    new: &NewUpload,
    first: &FirstChunk,
) -> Option<Refusal>
    requires tenant { tenant < length store.now.stored_tenants }
    requires max_size { numbers.now.max_size < 2 ^ 64 }
    requires blocks { 0 < numbers.now.block_size }
    requires quota { account.now.charge ≤ account.now.quota }
    requires charged { account.now.charged ≤ numbers.now.last_total }
    ensures { result
        ≡ creation_refusal numbers.now account.now (part_at store.now tenant) new.now first.now }
{
    let most = new.length.unwrap_or(numbers.max_size);
    let len = first.bytes.len() as u64;
    if !first.typed {
        return Some(Refusal::Media);
    }
    if most > numbers.max_size || ends_past(0, len, first.more, most) {
        return Some(Refusal::TooLong);
    }
    let last_total = numbers.last_total;
    let added = blocks_added(numbers, 0, len + first.more);
    if is_of_other_algorithm(first.check) {
        Some(Refusal::Algorithm)
    } else if is_mismatch(first.check, &first.bytes) {
        Some(Refusal::Mismatch)
    } else if store.count(tenant) as u64 >= numbers.uploads {
        Some(Refusal::Uploads)
    } else if store.next(tenant) > numbers.last_id || added > last_total - account.charged {
        Some(Refusal::Spent)
    } else if added > account.quota - account.charge {
        Some(Refusal::Quota)
    } else {
        None
    }
}

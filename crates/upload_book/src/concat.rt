ghost use Rattle.std.specs.Prelude.{◌≡◌, ◌<◌, ◌≤◌, Ok, Err, IfOk, IfErr, OnOk, OnErr, length, IsTrue};
ghost use Rattle.upload_book.specs.Book.{plain_of};
ghost use Rattle.upload_book.specs.Concat.{concat_answer, concat_tests, part_after_concat};
ghost use Rattle.upload_book.specs.declared.head_row.Kind.TheVariants.{Final};
ghost use Rattle.upload_book.specs.Lawful.{IsConcatText, is_kept_metadata};
ghost use Rattle.upload_book.specs.Operation.{MayLackMemory};
ghost use Rattle.upload_book.specs.Operation as operation;
ghost use Rattle.upload_book.specs.PlainBook.{answer_of, book_after};
ghost use Rattle.upload_book.specs.Ready.{IsReadyForFinal};
ghost use Rattle.upload_book.specs.Refusal.{IsAnswer, first_that_holds};
ghost use Rattle.upload_book.specs.BlockStore.{part_at, Joins};

use crate::block_store::BlockStore;
use crate::book::Book;
use crate::create::Created;
use crate::expiry::finished_end;
use crate::head_row::Name;
use crate::moment::Moment;
use crate::parts_seen::PartsSeen;
use crate::ready::ReadyFinal;
use crate::refusal::Refusal;
use crate::settings::Numbers;
use crate::texts::texts_ahead;
use std::marker::Model;

/// The final upload that a concatenation asks for (tus 1.0.0, Concatenation). A contract sees its parts
/// as a list of ids, and its texts as lists of bytes.
#[derive(Drop)]
pub struct NewFinal<'a> {
    /// Its parts in their order, each by its id; `None` stands for one whose path names another tenant.
    pub parts: &'a [Option<u64>],
    /// `Upload-Metadata`; empty where there is none.
    pub metadata: &'a [u8],
    /// `Upload-Concat`: `final;` and the paths of the parts.
    pub concat: &'a [u8],
}

impl<'a> Model for NewFinal<'a> {
    ghost use Rattle.upload_book.specs.NewFinal as spec;

    ghost Value = { spec.NewFinal };

    ghost view = { λ new. record {
      parts = new.parts.now;
      metadata = new.metadata.now;
      concat = new.concat.now;
    } };
}

impl Book {
    /// Joins partial uploads of the tenant at this place to a final one, under the next id. No byte is
    /// copied, and no block taken: the final upload holds the blocks of its parts, once more for each time
    /// that a part is named, and keeps them where the parts end. The tenant pays nothing for it. It expires as finished
    /// uploads do, where these end by themselves.
    ///
    /// It is refused, in this order, as TooLong where each part is a visible partial upload that has all
    /// of its bytes and they are more than the greatest size together, as Part where a part is no visible
    /// partial upload of the tenant, as PartOpen where a part does not have all of its bytes, as Uploads
    /// where the tenant has its greatest number of uploads, expired ones included, and as Spent where the
    /// tenant's ids are used up. Where none of them applies, it may be refused as Memory: there was none
    /// for the lists of its blocks, or for its texts. A refusal leaves the book as it was, and uses no id.
    pub fn concat(&mut self, tenant: u8, new: NewFinal, now: Moment) -> Result<Created, Refusal>
        requires tenant_there { tenant < length (plain_of self.old).settings.tenants }
        requires some { 0 < length new.parts }
        requires few { length new.parts ≤ 32 }
        requires metadata { IsTrue (is_kept_metadata new.metadata) }
        requires concat { IsConcatText Final new.concat }
        ensures answer { IsAnswer
            (answer_of (plain_of self.old) tenant (concat_answer tenant new.entry now))
            (MayLackMemory (plain_of self.old) (operation.Concat tenant new.entry) now)
            (Err Refusal.Memory) result }
        ensures accepted { OnOk result (plain_of self.new
            ≡ book_after (plain_of self.old) tenant (part_after_concat new.entry now)) }
        ensures shared { OnOk result (Joins self.old.store self.new.store tenant new.entry now) }
        ensures refused { OnErr result (self.new ≡ self.old) }
    {
        let ready = self.ready_for_final(tenant, new, now)?;
        Ok(self.put_final(ready))
    }

    // Lists the pieces of the parts of a concatenation, or finds why it is refused. It changes nothing.
    pub(crate) fn ready_for_final<'a>(
        &self,
        tenant: u8,
        new: NewFinal<'a>,
        now: Moment,
    ) -> Result<ReadyFinal<'a>, Refusal>
        requires tenant_there { tenant < length (plain_of self.now).settings.tenants }
        requires some { 0 < length new.parts }
        requires few { length new.parts ≤ 32 }
        requires metadata { IsTrue (is_kept_metadata new.metadata) }
        requires concat { IsConcatText Final new.concat }
        ensures tenant { IfOk result (λ r. r.tenant ≡ tenant) }
        ensures new { IfOk result (λ r. r.new ≡ new.entry) }
        ensures now { IfOk result (λ r. r.now ≡ now) }
        ensures ready { IfOk result (IsReadyForFinal self.now) }
        ensures refused { IfErr result (λ why. IsAnswer
            (answer_of (plain_of self.now) tenant (concat_answer tenant new.entry now))
            (MayLackMemory (plain_of self.now) (operation.Concat tenant new.entry) now)
            (Err Refusal.Memory) (Err why)) }
    {
        let numbers = self.settings.numbers();
        let place = usize::from(tenant);
        let seen = self.store.parts_seen(place, new.parts, now);
        if let Some(refusal) = concat_refusal(numbers, &self.store, place, &seen) {
            return Err(refusal);
        }
        let Ok(unheld) = self.store.list_parts(self.alloc, place, new.parts, now) else {
            return Err(Refusal::Memory);
        };
        let Ok(texts) = texts_ahead(self.alloc, numbers, new.metadata, new.concat) else {
            return Err(Refusal::Memory);
        };
        match Vec::with_capacity(self.alloc, unheld.len()) {
            Ok(pieces) => Ok(ReadyFinal {
                tenant,
                new,
                now,
                len: seen.len,
                expires: finished_end(numbers, now),
                unheld,
                pieces,
                texts,
            }),
            Err(_) => Err(Refusal::Memory),
        }
    }

    // Joins an upload of others.
    pub(crate) fn put_final(&mut self, ready: ReadyFinal) -> Created
        requires { IsReadyForFinal self.old ready }
        ensures answer { answer_of (plain_of self.old) ready.entry.tenant
            (concat_answer ready.entry.tenant ready.entry.new ready.entry.now) ≡ Ok result }
        ensures after { plain_of self.new
            ≡ book_after (plain_of self.old) ready.entry.tenant (part_after_concat ready.entry.new ready.entry.now) }
        ensures shared { Joins self.old.store self.new.store ready.entry.tenant ready.entry.new ready.entry.now }
    {
        let tenant = ready.tenant;
        let expires = ready.expires;
        let place = usize::from(tenant);
        let id = self.store.next(place);
        let created = Created {
            name: Name { tenant, id },
            expires,
        };
        self.store.join(place, ready);
        self.expiries.set_end(created.name, None, created.expires);
        created
    }
}

// Why the next concatenation of the tenant at this place is refused, if it is, where its parts are seen so.
fn concat_refusal(
    numbers: &Numbers,
    store: &BlockStore,
    tenant: usize,
    seen: &PartsSeen,
) -> Option<Refusal>
    requires { tenant < length store.now.stored_tenants }
    ensures { result ≡ first_that_holds
        (concat_tests numbers.now (part_at store.now tenant) seen.now.there seen.now.complete seen.now.len) }
{
    if seen.there && seen.complete && seen.len > numbers.max_size {
        Some(Refusal::TooLong)
    } else if !seen.there {
        Some(Refusal::Part)
    } else if !seen.complete {
        Some(Refusal::PartOpen)
    } else if store.count(tenant) as u64 >= numbers.uploads {
        Some(Refusal::Uploads)
    } else if store.next(tenant) > numbers.last_id {
        Some(Refusal::Spent)
    } else {
        None
    }
}

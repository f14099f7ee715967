ghost use Rattle.std.specs.Prelude.{◌≡◌, ◌<◌, length, Ok, Err, IfOk, IfErr, OnErr};
ghost use Rattle.upload_book.specs.Book.{plain_of};
ghost use Rattle.upload_book.specs.PlainBook.{answer_of, book_after, tenant_book, with_tenant_book};
ghost use Rattle.upload_book.specs.Ready.{IsReadyForEnd};
ghost use Rattle.upload_book.specs.inside.Places.{IsPlaceOf};
ghost use Rattle.upload_book.specs.Terminate.{given_back, part_after_terminate, terminate_answer, without};

use crate::book::Book;
use crate::head_row::Name;
use crate::moment::Moment;
use crate::ready::ReadyEnd;
use crate::refusal::Refusal;

/// What a DELETE gave back.
#[derive(Clone, Copy, Debug, PartialEq, Eq)]
pub struct Removed {
    /// How many blocks became free.
    pub blocks: u64,
    /// How many blocks the tenant no longer pays.
    pub released: u64,
}

impl Book {
    /// Ends an upload. Its blocks become free, but for those that another upload holds. It takes no memory,
    /// and costs the blocks of the upload and the number of the tenant's uploads; where it expires, the entries of those
    /// that expire later move.
    ///
    /// It is refused as Unknown where the id was never given, and as Gone where the upload has ended or
    /// expired. A refusal leaves the book as it was.
    pub fn terminate(&mut self, name: &Name, now: Moment) -> Result<Removed, Refusal>
        ensures answer { result ≡ answer_of (plain_of self.old) name.now.tenant (terminate_answer name.now.id now) }
        ensures after { plain_of self.new
            ≡ book_after (plain_of self.old) name.now.tenant (part_after_terminate name.now.id now) }
        ensures refused { OnErr result (self.new ≡ self.old) }
    {
        let ready = self.ready_for_end(*name, now)?;
        Ok(self.end(ready))
    }

    // Finds the upload that a DELETE ends, or why it is refused. It changes nothing.
    pub(crate) fn ready_for_end(&self, name: Name, now: Moment) -> Result<ReadyEnd, Refusal>
        ensures name { IfOk result (λ r. r.name ≡ name) }
        ensures now { IfOk result (λ r. r.now ≡ now) }
        ensures ready { IfOk result (IsReadyForEnd self.now) }
        ensures refused { IfErr result
            (λ e. answer_of (plain_of self.now) name.tenant (terminate_answer name.id now) ≡ Err e) }
    {
        let place = self.store.place(&name, now)?;
        Ok(ReadyEnd { name, now, place })
    }

    // Ends the upload of this name, which stands at this place of its tenant's part, whether it has expired or not. Gives
    // how many blocks became free.
    pub(crate) fn remove(&mut self, name: Name, place: usize) -> u64
        requires tenant { name.tenant < length self.old.store.stored_tenants }
        requires placed { IsPlaceOf self.old.store name.tenant name.id place }
        ensures freed { result ≡ given_back (plain_of self.old).settings.numbers
            (tenant_book (plain_of self.old) name.tenant) (without (tenant_book (plain_of self.old) name.tenant) name.id) }
        ensures after { plain_of self.new ≡ with_tenant_book (plain_of self.old) name.tenant
            (without (tenant_book (plain_of self.old) name.tenant) name.id) }
    {
        let tenant = usize::from(name.tenant);
        let end = self.store.expires(tenant, place);
        let blocks = self.store.remove(tenant, place);
        self.expiries.set_end(name, end, None);
        self.released += blocks;
        blocks
    }

    // Ends an upload.
    pub(crate) fn end(&mut self, ready: ReadyEnd) -> Removed
        requires { IsReadyForEnd self.old ready }
        ensures answer { answer_of (plain_of self.old) ready.name.tenant
            (terminate_answer ready.name.id ready.now) ≡ Ok result }
        ensures after { plain_of self.new
            ≡ book_after (plain_of self.old) ready.name.tenant (part_after_terminate ready.name.id ready.now) }
    {
        let blocks = self.remove(ready.name, ready.place);
        Removed {
            blocks,
            released: blocks,
        }
    }
}

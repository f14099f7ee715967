ghost use Rattle.std.specs.Prelude.{◌≡◌, ◌+◌, ◌-◌, ◌<◌, ◌≤◌, ◌^◌, length, sum, None};
ghost use Rattle.upload_book.specs.Book.{plain_of};
ghost use Rattle.upload_book.specs.Change.{book_after_change};
ghost use Rattle.upload_book.specs.Charge.{charge_in};
ghost use Rattle.upload_book.specs.declared.change.Change.TheVariants as change;
ghost use Rattle.upload_book.specs.Heads.{accounts_of};
ghost use Rattle.upload_book.specs.PlainBook.{tenant_book, with_tenant_book};
ghost use Rattle.upload_book.specs.declared.restored.Restored.TheVariants as piece;
ghost use Rattle.upload_book.specs.Ready.{IsReadyForChunk, IsReadyForEnd, IsReadyForFinal, IsReadyForNext, IsReadyForPiece, IsReadyForStep, IsReadyForTotals, IsReadyForUpload, piece_in, step_change, step_moment};
ghost use Rattle.upload_book.specs.snapshot.Restore.{IsRestorable, book_after_piece, piece_refusal};
ghost use Rattle.upload_book.specs.Sweep.{book_after_sweep};
ghost use Rattle.upload_book.specs.TenantBook.{TenantBook};

use crate::board_line::Accounts;
use crate::book::Book;
use crate::moment::Moment;
use crate::progress::blocks_added;
use crate::ready::{
    ReadyChunk, ReadyEnd, ReadyFinal, ReadyNext, ReadyPiece, ReadyTotals, ReadyUpload, Step,
};
use crate::restored::RestoredUpload;

impl Book {
    /// The accounts after a change for which the book is ready. Where a sweep ends any upload, they go over the uploads of all
    /// tenants; a sweep that ends none looks at no upload. Where a final upload ends, they go over the tenant's pieces once for
    /// each piece of an upload that ends whose blocks others hold too.
    pub(crate) fn accounts_after(&self, step: &Step) -> Accounts
        requires { IsReadyForStep self.now step.now }
        ensures { result ≡ accounts_of (book_after_change (plain_of self.now) (step_change step.now) (step_moment step.now)) }
    {
        match step {
            Step::Create(upload) => self.accounts_after_upload(upload),
            Step::Append(chunk) => self.accounts_after_chunk(chunk),
            Step::Concat(joined) => self.accounts_after_final(joined),
            Step::Terminate(end) => self.accounts_after_end(end),
            Step::Sweep(sweep) => self.accounts_swept(sweep.now),
            Step::Restore(restore) => self.accounts_after_piece(&restore.piece),
        }
    }

    // The accounts after a creation.
    fn accounts_after_upload(&self, ready: &ReadyUpload) -> Accounts
        requires { IsReadyForUpload self.now ready.now }
        ensures { result ≡ accounts_of (book_after_change (plain_of self.now)
            (change.Create ready.entry.now.tenant ready.entry.now.new ready.entry.now.first) ready.entry.now.now) }
    {
        let tenant = ready.tenant;
        let len = ready.first.len();
        let cost = blocks_added(self.settings.numbers(), 0, len);
        self.accounts_where(tenant, self.charge(tenant) + cost)
    }

    // The accounts after a PATCH.
    fn accounts_after_chunk(&self, ready: &ReadyChunk) -> Accounts
        requires { IsReadyForChunk self.now ready.now }
        ensures { result ≡ accounts_of (book_after_change (plain_of self.now)
            (change.Append ready.entry.now.name ready.entry.now.chunk) ready.entry.now.now) }
    {
        // the numbers tell what is kept of the book
        let _in_range = self.settings.numbers();
        let tenant = ready.name.tenant;
        self.accounts_where(tenant, self.charge(tenant) + ready.cost)
    }

    // The accounts after a concatenation.
    fn accounts_after_final(&self, ready: &ReadyFinal) -> Accounts
        requires { IsReadyForFinal self.now ready.now }
        ensures { result ≡ accounts_of (book_after_change (plain_of self.now)
            (change.Concat ready.entry.now.tenant ready.entry.now.new) ready.entry.now.now) }
    {
        // the numbers tell what is kept of the book
        let _in_range = self.settings.numbers();
        let tenant = ready.tenant;
        self.accounts_where(tenant, self.charge(tenant))
    }

    // The accounts after a DELETE.
    fn accounts_after_end(&self, ready: &ReadyEnd) -> Accounts
        requires { IsReadyForEnd self.now ready.now }
        ensures { result ≡ accounts_of (book_after_change (plain_of self.now)
            (change.Terminate ready.entry.now.name) ready.entry.now.now) }
    {
        let tenant = ready.name.tenant;
        let charge = self.store.charge_without(usize::from(tenant), ready.place);
        self.accounts_where(tenant, charge)
    }

    // The accounts after a piece that is put back. They go over the segments of an upload.
    fn accounts_after_piece(&self, ready: &ReadyPiece) -> Accounts
        requires { IsReadyForPiece self.now ready.now }
        ensures { result ≡ accounts_of (book_after_piece (plain_of self.now) (piece_in ready.entry.now)) }
    {
        match ready {
            ReadyPiece::Own(own) => self.accounts_after_back(own.tenant, &own.upload),
            ReadyPiece::Joined(joined) => self.accounts_after_back(joined.tenant, &joined.upload),
            ReadyPiece::Next(next) => self.accounts_after_next(next),
            ReadyPiece::Totals(totals) => self.accounts_after_totals(totals),
        }
    }

    // The accounts after an upload that is put back for the tenant at this place.
    fn accounts_after_back(&self, tenant: u8, upload: &RestoredUpload) -> Accounts
        requires tenant_there { tenant < length (plain_of self.now).settings.tenants }
        requires form { IsRestorable upload.now }
        requires accepted { piece_refusal (plain_of self.now) (piece.Upload tenant upload.now) ≡ None }
        ensures { result ≡ accounts_of (book_after_piece (plain_of self.now) (piece.Upload tenant upload.now)) }
    {
        let size = self.settings.numbers().block_size;
        let added = upload.blocks(size);
        self.accounts_where(tenant, self.charge(tenant) + added)
    }

    // The accounts after a next id, which costs nothing.
    fn accounts_after_next(&self, ready: &ReadyNext) -> Accounts
        requires { IsReadyForNext self.now ready.now }
        ensures { result ≡ accounts_of (book_after_piece (plain_of self.now)
            (piece.Next ready.entry.now.tenant ready.entry.now.next)) }
    {
        // the numbers tell what is kept of the book
        let _in_range = self.settings.numbers();
        let tenant = ready.tenant;
        self.accounts_where(tenant, self.charge(tenant))
    }

    // The accounts after totals.
    fn accounts_after_totals(&self, ready: &ReadyTotals) -> Accounts
        requires { IsReadyForTotals self.now ready.now }
        ensures { result ≡ accounts_of (book_after_piece (plain_of self.now)
            (piece.Totals ready.entry.now.released)) }
    {
        let accounts = self.accounts();
        let charge = accounts.charge;
        Accounts {
            charged: self.charged_with(ready.released),
            released: ready.released,
            charge,
        }
    }

    // The accounts once the tenant at this place pays so much, and the others what they pay.
    fn accounts_where(&self, tenant: u8, charge: u64) -> Accounts
        requires tenant_there { tenant < length (plain_of self.now).settings.tenants }
        requires within { (plain_of self.now).charged
            + (charge - charge_in (plain_of self.now).settings.numbers (tenant_book (plain_of self.now) tenant))
            ≤ (plain_of self.now).settings.numbers.last_total }
        ensures { (part : TenantBook) → charge_in (plain_of self.now).settings.numbers part ≡ charge
            → result ≡ accounts_of (with_tenant_book (plain_of self.now) tenant part) }
    {
        // the numbers tell that what may be charged in all is a number
        let _in_range = self.settings.numbers();
        let place = usize::from(tenant);
        let before = self.charge(tenant);
        let accounts = self.accounts();
        let mut charges = accounts.charge;
        charges[place] = charge;
        Accounts {
            charged: accounts.charged + charge.saturating_sub(before),
            released: accounts.released + before.saturating_sub(charge),
            charge: charges,
        }
    }

    // The accounts after a sweep. What was charged and not released is what the tenants pay.
    fn accounts_swept(&self, now: Moment) -> Accounts
        ensures { result ≡ accounts_of (book_after_sweep (plain_of self.now) now) }
    {
        if self.ends_none(now) {
            return self.accounts();
        }
        let charge = self.store.charges_swept(now);
        let released = self.charged - total(&charge);
        Accounts {
            charged: self.charged,
            released,
            charge,
        }
    }
}

// What all tenants pay together.
fn total(charges: &[u64]) -> u64
    requires { sum charges.now < 2 ^ 64 }
    ensures { result ≡ sum charges.now }
{
    charges.iter().sum()
}

//! A book is put back from a snapshot of it, piece by piece.
ghost use Rattle.std.specs.Prelude.{◌≡◌, ◌<◌, ◌≤◌, false, length, None, Some, IfOk, IfErr};
ghost use Rattle.upload_book.specs.BlockStore.{part_at};
ghost use Rattle.upload_book.specs.Book.{plain_of};
ghost use Rattle.upload_book.specs.inside.Back.{own_tests};
ghost use Rattle.upload_book.specs.inside.FinalBack.{final_tests, limits_of};
ghost use Rattle.upload_book.specs.inside.PieceRefusal.{IsPieceRefusal};
ghost use Rattle.upload_book.specs.Append.{is_final};
ghost use Rattle.upload_book.specs.declared.head_row.Kind.TheVariants.{Final};
ghost use Rattle.upload_book.specs.Ready.{IsReadyForBack, IsReadyForNext, IsReadyForOwn, IsReadyForPiece, IsReadyForTotals, piece_in};
ghost use Rattle.upload_book.specs.Refusal.{first_that_holds};
ghost use Rattle.upload_book.specs.snapshot.Restore.{CanBePutBack, IsRestorable, book_after_piece, charged_with, next_tests, piece_refusal};
ghost use Rattle.upload_book.specs.declared.restored.Restored.TheVariants as piece;
ghost use Rattle.upload_book.specs.TenantBook.{TenantBook};

use crate::block_store::BlockStore;
use crate::board_line::Account;
use crate::book::Book;
use crate::create::Created;
use crate::final_back::Left;
use crate::head_row::{Kind, Name};
use crate::ready::{ReadyBack, ReadyNext, ReadyOwn, ReadyPiece, ReadyTotals};
use crate::refusal::Refusal;
use crate::restored::{Restored, RestoredUpload};
use crate::settings::Numbers;
use crate::texts::texts_ahead;

impl Book {
    /// Finds whether a piece is put back, and takes all memory that it takes. It changes nothing.
    pub(crate) fn ready_for_piece<'a>(&self, piece: Restored<'a>) -> Result<ReadyPiece<'a>, Refusal>
        requires { CanBePutBack (length (plain_of self.now).settings.tenants) piece }
        ensures piece { IfOk result (λ r. piece_in r ≡ piece.entry) }
        ensures ready { IfOk result (IsReadyForPiece self.now) }
        ensures refused { IfErr result (IsPieceRefusal (plain_of self.now) piece.entry) }
    {
        match piece {
            Restored::Upload { tenant, upload } => self.ready_for_back(tenant, upload),
            Restored::Next { tenant, next } => match self.ready_for_next(tenant, next) {
                Ok(next) => Ok(ReadyPiece::Next(next)),
                Err(refusal) => Err(refusal),
            },
            Restored::Totals { released } => match self.ready_for_totals(released) {
                Ok(totals) => Ok(ReadyPiece::Totals(totals)),
                Err(refusal) => Err(refusal),
            },
        }
    }

    // The same of an upload.
    fn ready_for_back<'a>(
        &self,
        tenant: u8,
        upload: RestoredUpload<'a>,
    ) -> Result<ReadyPiece<'a>, Refusal>
        requires tenant_there { tenant < length (plain_of self.now).settings.tenants }
        requires form { IsRestorable upload }
        ensures piece { IfOk result (λ r. piece_in r ≡ piece.Upload tenant upload.entry) }
        ensures ready { IfOk result (IsReadyForPiece self.now) }
        ensures refused { IfErr result (IsPieceRefusal (plain_of self.now) (piece.Upload tenant upload.entry)) }
    {
        match upload.kind {
            Kind::Final => match self.ready_for_final_back(tenant, upload) {
                Ok(joined) => Ok(ReadyPiece::Joined(joined)),
                Err(refusal) => Err(refusal),
            },
            Kind::Plain | Kind::Partial => match self.ready_for_own(tenant, upload) {
                Ok(own) => Ok(ReadyPiece::Own(own)),
                Err(refusal) => Err(refusal),
            },
        }
    }

    /// Puts back a piece. It cannot fail, and takes no memory.
    pub(crate) fn put_piece(&mut self, ready: ReadyPiece)
        requires { IsReadyForPiece self.old ready }
        ensures accepted { piece_refusal (plain_of self.old) (piece_in ready.entry) ≡ None }
        ensures after { plain_of self.new ≡ book_after_piece (plain_of self.old) (piece_in ready.entry) }
    {
        match ready {
            ReadyPiece::Own(own) => self.put_own(own),
            ReadyPiece::Joined(joined) => self.put_final_back(joined),
            ReadyPiece::Next(next) => self.put_next(next),
            ReadyPiece::Totals(totals) => self.put_totals(totals),
        }
    }

    // Makes room for a final upload that is put back, or finds why it is refused. It changes nothing.
    fn ready_for_final_back<'a>(
        &self,
        tenant: u8,
        upload: RestoredUpload<'a>,
    ) -> Result<ReadyBack<'a>, Refusal>
        requires tenant_there { tenant < length (plain_of self.now).settings.tenants }
        requires kind { upload.kind ≡ Final }
        requires form { IsRestorable upload }
        ensures tenant { IfOk result (λ r. r.tenant ≡ tenant) }
        ensures upload { IfOk result (λ r. r.upload ≡ upload.entry) }
        ensures ready { IfOk result (IsReadyForBack self.now) }
        ensures refused { IfErr result (IsPieceRefusal (plain_of self.now) (piece.Upload tenant upload.entry)) }
    {
        let place = usize::from(tenant);
        if let Some(refusal) = self.final_refusal(tenant, &upload) {
            return Err(refusal);
        }
        let Ok(bodies) = self.store.rooms_for(self.alloc, place, upload.segments) else {
            return Err(Refusal::Memory);
        };
        let numbers = self.settings.numbers();
        let Ok(texts) = texts_ahead(self.alloc, numbers, upload.metadata, upload.concat) else {
            return Err(Refusal::Memory);
        };
        match Vec::with_capacity(self.alloc, upload.segments.len()) {
            Ok(pieces) => Ok(ReadyBack {
                tenant,
                upload,
                bodies,
                pieces,
                texts,
            }),
            Err(_) => Err(Refusal::Memory),
        }
    }

    // Why a final upload is not put back, if it is not.
    fn final_refusal(&self, tenant: u8, upload: &RestoredUpload) -> Option<Refusal>
        requires tenant_there { tenant < length (plain_of self.now).settings.tenants }
        requires kind { upload.now.kind ≡ Final }
        requires form { IsRestorable upload.now }
        ensures { result ≡ piece_refusal (plain_of self.now) (piece.Upload tenant upload.now) }
    {
        let account = self.account(tenant);
        let place = usize::from(tenant);
        let numbers = self.settings.numbers();
        if upload.id != self.store.next(place) {
            return Some(Refusal::Field);
        }
        let limits = limits_of(numbers, &account, upload.declared);
        match self.store.left(place, upload.segments, limits) {
            Some(left) => refusal_within(numbers, &self.store, place, upload, &left),
            None => Some(Refusal::Part),
        }
    }

    // Keeps a final upload.
    fn put_final_back(&mut self, ready: ReadyBack)
        requires { IsReadyForBack self.old ready }
        ensures { plain_of self.new
            ≡ book_after_piece (plain_of self.old) (piece.Upload ready.entry.tenant ready.entry.upload) }
    {
        let place = usize::from(ready.tenant);
        let back = ready.upload.created(ready.tenant);
        // the numbers tell that what may be charged in all is a number
        let _in_range = self.settings.numbers();
        self.charged += self.store.put_back(place, ready);
        self.expiries.set_end(back.name, None, back.expires);
    }

    // Finds whether a tenant's next id is put back. It changes nothing.
    fn ready_for_next(&self, tenant: u8, next: u64) -> Result<ReadyNext, Refusal>
        requires { tenant < length (plain_of self.now).settings.tenants }
        ensures value { IfOk result (λ r. r ≡ record { tenant = tenant; next = next }) }
        ensures ready { IfOk result (IsReadyForNext self.now) }
        ensures refused { IfErr result (λ why. piece_refusal (plain_of self.now) (piece.Next tenant next) ≡ Some why) }
    {
        let given = self.store.next(usize::from(tenant));
        match next_refusal(self.settings.numbers(), given, next) {
            Some(refusal) => Err(refusal),
            None => Ok(ReadyNext { tenant, next }),
        }
    }

    // Sets a tenant's next id.
    fn put_next(&mut self, ready: ReadyNext)
        requires { IsReadyForNext self.old ready }
        ensures { plain_of self.new ≡ book_after_piece (plain_of self.old) (piece.Next ready.tenant ready.next) }
    {
        self.store.set_next(usize::from(ready.tenant), ready.next);
    }

    // Makes room for an upload of its own that is put back, or finds why it is refused. It changes nothing.
    fn ready_for_own<'a>(
        &self,
        tenant: u8,
        upload: RestoredUpload<'a>,
    ) -> Result<ReadyOwn<'a>, Refusal>
        requires tenant_there { tenant < length (plain_of self.now).settings.tenants }
        requires own { is_final upload.kind ≡ false }
        requires form { IsRestorable upload }
        ensures tenant { IfOk result (λ r. r.tenant ≡ tenant) }
        ensures upload { IfOk result (λ r. r.upload ≡ upload.entry) }
        ensures ready { IfOk result (IsReadyForOwn self.now) }
        ensures refused { IfErr result (IsPieceRefusal (plain_of self.now) (piece.Upload tenant upload.entry)) }
    {
        let account = self.account(tenant);
        let place = usize::from(tenant);
        let numbers = self.settings.numbers();
        let bytes = upload.own_bytes();
        let len = bytes.len() as u64;
        if let Some(refusal) = own_refusal(numbers, &account, &self.store, place, &upload, len) {
            return Err(refusal);
        }
        let Ok(body) = self.store.body_for(self.alloc, len) else {
            return Err(Refusal::Memory);
        };
        match texts_ahead(self.alloc, numbers, upload.metadata, upload.concat) {
            Ok(texts) => Ok(ReadyOwn {
                tenant,
                upload,
                body,
                texts,
            }),
            Err(_) => Err(Refusal::Memory),
        }
    }

    // Keeps an upload of its own.
    fn put_own(&mut self, ready: ReadyOwn)
        requires { IsReadyForOwn self.old ready }
        ensures { plain_of self.new
            ≡ book_after_piece (plain_of self.old) (piece.Upload ready.entry.tenant ready.entry.upload) }
    {
        let ReadyOwn {
            tenant,
            upload,
            body,
            texts,
        } = ready;
        let bytes = upload.own_bytes();
        let new = upload.as_new();
        let place = usize::from(tenant);
        let created = Created {
            name: Name {
                tenant,
                id: upload.id,
            },
            expires: upload.expires,
        };
        // the numbers tell that what may be charged in all is a number
        let _in_range = self.settings.numbers();
        let store = &mut self.store;
        self.charged += store.create(place, &new, body, bytes, created.expires, texts);
        self.expiries.set_end(created.name, None, created.expires);
    }

    // Finds whether totals are put back. It changes nothing.
    fn ready_for_totals(&self, released: u64) -> Result<ReadyTotals, Refusal>
        ensures value { IfOk result (λ r. r ≡ record { released = released }) }
        ensures ready { IfOk result (IsReadyForTotals self.now) }
        ensures refused { IfErr result (λ why. piece_refusal (plain_of self.now) (piece.Totals released) ≡ Some why) }
    {
        // the numbers tell what is kept of the book
        let last_total = self.settings.numbers().last_total;
        let paid = self.charged - self.released;
        if released < self.released {
            Err(Refusal::Field)
        } else if released > last_total - paid {
            Err(Refusal::Spent)
        } else {
            Ok(ReadyTotals { released })
        }
    }

    /// How many blocks were charged in all, where so many of them were released: the others are those that the tenants pay.
    pub(crate) fn charged_with(&self, released: u64) -> u64
        requires { piece_refusal (plain_of self.now) (piece.Totals released) ≡ None }
        ensures { result ≡ charged_with (plain_of self.now) released }
    {
        // the numbers tell that what may be charged in all is a number
        let _in_range = self.settings.numbers();
        released + (self.charged - self.released)
    }

    // Sets the totals.
    fn put_totals(&mut self, ready: ReadyTotals)
        requires { IsReadyForTotals self.old ready }
        ensures { plain_of self.new ≡ book_after_piece (plain_of self.old) (piece.Totals ready.released) }
    {
        self.charged = self.charged_with(ready.released);
        self.released = ready.released;
    }
}

// Why an upload of its own of so many bytes is not put back, if it is not, for the tenant at this place on its account.
fn own_refusal(
    numbers: &Numbers,
    account: &Account,
    store: &BlockStore,
    tenant: usize,
    upload: &RestoredUpload,
    len: u64,
) -> Option<Refusal>
    requires tenant { tenant < length store.now.stored_tenants }
    requires blocks { 0 < numbers.now.block_size }
    requires quota { account.now.charge ≤ account.now.quota }
    requires charged { account.now.charged ≤ numbers.now.last_total }
    ensures { result
        ≡ first_that_holds (own_tests numbers.now account.now (part_at store.now tenant) upload.now len) }
{
    let most = upload.declared.unwrap_or(numbers.max_size);
    let last_total = numbers.last_total;
    let added = len.div_ceil(numbers.block_size);
    let is_complete = upload.declared == Some(len);
    if upload.id != store.next(tenant) || !upload.ends_rightly(numbers, is_complete) {
        Some(Refusal::Field)
    } else if most > numbers.max_size || len > most {
        Some(Refusal::TooLong)
    } else if store.count(tenant) as u64 >= numbers.uploads {
        Some(Refusal::Uploads)
    } else if upload.id > numbers.last_id || added > last_total - account.charged {
        Some(Refusal::Spent)
    } else if added > account.quota - account.charge {
        Some(Refusal::Quota)
    } else {
        None
    }
}

// What an upload of this length and its tenant may still have.
fn limits_of(numbers: &Numbers, account: &Account, declared: Option<u64>) -> Left
    requires quota { account.now.charge ≤ account.now.quota }
    requires charged { account.now.charged ≤ numbers.now.last_total }
    ensures { result ≡ limits_of numbers.now account.now declared }
{
    Left {
        bytes: declared,
        quota: Some(account.quota - account.charge),
        total: Some(numbers.last_total - account.charged),
    }
}

// Why a final upload whose segments are had is not put back, if it is not, where so much is left for it.
fn refusal_within(
    numbers: &Numbers,
    store: &BlockStore,
    tenant: usize,
    upload: &RestoredUpload,
    left: &Left,
) -> Option<Refusal>
    requires { tenant < length store.now.stored_tenants }
    ensures { result ≡ first_that_holds (final_tests numbers.now (part_at store.now tenant) upload.now left.now) }
{
    if !upload.ends_rightly(numbers, left.bytes == Some(0)) {
        Some(Refusal::Field)
    } else if upload.declared.unwrap_or(numbers.max_size) > numbers.max_size {
        Some(Refusal::TooLong)
    } else if !store.may_be_parts(tenant, upload.segments) {
        Some(Refusal::PartOpen)
    } else if store.count(tenant) as u64 >= numbers.uploads {
        Some(Refusal::Uploads)
    } else if upload.id > numbers.last_id || left.total.is_none() {
        Some(Refusal::Spent)
    } else if left.quota.is_none() {
        Some(Refusal::Quota)
    } else {
        None
    }
}

// Why a tenant's next id is not put back, if it is not, where this is the one so far.
fn next_refusal(numbers: &Numbers, given: u64, next: u64) -> Option<Refusal>
    ensures { (part : TenantBook) → part.next ≡ given → result ≡ first_that_holds (next_tests numbers.now part next) }
{
    if next < given {
        Some(Refusal::Field)
    } else if next.saturating_sub(1) > numbers.last_id {
        Some(Refusal::Spent)
    } else {
        None
    }
}

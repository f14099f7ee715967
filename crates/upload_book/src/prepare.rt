ghost use Rattle.std.specs.Prelude.{◌≡◌, Ok, Err, IfOk, IfErr, None, OnErr, length};
ghost use Rattle.upload_book.specs.Book.{plain_of};
ghost use Rattle.upload_book.specs.Change.{CanBeMade, MayLackFor, book_after_change, change_answer, change_lacking};
ghost use Rattle.upload_book.specs.declared.change.Change.TheVariants as change;
ghost use Rattle.upload_book.specs.declared.refusal.Refusal.TheVariants.{Memory};
ghost use Rattle.upload_book.specs.Ready.{IsReady, IsReadyForChunk, LeavesBlocks, change_in, moment_in};
ghost use Rattle.upload_book.specs.Refusal.{IsAnswer};

use crate::append::Refused;
use crate::book::Book;
use crate::change::{Change, Outcome};
use crate::moment::Moment;
use crate::ready::{Ready, ReadyChunk, ReadyRestore, ReadySweep, Step};
use crate::refusal::Refusal;

impl Book {
    /// Finds whether a change can be made at `now`, and takes all memory that it takes. [`Book::commit`] then makes
    /// it. The book stays as it is but for room in lists: it stands for the same plain book, no block changes, and a
    /// change that is let go costs nothing.
    ///
    /// It is refused as the change is ([`Change`]): by the first refusal that applies, and as Memory where there was none. A refusal leaves the book as it was; that of a PATCH tells when its upload expires.
    pub fn prepare<'a>(&mut self, change: Change<'a>, now: Moment) -> Result<Ready<'a>, Refused>
        requires { CanBeMade (length (plain_of self.old).settings.tenants) change }
        ensures change { IfOk result (λ ready. change_in ready ≡ change.entry) }
        ensures now { IfOk result (λ ready. moment_in ready ≡ now) }
        ensures ready { IfOk result (IsReady self.new) }
        ensures refused { IfErr result (λ why. IsAnswer
            (change_answer (plain_of self.old) change.entry now)
            (MayLackFor (plain_of self.old) change.entry now)
            (change_lacking (plain_of self.old) change.entry now) (Err why)) }
        ensures plain { plain_of self.new ≡ plain_of self.old }
        ensures pool { self.new.store.pool ≡ self.old.store.pool }
        ensures unchanged { OnErr result (self.new ≡ self.old) }
    {
        match change {
            Change::Create { tenant, new, first } => {
                match self.ready_for_upload(tenant, new, first, now) {
                    Ok(ready) => Ok(Ready {
                        step: Step::Create(ready),
                    }),
                    Err(refusal) => Err(untold(refusal)),
                }
            }
            Change::Append { name, chunk } => match self.ready_for_chunk(name, chunk, now) {
                Ok(ready) => Ok(Ready {
                    step: Step::Append(ready),
                }),
                Err(refused) => Err(refused),
            },
            Change::Concat { tenant, new } => match self.ready_for_final(tenant, new, now) {
                Ok(ready) => Ok(Ready {
                    step: Step::Concat(ready),
                }),
                Err(refusal) => Err(untold(refusal)),
            },
            Change::Terminate(name) => match self.ready_for_end(name, now) {
                Ok(ready) => Ok(Ready {
                    step: Step::Terminate(ready),
                }),
                Err(refusal) => Err(untold(refusal)),
            },
            Change::Sweep => Ok(Ready {
                step: Step::Sweep(ReadySweep { now }),
            }),
            Change::Restore(restored) => match self.ready_for_piece(restored) {
                Ok(piece) => Ok(Ready {
                    step: Step::Restore(ReadyRestore { now, piece }),
                }),
                Err(refusal) => Err(untold(refusal)),
            },
        }
    }

    /// Makes a change for which the book is ready: nothing was changed since [`Book::prepare`] gave it. It cannot
    /// fail, takes no memory, and gives what the call gives that makes the change. A PATCH of no bytes touches no block; a
    /// concatenation takes none, and no byte of any block changes.
    pub fn commit(&mut self, ready: Ready) -> Outcome
        requires { IsReady self.old ready }
        ensures answer { change_answer (plain_of self.old) (change_in ready.entry) (moment_in ready.entry) ≡ Ok result }
        ensures after { plain_of self.new
            ≡ book_after_change (plain_of self.old) (change_in ready.entry) (moment_in ready.entry) }
        ensures blocks { LeavesBlocks self.old (change_in ready.entry) (moment_in ready.entry) self.new }
    {
        match ready.step {
            Step::Create(upload) => Outcome::Created(self.put_upload(upload)),
            Step::Append(chunk) => Outcome::Appended(self.put_chunk(chunk)),
            Step::Concat(joined) => Outcome::Created(self.put_final(joined)),
            Step::Terminate(end) => Outcome::Removed(self.end(end)),
            Step::Sweep(sweep) => Outcome::Swept(self.sweep(sweep.now)),
            Step::Restore(restore) => {
                self.put_piece(restore.piece);
                Outcome::Restored
            }
        }
    }
}

// A refusal that tells of no end.
fn untold(refusal: Refusal) -> Refused
    ensures { result ≡ record { refusal = refusal; expires = None } }
{
    Refused {
        refusal,
        expires: None,
    }
}

impl<'a> Ready<'a> {
    /// How the book, which is ready for the change, refuses it for want of memory: as Memory. The refusal of a PATCH tells
    /// when its upload expires, if it does. It takes no memory.
    pub fn refused_for_memory(&self, book: &Book) -> Refused
        requires { IsReady book.now self.now }
        ensures { Err result ≡ change_lacking (plain_of book.now) (change_in self.now) (moment_in self.now) }
    {
        match &self.step {
            Step::Append(chunk) => book.chunk_refused_for_memory(chunk),
            Step::Create(_)
            | Step::Concat(_)
            | Step::Terminate(_)
            | Step::Sweep(_)
            | Step::Restore(_) => refused_for_memory(None),
        }
    }
}

impl Book {
    // How the book refuses a PATCH for which it is ready.
    fn chunk_refused_for_memory(&self, ready: &ReadyChunk) -> Refused
        requires { IsReadyForChunk self.now ready.now }
        ensures { Err result ≡ change_lacking (plain_of self.now)
            (change.Append ready.entry.now.name ready.entry.now.chunk) ready.entry.now.now }
    {
        // the numbers tell what is kept of the book
        let _in_range = self.settings.numbers();
        refused_for_memory(ready.expires)
    }
}

/// A refusal as Memory, which tells when an upload expires, if it does.
pub(crate) fn refused_for_memory(expires: Option<Moment>) -> Refused
    ensures { result ≡ record { refusal = Memory; expires = expires } }
{
    Refused {
        refusal: Refusal::Memory,
        expires,
    }
}

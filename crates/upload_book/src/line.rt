ghost use Rattle.std.specs.Prelude.{◌≡◌, ◌<◌, ℕ, Some, IsTrue, length};
ghost use Rattle.upload_book.specs.Book.{plain_of};
ghost use Rattle.upload_book.specs.Change.{book_after_change, head_change, line_of};
ghost use Rattle.upload_book.specs.Create.{new_kind};
ghost use Rattle.upload_book.specs.declared.change.Change.TheVariants as change;
ghost use Rattle.upload_book.specs.declared.head_row.Kind.TheVariants.{Final};
ghost use Rattle.upload_book.specs.declared.head_note.NotedChange.TheVariants as noted;
ghost use Rattle.upload_book.specs.HeadNotes.{IsNoteOf, SharesTexts, change_told};
ghost use Rattle.upload_book.specs.Heads.{Heads, apply_line, heads_of};
ghost use Rattle.upload_book.specs.HeadSteps.{MayFollow};
ghost use Rattle.upload_book.specs.inside.Notes.{IsNoted};
ghost use Rattle.upload_book.specs.inside.Texts.{IsTextsFor};
ghost use Rattle.upload_book.specs.Lawful.{IsConcatText, is_kept_metadata};
ghost use Rattle.upload_book.specs.PlainBook.{tenant_book};
ghost use Rattle.upload_book.specs.declared.restored.Restored.TheVariants as piece;
ghost use Rattle.upload_book.specs.Ready.{IsReady, IsReadyForBack, IsReadyForChunk, IsReadyForEnd, IsReadyForFinal, IsReadyForNext, IsReadyForOwn, IsReadyForPiece, IsReadyForStep, IsReadyForTotals, IsReadyForUpload, change_in, moment_in, piece_in, step_change, step_moment};

use crate::board_line::{BoardLine, HeadChange};
use crate::book::Book;
use crate::concat::NewFinal;
use crate::create::{FirstChunk, NewUpload};
use crate::head_note::{Growth, HeadNote, NotedChange};
use crate::head_row::{HeadRow, Kind, Name};
use crate::moment::Moment;
use crate::ready::{
    Ready, ReadyBack, ReadyChunk, ReadyEnd, ReadyFinal, ReadyNext, ReadyOwn, ReadyPiece,
    ReadyTotals, ReadyUpload, Step,
};
use crate::row_ref::RowRef;
use crate::settings::Numbers;
use crate::shared_row::SharedRowRef;
use crate::texts::SharedTexts;

impl<'a> Ready<'a> {
    /// The line by which the change will change the heads of the book, which is ready for it: what HEADs will tell,
    /// and the accounts after it. It takes no memory and changes nothing, so it can be told before [`Book::commit`].
    ///
    /// A row copies as much of its texts as they have. The accounts of a DELETE and of a sweep go over the tenant's
    /// pieces once for each piece of an upload that ends whose blocks others hold too and, where a sweep ends any, over
    /// the uploads of all tenants. A sweep that ends none looks at no upload.
    pub fn line(&self, book: &Book) -> BoardLine
        requires { IsReady book.now self.now }
        ensures value { line_of (plain_of book.now) (change_in self.now) (moment_in self.now) ≡ Some result }
        ensures follows { MayFollow (heads_of (plain_of book.now)) result }
        ensures after { heads_of (book_after_change (plain_of book.now) (change_in self.now) (moment_in self.now))
            ≡ apply_line (heads_of (plain_of book.now)) result }
    {
        // the settings tell that the book is lawful
        let _lawful = book.settings();
        book.line_of_step(&self.step)
    }

    /// What the change will do to the heads of the book, which is ready for it, as small as it can be told: the texts of
    /// a new upload are lent, to be shared where there is no box for them, and a PATCH tells its numbers alone. It takes no
    /// memory and changes nothing, so it can be told before [`Book::commit`]. On the heads of the book it stands for the line
    /// that [`Ready::line`] tells. The accounts cost what they cost there.
    pub fn note(&self, book: &Book) -> HeadNote<'_>
        requires { IsReady book.now self.now }
        ensures { IsNoteOf (plain_of book.now) (change_in self.now) (moment_in self.now) result }
    {
        // the settings tell that the book is lawful
        let _lawful = book.settings();
        HeadNote {
            change: book.noted(&self.step),
            accounts: book.accounts_after(&self.step),
        }
    }
}

impl Book {
    // The line of a change.
    fn line_of_step(&self, step: &Step) -> BoardLine
        requires { IsReadyForStep self.now step.now }
        ensures { line_of (plain_of self.now) (step_change step.now) (step_moment step.now) ≡ Some result }
    {
        BoardLine {
            change: self.head_change(step),
            accounts: self.accounts_after(step),
        }
    }

    // What a change changes of the heads.
    fn head_change(&self, step: &Step) -> HeadChange
        requires { IsReadyForStep self.now step.now }
        ensures { head_change (plain_of self.now) (step_change step.now) (step_moment step.now) ≡ Some result }
    {
        match step {
            Step::Create(upload) => self.head_of_upload(upload),
            Step::Append(chunk) => self.head_of_chunk(chunk),
            Step::Concat(joined) => self.head_of_final(joined),
            Step::Terminate(end) => self.head_of_end(end),
            Step::Sweep(sweep) => HeadChange::Swept(sweep.now),
            Step::Restore(restore) => self.head_of_piece(&restore.piece),
        }
    }

    // What a creation changes of them.
    fn head_of_upload(&self, ready: &ReadyUpload) -> HeadChange
        requires { IsReadyForUpload self.now ready.now }
        ensures { head_change (plain_of self.now) (change.Create ready.entry.now.tenant ready.entry.now.new ready.entry.now.first)
            ready.entry.now.now ≡ Some result }
    {
        // the numbers tell what is kept of the book
        let _in_range = self.settings.numbers();
        let row = ready.new.row(ready.first.len(), ready.expires);
        HeadChange::Put(self.next_name(ready.tenant), row.copied())
    }

    // What a PATCH changes of them.
    fn head_of_chunk(&self, ready: &ReadyChunk) -> HeadChange
        requires { IsReadyForChunk self.now ready.now }
        ensures { head_change (plain_of self.now) (change.Append ready.entry.now.name ready.entry.now.chunk) ready.entry.now.now
            ≡ Some result }
    {
        // the numbers tell what is kept of the book
        let _in_range = self.settings.numbers();
        let before = self
            .store
            .head_row(usize::from(ready.name.tenant), ready.place)
            .copied();
        let row = HeadRow {
            offset: ready.after.offset,
            declared: ready.after.declared,
            expires: ready.after.expires,
            ..before
        };
        HeadChange::Put(ready.name, row)
    }

    // What a concatenation changes of them.
    fn head_of_final(&self, ready: &ReadyFinal) -> HeadChange
        requires { IsReadyForFinal self.now ready.now }
        ensures { head_change (plain_of self.now) (change.Concat ready.entry.now.tenant ready.entry.now.new) ready.entry.now.now
            ≡ Some result }
    {
        // the numbers tell what is kept of the book
        let _in_range = self.settings.numbers();
        let row = ready.new.row(ready.len, ready.expires);
        HeadChange::Put(self.next_name(ready.tenant), row.copied())
    }

    // What a DELETE changes of them.
    fn head_of_end(&self, ready: &ReadyEnd) -> HeadChange
        requires { IsReadyForEnd self.now ready.now }
        ensures { head_change (plain_of self.now) (change.Terminate ready.entry.now.name) ready.entry.now.now ≡ Some result }
    {
        // the numbers tell what is kept of the book
        let _in_range = self.settings.numbers();
        HeadChange::Gone(ready.name)
    }

    // What a piece that is put back changes of them.
    fn head_of_piece(&self, ready: &ReadyPiece) -> HeadChange
        requires { IsReadyForPiece self.now ready.now }
        ensures { (now : ℕ) → head_change (plain_of self.now) (change.Restore (piece_in ready.entry.now)) now ≡ Some result }
    {
        match ready {
            ReadyPiece::Own(own) => self.head_of_own(own),
            ReadyPiece::Joined(joined) => self.head_of_joined(joined),
            ReadyPiece::Next(next) => self.head_of_next(next),
            ReadyPiece::Totals(totals) => self.head_of_totals(totals),
        }
    }

    // What an upload of its own changes of them.
    fn head_of_own(&self, ready: &ReadyOwn) -> HeadChange
        requires { IsReadyForOwn self.now ready.now }
        ensures { (now : ℕ) → head_change (plain_of self.now)
            (change.Restore (piece.Upload ready.entry.now.tenant ready.entry.now.upload)) now ≡ Some result }
    {
        // the numbers tell what is kept of the book
        let _in_range = self.settings.numbers();
        let row = ready.upload.own_row();
        HeadChange::Put(ready.upload.name(ready.tenant), row.copied())
    }

    // What a final upload changes of them.
    fn head_of_joined(&self, ready: &ReadyBack) -> HeadChange
        requires { IsReadyForBack self.now ready.now }
        ensures { (now : ℕ) → head_change (plain_of self.now)
            (change.Restore (piece.Upload ready.entry.now.tenant ready.entry.now.upload)) now ≡ Some result }
    {
        // the numbers tell what is kept of the book
        let _in_range = self.settings.numbers();
        let row = ready.upload.final_row();
        HeadChange::Put(ready.upload.name(ready.tenant), row.copied())
    }

    // What a next id changes of them.
    fn head_of_next(&self, ready: &ReadyNext) -> HeadChange
        requires { IsReadyForNext self.now ready.now }
        ensures { (now : ℕ) → head_change (plain_of self.now)
            (change.Restore (piece.Next ready.entry.now.tenant ready.entry.now.next)) now ≡ Some result }
    {
        HeadChange::Next(Name {
            tenant: ready.tenant,
            id: ready.next,
        })
    }

    // What totals change of them.
    fn head_of_totals(&self, ready: &ReadyTotals) -> HeadChange
        requires { IsReadyForTotals self.now ready.now }
        ensures { (now : ℕ) → head_change (plain_of self.now)
            (change.Restore (piece.Totals ready.entry.now.released)) now ≡ Some result }
    {
        HeadChange::Totals
    }

    // What a change changes of the heads, as it is noted.
    fn noted<'a>(&self, step: &'a Step<'a>) -> NotedChange<'a>
        requires { IsReadyForStep self.now step.now }
        ensures { IsNoted (plain_of self.now) (step_change step.now) (step_moment step.now) result }
    {
        match step {
            Step::Create(upload) => self.note_of_upload(upload),
            Step::Append(chunk) => self.note_of_chunk(chunk),
            Step::Concat(joined) => self.note_of_final(joined),
            Step::Terminate(end) => self.note_of_end(end),
            Step::Sweep(sweep) => self.note_of_sweep(sweep.now),
            Step::Restore(restore) => self.note_of_piece(&restore.piece),
        }
    }

    // How a creation is noted.
    fn note_of_upload<'a>(&self, ready: &'a ReadyUpload<'a>) -> NotedChange<'a>
        requires { IsReadyForUpload self.now ready.now }
        ensures { IsNoted (plain_of self.now) (change.Create ready.entry.now.tenant ready.entry.now.new ready.entry.now.first)
            ready.entry.now.now result }
    {
        let numbers = self.settings.numbers();
        let row = ready.new.row(ready.first.len(), ready.expires);
        created(numbers, ready.tenant, row, &ready.texts)
    }

    // How a PATCH is noted.
    fn note_of_chunk<'a>(&self, ready: &ReadyChunk<'a>) -> NotedChange<'a>
        requires { IsReadyForChunk self.now ready.now }
        ensures { IsNoted (plain_of self.now) (change.Append ready.entry.now.name ready.entry.now.chunk) ready.entry.now.now
            result }
    {
        // the numbers tell what is kept of the book
        let _in_range = self.settings.numbers();
        let after = &ready.after;
        let growth = Growth {
            offset: after.offset,
            declared: after.declared,
            expires: after.expires,
        };
        NotedChange::Grown(ready.name, growth)
    }

    // How a concatenation is noted.
    fn note_of_final<'a>(&self, ready: &'a ReadyFinal<'a>) -> NotedChange<'a>
        requires { IsReadyForFinal self.now ready.now }
        ensures { IsNoted (plain_of self.now) (change.Concat ready.entry.now.tenant ready.entry.now.new) ready.entry.now.now
            result }
    {
        let numbers = self.settings.numbers();
        let row = ready.new.row(ready.len, ready.expires);
        created(numbers, ready.tenant, row, &ready.texts)
    }

    // How a DELETE is noted.
    fn note_of_end<'a>(&self, ready: &ReadyEnd) -> NotedChange<'a>
        requires { IsReadyForEnd self.now ready.now }
        ensures { IsNoted (plain_of self.now) (change.Terminate ready.entry.now.name) ready.entry.now.now result }
    {
        // the numbers tell what is kept of the book
        let _in_range = self.settings.numbers();
        NotedChange::Gone(ready.name)
    }

    // How a sweep is noted.
    fn note_of_sweep<'a>(&self, now: Moment) -> NotedChange<'a>
        ensures { IsNoted (plain_of self.now) change.Sweep now result }
    {
        NotedChange::Swept(now)
    }

    // How a piece that is put back is noted.
    fn note_of_piece<'a>(&self, ready: &'a ReadyPiece<'a>) -> NotedChange<'a>
        requires { IsReadyForPiece self.now ready.now }
        ensures { (now : ℕ) → IsNoted (plain_of self.now) (change.Restore (piece_in ready.entry.now)) now result }
    {
        match ready {
            ReadyPiece::Own(own) => self.note_of_own(own),
            ReadyPiece::Joined(joined) => self.note_of_joined(joined),
            ReadyPiece::Next(next) => self.note_of_next(next),
            ReadyPiece::Totals(totals) => self.note_of_totals(totals),
        }
    }

    // How an upload of its own is noted.
    fn note_of_own<'a>(&self, ready: &'a ReadyOwn<'a>) -> NotedChange<'a>
        requires { IsReadyForOwn self.now ready.now }
        ensures { (now : ℕ) → IsNoted (plain_of self.now)
            (change.Restore (piece.Upload ready.entry.now.tenant ready.entry.now.upload)) now result }
    {
        let numbers = self.settings.numbers();
        let row = ready.upload.own_row();
        created(numbers, ready.tenant, row, &ready.texts)
    }

    // How a final upload is noted.
    fn note_of_joined<'a>(&self, ready: &'a ReadyBack<'a>) -> NotedChange<'a>
        requires { IsReadyForBack self.now ready.now }
        ensures { (now : ℕ) → IsNoted (plain_of self.now)
            (change.Restore (piece.Upload ready.entry.now.tenant ready.entry.now.upload)) now result }
    {
        let numbers = self.settings.numbers();
        let row = ready.upload.final_row();
        created(numbers, ready.tenant, row, &ready.texts)
    }

    // How a next id is noted.
    fn note_of_next<'a>(&self, ready: &ReadyNext) -> NotedChange<'a>
        requires { IsReadyForNext self.now ready.now }
        ensures { (now : ℕ) → IsNoted (plain_of self.now)
            (change.Restore (piece.Next ready.entry.now.tenant ready.entry.now.next)) now result }
    {
        NotedChange::Next(Name {
            tenant: ready.tenant,
            id: ready.next,
        })
    }

    // How totals are noted.
    fn note_of_totals<'a>(&self, ready: &ReadyTotals) -> NotedChange<'a>
        requires { IsReadyForTotals self.now ready.now }
        ensures { (now : ℕ) → IsNoted (plain_of self.now)
            (change.Restore (piece.Totals ready.entry.now.released)) now result }
    {
        NotedChange::Totals
    }

    // The name that the next upload of the tenant at this place gets.
    fn next_name(&self, tenant: u8) -> Name
        requires { tenant < length (plain_of self.now).settings.tenants }
        ensures { result ≡ record { tenant = tenant; id = (tenant_book (plain_of self.now) tenant).next } }
    {
        Name {
            tenant,
            id: self.store.next(usize::from(tenant)),
        }
    }
}

// How the row of a new upload is noted whose texts got this memory, if they did.
fn created<'a>(
    numbers: &Numbers,
    tenant: u8,
    row: RowRef<'a>,
    texts: &'a Option<SharedTexts>,
) -> NotedChange<'a>
    requires { IsTextsFor numbers.now.uploads texts.now row.metadata row.concat }
    ensures told { (h : Heads) → change_told h result ≡ change_told h (noted.Created tenant row.entry) }
    ensures texts { SharesTexts numbers.now.uploads result }
{
    match texts {
        Some(texts) => NotedChange::Shared(tenant, SharedRowRef::new(&row, texts)),
        None => NotedChange::Created(tenant, row),
    }
}

impl<'a> NewUpload<'a> {
    // What a HEAD tells of it once it has so many bytes and this end.
    fn row(&self, len: u64, expires: Option<Moment>) -> RowRef<'a>
        requires metadata { IsTrue (is_kept_metadata self.now.metadata) }
        requires concat { IsConcatText (new_kind self.now.partial) self.now.concat }
        ensures { result ≡ record {
          kind = new_kind self.now.partial;
          offset = len;
          declared = self.now.length;
          metadata = self.now.metadata;
          concat = self.now.concat;
          expires = expires;
        } }
    {
        let growth = Growth {
            offset: len,
            declared: self.length,
            expires,
        };
        RowRef::new(self.kind(), growth, self.metadata, self.concat)
    }
}

impl<'a> FirstChunk<'a> {
    // How many bytes it has.
    pub(crate) fn len(&self) -> u64
        ensures { result ≡ length self.now.bytes }
    {
        self.bytes.len() as u64
    }
}

impl<'a> NewFinal<'a> {
    // What a HEAD tells of it once it has so many bytes and this end: it is complete.
    fn row(&self, len: u64, expires: Option<Moment>) -> RowRef<'a>
        requires metadata { IsTrue (is_kept_metadata self.now.metadata) }
        requires concat { IsConcatText Final self.now.concat }
        ensures { result ≡ record {
          kind = Final;
          offset = len;
          declared = Some len;
          metadata = self.now.metadata;
          concat = self.now.concat;
          expires = expires;
        } }
    {
        let growth = Growth {
            offset: len,
            declared: Some(len),
            expires,
        };
        RowRef::new(Kind::Final, growth, self.metadata, self.concat)
    }
}

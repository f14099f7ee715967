ghost use Rattle.std.specs.Prelude.{◌≡◌, ◌<◌, [], Ok, Err, IfOk, IfErr, OnOk, OnErr, length};
ghost use Rattle.upload_book.specs.Append.{append_answer, append_lacking, part_after_append};
ghost use Rattle.upload_book.specs.Book.{plain_of};
ghost use Rattle.upload_book.specs.Operation.{MayLackMemory};
ghost use Rattle.upload_book.specs.Operation as operation;
ghost use Rattle.upload_book.specs.PlainBook.{answer_of, book_after};
ghost use Rattle.upload_book.specs.Ready.{IsReadyForChunk};
ghost use Rattle.upload_book.specs.inside.Places.{IsVisibleIn};
ghost use Rattle.upload_book.specs.Refusal.{IsAnswer};

use crate::book::Book;
use crate::head_row::Name;
use crate::moment::Moment;
use crate::payload::Payload;
use crate::prepare::refused_for_memory;
use crate::progress::{Progress, append_refusal, blocks_added, refusal_by_row};
use crate::ready::ReadyChunk;
use crate::refusal::Refusal;
use crate::settings::Numbers;
use std::marker::Model;
use tus_text::Checksum;

/// The bytes of a PATCH, and what it says of them (tus 1.0.0, Core Protocol, Creation and Checksum). A
/// contract sees the bytes as a list.
#[derive(Drop)]
pub struct Chunk<'a> {
    /// `Upload-Offset`: where the bytes go.
    pub offset: u64,
    /// `Upload-Length`, which an upload of unknown length may still be told.
    pub length: Option<u64>,
    /// Whether the content type is `application/offset+octet-stream`.
    pub typed: bool,
    /// `Upload-Checksum`, which came with the bytes.
    pub check: Option<Checksum>,
    pub bytes: Payload<'a>,
    /// How many bytes of the PATCH are to come behind these: it is refused for what all of them would be.
    pub more: u64,
}

impl<'a> Model for Chunk<'a> {
    ghost use Rattle.upload_book.specs.Chunk as spec;

    ghost Value = { spec.Chunk };

    ghost view = { λ chunk. record {
      offset = chunk.offset;
      length = chunk.length;
      typed = chunk.typed;
      check = chunk.check;
      bytes = chunk.bytes;
      more = chunk.more;
    } };
}

impl<'a> Chunk<'a> {
    ghost use Rattle.std.specs.Prelude.{Some, IfSome};
    ghost use Rattle.upload_book.specs.Append.{append_refusal, refusal_by_row};
    ghost use Rattle.upload_book.specs.declared.board_line.Account.{Account};
    ghost use Rattle.upload_book.specs.declared.head_row.HeadRow.{HeadRow};
    ghost use Rattle.upload_book.specs.Progress.{progress_in, row_at};

    /// Why a PATCH with these bytes is refused before their checksum is compared, where its upload is so far: the first that
    /// applies of IsFinal, Media, Offset, LengthFixed, TooLong and Algorithm. While the upload is so, the book refuses it
    /// for the same, whatever its tenant pays. It looks at no byte and takes no book, so it can be asked before a digest is
    /// computed.
    pub fn refusal_by_row(&self, numbers: &Numbers, progress: &Progress) -> Option<Refusal>
        ensures value { result ≡ refusal_by_row numbers.now (row_at progress.now) self.now }
        ensures refused { IfSome result (λ why. (account : Account) (row : HeadRow)
            → progress_in row ≡ progress.now → append_refusal numbers.now account row self.now ≡ Some why) }
    {
        refusal_by_row(numbers, progress, self)
    }
}

/// The upload after a PATCH that was accepted.
#[derive(Clone, Copy, Debug, PartialEq, Eq)]
pub struct Appended {
    /// How many bytes it has now.
    pub offset: u64,
    /// When it expires now, if it does.
    pub expires: Option<Moment>,
}

/// Why a PATCH was refused.
#[derive(Clone, Copy, Debug, PartialEq, Eq)]
pub struct Refused {
    pub refusal: Refusal,
    /// When the upload expires, where it is visible and expires.
    pub expires: Option<Moment>,
}

impl Book {
    /// Adds the bytes of a PATCH at the end of an upload. They are copied once. The upload gets the
    /// length that the PATCH tells where it had none. One of its own that it finishes expires as finished ones do, where
    /// these end by themselves, and one that was finished before as it did; any other expires a lifetime after `now`, or as
    /// before where that is later.
    ///
    /// Its tenant pays the blocks that its bytes take beyond the room in the upload's last block. A PATCH without
    /// bytes touches no block, also where other uploads hold the last one.
    ///
    /// It is refused by the first of these that applies: Unknown, Gone, IsFinal, Media, Offset,
    /// LengthFixed, TooLong, Algorithm, Mismatch, Spent, Quota. Where none of them does and the bytes, with those that
    /// are to come behind them, take a block or more, it may be refused as Memory: there was none for the list of the
    /// upload's blocks. A refusal leaves the book as it was.
    pub fn append(&mut self, name: &Name, chunk: Chunk, now: Moment) -> Result<Appended, Refused>
        ensures answer { IsAnswer
            (answer_of (plain_of self.old) name.now.tenant
            (append_answer name.now.id chunk.entry now (plain_of self.old).charged))
            (MayLackMemory (plain_of self.old) (operation.Append name.now chunk.entry) now)
            (answer_of (plain_of self.old) name.now.tenant (append_lacking name.now.id now)) result }
        ensures accepted { OnOk result (plain_of self.new ≡ book_after (plain_of self.old)
            name.now.tenant
            (part_after_append name.now.id chunk.entry now (plain_of self.old).charged)) }
        ensures empty { chunk.entry.bytes ≡ [] → self.new.store.pool ≡ self.old.store.pool }
        ensures refused { OnErr result (self.new ≡ self.old) }
    {
        let ready = self.ready_for_chunk(*name, chunk, now)?;
        Ok(self.put_chunk(ready))
    }

    // Finds the upload to which a PATCH adds its bytes and makes room for them and for those behind them, or finds why it
    // is refused. The book still stands for the same plain book.
    pub(crate) fn ready_for_chunk<'a>(
        &mut self,
        name: Name,
        chunk: Chunk<'a>,
        now: Moment,
    ) -> Result<ReadyChunk<'a>, Refused>
        ensures name { IfOk result (λ r. r.name ≡ name) }
        ensures chunk { IfOk result (λ r. r.chunk ≡ chunk.entry) }
        ensures now { IfOk result (λ r. r.now ≡ now) }
        ensures ready { IfOk result (IsReadyForChunk self.new) }
        ensures refused { IfErr result (λ why. IsAnswer
            (answer_of (plain_of self.old) name.tenant
            (append_answer name.id chunk.entry now (plain_of self.old).charged))
            (MayLackMemory (plain_of self.old) (operation.Append name chunk.entry) now)
            (answer_of (plain_of self.old) name.tenant (append_lacking name.id now)) (Err why)) }
        ensures plain { plain_of self.new ≡ plain_of self.old }
        ensures pool { self.new.store.pool ≡ self.old.store.pool }
        ensures unchanged { OnErr result (self.new ≡ self.old) }
    {
        match self.store.place(&name, now) {
            Ok(place) => self.ready_at(name, place, chunk, now),
            Err(refusal) => Err(Refused {
                refusal,
                expires: None,
            }),
        }
    }

    // Makes room for the bytes of a PATCH, and for all that are to come behind them, of the upload that it sees, which
    // stands at this place.
    fn ready_at<'a>(
        &mut self,
        name: Name,
        place: usize,
        chunk: Chunk<'a>,
        now: Moment,
    ) -> Result<ReadyChunk<'a>, Refused>
        requires tenant { name.tenant < length self.old.settings.tenants }
        requires visible { IsVisibleIn self.old.store name.tenant name.id now place }
        ensures name { IfOk result (λ r. r.name ≡ name) }
        ensures chunk { IfOk result (λ r. r.chunk ≡ chunk.entry) }
        ensures now { IfOk result (λ r. r.now ≡ now) }
        ensures ready { IfOk result (IsReadyForChunk self.new) }
        ensures refused { IfErr result (λ why. IsAnswer
            (answer_of (plain_of self.old) name.tenant
            (append_answer name.id chunk.entry now (plain_of self.old).charged))
            (MayLackMemory (plain_of self.old) (operation.Append name chunk.entry) now)
            (answer_of (plain_of self.old) name.tenant (append_lacking name.id now)) (Err why)) }
        ensures plain { plain_of self.new ≡ plain_of self.old }
        ensures pool { self.new.store.pool ≡ self.old.store.pool }
        ensures unchanged { OnErr result (self.new ≡ self.old) }
    {
        let account = self.account(name.tenant);
        let tenant = usize::from(name.tenant);
        let progress = self.store.progress(tenant, place);
        let numbers = self.settings.numbers();
        if let Some(refusal) = append_refusal(numbers, &account, &progress, &chunk) {
            return Err(Refused {
                refusal,
                expires: progress.expires,
            });
        }
        let after = progress.with(numbers, &chunk, now);
        let len = chunk.bytes.len() as u64;
        let cost = blocks_added(numbers, progress.offset, len);
        let count = len + chunk.more;
        if count > 0 && self.store.reserve(tenant, place, count).is_err() {
            return Err(refused_for_memory(progress.expires));
        }
        Ok(ReadyChunk {
            name,
            chunk,
            now,
            place,
            expires: progress.expires,
            after,
            cost,
        })
    }

    // Adds the bytes of a PATCH.
    pub(crate) fn put_chunk(&mut self, ready: ReadyChunk) -> Appended
        requires { IsReadyForChunk self.old ready }
        ensures answer { answer_of (plain_of self.old) ready.entry.name.tenant
            (append_answer ready.entry.name.id ready.entry.chunk ready.entry.now (plain_of self.old).charged) ≡ Ok result }
        ensures after { plain_of self.new ≡ book_after (plain_of self.old) ready.entry.name.tenant
            (part_after_append ready.entry.name.id ready.entry.chunk ready.entry.now (plain_of self.old).charged) }
        ensures empty { ready.entry.chunk.bytes ≡ [] → self.new.store.pool ≡ self.old.store.pool }
    {
        let ReadyChunk {
            name,
            chunk,
            place,
            expires,
            after,
            ..
        } = ready;
        let bytes = chunk.bytes.as_slice();
        let tenant = usize::from(name.tenant);
        let appended = Appended {
            offset: after.offset,
            expires: after.expires,
        };
        self.expiries.set_end(name, expires, after.expires);
        if bytes.is_empty() {
            self.store
                .renew(tenant, place, after.declared, after.expires);
            return appended;
        }
        // the numbers tell that what may be charged in all is a number
        let _in_range = self.settings.numbers();
        self.charged += self
            .store
            .put(tenant, place, bytes, after.declared, after.expires);
        appended
    }
}

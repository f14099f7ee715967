ghost use Rattle.std.specs.Prelude.{◌≡◌, ◌≢◌, Ok, Some, None, IfOk, IfErr, IsErrOf, OnOk};
ghost use Rattle.journal_frames.specs.Frames.{recovered};
ghost use Rattle.upload_book.specs.Book.{plain_of};
ghost use Rattle.upload_book.specs.PlainBook.{opening_book};
ghost use Rattle.book_replay.specs.Fault.{IsReplayFault};
ghost use Rattle.book_replay.specs.Replay.{after_accepted, after_record, replayed};

use crate::fault::ReplayFault;
use crate::made::can_be_made;
use journal_frames::Frames;
use journal_records::{PartIds, Record, Segments, read_record};
use std::alloc::Global;
use upload_book::{Book, Change, Moment, Refusal, Settings};

// Why a change of a record was not made.
#[derive(Clone, Copy, Debug)]
enum NotMade {
    // It is none that the book accepts.
    Refused,
    // There is no memory for it.
    Memory,
}

/// Makes a book of these settings again of the records that stand in frames, up to the first place where no whole frame
/// stands: the plain book is the one after the changes of all records. Nothing is required of the bytes.
///
/// `Err` is Record, with the number of the first record that is none of a change which the book before it accepts: the
/// bytes are no record, the book may not be asked for the change, or refuses it; or Memory.
pub fn replay(alloc: Global, settings: Settings, records: Frames) -> Result<Book, ReplayFault>
    ensures book { IfOk result (λ book.
        replayed 1 (opening_book settings) (recovered records.entry.key records.entry.rest.now) ≡ Ok (plain_of book)) }
    ensures why { IfErr result (IsReplayFault
        (replayed 1 (opening_book settings) (recovered records.entry.key records.entry.rest.now))) }
{
    let mut book = Book::new(alloc, settings)?;
    replay_onto(&mut book, records)?;
    Ok(book)
}

// Makes the changes of all records on a book.
fn replay_onto(book: &mut Book, mut records: Frames) -> Result<(), ReplayFault>
    ensures book { OnOk result
        (replayed 1 (plain_of book.old) (recovered records.entry.key records.entry.rest.now) ≡ Ok (plain_of book.new)) }
    ensures why { IfErr result (IsReplayFault
        (replayed 1 (plain_of book.old) (recovered records.entry.key records.entry.rest.now))) }
{
    let mut number: u64 = 1;
    'records: loop {
        let Ok(bytes) = records.next() else {
            return Ok(());
        };
        match replay_record(book, bytes) {
            Ok(()) => number += 1,
            Err(NotMade::Refused) => return Err(ReplayFault::Record(number)),
            Err(NotMade::Memory) => return Err(ReplayFault::Memory),
        }
    }
}

// Makes the change of a record.
fn replay_record(book: &mut Book, bytes: &[u8]) -> Result<(), NotMade>
    ensures made { OnOk result (after_record (plain_of book.old) bytes.now ≡ Some (plain_of book.new)) }
    ensures refused { IsErrOf result NotMade.Refused → after_record (plain_of book.old) bytes.now ≡ None }
{
    let mut parts = PartIds::new();
    let mut segments = Segments::new();
    let Some(record) = read_record(bytes, &mut parts, &mut segments) else {
        return Err(NotMade::Refused);
    };
    let Record { now, change } = record;
    make(book, change, now)
}

// Makes a change, where the book may be asked for it and accepts it.
fn make(book: &mut Book, change: Change, now: Moment) -> Result<(), NotMade>
    ensures made { OnOk result (after_accepted (plain_of book.old) (record { change = change.entry; now = now }) ≡ Some (plain_of book.new)) }
    ensures refused { IsErrOf result NotMade.Refused
        → after_accepted (plain_of book.old) (record { change = change.entry; now = now }) ≡ None }
{
    if !can_be_made(book.settings().tenant_count(), &change) {
        return Err(NotMade::Refused);
    }
    match book.prepare(change, now) {
        Ok(ready) => {
            book.commit(ready);
            Ok(())
        }
        Err(refused) => Err(reason_of(refused.refusal)),
    }
}

// Why a change that was refused so is not made.
fn reason_of(refusal: Refusal) -> NotMade
    ensures { result ≡ NotMade.Refused → refusal ≢ Refusal.Memory }
{
    match refusal {
        Refusal::Memory => NotMade::Memory,
        _ => NotMade::Refused,
    }
}

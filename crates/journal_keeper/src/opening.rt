//! A store whose changes are made again of the records of a journal that was opened.
ghost use Rattle.std.specs.Prelude.{◌≡◌, ℕ, List, [], length, Some, None, Ok, All, false, IsTrue, IfErr, IfOk, IsErrOf, OnErr, OnOk, IsSome};
ghost use Rattle.book_replay.specs.Replay.{after_accepted, after_record, replayed};
ghost use Rattle.head_board.specs.Event.{Event};
ghost use Rattle.head_board.specs.Events.{HaveHappened, book_at};
ghost use Rattle.journal_file.specs.Journal.{disk_of, end_of, key_of, room_of, IsJournal};
ghost use Rattle.journal_frames.specs.Frames.{recovered};
ghost use Rattle.journal_keeper.specs.Keeper.{event_records, IsLeft};
ghost use Rattle.journal_keeper.specs.Numbers.{no_syncs};
ghost use Rattle.journal_keeper.specs.Opening.{IsFinal, IsMadeAgain, IsOutsideRecords, IsReopenFault};
ghost use Rattle.tus_shared.specs.Desk.{Moves};
ghost use Rattle.tus_shared.specs.Steps.{IsNextEvent};
ghost use Rattle.upload_book.specs.PlainBook.{opening_book};

use crate::fault::ReopenFault;
use crate::journalled::Journalled;
use crate::keeper::Keeper;
use crate::progress::Progress;
use book_replay::can_be_made;
use journal_file::Opened;
use journal_frames::{Frames, HEADER_LEN};
use journal_records::{PartIds, Record, Segments, read_record};
use sqlite_disk::Disk;
use std::alloc::Global;
use std::sync::Wait;
use std::sync::ledger::Ledger;
use tus_shared::{AgainFault, Charges, Desk, Store};
use upload_book::{Change, Moment, Refusal};

/// A store's journal whose changes were made again.
#[derive(Drop)]
pub struct Reopened<D: Disk, C: Journalled> {
    /// The keeper of the journal.
    pub keeper: Keeper<D, C>,
    /// How many records the journal has.
    pub records: u64,
}

/// Makes all changes again, in their order and at this desk, whose records a journal has that was opened under this key; and
/// gives the keeper of these, and how many they are. The store and the desk are new. After it the desk has seen all of these
/// events, and knows that they are kept. After each record `progress` is told of it.
///
/// `Err` is Record, with the number of the first record, from 1, that can't be read, or whose change no book of these settings
/// takes there; Memory; or Waiting, which comes in no run where the store is new.
pub fn reopen<C: Journalled, R: Ledger, M: Ledger, B: Wait + Drop, D: Disk + Drop, P: Progress>(
    alloc: Global,
    store: &mut Store<C, R, M, B>,
    desk: &mut Desk<C, R, M>,
    opened: Opened<D>,
    key: u64,
    progress: &mut P,
) -> Result<Reopened<D, C>, ReopenFault>
where
    D: Drop,
    requires store { store.old ≡ [] }
    requires seen { desk.old.seen ≡ [] }
    requires kept { desk.old.kept ≡ [] }
    requires key { key_of opened.journal ≡ key }
    requires journal { C.journal ≡ Some key }
    requires honest { IsTrue C.honest → IsJournal opened.journal (recovered key opened.frames.items) [] }
    // Where the journal was opened on a file that a crash left of these settings, the book is the plain book after the events
    // whose records were left; and none of these is refused.
    ensures recovered { (kept : List Event) (file : List ℕ) (left : IsLeft key C.settings kept file)
        → recovered key opened.frames.items ≡ recovered key file
        → OnOk result (book_at C.settings store.new ≡ book_at C.settings left.events) }
    ensures accepts { (kept : List Event) (file : List ℕ)
        → IsLeft key C.settings kept file
        → recovered key opened.frames.items ≡ recovered key file
        → IfErr result IsOutsideRecords }
    // The records of what is kept are those that the journal has.
    ensures records { IfOk result (λ it. event_records it.keeper.kept ≡ recovered key opened.frames.items) }
    ensures here { IfOk result (λ it. All (λ (e : Event). e.desk ≡ desk.old.number) it.keeper.kept) }
    ensures store { IfOk result (λ it. store.new ≡ it.keeper.kept) }
    ensures seen { IfOk result (λ it. desk.new.seen ≡ it.keeper.kept) }
    ensures told { IfOk result (λ it. desk.new.kept ≡ it.keeper.kept) }
    ensures moves { OnOk result (Moves C.settings [] store.new desk.old (record desk.new { kept = desk.old.kept })) }
    ensures room { OnOk result (desk.new.room ≡ desk.old.room) }
    ensures missed { OnOk result (desk.new.missed ≡ desk.old.missed) }
    // A record is told only where it is the first that no book takes.
    ensures why { IfErr result (IsReopenFault (replayed 1 (opening_book C.settings) (recovered key opened.frames.items))) }
    ensures count { IfOk result (λ it. it.records ≡ length (recovered key opened.frames.items)) }
    ensures keeper { IfOk result (λ it. it.keeper ≡ record {
      key = key;
      kept = it.keeper.kept;
      tried = it.keeper.kept;
      failed = false;
      promised = 0;
      room = room_of opened.journal;
      bytes = end_of opened.journal;
      synced = no_syncs;
      disk = disk_of opened.journal;
      maybe_in_place = None;
    }) }
{
    let records = make_all_again(store, desk, Frames::new(key, &opened.frames), progress)?;
    let durable = desk.seen_events();
    desk.learn_kept(&durable);
    let keeper = Keeper::new(alloc, opened.journal, durable);
    Ok(Reopened { keeper, records })
}

// Makes the changes of all records again, at a new desk of a new store, and gives how many they are.
#[tactic(auto, using(crate::proofs::OpeningLemmas::replayed_ended))]
fn make_all_again<C: Charges, R: Ledger, M: Ledger, B: Wait + Drop, P: Progress>(
    store: &mut Store<C, R, M, B>,
    desk: &mut Desk<C, R, M>,
    mut records: Frames,
    progress: &mut P,
) -> Result<u64, ReopenFault>
    requires journal { IsSome C.journal }
    requires store { store.old ≡ [] }
    requires seen { desk.old.seen ≡ [] }
    ensures happened { HaveHappened C.settings store.new }
    ensures records { OnOk result (event_records store.new ≡ recovered records.entry.key records.entry.rest.now) }
    ensures made { OnOk result (replayed 1 (opening_book C.settings) (recovered records.entry.key records.entry.rest.now)
        ≡ Ok (book_at C.settings store.new)) }
    ensures count { IfOk result (λ count. count ≡ length (recovered records.entry.key records.entry.rest.now)) }
    ensures here { All (λ (e : Event). e.desk ≡ desk.old.number) store.new }
    ensures seen { desk.new.seen ≡ store.new }
    ensures moves { Moves C.settings [] store.new desk.old desk.new }
    ensures room { desk.new.room ≡ desk.old.room }
    ensures missed { desk.new.missed ≡ desk.old.missed }
    ensures why { IfErr result (IsReopenFault
        (replayed 1 (opening_book C.settings) (recovered records.entry.key records.entry.rest.now))) }
{
    let mut number: u64 = 1;
    'records: loop {
        let Ok(bytes) = records.next() else {
            return Ok(number - 1);
        };
        match make_record_again(store, desk, bytes) {
            Ok(()) => {
                number += 1;
                progress.note(bytes.len().saturating_add(HEADER_LEN));
            }
            Err(NotMade::Refused) => return Err(ReopenFault::Record(number)),
            Err(NotMade::Memory) => return Err(ReopenFault::Memory),
            Err(NotMade::Waiting) => return Err(ReopenFault::Waiting),
        }
    }
}

// Why the change of a record was not made again.
#[derive(Clone, Copy, Debug)]
enum NotMade {
    // It is none that the book takes.
    Refused,
    // There is no memory for it.
    Memory,
    // Records wait.
    Waiting,
}

// Makes the change of a record again.
fn make_record_again<C: Charges, R: Ledger, M: Ledger, B: Wait + Drop>(
    store: &mut Store<C, R, M, B>,
    desk: &mut Desk<C, R, M>,
    bytes: &[u8],
) -> Result<(), NotMade>
    requires journal { IsSome C.journal }
    requires seen { desk.old.seen ≡ store.old }
    ensures happened { OnOk result (HaveHappened C.settings store.new) }
    ensures made { OnOk result (IsMadeAgain desk.old.number bytes.now store.old store.new) }
    ensures stays { OnErr result (store.new ≡ store.old) }
    ensures after { OnOk result (after_record (book_at C.settings store.old) bytes.now ≡ Some (book_at C.settings store.new)) }
    ensures refused { IsErrOf result NotMade.Refused → after_record (book_at C.settings store.old) bytes.now ≡ None }
    ensures seen { desk.new.seen ≡ store.new }
    ensures moves { Moves C.settings store.old store.new desk.old desk.new }
    ensures room { desk.new.room ≡ desk.old.room }
    ensures missed { desk.new.missed ≡ desk.old.missed }
{
    let mut parts = PartIds::new();
    let mut segments = Segments::new();
    let Some(record) = read_record(bytes, &mut parts, &mut segments) else {
        return Err(NotMade::Refused);
    };
    let Record { now, change } = record;
    make_change_again(store, desk, change, now)
}

// Makes a change again, where a book may be asked for it.
fn make_change_again<C: Charges, R: Ledger, M: Ledger, B: Wait + Drop>(
    store: &mut Store<C, R, M, B>,
    desk: &mut Desk<C, R, M>,
    change: Change,
    now: Moment,
) -> Result<(), NotMade>
    requires journal { IsSome C.journal }
    requires seen { desk.old.seen ≡ store.old }
    ensures happened { OnOk result (HaveHappened C.settings store.new) }
    ensures made { OnOk result (IsNextEvent store.old desk.old.number change.entry now store.new) }
    ensures stays { OnErr result (store.new ≡ store.old) }
    ensures after { OnOk result (after_accepted (book_at C.settings store.old) (record { change = change.entry; now = now })
        ≡ Some (book_at C.settings store.new)) }
    ensures refused { IsErrOf result NotMade.Refused
        → after_accepted (book_at C.settings store.old) (record { change = change.entry; now = now }) ≡ None }
    ensures seen { desk.new.seen ≡ store.new }
    ensures moves { Moves C.settings store.old store.new desk.old desk.new }
    ensures room { desk.new.room ≡ desk.old.room }
    ensures missed { desk.new.missed ≡ desk.old.missed }
{
    if !can_be_made(desk.settings().tenant_count(), &change) {
        return Err(NotMade::Refused);
    }
    match store.make_again(desk, change, now) {
        Ok(()) => Ok(()),
        Err(fault) => Err(reason_of(fault)),
    }
}

// Why a change that was not made again for this reason is not.
fn reason_of(fault: AgainFault) -> NotMade
    ensures { result ≡ NotMade.Refused → IsFinal fault }
{
    match fault {
        AgainFault::Waiting => NotMade::Waiting,
        AgainFault::Change => NotMade::Refused,
        AgainFault::Refused(refused) => match refused.refusal {
            Refusal::Memory => NotMade::Memory,
            _ => NotMade::Refused,
        },
    }
}

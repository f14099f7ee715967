//! The records of a store that wait, taken and kept.
ghost use Rattle.std.specs.Prelude.{◌≡◌, ◌-◌, ◌≤◌, ℕ, List, length, Some, IfOk, IsErrOf, OnErr, OnOk, map};
ghost use Rattle.std.specs.List.{AllByRecursion};
ghost use mathlib.Core.List.{IsPrefix};
ghost use Rattle.head_board.specs.Events.{HaveHappened};
ghost use Rattle.journal_file.specs.Journal.{disk_of, key_of, room_of};
ghost use Rattle.journal_frames.specs.Frames.{Fits};
ghost use Rattle.journal_keeper.specs.Keeper.{IsLeftBy, KeepsBook};
ghost use Rattle.journal_keeper.specs.Numbers.{more};
ghost use Rattle.journal_file.specs.Appending.{frames_each};
ghost use Rattle.tus_shared.specs.Journal.{journal_len, AreTaken};

use crate::fault::KeepFault;
use crate::keeping::{keep_frames, len_of_all};
use crate::numbers::{SyncCounts, micros_since};
use journal_file::Journal;
use sqlite_disk::Disk;
use std::sync::Wait;
use std::sync::ledger::Ledger;
use std::time;
use std::time::Instant;
use tus_shared::{Charges, Desk, Records, SeenEvents, Shared};

/// Keeps the records that were taken behind what is kept: the book is made of these, too. Of the room that was granted their
/// bytes are used, and one sync is counted, with them and with the time that they took.
///
/// `Err` where a write or a sync failed, or there was no room for them and none can be made.
pub(crate) fn keep_taken<D: Disk, C: Charges, W: time::Clock>(
    rt: &W,
    journal: &mut Journal<D>,
    durable: &SeenEvents,
    taken: &Records,
    granted: &mut u64,
    synced: &mut SyncCounts,
) -> Result<(), KeepFault>
    requires key { C.journal ≡ Some (key_of journal.old) }
    requires happened { HaveHappened C.settings durable.now.events }
    requires taken { AreTaken C.settings C.journal durable.now.events taken.now.reached.events (map (λ frame. frame.items) taken.now.frames.items) }
    ensures kept { KeepsBook C.settings journal.old durable.now.events
        → OnOk result (KeepsBook C.settings journal.new taken.now.reached.events) }
    // Whatever it answers, a crash leaves all that was kept, and the first so many of these.
    ensures crash { KeepsBook C.settings journal.old durable.now.events
        → (c : List ℕ) → D.may_leave (disk_of journal.new) c
        → IsLeftBy (key_of journal.old) C.settings durable.now.events taken.now.reached.events c }
    ensures key { key_of journal.new ≡ key_of journal.old }
    // A frame can hold each of the records.
    ensures fit { (records : List (List ℕ))
        → map (λ frame. frame.items) taken.now.frames.items ≡ frames_each (key_of journal.old) records
        → OnOk result (AllByRecursion Fits records) }
    ensures used { OnOk result (granted.new
        ≡ granted.old - (journal_len C.journal taken.now.reached.events - journal_len C.journal durable.now.events)) }
    ensures covered { granted.old ≤ room_of journal.old → OnOk result (granted.new ≤ room_of journal.new) }
    ensures once { OnOk result (synced.new.syncs ≡ more 1 synced.old.syncs) }
    ensures each { OnOk result (synced.new.records
        ≡ more (length taken.now.reached.events - length durable.now.events) synced.old.records) }
    ensures longer { synced.old.micros ≤ synced.new.micros }
    ensures sure { ¬ (IsErrOf result KeepFault.Place) }
{
    let start = Instant::now(rt).ok();
    keep_frames(journal, &taken.frames)?;
    *synced = synced.with(taken.frames.len() as u64, micros_since(rt, &start));
    *granted = granted.saturating_sub(len_of_all(&taken.frames));
    Ok(())
}

/// Takes the records out of the queue of the store that wait behind what is kept. `Err` where the queue begins elsewhere, or
/// ends before what was seen.
pub(crate) fn take_behind<C: Charges, R: Ledger, M: Ledger, B: Wait + Drop, W: Wait>(
    rt: &W,
    shared: &Shared<C, R, M, B>,
    durable: &SeenEvents,
    seen: &SeenEvents,
) -> Result<Records, KeepFault>
    requires durable { durable.now.book ≡ C.log }
    requires seen { seen.now.book ≡ C.log }
    ensures log { IfOk result (λ taken. taken.reached.book ≡ C.log) }
    ensures taken { IfOk result (λ taken.
        AreTaken C.settings C.journal durable.now.events taken.reached.events (map (λ frame. frame.items) taken.frames.items)) }
    ensures seen { IfOk result (λ taken. IsPrefix seen.now.events taken.reached.events) }
{
    let Some(taken) = shared.take_records(rt, durable) else {
        return Err(KeepFault::Queue);
    };
    if !seen.begins(&taken.reached) {
        return Err(KeepFault::Queue);
    }
    Ok(taken)
}

/// Tells a desk how far the events are kept, which is no less than it has seen. `Err` where it was told of more, and of other
/// events than those that it has seen; then it stays.
pub(crate) fn tell<C: Charges, R: Ledger, M: Ledger>(
    durable: &SeenEvents,
    desk: &mut Desk<C, R, M>,
) -> Result<(), KeepFault>
    requires log { durable.now.book ≡ C.log }
    requires seen { IsPrefix desk.old.seen durable.now.events }
    ensures told { OnOk result (IsPrefix desk.new.seen desk.new.kept) }
    ensures learns { OnOk result (IsPrefix desk.old.kept durable.now.events
        → desk.new ≡ record desk.old { kept = durable.now.events }) }
    ensures desk { OnOk result (desk.new ≡ record desk.old { kept = desk.new.kept }) }
    ensures same { OnErr result (desk.new ≡ desk.old) }
    ensures seen { desk.new.seen ≡ desk.old.seen }
{
    desk.learn_kept(durable);
    if !desk.is_kept() {
        return Err(KeepFault::Desk);
    }
    Ok(())
}

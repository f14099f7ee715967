ghost use Rattle.std.specs.Prelude.{◌≡◌, ◌+◌, ◌-◌, ◌≤◌, ℕ, List, length, None, Some, true, false, IsTrue, IsErrOf, OnErr, OnOk};
ghost use mathlib.Core.List.{IsPrefix};
ghost use Rattle.head_board.specs.Events.{HaveHappened};
ghost use Rattle.tus_shared.specs.Journal.{journal_len};
ghost use Rattle.journal_file.specs.Journal.{disk_of, end_of, key_of, room_of};
ghost use Rattle.journal_frames.specs.Frames.{frames};
ghost use Rattle.journal_keeper.specs.Keeper.{CountsSync, IsLeftBy, KeepsBook, MakeBook, MayBeLeft};
ghost use Rattle.journal_keeper.specs.Numbers.{no_syncs};
ghost use Rattle.journal_keeper.specs.Granting.{Grants, HasRoom, IsNeeded, MayGrant};

use crate::compaction::{Compaction, with_kept};
use crate::fault::KeepFault;
use crate::granting::{AHEAD, SPARE, needed_for};
use crate::journalled::Journalled;
use crate::numbers::{ALWAYS_SMALL, KeeperNumbers, SyncCounts};
use crate::taking::{keep_taken, take_behind, tell};
use journal_file::{Journal, JournalPlace};
use sqlite_disk::Disk;
use std::alloc::Global;
use std::marker::{Model, PhantomData};
use std::sync::Wait;
use std::sync::ledger::Ledger;
use std::time;
use tus_shared::{Desk, Records, SeenEvents, Shared};

/// Keeps the changes of a store in a journal: the events that are kept, and how much of the journal's room desks were granted
/// and have not been seen to use. A contract sees these, whether keeping has failed, what was synced, how large the journal is,
/// and the disk. Whatever became of a keeper, a crash leaves all that it keeps, where the disk had told no lie when the journal
/// was opened.
#[derive(Drop)]
pub struct Keeper<D: Disk, C: Journalled> {
    pub(crate) alloc: Global,
    pub(crate) journal: Journal<D>,
    pub(crate) durable: SeenEvents,
    // How far it tried to keep the events: as far as they are kept, until keeping fails.
    pub(crate) tried: SeenEvents,
    pub(crate) granted: u64,
    pub(crate) has_failed: bool,
    pub(crate) synced: SyncCounts,
    // A new journal that is written beside this one.
    pub(crate) compaction: Option<Compaction<D>>,
    // There was no memory for what such a one was to have, and its file is still there.
    pub(crate) has_lost: bool,
    // Beyond how many bytes of frames this one is large, as far as is known.
    pub(crate) look_at: u64,
    // How many bytes of frames it is to have before another new one is begun, where the last could not be had.
    pub(crate) try_again_at: u64,
    // How many bytes its file may have, where that is more than those of the frames and the zeros. Of one that was opened it is
    // not known.
    pub(crate) longest: u64,
    // A new one that may have taken its place, where that failed.
    pub(crate) maybe_in_place: Option<Journal<D>>,
    opening: PhantomData<C>,
}

impl<D: Disk, C: Journalled> Model for Keeper<D, C> {
    ghost use Rattle.std.specs.Prelude.{option_map, IfSome};
    ghost use Rattle.journal_file.specs.Journal.{disk_of, end_of, key_of, room_of};
    ghost use Rattle.journal_keeper.specs.Compaction.{WillKeep};
    ghost use Rattle.journal_keeper.specs.Keeper.{IsKeeper, KeeperView};

    ghost Value = { KeeperView D };

    ghost view = { λ k. record {
      key = key_of k.journal;
      kept = k.durable.events;
      tried = k.tried.events;
      failed = k.has_failed;
      promised = k.granted;
      room = room_of k.journal;
      bytes = end_of k.journal;
      synced = k.synced;
      disk = disk_of k.journal;
      maybe_in_place = option_map (λ it. disk_of it) k.maybe_in_place;
    } };

    ghost invariant = { λ k. IsKeeper C.settings C.log C.journal C.honest k.journal k.maybe_in_place k.durable k.tried k.granted k.has_failed
        × IfSome k.compaction (λ c. WillKeep C.settings c (key_of k.journal) k.durable.events) };
}

impl<D: Disk + Drop, C: Journalled> Keeper<D, C> {
    /// A keeper of events, where a journal has records of which the book after these is made, all synced, and no others. None
    /// of its room was granted, and it has synced nothing.
    pub fn new(alloc: Global, journal: Journal<D>, durable: SeenEvents) -> Keeper<D, C>
        requires key { C.journal ≡ Some (key_of journal) }
        requires log { durable.book ≡ C.log }
        requires happened { HaveHappened C.settings durable.events }
        requires journal { IsTrue C.honest → KeepsBook C.settings journal durable.events }
        ensures { result ≡ record {
          key = key_of journal;
          kept = durable.events;
          tried = durable.events;
          failed = false;
          promised = 0;
          room = room_of journal;
          bytes = end_of journal;
          synced = no_syncs;
          disk = disk_of journal;
          maybe_in_place = None;
        } }
    {
        let tried = durable.again();
        Keeper {
            alloc,
            journal,
            durable,
            tried,
            granted: 0,
            has_failed: false,
            synced: SyncCounts::none(),
            compaction: None,
            has_lost: false,
            look_at: ALWAYS_SMALL,
            try_again_at: 0,
            longest: u64::MAX,
            maybe_in_place: None,
            opening: PhantomData,
        }
    }

    /// Whether keeping has failed. Then nothing more is kept.
    pub fn has_failed(&self) -> bool
        ensures { result ≡ self.now.failed }
    {
        self.has_failed
    }

    /// How far the events are kept.
    pub fn kept(&self) -> SeenEvents
        ensures { result ≡ record { book = C.log; events = self.now.kept } }
    {
        self.durable.again()
    }

    /// How far it tried to keep the events of the opening: as far as they are kept, until keeping fails. A crash leaves none
    /// behind these ([`Keeper::tell_crash`]).
    pub fn tried(&self) -> SeenEvents
        ensures { result ≡ record { book = C.log; events = self.now.tried } }
    {
        self.tried.again()
    }

    /// What it has synced since it was made, and how large its journal is.
    pub fn numbers(&self) -> KeeperNumbers
        ensures synced { result.synced ≡ self.now.synced }
        ensures bytes { result.bytes ≡ self.now.bytes }
        // Until keeping fails these are the frames of records of which the book after the events that are kept is made.
        ensures frames { IsTrue C.honest → self.now.failed ≡ false → (records : List (List ℕ))
            × MakeBook C.settings self.now.kept records × (result.bytes ≡ length (frames self.now.key records)) }
        ensures file { result.file_bytes ≡ self.now.bytes + self.now.room + 16 }
    {
        KeeperNumbers {
            synced: self.synced,
            bytes: self.journal.frames_len() as u64,
            file_bytes: self.journal.file_len() as u64,
            due_beyond: self.due_beyond(),
        }
    }

    // Beyond how many bytes of frames a look after a sync is due: always, where a new journal is to have records that were kept
    // since its last slice, or was lost; never, where none were kept since.
    fn due_beyond(&self) -> u64 {
        match &self.compaction {
            Some(compaction) if !compaction.owes() => u64::MAX,
            Some(_) => 0,
            None if self.has_lost => 0,
            None => self.look_at.max(self.try_again_at),
        }
    }

    /// The disk, lent.
    pub fn disk(&self) -> &D
        ensures { result.now ≡ self.now.disk }
    {
        self.journal.disk()
    }

    /// The disk, as it is.
    pub fn into_disk(self) -> D
        ensures { result ≡ self.disk }
    {
        let Keeper { journal, .. } = self;
        journal.into_disk()
    }

    /// Tells what a crash leaves: records of which the book is made again that is the one after events which begin with all
    /// that are kept, and no damage. What comes behind these are the next events that it tried to keep, so changes that desks of
    /// this opening made, in their order; none comes until keeping fails. It tells so also after keeping has failed, and where
    /// another disk may have taken the place of this one, of that too.
    pub fn tell_crash(&self)
        ensures happened { HaveHappened C.settings self.now.kept }
        ensures begins { IsPrefix self.now.kept self.now.tried }
        ensures no_more { self.now.failed ≡ false → self.now.tried ≡ self.now.kept }
        ensures left { IsTrue C.honest
            → (c : List ℕ) → MayBeLeft D.may_leave self.now c
            → IsLeftBy self.now.key C.settings self.now.kept self.now.tried c }
    {
        let _kept = &self.durable;
    }

    /// Keeps all that this desk has seen, and tells it so. Where that is kept already, as by a call for another desk, nothing
    /// is asked of the disk. Else the records that wait are taken out of the queue of the store, appended to the journal and
    /// synced, once for all, which is counted where it succeeds. It takes the lock of the store for a moment, and may wait
    /// for desks.
    ///
    /// `Err` is Journal where a write or a sync failed, or where the journal has no room for what waits and none can be made;
    /// Queue, Frame or Desk, which come in no run where this keeper alone takes the records of the store and tells its desks;
    /// and from then on Ended. Then the desk is told nothing, and nothing more is kept than before.
    pub fn keep<R: Ledger, M: Ledger, B: Wait + Drop, W: Wait + time::Clock>(
        &mut self,
        rt: &W,
        shared: &Shared<C, R, M, B>,
        desk: &mut Desk<C, R, M>,
    ) -> Result<(), KeepFault>
        // All that the desk has seen is kept, and it knows that.
        ensures kept { OnOk result (IsPrefix desk.new.seen self.new.kept) }
        ensures told { OnOk result (IsPrefix desk.new.seen desk.new.kept) }
        ensures learns { OnOk result (IsPrefix desk.old.kept self.new.kept
            → desk.new ≡ record desk.old { kept = self.new.kept }) }
        ensures desk { OnOk result (desk.new ≡ record desk.old { kept = desk.new.kept }) }
        ensures same_desk { OnErr result (desk.new ≡ desk.old) }
        // What was kept stays so, and of the room that was granted so much is used as the records have that were appended.
        ensures keeps { IsPrefix self.old.kept self.new.kept }
        ensures same_kept { OnErr result (self.new.kept ≡ self.old.kept) }
        ensures used { OnOk result (self.new.promised
            ≡ self.old.promised - (journal_len C.journal self.new.kept - journal_len C.journal self.old.kept)) }
        ensures key { self.new.key ≡ self.old.key }
        ensures failed { OnErr result (self.new.failed ≡ true) }
        ensures well { OnOk result (self.new.failed ≡ false) }
        ensures ended { self.old.failed ≡ true → IsErrOf result KeepFault.Ended × (self.new ≡ self.old) }
        // What is kept already is asked of no disk.
        ensures rests { self.old.failed ≡ false → IsPrefix desk.old.seen self.old.kept → OnOk result (self.new ≡ self.old) }
        // Else one sync is counted where it succeeded, and the events that are kept by it; and none where it failed.
        ensures counts { ¬ (IsPrefix desk.old.seen self.old.kept) → OnOk result (CountsSync self.old self.new) }
        ensures uncounted { OnErr result (self.new.synced ≡ self.old.synced) }
    {
        if self.has_failed {
            return Err(KeepFault::Ended);
        }
        let seen = desk.seen_events();
        if seen.begins(&self.durable) {
            let told = tell(&self.durable, desk);
            self.has_failed = told.is_err();
            return told;
        }
        self.has_failed = true;
        let taken = take_behind(rt, shared, &self.durable, &seen)?;
        self.tried = taken.reached.again();
        let mut synced = self.synced;
        keep_taken::<D, C, W>(
            rt,
            &mut self.journal,
            &self.durable,
            &taken,
            &mut self.granted,
            &mut synced,
        )?;
        tell(&taken.reached, desk)?;
        let Records { frames, reached } = taken;
        self.durable = reached;
        let goes_on = self.compaction.is_some();
        self.compaction = with_kept(self.compaction.take(), frames);
        self.has_lost = self.has_lost || (goes_on && self.compaction.is_none());
        self.synced = synced;
        self.has_failed = false;
        Ok(())
    }

    /// Sees to it that a desk may queue so many bytes of records, and 65,536 more. Where it has less room than that, it is
    /// granted so much that it has room for these and 4 MiB more; and the journal is made longer before, where it has no room
    /// for all that was granted and not used. Where it can't be, as on a full disk, what is kept beside the journal is given up,
    /// unless a new one is being written there, and it is tried again; then the 4 MiB are left out; and where it can't be either, the desk is granted room for 65,536 bytes, by which uploads can be ended. Where that can't be, or
    /// keeping has failed, nothing is granted, and what the desk has and what is kept stay: a change is then refused as
    /// Memory where it takes more.
    pub fn make_room<R: Ledger, M: Ledger, P: JournalPlace<D>>(
        &mut self,
        desk: &mut Desk<C, R, M>,
        bytes: u64,
        place: &P,
    )
        ensures grants { MayGrant bytes self.old self.new desk.old desk.new }
        // Where there is room for it, it is granted, and the disk is asked for nothing.
        ensures granted { IsNeeded bytes desk.old → HasRoom (bytes + 65536 + 4194304) self.old desk.old
            → Grants (bytes + 65536 + 4194304) self.old self.new desk.old desk.new × (self.new.disk ≡ self.old.disk) }
        // Where there is room for less, the desk has no less in the end.
        ensures less { IsNeeded bytes desk.old → HasRoom (bytes + 65536) self.old desk.old → bytes + 65536 ≤ desk.new.room }
        ensures least { IsNeeded bytes desk.old → HasRoom 65536 self.old desk.old → 65536 ≤ desk.new.room }
        ensures enough { bytes + 65536 ≤ desk.old.room → (desk.new ≡ desk.old) × (self.new ≡ self.old) }
        ensures kept { self.new.kept ≡ self.old.kept }
        ensures failed { self.new.failed ≡ self.old.failed }
        ensures key { self.new.key ≡ self.old.key }
        ensures synced { self.new.synced ≡ self.old.synced }
        ensures room { self.old.room ≤ self.new.room }
    {
        if self.has_failed {
            return;
        }
        let Some(needed) = needed_for(desk.room(), bytes) else {
            return;
        };
        if self.grant(desk, needed + AHEAD) {
            return;
        }
        if self.compaction.is_none() {
            place.give_up();
        }
        let _granted = self.grant(desk, needed + AHEAD)
            || self.grant(desk, needed)
            || self.grant(desk, SPARE);
    }

    // Grants a desk that has less so much that it has this room, where the journal has or gets room for it. Whether it did.
    fn grant<R: Ledger, M: Ledger>(&mut self, desk: &mut Desk<C, R, M>, room: u64) -> bool
        requires { self.old.failed ≡ false }
        ensures granted { IsTrue result → Grants room self.old self.new desk.old desk.new }
        ensures stays { result ≡ false → (desk.new ≡ desk.old) × (self.new.promised ≡ self.old.promised) }
        ensures there { HasRoom room self.old desk.old → (result ≡ true) × (self.new.disk ≡ self.old.disk) }
        ensures kept { self.new.kept ≡ self.old.kept }
        ensures failed { self.new.failed ≡ self.old.failed }
        ensures key { self.new.key ≡ self.old.key }
        ensures synced { self.new.synced ≡ self.old.synced }
        ensures room { self.old.room ≤ self.new.room }
    {
        if desk.room() >= room {
            return false;
        }
        let more = room - desk.room();
        let Some(all) = self.granted.checked_add(more) else {
            return false;
        };
        if self.journal.make_room(all as usize, 0).is_err() {
            return false;
        }
        self.granted = all;
        desk.grant(more);
        true
    }
}

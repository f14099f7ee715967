//! A keeper that makes its journal small.
ghost use Rattle.std.specs.Prelude.{◌≡◌, ◌≢◌, ◌≤◌, ◌<◌, ◌+◌, ◌-◌, ◌*◌, ℕ, List, [], Ok, None, true, false, IfSome, IsErrOf, IsSome, IsTrue, OnErr, OnOk};
ghost use mathlib.Core.List.{IsPrefix};
ghost use Rattle.head_board.specs.Event.{Event};
ghost use Rattle.head_board.specs.Events.{HaveHappened, book_at};
ghost use Rattle.tus_shared.specs.Journal.{held_bytes, journal_len};
ghost use Rattle.journal_file.specs.Draft.{draft_key, IsDraft};
ghost use Rattle.journal_file.specs.Journal.{disk_of, key_of, room_of};
ghost use Rattle.journal_keeper.specs.Compaction.{WillKeep};
ghost use Rattle.journal_keeper.specs.Keeper.{KeepsBook};

use crate::compaction::Compaction;
use crate::fault::KeepFault;
use crate::journalled::Journalled;
use crate::keeper::Keeper;
use crate::numbers::{ALWAYS_SMALL, longest_for, spare_for};
use crate::taking::keep_taken;
use journal_file::{Draft, Journal, JournalPlace, PlaceFault};
use sqlite_disk::Disk;
use std::sync::Wait;
use std::sync::ledger::Ledger;
use std::{mem, time};
use tus_shared::{Records, RecordsAndSnapshot, Shared};

/// What came of a look at how large a journal is.
#[derive(Clone, Copy, Debug, PartialEq, Eq)]
pub enum Compacted {
    /// It is small enough.
    Rests,
    /// So it is, but its file was longer than may be, or it was not known how long it is: it was cut to the frames and the zeros.
    /// Where that failed it is tried again.
    Shortened,
    /// A new one is being written.
    GoesOn,
    /// A new one has taken its place.
    Ended,
    /// A new one could not be had: there was no memory or no disk for it. The old one goes on.
    GivenUp,
}

// What a look at a journal found.
enum Size {
    Fits,
    // Its file is longer than it may be, though not for its frames, while so many bytes are held.
    IsLong { held: u64 },
    // Its frames have so many bytes that a new one is to be begun, while so many are held.
    IsLarge { held: u64 },
}

impl<D: Disk + Drop, C: Journalled> Keeper<D, C> {
    /// Marks how many bytes the records fill, all synced. Where keeping has failed it marks nothing.
    pub fn mark<P: JournalPlace<D>>(&self, place: &P) {
        if let Some(bytes) = self.synced_len() {
            place.mark(bytes);
        }
    }

    // How many bytes the records fill, all synced; None where keeping has failed.
    fn synced_len(&self) -> Option<u64>
        ensures some { IfSome result (λ bytes. (self.now.failed ≡ false) × (bytes ≡ self.now.bytes)) }
        ensures none { result ≡ None → self.now.failed ≡ true }
    {
        if self.has_failed {
            None
        } else {
            Some(self.journal.frames_len() as u64)
        }
    }

    /// Makes the journal small, a slice at a time, where its frames have more bytes than twice those of the blocks that are
    /// held, plus 48 MiB. At first the records that wait are kept, and a snapshot of the book is taken, for which all its
    /// bytes are copied with the lock of the store; a new journal is begun with it beside this one. Each later call writes
    /// and syncs some of it: at least 1 MiB, and at least four times as much as was kept since the last. Once it has all that
    /// this one has it takes its place. Where it can't be had, what there is of it is taken away; the old one goes on, and
    /// another is begun once that has 48 MiB more.
    ///
    /// A new journal may be written to the file of an older one. Where such a file may be longer than three times the bytes that
    /// are held, plus 64 MiB, as one that was opened may, what it has behind the zeros is cut off.
    /// A file of more than twice that is not kept for the next one.
    ///
    /// `Err` is as of [`Keeper::keep`], or Place where it is not known which journal a crash leaves in its place; and from then
    /// on Ended.
    pub fn compact<R: Ledger, M: Ledger, B: Wait + Drop, W: Wait + time::Clock, P: JournalPlace<D>>(
        &mut self,
        rt: &W,
        shared: &Shared<C, R, M, B>,
        place: &P,
    ) -> Result<Compacted, KeepFault>
        // What was kept stays so, and of the room that was granted so much is used as the records have that were appended.
        ensures keeps { IsPrefix self.old.kept self.new.kept }
        ensures same_kept { OnErr result (self.new.kept ≡ self.old.kept) }
        ensures used { OnOk result (self.new.promised
            ≡ self.old.promised - (journal_len C.journal self.new.kept - journal_len C.journal self.old.kept)) }
        ensures key { self.new.key ≡ self.old.key }
        ensures failed { OnErr result (self.new.failed ≡ true) }
        ensures well { OnOk result (self.new.failed ≡ false) }
        ensures ended { self.old.failed ≡ true → IsErrOf result KeepFault.Ended × (self.new ≡ self.old) }
        ensures rests { result ≡ Ok Compacted.Rests → self.new ≡ self.old }
        ensures unsure { IsErrOf result KeepFault.Place → IsSome self.new.maybe_in_place }
        ensures uncounted { OnErr result (self.new.synced ≡ self.old.synced) }
    {
        if self.has_failed {
            return Err(KeepFault::Ended);
        }
        if self.has_lost {
            return Ok(self.give_up(place));
        }
        if let Some(compaction) = self.compaction.take() {
            return self.go_on(compaction, place);
        }
        match self.look(rt, shared) {
            Size::Fits => Ok(Compacted::Rests),
            Size::IsLong { held } => Ok(self.shorten(place, longest_for(held))),
            Size::IsLarge { held } => self.begin(rt, shared, place, longest_for(held)),
        }
    }

    // Looks how large the journal is, and notes beyond how many bytes a new one is to be begun.
    fn look<R: Ledger, M: Ledger, B: Wait + Drop, W: Wait>(
        &mut self,
        rt: &W,
        shared: &Shared<C, R, M, B>,
    ) -> Size
        ensures same { self.new ≡ self.old }
        ensures large { (held : ℕ) → result ≡ Size.IsLarge held → (events : List Event)
            × HaveHappened C.settings events
            × (held ≡ held_bytes (book_at C.settings events))
            × (2 * held + 50331648 < self.new.bytes) }
    {
        let bytes = self.journal.frames_len() as u64;
        let may_be_large = bytes > ALWAYS_SMALL && bytes >= self.try_again_at;
        if !may_be_large && self.longest <= longest_for(0) {
            return Size::Fits;
        }
        let held = shared.held_bytes(rt);
        self.look_at = held.saturating_mul(2).saturating_add(ALWAYS_SMALL);
        if may_be_large && bytes > self.look_at {
            return Size::IsLarge { held };
        }
        if self.longest > longest_for(held) {
            return Size::IsLong { held };
        }
        Size::Fits
    }

    // Cuts off what the file has behind the zeros, where it may have so many bytes, and lets one go that is kept and has far more.
    fn shorten<P: JournalPlace<D>>(&mut self, place: &P, longest: u64) -> Compacted
        requires { self.old.failed ≡ false }
        ensures others { self.new ≡ record self.old { disk = self.new.disk } }
        ensures shortened { result ≡ Compacted.Shortened }
    {
        if self.journal.shorten().is_ok() {
            self.longest = 0;
        }
        place.keep_at_most(spare_for(longest));
        Compacted::Shortened
    }

    // Gives up what there is of a new journal; another is begun once this one has 48 MiB more.
    fn give_up<P: JournalPlace<D>>(&mut self, place: &P) -> Compacted
        ensures same { self.new ≡ self.old }
        ensures given_up { result ≡ Compacted.GivenUp }
    {
        self.compaction = None;
        self.has_lost = false;
        self.try_again_at = (self.journal.frames_len() as u64).saturating_add(ALWAYS_SMALL);
        place.give_up();
        Compacted::GivenUp
    }

    // Begins a new journal beside this one, in a file of at most so many bytes, where what it is to have takes no more.
    fn begin<R: Ledger, M: Ledger, B: Wait + Drop, W: Wait + time::Clock, P: JournalPlace<D>>(
        &mut self,
        rt: &W,
        shared: &Shared<C, R, M, B>,
        place: &P,
        longest: u64,
    ) -> Result<Compacted, KeepFault>
        requires { self.old.failed ≡ false }
        ensures keeps { IsPrefix self.old.kept self.new.kept }
        ensures same_kept { OnErr result (self.new.kept ≡ self.old.kept) }
        ensures used { OnOk result (self.new.promised
            ≡ self.old.promised - (journal_len C.journal self.new.kept - journal_len C.journal self.old.kept)) }
        ensures key { self.new.key ≡ self.old.key }
        ensures failed { OnErr result (self.new.failed ≡ true) }
        ensures well { OnOk result (self.new.failed ≡ false) }
        ensures begun { result ≢ Ok Compacted.Rests }
        ensures unsure { IsErrOf result KeepFault.Place → IsSome self.new.maybe_in_place }
        ensures uncounted { OnErr result (self.new.synced ≡ self.old.synced) }
    {
        let Some(disk) = place.open_beside() else {
            return Ok(self.give_up(place));
        };
        match Draft::new(disk, self.journal.key(), longest as usize) {
            Ok(draft) => self.take_snapshot(rt, shared, place, draft, longest),
            Err(_) => Ok(self.give_up(place)),
        }
    }

    // Keeps the records that wait, and takes a snapshot for a new journal of which nothing is written.
    fn take_snapshot<
        R: Ledger,
        M: Ledger,
        B: Wait + Drop,
        W: Wait + time::Clock,
        P: JournalPlace<D>,
    >(
        &mut self,
        rt: &W,
        shared: &Shared<C, R, M, B>,
        place: &P,
        draft: Draft<D>,
        longest: u64,
    ) -> Result<Compacted, KeepFault>
        requires well { self.old.failed ≡ false }
        requires key { draft_key draft ≡ self.old.key }
        requires draft { IsDraft draft [] }
        ensures keeps { IsPrefix self.old.kept self.new.kept }
        ensures same_kept { OnErr result (self.new.kept ≡ self.old.kept) }
        ensures used { OnOk result (self.new.promised
            ≡ self.old.promised - (journal_len C.journal self.new.kept - journal_len C.journal self.old.kept)) }
        ensures key { self.new.key ≡ self.old.key }
        ensures failed { OnErr result (self.new.failed ≡ true) }
        ensures well { OnOk result (self.new.failed ≡ false) }
        ensures begun { result ≢ Ok Compacted.Rests }
        ensures unsure { IsErrOf result KeepFault.Place → IsSome self.new.maybe_in_place }
        ensures uncounted { OnErr result (self.new.synced ≡ self.old.synced) }
    {
        self.has_failed = true;
        self.compaction = None;
        let Some(taken) = shared.take_with_snapshot(rt, self.alloc, &self.durable) else {
            return Err(KeepFault::Queue);
        };
        let RecordsAndSnapshot { records, snapshot } = taken;
        self.tried = records.reached.again();
        let mut synced = self.synced;
        keep_taken::<D, C, W>(
            rt,
            &mut self.journal,
            &self.durable,
            &records,
            &mut self.granted,
            &mut synced,
        )?;
        let Records { frames: _, reached } = records;
        self.durable = reached;
        self.synced = synced;
        self.has_failed = false;
        let Ok(rooms) = snapshot else {
            return Ok(self.give_up(place));
        };
        self.compaction = Some(Compaction::new(self.alloc, draft, rooms, longest));
        Ok(Compacted::GoesOn)
    }

    // Writes a slice of a new journal; where that has all then, it takes the place of this one.
    fn go_on<P: JournalPlace<D>>(
        &mut self,
        mut compaction: Compaction<D>,
        place: &P,
    ) -> Result<Compacted, KeepFault>
        requires well { self.old.failed ≡ false }
        requires keeps { WillKeep C.settings compaction self.old.key self.old.kept }
        ensures kept { self.new.kept ≡ self.old.kept }
        ensures promised { self.new.promised ≡ self.old.promised }
        ensures key { self.new.key ≡ self.old.key }
        ensures failed { OnErr result (self.new.failed ≡ true) }
        ensures well { OnOk result (self.new.failed ≡ false) }
        ensures begun { result ≢ Ok Compacted.Rests }
        ensures unsure { IsErrOf result KeepFault.Place → IsSome self.new.maybe_in_place }
        ensures uncounted { OnErr result (self.new.synced ≡ self.old.synced) }
    {
        let Ok(()) = compaction.write_slice() else {
            return Ok(self.give_up(place));
        };
        if !compaction.is_written() {
            self.compaction = Some(compaction);
            return Ok(Compacted::GoesOn);
        }
        let longest = compaction.longest();
        match compaction.finish(self.granted as usize) {
            Ok(journal) => self.replace(journal, longest, place),
            Err(_) => Ok(self.give_up(place)),
        }
    }

    // Puts a new journal, which has all that this one has, and whose file may have so many bytes, in its place.
    fn replace<P: JournalPlace<D>>(
        &mut self,
        journal: Journal<D>,
        longest: u64,
        place: &P,
    ) -> Result<Compacted, KeepFault>
        requires well { self.old.failed ≡ false }
        requires key { key_of journal ≡ self.old.key }
        requires room { self.old.promised ≤ room_of journal }
        requires keeps { KeepsBook C.settings journal self.old.kept }
        ensures kept { self.new.kept ≡ self.old.kept }
        ensures promised { self.new.promised ≡ self.old.promised }
        ensures key { self.new.key ≡ self.old.key }
        ensures failed { OnErr result (self.new.failed ≡ true) }
        ensures well { OnOk result (self.new.failed ≡ false) }
        ensures begun { result ≢ Ok Compacted.Rests }
        ensures unsure { IsErrOf result KeepFault.Place → IsSome self.new.maybe_in_place }
        ensures uncounted { OnErr result (self.new.synced ≡ self.old.synced) }
        // It goes on with the one that stands there.
        ensures placed { result ≡ Ok Compacted.Ended → self.new.disk ≡ disk_of journal }
        ensures stays { result ≢ Ok Compacted.Ended → self.new.disk ≡ self.old.disk }
    {
        match place.put_in_place(&journal) {
            Ok(()) => {
                let old = mem::replace(&mut self.journal, journal);
                self.look_at = ALWAYS_SMALL;
                self.try_again_at = 0;
                self.longest = longest;
                place.let_go(old.into_disk(), spare_for(longest));
                Ok(Compacted::Ended)
            }
            Err(PlaceFault::Stays) => Ok(self.give_up(place)),
            Err(PlaceFault::Unsure) => {
                self.has_failed = true;
                self.maybe_in_place = Some(journal);
                Err(KeepFault::Place)
            }
        }
    }
}

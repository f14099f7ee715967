ghost use Rattle.std.specs.Prelude.{◌≡◌, false, IsTrue, OnErr, OnOk};
ghost use mathlib.Core.List.{IsPrefix};
ghost use Rattle.journal_keeper.specs.Granting.{MayHaveMore};

use crate::compacting::Compacted;
use crate::fault::KeepFault;
use crate::granting::needed_for;
use crate::journalled::Journalled;
use crate::keeper::Keeper;
use crate::numbers::KeeperNumbers;
use crate::taking::tell;
use crate::told::Told;
use journal_file::JournalPlace;
use sqlite_disk::Disk;
use std::sync::ledger::Ledger;
use std::sync::{Mutex, Wait};
use std::time;
use tus_shared::{Desk, Shared};

/// A keeper behind a lock of its own, which all desks of its store share. One desk's sync serves all that wait for the lock
/// meanwhile.
#[derive(Drop)]
pub struct SharedKeeper<D: Disk, C: Journalled> {
    keeper: Mutex<Keeper<D, C>>,
    // What the keeper told when it was used last. Nobody waits for a disk while this lock is held.
    told: Mutex<Told<C>>,
}

impl<D: Disk + Drop, C: Journalled> SharedKeeper<D, C> {
    /// Puts a keeper behind a lock.
    pub fn new(keeper: Keeper<D, C>) -> SharedKeeper<D, C> {
        let told = Mutex::new(Told::by(&keeper));
        SharedKeeper {
            keeper: Mutex::new(keeper),
            told,
        }
    }

    /// Keeps all that this desk has seen, and tells it so ([`Keeper::keep`]). Where it knows that already, no lock is taken;
    /// and where the keeper told so when it was used last, only one that nobody holds for long. Else the lock of the keeper
    /// is taken, and that of the store for a moment; then it may wait for other desks, and for a disk.
    ///
    /// `Err` as of `Keeper::keep`; then the desk is told nothing.
    pub fn keep<R: Ledger, M: Ledger, B: Wait + Drop, W: Wait + time::Clock>(
        &self,
        rt: &W,
        shared: &Shared<C, R, M, B>,
        desk: &mut Desk<C, R, M>,
    ) -> Result<(), KeepFault>
        ensures told { OnOk result (IsPrefix desk.new.seen desk.new.kept) }
        ensures desk { OnOk result (desk.new ≡ record desk.old { kept = desk.new.kept }) }
        ensures same { OnErr result (desk.new ≡ desk.old) }
    {
        if desk.is_kept() || self.has_told(rt, desk) {
            return Ok(());
        }
        let mut keeper = self.keeper.lock(rt);
        let kept = keeper.keep(rt, shared, desk);
        self.told.lock(rt).renew(&keeper);
        kept
    }

    // Tells a desk how far the events are kept, if the keeper told when it was used last that all which the desk has seen is.
    // Says whether it did; else the desk stays.
    fn has_told<R: Ledger, M: Ledger, W: Wait>(&self, rt: &W, desk: &mut Desk<C, R, M>) -> bool
        ensures told { IsTrue result → IsPrefix desk.new.seen desk.new.kept }
        ensures desk { desk.new ≡ record desk.old { kept = desk.new.kept } }
        ensures same { result ≡ false → desk.new ≡ desk.old }
    {
        let durable = self.told.lock(rt).durable();
        desk.seen_events().begins(&durable) && tell(&durable, desk).is_ok()
    }

    /// Sees to it that a desk may queue so many bytes of records, and 65,536 more, where the journal has or gets room for
    /// that ([`Keeper::make_room`]). Where the desk has it already, no lock is taken. It may wait for other desks.
    pub fn make_room<R: Ledger, M: Ledger, W: Wait, P: JournalPlace<D>>(
        &self,
        rt: &W,
        desk: &mut Desk<C, R, M>,
        bytes: u64,
        place: &P,
    )
        ensures { MayHaveMore bytes desk.old desk.new }
    {
        if needed_for(desk.room(), bytes).is_some() {
            let mut keeper = self.keeper.lock(rt);
            keeper.make_room(desk, bytes, place);
            self.told.lock(rt).renew(&keeper);
        }
    }

    /// Marks how much of the journal is synced ([`Keeper::mark`]), and makes it small, a slice at a time, where it has become
    /// large ([`Keeper::compact`]), for whoever asks first in a second. For all who ask later only a lock is taken that nobody
    /// holds for long. Else it may wait for desks, and for a disk.
    ///
    /// `Err` as of `Keeper::compact`.
    pub fn compact<R: Ledger, M: Ledger, B: Wait + Drop, W: Wait + time::Clock, P: JournalPlace<D>>(
        &self,
        rt: &W,
        shared: &Shared<C, R, M, B>,
        place: &P,
    ) -> Result<Compacted, KeepFault> {
        if !self.told.lock(rt).take_second(rt) {
            return Ok(Compacted::Rests);
        }
        self.mark(rt, place);
        self.compact_locked(rt, shared, place)
    }

    /// Marks how much of the journal is synced ([`Keeper::mark`]). It may wait for a disk.
    pub fn mark<W: Wait, P: JournalPlace<D>>(&self, rt: &W, place: &P) {
        self.keeper.lock(rt).mark(place);
    }

    /// Makes the journal small after a sync, for whoever asks first after it; the others rest. It rests too where the journal is
    /// no longer than was found small at the last look.
    ///
    /// `Err` as of `Keeper::compact`.
    pub fn compact_synced<
        R: Ledger,
        M: Ledger,
        B: Wait + Drop,
        W: Wait + time::Clock,
        P: JournalPlace<D>,
    >(&self, rt: &W, shared: &Shared<C, R, M, B>, place: &P) -> Result<Compacted, KeepFault> {
        if !self.told.lock(rt).numbers.take_due() {
            return Ok(Compacted::Rests);
        }
        self.compact_locked(rt, shared, place)
    }

    // Takes the lock, and lets the keeper compact.
    fn compact_locked<
        R: Ledger,
        M: Ledger,
        B: Wait + Drop,
        W: Wait + time::Clock,
        P: JournalPlace<D>,
    >(&self, rt: &W, shared: &Shared<C, R, M, B>, place: &P) -> Result<Compacted, KeepFault> {
        let mut keeper = self.keeper.lock(rt);
        let compacted = keeper.compact(rt, shared, place);
        self.told.lock(rt).renew(&keeper);
        compacted
    }

    /// What the keeper told when it was used last ([`Keeper::numbers`]). It waits for no disk: the lock that it takes is held
    /// only while numbers are copied.
    pub fn numbers<W: Wait>(&self, rt: &W) -> KeeperNumbers {
        self.told.lock(rt).numbers
    }

    /// The keeper, out of the lock.
    pub fn into_keeper(self) -> Keeper<D, C> {
        let SharedKeeper { keeper, told: _ } = self;
        keeper.into_inner()
    }
}

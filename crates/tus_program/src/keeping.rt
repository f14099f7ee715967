//! How the program keeps what happens at its desks.
ghost use Rattle.std.specs.Prelude.{◌≡◌, ◌↔◌, Ok, IsErr};

use journal_file::JournalPlace;
use journal_keeper::{Compacted, Journalled, KeepFault, KeeperNumbers, SharedKeeper};
use service_watch::JournalNumbers;
use sqlite_disk::Disk;
use std::sync::Wait;
use std::sync::ledger::Ledger;
use std::time;
use tus_shared::{Desk, Shared};
use tus_workers::{Compacting, Keeping};

/// All that happens at the desks of a store is kept in a journal, whose file stands at this place.
#[derive(Drop)]
pub struct InJournal<D: Disk, C: Journalled, P> {
    pub keeper: SharedKeeper<D, C>,
    pub place: P,
}

impl<D: Disk + Drop, C: Journalled, P: Drop> InJournal<D, C, P> {
    /// Whether a write or a sync of the journal has failed, or it is not known which file is the journal's.
    pub fn has_failed(self) -> bool {
        self.keeper.into_keeper().has_failed()
    }
}

impl<D: Disk + Drop, C: Journalled, P: JournalPlace<D>> InJournal<D, C, P> {
    /// Marks how much of the journal is synced. It may wait for a disk.
    pub fn mark<W: Wait>(&self, rt: &W) {
        self.keeper.mark(rt, &self.place);
    }
}

impl<
    D: Disk + Drop,
    C: Journalled,
    R: Ledger,
    M: Ledger,
    B: Wait + Drop,
    P: JournalPlace<D>,
> Keeping<C, R, M, B> for InJournal<D, C, P> {
    fn make_room<W: Wait>(&self, rt: &W, desk: &mut Desk<C, R, M>, bytes: u64) {
        self.keeper.make_room(rt, desk, bytes, &self.place);
    }

    fn keep<W: Wait + time::Clock>(
        &self,
        rt: &W,
        shared: &Shared<C, R, M, B>,
        desk: &mut Desk<C, R, M>,
    ) -> bool {
        self.keeper.keep(rt, shared, desk).is_ok()
    }

    fn compact<W: Wait + time::Clock>(&self, rt: &W, shared: &Shared<C, R, M, B>) -> Compacting {
        told_compacted(self.keeper.compact(rt, shared, &self.place))
    }

    fn compact_synced<W: Wait + time::Clock>(
        &self,
        rt: &W,
        shared: &Shared<C, R, M, B>,
    ) -> Compacting {
        told_compacted(self.keeper.compact_synced(rt, shared, &self.place))
    }

    fn numbers<W: Wait>(&self, rt: &W) -> Option<JournalNumbers> {
        Some(told_numbers(self.keeper.numbers(rt)))
    }
}

/// What came of a look at how large a journal is, as it is told.
fn told_compacted(compacted: Result<Compacted, KeepFault>) -> Compacting
    ensures failed { result ≡ Compacting.Failed ↔ IsErr compacted }
    ensures given_up { result ≡ Compacting.GivenUp ↔ (compacted ≡ Ok Compacted.GivenUp) }
{
    match compacted {
        Ok(Compacted::Rests | Compacted::Shortened | Compacted::GoesOn | Compacted::Ended) =>
            Compacting::Fine,
        Ok(Compacted::GivenUp) => Compacting::GivenUp,
        Err(_) => Compacting::Failed,
    }
}

/// The numbers of a keeper, as they are told.
fn told_numbers(numbers: KeeperNumbers) -> JournalNumbers
    ensures { result ≡ record {
      syncs = numbers.synced.syncs;
      records = numbers.synced.records;
      micros = numbers.synced.micros;
      bytes = numbers.bytes;
      file_bytes = numbers.file_bytes;
    } }
{
    JournalNumbers {
        syncs: numbers.synced.syncs,
        records: numbers.synced.records,
        micros: numbers.synced.micros,
        bytes: numbers.bytes,
        file_bytes: numbers.file_bytes,
    }
}

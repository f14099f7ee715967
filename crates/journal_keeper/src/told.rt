//! What a keeper told when it was used last, which nobody has to wait for a disk to read.
ghost use Rattle.std.specs.Prelude.{◌≡◌};

use crate::journalled::Journalled;
use crate::keeper::Keeper;
use crate::numbers::{KeeperNumbers, micros_since};
use head_board::SeenEvents;
use sqlite_disk::Disk;
use std::marker::PhantomData;
use std::time;
use std::time::Instant;

/// The numbers of a keeper, and how far the events are kept.
#[derive(Drop)]
pub(crate) struct Told<C: Journalled> {
    pub(crate) numbers: KeeperNumbers,
    durable: SeenEvents,
    // When somebody was last told that it is time for a look at the journal's size, and for a mark.
    looked: Option<Instant>,
    opening: PhantomData<C>,
    ghost log: { durable.book ≡ C.log },
}

impl<C: Journalled> Told<C> {
    /// What this keeper tells.
    pub(crate) fn by<D: Disk + Drop>(keeper: &Keeper<D, C>) -> Told<C> {
        Told {
            numbers: keeper.numbers(),
            durable: keeper.kept(),
            looked: None,
            opening: PhantomData,
        }
    }

    /// What this keeper tells, after what was told before.
    pub(crate) fn renew<D: Disk + Drop>(&mut self, keeper: &Keeper<D, C>) {
        self.numbers = keeper.numbers();
        self.durable = keeper.kept();
    }

    /// Whether it is time for a look at the journal's size, and for a mark: nobody was told so in this second.
    pub(crate) fn take_second<W: time::Clock>(&mut self, rt: &W) -> bool {
        if self.looked.is_some() && micros_since(rt, &self.looked) < 1_000_000 {
            return false;
        }
        self.looked = Instant::now(rt).ok();
        true
    }

    /// How far the events are kept.
    pub(crate) fn durable(&self) -> SeenEvents
        ensures { result.book ≡ C.log }
    {
        self.durable.again()
    }
}

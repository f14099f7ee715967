//! What keeps the changes of a store beyond its process.
ghost use Rattle.std.specs.Prelude.{◌≡◌, IsTrue, None};
ghost use mathlib.Core.List.{IsPrefix};

use service_watch::JournalNumbers;
use std::sync::Wait;
use std::sync::ledger::Ledger;
use std::time;
use tus_shared::{Charges, Desk, Shared};

/// What came of making smaller what is kept.
#[derive(Clone, Copy, Debug, PartialEq, Eq)]
pub enum Compacting {
    /// More can be kept.
    Fine,
    /// More can be kept, but it could not be made smaller.
    GivenUp,
    /// Nothing more can be kept.
    Failed,
}

/// What keeps what happens at the desks of a store, so that it outlives the process.
pub trait Keeping<C: Charges, R: Ledger, M: Ledger, B: Wait + Drop> {
    /// Sees to it that a desk may queue records of so many bytes, and 65,536 more, if there is room for them. It may wait for
    /// other desks, and for a disk.
    fn make_room<W: Wait>(&self, rt: &W, desk: &mut Desk<C, R, M>, bytes: u64)
        ensures { desk.new ≡ record desk.old { room = desk.new.room } };

    /// Keeps all that a desk has seen, and tells the desk. Says whether that is kept. It may wait for other desks, and for a
    /// disk.
    fn keep<W: Wait + time::Clock>(
        &self,
        rt: &W,
        shared: &Shared<C, R, M, B>,
        desk: &mut Desk<C, R, M>,
    ) -> bool
        ensures kept { IsTrue result → IsPrefix desk.new.seen desk.new.kept }
        ensures alone { desk.new ≡ record desk.old { kept = desk.new.kept } };

    /// Makes what is kept smaller, a step at a time, where it has become large; to be called once a second. It may wait for
    /// other desks, and for a disk.
    fn compact<W: Wait + time::Clock>(&self, rt: &W, shared: &Shared<C, R, M, B>) -> Compacting;

    /// The same, to be called after something more was kept.
    fn compact_synced<W: Wait + time::Clock>(
        &self,
        rt: &W,
        shared: &Shared<C, R, M, B>,
    ) -> Compacting;

    /// The numbers of the journal in which it is kept, if there is one. It waits for no disk.
    fn numbers<W: Wait>(&self, rt: &W) -> Option<JournalNumbers>;
}

/// Nothing outlives the process.
#[derive(Clone, Copy)]
pub struct NoJournal;

impl<C: Charges, R: Ledger, M: Ledger, B: Wait + Drop> Keeping<C, R, M, B> for NoJournal {
    fn make_room<W: Wait>(&self, _rt: &W, _desk: &mut Desk<C, R, M>, _bytes: u64) {}

    fn keep<W: Wait + time::Clock>(
        &self,
        _rt: &W,
        _shared: &Shared<C, R, M, B>,
        desk: &mut Desk<C, R, M>,
    ) -> bool {
        desk.is_kept()
    }

    fn compact<W: Wait + time::Clock>(&self, _rt: &W, _shared: &Shared<C, R, M, B>) -> Compacting
        ensures { result ≡ Compacting.Fine }
    {
        Compacting::Fine
    }

    fn compact_synced<W: Wait + time::Clock>(
        &self,
        _rt: &W,
        _shared: &Shared<C, R, M, B>,
    ) -> Compacting
        ensures { result ≡ Compacting.Fine }
    {
        Compacting::Fine
    }

    fn numbers<W: Wait>(&self, _rt: &W) -> Option<JournalNumbers>
        ensures { result ≡ None }
    {
        None
    }
}

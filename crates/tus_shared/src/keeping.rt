//! What a desk knows of the journal.
ghost use Rattle.std.specs.Prelude.{◌≡◌, ◌+◌, ◌-◌, ◌^◌, ◌↔◌, IsTrue, min};
ghost use mathlib.Core.List.{IsPrefix};

use crate::charges::Charges;
use crate::desk::Desk;
use head_board::SeenEvents;
use std::sync::ledger::Ledger;

impl<C: Charges, R: Ledger, M: Ledger> Desk<C, R, M> {
    /// The key under which changes are journalled, if they are.
    pub fn journal(&self) -> Option<u64>
        ensures value { result ≡ self.now.journal }
        ensures opening { result ≡ C.journal }
    {
        self.journal
    }

    /// How many bytes of records it may still queue. A change that ends no upload leaves 65,536 of them. It is a bound that
    /// it was granted, and falls by the length of each frame that it queues.
    pub fn room(&self) -> u64
        ensures { result ≡ self.now.room }
    {
        self.room
    }

    /// Grants it room for so many bytes of records more, up to 2^64 - 1 in all.
    pub fn grant(&mut self, more: u64)
        ensures { self.new ≡ record self.old { room = min (self.old.room + more) (2 ^ 64 - 1) } }
    {
        self.room = self.room.saturating_add(more);
    }

    /// How far it has seen the events: all that its answers rest on.
    pub fn seen_events(&self) -> SeenEvents
        ensures { result ≡ record { book = C.log; events = self.now.seen } }
    {
        self.reader.seen().again()
    }

    /// Tells it that these events are kept. It forgets none: where it knows of more, it stays as it was.
    pub fn learn_kept(&mut self, kept: &SeenEvents)
        requires { kept.now.book ≡ C.log }
        ensures learns { IsPrefix self.old.kept kept.now.events → self.new ≡ record self.old { kept = kept.now.events } }
        ensures stays { ¬ (IsPrefix self.old.kept kept.now.events) → self.new ≡ self.old }
    {
        if self.kept.begins(kept) {
            self.kept = kept.again();
        }
    }

    /// Whether all events that it has seen are among those that it was told to be kept: so all that its answers rest on.
    pub fn is_kept(&self) -> bool
        ensures { IsTrue result ↔ IsPrefix self.now.seen self.now.kept }
    {
        self.reader.seen().begins(&self.kept)
    }
}

//! The queues behind the lists.
ghost use Rattle.std.specs.Prelude.{◌≡◌, ◌<◌, ◌++◌, ◌∷◌, [], IfOk, drop, false, length, slice_get};
ghost use Rattle.turn_lists.specs.Lists.{is_on, without_key};
ghost use Rattle.turn_lists.specs.inside.Queues.{empty_queues, queue_in, with_keys_in};

use crate::lists::TurnList;
use crate::queue::Queue;
use std::alloc::{AllocError, Global};

/// The queue of each list.
#[derive(Drop)]
pub(crate) struct Queues {
    pub(crate) has_more: Queue,
    pub(crate) waits_for_turn: Queue,
    pub(crate) waits_for_keeping: Queue,
}

impl Queues {
    /// Empty queues for keys below `room`.
    pub(crate) fn new(alloc: Global, room: usize) -> Result<Self, AllocError>
        ensures { IfOk result (λ queues. queues ≡ empty_queues room) }
    {
        Ok(Queues {
            has_more: Queue::new(alloc, room)?,
            waits_for_turn: Queue::new(alloc, room)?,
            waits_for_keeping: Queue::new(alloc, room)?,
        })
    }

    /// How many keys are in a list's queue.
    pub(crate) fn len(&self, list: TurnList) -> usize
        ensures { result ≡ length (queue_in self.now list).keys }
    {
        match list {
            TurnList::HasMore => self.has_more.len(),
            TurnList::WaitsForTurn => self.waits_for_turn.len(),
            TurnList::WaitsForKeeping => self.waits_for_keeping.len(),
        }
    }

    /// Puts a key behind all others of a list.
    pub(crate) fn put(&mut self, list: TurnList, key: usize)
        requires below { key < (queue_in self.old list).room }
        requires new { is_on key (queue_in self.old list).keys ≡ false }
        ensures { self.new ≡ with_keys_in self.old list ((queue_in self.old list).keys ++ key ∷ []) }
    {
        match list {
            TurnList::HasMore => self.has_more.put(key),
            TurnList::WaitsForTurn => self.waits_for_turn.put(key),
            TurnList::WaitsForKeeping => self.waits_for_keeping.put(key),
        }
    }

    /// Takes out the first key of a list. `None` where there is none.
    pub(crate) fn take_first(&mut self, list: TurnList) -> Option<usize>
        ensures first { result ≡ slice_get (queue_in self.old list).keys 0 }
        ensures rest { self.new ≡ with_keys_in self.old list (drop 1 (queue_in self.old list).keys) }
    {
        match list {
            TurnList::HasMore => self.has_more.take_first(),
            TurnList::WaitsForTurn => self.waits_for_turn.take_first(),
            TurnList::WaitsForKeeping => self.waits_for_keeping.take_first(),
        }
    }

    /// Takes out a key of a list, if it is there. It looks at every key of the list.
    pub(crate) fn remove(&mut self, list: TurnList, key: usize)
        ensures { self.new ≡ with_keys_in self.old list (without_key key (queue_in self.old list).keys) }
    {
        match list {
            TurnList::HasMore => self.has_more.remove(key),
            TurnList::WaitsForTurn => self.waits_for_turn.remove(key),
            TurnList::WaitsForKeeping => self.waits_for_keeping.remove(key),
        }
    }
}

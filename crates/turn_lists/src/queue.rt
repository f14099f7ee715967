//! A queue of keys, no key in it twice.
ghost use Rattle.std.specs.Prelude.{◌≡◌, ◌<◌, ◌++◌, ◌∷◌, [], IfOk, drop, false, length, slice_get};
ghost use Rattle.turn_lists.specs.Lists.{is_on, without_key};

use std::alloc::{AllocError, Global};
use std::collections::VecDeque;
use std::marker::Model;

/// Keys, the one that has stood there longest first, in memory that was taken at the start.
#[derive(Drop)]
pub(crate) struct Queue {
    keys: VecDeque<usize>,
}

impl Model for Queue {
    ghost use Rattle.std.specs.VecDeque.{deque_capacity};
    ghost use Rattle.turn_lists.specs.inside.KeyQueues.{AreQueued, KeyQueue};

    ghost Value = { KeyQueue };

    ghost view = { λ q. record { room = deque_capacity q.keys; keys = q.keys.items } };

    ghost invariant = { λ q. AreQueued (deque_capacity q.keys) q.keys.items };
}

impl Queue {
    ghost use Rattle.turn_lists.specs.inside.KeyQueues.{queue_of};

    /// An empty queue for keys below `room`.
    pub(crate) fn new(alloc: Global, room: usize) -> Result<Self, AllocError>
        ensures { IfOk result (λ q. q ≡ queue_of room []) }
    {
        Ok(Queue {
            keys: VecDeque::with_capacity(alloc, room)?,
        })
    }

    /// How many keys are in it.
    pub(crate) fn len(&self) -> usize
        ensures { result ≡ length self.now.keys }
    {
        self.keys.len()
    }

    /// Puts a key behind all others.
    pub(crate) fn put(&mut self, key: usize)
        requires below { key < self.old.room }
        requires new { is_on key self.old.keys ≡ false }
        ensures { self.new ≡ queue_of self.old.room (self.old.keys ++ key ∷ []) }
    {
        self.keys.push_back_reserved(key);
    }

    /// Takes out the first key. `None` where there is none.
    pub(crate) fn take_first(&mut self) -> Option<usize>
        ensures first { result ≡ slice_get self.old.keys 0 }
        ensures rest { self.new ≡ queue_of self.old.room (drop 1 self.old.keys) }
    {
        self.keys.pop_front()
    }

    /// Takes out a key, if it is in it. It looks at every key.
    pub(crate) fn remove(&mut self, key: usize)
        ensures { self.new ≡ queue_of self.old.room (without_key key self.old.keys) }
    {
        self.keys.retain(|other| *other != key);
    }
}

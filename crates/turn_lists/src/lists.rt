//! On which list each client stands.
ghost use Rattle.std.specs.Prelude.{◌≡◌, ◌<◌, ◌↔◌, None, Some, IfOk, IsTrue, drop, length, slice_get, slice_index_or, true};

use crate::queues::Queues;
use std::alloc::{AllocError, Global};
use std::marker::Model;

/// A list by which the next turn of a client comes.
#[derive(Clone, Copy, PartialEq, Eq, Debug)]
pub enum TurnList {
    /// It has more to do.
    HasMore,
    /// Its message waits for another one to end.
    WaitsForTurn,
    /// Its reply is held back until all that it rests on is durable.
    WaitsForKeeping,
}

/// Who stands on which list. Clients are told by their keys, which are numbers below a bound.
#[derive(Drop)]
pub struct TurnLists {
    // For each key the list on which it stands.
    stands: Vec<Option<TurnList>>,
    queues: Queues,
}

impl Model for TurnLists {
    ghost use Rattle.std.specs.Prelude.{vec_len};
    ghost use Rattle.turn_lists.specs.Lists.{Lists};
    ghost use Rattle.turn_lists.specs.inside.Kept.{IsKept};
    ghost use Rattle.turn_lists.specs.inside.Queues.{lists_in};

    ghost Value = { Lists };

    ghost view = { λ t. lists_in (vec_len t.stands) t.queues };

    ghost invariant = { λ t. IsKept t.stands.items t.queues };
}

impl TurnLists {
    ghost use Rattle.turn_lists.specs.Lists.{IsEachOnce, empty_lists, keys_of, list_of, put_in, with_keys, without};
    ghost use Rattle.turn_lists.specs.Rounds.{HadRound, IsRound, after_turn};

    /// Empty lists for keys below `most`. All memory that they will ever need is taken here; an `AllocError` says that there
    /// was too little.
    pub fn new(alloc: Global, most: usize) -> Result<Self, AllocError>
        ensures { IfOk result (λ lists. lists ≡ empty_lists most) }
    {
        let mut stands = Vec::with_capacity(alloc, most)?;
        stands.resize(most, None)?;
        Ok(TurnLists {
            stands,
            queues: Queues::new(alloc, most)?,
        })
    }

    /// Each key that stands on a list stands there once, on no other, and is below the bound.
    pub fn each_once(&self)
        ensures each_once { IsEachOnce self.now }
    {
        let _kept = &self.stands;
    }

    /// The list on which a key stands. `None` where it stands on none.
    pub fn list_of(&self, key: usize) -> Option<TurnList>
        ensures { result ≡ list_of self.now key }
    {
        noted_at(&self.stands, key)
    }

    /// How many keys stand on a list.
    pub fn len(&self, list: TurnList) -> usize
        ensures { result ≡ length (keys_of self.now list) }
    {
        self.queues.len(list)
    }

    /// Whether nobody stands on a list.
    pub fn is_empty(&self, list: TurnList) -> bool
        ensures { IsTrue result ↔ (length (keys_of self.now list) ≡ 0) }
    {
        self.queues.len(list) == 0
    }

    /// Puts a key behind the others of a list, unless it stands on one already: then it stays where it is. `false` where it
    /// isn't below the bound, and then nothing changes.
    pub fn put(&mut self, key: usize, list: TurnList) -> bool
        ensures below { IsTrue result ↔ (key < self.old.most) }
        ensures after { self.new ≡ put_in self.old key list (list_of self.old key) }
    {
        if key >= self.stands.len() {
            return false;
        }
        if noted_at(&self.stands, key).is_some() {
            return true;
        }
        self.stands[key] = Some(list);
        self.queues.put(list, key);
        true
    }

    /// Takes the key off a list that has stood there longest. `None` where nobody stands there.
    pub fn take_first(&mut self, list: TurnList) -> Option<usize>
        ensures first { result ≡ slice_get (keys_of self.old list) 0 }
        ensures rest { self.new ≡ with_keys self.old list (drop 1 (keys_of self.old list)) }
    {
        let key = self.queues.take_first(list)?;
        self.stands[key] = None;
        Some(key)
    }

    /// Takes a key off the list on which it stands, if it stands on one. It looks at every key of that list.
    pub fn leave(&mut self, key: usize)
        ensures { self.new ≡ without self.old key (list_of self.old key) }
    {
        let Some(list) = noted_at(&self.stands, key) else {
            return;
        };
        self.stands[key] = None;
        self.queues.remove(list, key);
    }

    /// Takes a round of a list: each key that stands there leaves it and has one turn, in their order. `turn` gives the list by
    /// which the next turn of its key comes, if by one. A key that comes to the list again has its next turn in the next round.
    pub fn take_round<F: FnMut(usize) -> Option<TurnList>>(&mut self, list: TurnList, mut turn: F)
        requires { F.IsAlwaysCallable turn }
        ensures turns { (last : F) × IsRound F.step list turn self.old last self.new }
        ensures lists { HadRound list self.old self.new }
    {
        for _ in 0..self.len(list) {
            self.each_once();
            let Some(key) = self.take_first(list) else {
                return;
            };
            let next = turn(key);
            self.place(key, next);
        }
    }

    // Puts a key to the list by which its next turn comes, if by one.
    fn place(&mut self, key: usize, next: Option<TurnList>)
        ensures { self.new ≡ after_turn key next self.old }
    {
        if let Some(list) = next {
            self.put(key, list);
        }
    }
}

// The list that is noted for a key.
fn noted_at(stands: &[Option<TurnList>], key: usize) -> Option<TurnList>
    ensures { result ≡ slice_index_or stands.now key None }
{
    *stands.get(key)?
}

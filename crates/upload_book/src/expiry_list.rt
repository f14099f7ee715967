//! The uploads that expire, in the order in which they do.
ghost use Rattle.std.specs.Prelude.{◌≡◌, ◌↔◌, ◌+◌, ◌<◌, ◌≤◌, true, false, [], ◌∷◌, length, slice_get, Contains, ℕ, None, IfOk, IfSome, IsSome, IsTrue};
ghost use Rattle.std.specs.List.Sorted.{IsPartitionPoint, IsPermutation};
ghost use Rattle.upload_book.specs.ExpiryList.{comes_before, ends_after, with_end, AreExpiring, Ends, IsAscending, KnowsEnd};

use crate::head_row::Name;
use crate::moment::Moment;
use std::alloc::{AllocError, Global};
use std::marker::Model;

/// An upload that expires, and when.
#[derive(Clone, Copy, Debug, PartialEq, Eq)]
pub struct Expiring {
    /// From when on it has expired.
    pub at: Moment,
    pub name: Name,
}

impl Expiring {
    // Whether it comes before another: by the moment, then by the tenant's place, then by the id.
    fn comes_before(&self, other: &Expiring) -> bool
        ensures { result ≡ comes_before self.now other.now }
    {
        if self.at != other.at {
            self.at < other.at
        } else if self.name.tenant != other.name.tenant {
            self.name.tenant < other.name.tenant
        } else {
            self.name.id < other.name.id
        }
    }
}

/// Uploads that expire, each before those that expire later, in a list with room for so many.
#[derive(Drop)]
pub(crate) struct ExpiryList {
    list: Vec<Expiring>,
    room: usize,
}

impl Model for ExpiryList {
    ghost use Rattle.std.specs.Prelude.{◌≤◌, vec_capacity};
    ghost use Rattle.upload_book.specs.ExpiryList as spec;

    ghost Value = { spec.ExpiryList };

    ghost view = { λ l. record { list = l.list.items; room = l.room } };

    ghost invariant = { λ l. record {
      ascending : spec.IsAscending l.list.items;
      room : l.room ≤ vec_capacity l.list;
    } };
}

impl ExpiryList {
    /// The list with no upload. Its memory is taken here; the error is that there was too little.
    pub(crate) fn new(alloc: Global, room: usize) -> Result<ExpiryList, AllocError>
        ensures { IfOk result (λ l. l ≡ record { list = []; room = room }) }
    {
        Ok(ExpiryList {
            list: Vec::with_capacity(alloc, room)?,
            room,
        })
    }

    /// All of them, in order.
    pub(crate) fn as_slice(&self) -> &[Expiring]
        ensures list { result.now ≡ self.now.list }
        ensures ascending { IsAscending self.now.list }
    {
        self.list.as_slice()
    }

    /// Whether none expires until a moment. It looks at the first.
    pub(crate) fn begins_after(&self, now: Moment) -> bool
        ensures { IsTrue result ↔ IfSome (slice_get self.now.list 0) (λ x. now < x.at) }
    {
        match self.list.first() {
            Some(expiring) => now < expiring.at,
            None => true,
        }
    }

    /// Takes out those that expire until a moment, which stand before all others. They are found by halving, and the others
    /// move once.
    pub(crate) fn leave_until(&mut self, now: Moment)
        ensures ends { (ends : Ends) → AreExpiring ends self.old.list → AreExpiring (ends_after now ends) self.new.list }
        ensures room_stays { self.new.room ≡ self.old.room }
    {
        let count = self.list.partition_point(|expiring| expiring.at <= now);
        self.list.drain(..count);
    }

    // Enters one that is not there, at its place in the order, for which there is room. It finds the place by
    // halving, and moves those that come after it.
    fn insert(&mut self, expiring: Expiring)
        requires new { ¬ (Contains self.old.list expiring) }
        requires room { length self.old.list < self.old.room }
        ensures one_more { IsPermutation (expiring ∷ self.old.list) self.new.list }
        ensures ascending { IsAscending self.new.list }
        ensures room_stays { self.new.room ≡ self.old.room }
    {
        let place = self.place(&expiring);
        let inserted = self.list.insert(place, expiring);
        prove!(inserted.is_ok());
    }

    // Takes one out that is there. It finds the place by halving, and moves those that come after it.
    fn remove(&mut self, expiring: Expiring)
        requires { Contains self.old.list expiring }
        ensures one_less { IsPermutation self.old.list (expiring ∷ self.new.list) }
        ensures gone { ¬ (Contains self.new.list expiring) }
        ensures ascending { IsAscending self.new.list }
        ensures room_stays { self.new.room ≡ self.old.room }
    {
        let place = self.place(&expiring);
        self.list.remove(place);
    }

    /// Gives an upload another end: enters it, takes it out, or moves it to its new place.
    pub(crate) fn set_end(&mut self, name: Name, before: Option<Moment>, after: Option<Moment>)
        requires known { KnowsEnd self.old.list name before }
        requires room { length self.old.list ≤ self.old.room }
        requires more { before ≡ None → IsSome after → length self.old.list < self.old.room }
        ensures ends { (ends : Ends) → AreExpiring ends self.old.list → ends name ≡ before
            → AreExpiring (with_end ends name after) self.new.list }
        ensures room_stays { self.new.room ≡ self.old.room }
    {
        if before != after {
            self.leave(name, before);
            self.enter(name, after);
        }
    }

    // Enters an upload that is not there, if it expires.
    fn enter(&mut self, name: Name, end: Option<Moment>)
        requires unknown { KnowsEnd self.old.list name None }
        requires room { IsSome end → length self.old.list < self.old.room }
        ensures ends { (ends : Ends) → AreExpiring ends self.old.list → ends name ≡ None
            → AreExpiring (with_end ends name end) self.new.list }
        ensures room_stays { self.new.room ≡ self.old.room }
    {
        if let Some(at) = end {
            self.insert(Expiring { at, name });
        }
    }

    // Takes out an upload with this end. One without an end is not there, and nothing changes.
    fn leave(&mut self, name: Name, end: Option<Moment>)
        requires known { KnowsEnd self.old.list name end }
        ensures ends { (ends : Ends) → AreExpiring ends self.old.list → ends name ≡ end
            → AreExpiring (with_end ends name None) self.new.list }
        ensures unknown { KnowsEnd self.new.list name None }
        ensures fewer { IsSome end → length self.new.list + 1 ≡ length self.old.list }
        ensures same { end ≡ None → self.new ≡ self.old }
        ensures room_stays { self.new.room ≡ self.old.room }
    {
        if let Some(at) = end {
            self.remove(Expiring { at, name });
        }
    }

    // How many come before this one.
    fn place(&self, expiring: &Expiring) -> usize
        ensures bound { result ≤ length self.now.list }
        ensures point { IsPartitionPoint (λ x. comes_before x expiring.now ≡ true)
            (λ x. comes_before x expiring.now ≡ false) self.now.list result }
        ensures ascending { IsAscending self.now.list }
    {
        self.list
            .partition_point(|other| other.comes_before(expiring))
    }
}

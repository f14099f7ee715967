//! The table of the bodies that are half read.
ghost use Rattle.std.specs.Prelude.{◌≡◌, ◌≢◌, ◌+◌, ◌*◌, ◌<◌, ◌≤◌, ◌↔◌, ℕ, [], None, Some, IsTrue, IsSome, IfOk, IfSome, IfNone, IsSomeAnd, true, false, option_copied, length, All};
ghost use Rattle.unfinished_bodies.specs.Chains.{bucket_of_name};
ghost use Rattle.unfinished_bodies.specs.Table.{entry_at};
ghost use Rattle.unfinished_bodies.specs.Largest.{IsLargestBelow, larger_of};

use crate::chains::Chains;
use slab::Slab;
use std::alloc::{AllocError, Global};
use std::marker::Model;

/// The name of an upload: its tenant, and its number with this tenant.
#[derive(Clone, Copy, PartialEq, Eq, Debug)]
pub struct UploadName {
    pub tenant: u8,
    pub id: u64,
}

/// Who holds the connection that a body comes on.
#[derive(Clone, Copy, PartialEq, Eq, Debug)]
pub struct Holder {
    /// The number of the worker.
    pub worker: usize,
    /// The number of the client at this worker.
    pub client: usize,
}

/// A body that is half read.
#[derive(Clone, Copy, PartialEq, Eq, Debug)]
pub struct Body {
    pub holder: Holder,
    /// The upload that it is for, where it has a name already.
    pub upload: Option<UploadName>,
    /// How many bytes of memory it holds.
    pub held: u64,
}

/// Where a body lies in the table. A place is given to one body only: once this has left, the place leads
/// to nothing for ever.
#[derive(Clone, Copy, PartialEq, Eq, Debug)]
pub struct BodyPlace {
    slot: usize,
    number: u64,
}

// What lies in a slot: the body, the number under which it was entered, and whether it was asked to be cut.
#[derive(Clone, Copy, Drop)]
struct Entry {
    number: u64,
    body: Body,
    asked: bool,
}

/// Bodies that are half read, found by their place and by the upload that they are for.
#[derive(Drop)]
pub struct Unfinished {
    slots: Slab<Entry>,
    chains: Chains,
    most: usize,
    // How many bodies were ever entered. The newest has this number.
    entered: u64,
    // The bytes that all bodies hold together.
    total: u128,
}

impl Model for Unfinished {
    ghost use Rattle.unfinished_bodies.specs.Table.{Table};

    ghost Value = { Table };

    ghost use Rattle.unfinished_bodies.specs.Chains.{IsKept};

    ghost view = { λ t. record { slots = t.slots.slots; most = t.most; entered = t.entered } };

    ghost invariant = { λ t. IsKept t.slots.slots t.slots.capacity t.most t.entered t.total t.chains.heads.items t.chains.older.items t.chains.newer.items };
}

// More buckets than this find nothing sooner.
const BUCKETS_MAX: usize = 1_048_576;

impl Unfinished {
    ghost use Rattle.unfinished_bodies.specs.Table.{Enters, HasRoom, HasNone, HasNoneOf, IsLargest, IsNewestOf, asked_in, body_at, body_count, empty_table, entry_at, held_by_all, held_to, without};

    /// An empty table with room for `most` bodies. All memory that it will ever need is taken here; an
    /// `AllocError` says that there was too little.
    pub fn new(alloc: Global, most: usize) -> Result<Self, AllocError>
        ensures { IfOk result (λ t. t ≡ empty_table most) }
    {
        let slots = Slab::with_capacity(alloc, most)?;
        let buckets = most.min(BUCKETS_MAX).max(1) + 1;
        let chains = Chains::new(alloc, buckets, slots.capacity())?;
        Ok(Unfinished {
            slots,
            chains,
            most,
            entered: 0,
            total: 0,
        })
    }

    /// How many bodies are in the table.
    pub fn len(&self) -> usize
        ensures { result ≡ body_count self.now }
    {
        self.slots.len()
    }

    /// Whether no body is in the table.
    pub fn is_empty(&self) -> bool
        ensures { IsTrue result ↔ (body_count self.now ≡ 0) }
    {
        self.slots.len() == 0
    }

    /// Enters a body, which is then the newest of its upload. `None` where `most` bodies are in the table
    /// (or 2^64 - 1 were entered since it was made), and then nothing changes.
    pub fn enter(&mut self, body: Body) -> Option<BodyPlace>
        ensures room { IsSome result ↔ HasRoom self.old }
        ensures entered { IfSome result (λ place. Enters self.old self.new place body) }
        ensures unchanged { IfNone result (self.new ≡ self.old) }
    {
        if self.slots.len() >= self.most || self.entered == u64::MAX {
            return None;
        }
        let number = self.entered + 1;
        let held = body.held;
        let bucket = bucket_of(&body.upload, self.chains.buckets());
        self.total += u128::from(held);
        let slot = self.slots.insert_reserved(Entry {
            number,
            body,
            asked: false,
        });
        self.chains.link(bucket, slot);
        self.entered = number;
        Some(BodyPlace { slot, number })
    }

    /// The body at a place holds so many bytes now. Nothing changes where it has left.
    pub fn hold(&mut self, place: BodyPlace, held: u64)
        ensures { self.new ≡ held_to self.old place.slot held (entry_at self.old.slots place) }
    {
        if let Some(entry) = find(&self.slots, place) {
            self.total = self.total - u128::from(entry.body.held) + u128::from(held);
            self.slots[place.slot].body.held = held;
        }
    }

    /// Takes out the body at a place, as it was entered and with what it held last. `None` where it has left.
    pub fn leave(&mut self, place: BodyPlace) -> Option<Body>
        ensures value { result ≡ body_at self.old.slots place }
        ensures after { self.new ≡ without self.old place.slot (entry_at self.old.slots place) }
    {
        let entry = find(&self.slots, place)?;
        let bucket = bucket_of(&entry.body.upload, self.chains.buckets());
        self.chains.unlink(bucket, place.slot);
        self.slots.remove(place.slot);
        self.total -= u128::from(entry.body.held);
        Some(entry.body)
    }

    /// The body at a place. `None` where it has left.
    pub fn body(&self, place: BodyPlace) -> Option<Body>
        ensures { result ≡ body_at self.now.slots place }
    {
        let entry = find(&self.slots, place)?;
        Some(entry.body)
    }

    /// The newest body for an upload, of those that are in the table, and its place. `None` where there is none.
    pub fn of_upload(&self, name: UploadName) -> Option<(BodyPlace, Body)>
        ensures newest { IfSome result (λ found. IsNewestOf self.now name found.0 found.1) }
        ensures none { IfNone result (HasNoneOf self.now name) }
    {
        let bucket = bucket_of(&Some(name), self.chains.buckets());
        let mut next = self.chains.heads[bucket];
        while let Some(slot) = next {
            let entry = &self.slots[slot];
            if is_for(entry, name) {
                let number = entry.number;
                return Some((BodyPlace { slot, number }, entry.body));
            }
            next = self.chains.older[slot];
        }
        None
    }

    /// A body than which none holds more bytes, and its place. `None` where the table is empty. It looks at
    /// every slot.
    pub fn largest(&self) -> Option<(BodyPlace, Body)>
        ensures largest { IfSome result (λ found. IsLargest self.now found.0 found.1) }
        ensures none { IfNone result (HasNone self.now) }
    {
        let largest = largest_slot(&self.slots, self.slots.capacity())?;
        let entry = &self.slots[largest.slot];
        let place = BodyPlace {
            slot: largest.slot,
            number: entry.number,
        };
        Some((place, entry.body))
    }

    /// How many bytes all bodies hold together.
    pub fn held(&self) -> u128
        ensures { result ≡ held_by_all self.now.slots }
    {
        self.total
    }

    /// Asks that the body at a place be cut. `true` the first time, `false` where it was asked before or
    /// has left.
    pub fn ask_to_cut(&mut self, place: BodyPlace) -> bool
        ensures first { IsTrue result ↔ IsSomeAnd (entry_at self.old.slots place) (λ e. e.asked ≡ false) }
        ensures after { self.new ≡ asked_in self.old place.slot (entry_at self.old.slots place) }
    {
        match find(&self.slots, place) {
            Some(entry) => {
                self.slots[place.slot].asked = true;
                !entry.asked
            }
            None => false,
        }
    }

    /// Whether the body at a place was asked to be cut. `false` where it has left.
    pub fn is_asked(&self, place: BodyPlace) -> bool
        ensures { IsTrue result ↔ IsSomeAnd (entry_at self.now.slots place) (λ e. e.asked ≡ true) }
    {
        match find(&self.slots, place) {
            Some(entry) => entry.asked,
            None => false,
        }
    }
}

// The entry at a place.
fn find(slots: &Slab<Entry>, place: BodyPlace) -> Option<Entry>
    ensures { result ≡ entry_at slots.now.slots place }
{
    let entry = *slots.get(place.slot)?;
    if entry.number == place.number {
        Some(entry)
    } else {
        None
    }
}

// Whether an entry's body is for this upload.
fn is_for(entry: &Entry, name: UploadName) -> bool
    ensures { IsTrue result ↔ (entry.now.body.upload ≡ Some name) }
{
    entry.body.upload == Some(name)
}

// A slot, and what the body in it holds.
#[derive(Clone, Copy)]
struct Filled {
    slot: usize,
    held: u64,
}

// The slot whose body holds most, of so many slots.
fn largest_slot(slots: &Slab<Entry>, end: usize) -> Option<Filled>
    ensures { IsLargestBelow slots.now.slots end result }
{
    let mut largest = None;
    for slot in 0..end {
        if let Some(entry) = slots.get(slot) {
            largest = larger(largest, slot, entry.body.held);
        }
    }
    largest
}

// The larger of two, where there may be no first; the first where they hold the same.
fn larger(first: Option<Filled>, slot: usize, held: u64) -> Option<Filled>
    ensures { result ≡ larger_of first slot held }
{
    match first {
        Some(filled) if held <= filled.held => Some(filled),
        _ => Some(Filled { slot, held }),
    }
}

// The bucket of a name, of so many buckets.
fn bucket_of(upload: &Option<UploadName>, buckets: usize) -> usize
    requires { 2 ≤ buckets }
    ensures value { result ≡ bucket_of_name buckets upload.now }
    ensures within { result < buckets }
{
    match upload {
        Some(name) => 1 + spread(*name, buckets - 1),
        None => 0,
    }
}

// Spreads names over so many buckets: uploads of one tenant that follow one another come to buckets that
// follow one another.
fn spread(name: UploadName, buckets: usize) -> usize
    requires { 1 ≤ buckets }
    ensures value { 1 + result ≡ bucket_of_name (buckets + 1) (Some name) }
    ensures within { result < buckets }
{
    let number = name.id.wrapping_add(u64::from(name.tenant) * 2_654_435_761);
    (number % buckets as u64) as usize
}

ghost use Rattle.std.specs.Prelude.{◌≡◌, ◌↔◌, List, Err, IfOk, IfSome, IsSome, IsTrue, map};
ghost use Rattle.std.specs.Fn.{FnOnceReturnsAt};
ghost use Rattle.book_replay.specs.Snapshot.{IsSnapshot};
ghost use Rattle.head_board.specs.Event.{Event};
ghost use Rattle.head_board.specs.Events.{HaveHappened, book_at};
ghost use Rattle.tus_shared.specs.Answers.{MakesAgain};
ghost use Rattle.tus_shared.specs.Desk.{new_desks, next_count};
ghost use Rattle.tus_shared.specs.Headline.{Headline};
ghost use Rattle.tus_shared.specs.Journal.{AreTaken, held_bytes};
ghost use Rattle.upload_book.specs.Book.{StoredBook};
ghost use Rattle.upload_book.specs.Settings.{is_outside};

use crate::again_fault::AgainFault;
use crate::charges::Charges;
use crate::desk::Desk;
use crate::open_fault::OpenFault;
use crate::queue::{Records, RecordsAndSnapshot};
use crate::store::Store;
use head_board::{Opened, SeenEvents};
use std::alloc::Global;
use std::sync::ledger::{Blank, Ledger};
use std::sync::{Mutex, Wait};
use upload_book::{Book, Change, Moment, Settings};

/// A store behind a lock, which all desks of its opening share.
#[derive(Drop)]
pub struct Shared<C: Charges, R: Ledger, M: Ledger, B: Wait + Drop> {
    pub(crate) store: Mutex<Store<C, R, M, B>>,
}

impl<C: Charges, R: Ledger, M: Ledger, B: Wait + Drop> Shared<C, R, M, B> {
    /// Puts a store behind a lock.
    pub fn new(store: Store<C, R, M, B>) -> Self {
        Shared {
            store: Mutex::new(store),
        }
    }

    /// A store with an empty book of these settings ([`Store::open`]), and so many desks, which are numbered from 0 and have
    /// made no step. `charged`, `released` and `made` are new ledgers of 16 parts each: a desk gets one of each, and
    /// those that no desk has stay behind the lock. `opened` is the log of what will happen, and `rt` is the handle by which
    /// the board waits for readers that still read an older copy. `journal` is the key under which changes are journalled, if
    /// they are: then each change is queued as the frame of its record, until it is taken out ([`Shared::take_records`]). All
    /// memory is taken here, but that of records.
    ///
    /// The error is `Desks` where there are none or more than 16 desks, and else `Memory`, where there was
    /// too little for the book, the board or the list of desks, or `Board`, where a reader of the board could not be made.
    pub fn open(
        rt: B,
        alloc: Global,
        settings: Settings,
        desks: usize,
        charged: Blank,
        released: Blank,
        made: Blank,
        opened: Opened,
        journal: Option<u64>,
    ) -> Result<(Self, Vec<Desk<C, R, M>>), OpenFault>
        requires settings { settings ≡ C.settings }
        requires desks { desks ≡ C.desks }
        requires charged { (charged.name ≡ C.name) × (charged.parts ≡ C.parts) × (C.parts ≡ 16) }
        requires released { (released.name ≡ R.name) × (released.parts ≡ R.parts) × (R.parts ≡ 16) }
        requires made { (made.name ≡ M.name) × (made.parts ≡ M.parts) × (M.parts ≡ 16) }
        requires log { opened.seen.book ≡ C.log }
        requires journal { journal ≡ C.journal }
        ensures desks { IfOk result (λ opened. opened.1.items ≡ new_desks C.journal desks) }
        ensures fault { (result ≡ Err OpenFault.Desks) ↔ IsTrue (is_outside desks 16) }
    {
        let (store, desks) = Store::open(
            rt, alloc, settings, desks, charged, released, made, opened, journal,
        )?;
        Ok((Shared::new(store), desks))
    }

    /// Takes the lock, lends the book to a function that looks at it, and gives what that returns. The headline holds of
    /// that book ([`Store::headline`]). It may wait for the desks.
    pub fn look<W: Wait, T, F: FnOnce(&Book) -> T>(&self, rt: &W, looks: F) -> T
        requires { F.IsAlwaysCallable looks }
        ensures { (events : List Event) × (book : StoredBook) × Headline C.settings C.journal events book
            × FnOnceReturnsAt F.FnOnce looks book result }
    {
        let store = self.store.lock(rt);
        looks(store.headline())
    }

    /// Takes the lock, and takes the frames of all records that wait out of the queue, where that begins behind these events
    /// ([`Store::take_records`]): those of the events after these, one each, in their order, up to some that are told beside
    /// them, behind which the queue begins again. `None` where changes are not journalled, or the queue begins elsewhere; then
    /// nothing changes. It may wait for the desks.
    pub fn take_records<W: Wait>(&self, rt: &W, from: &SeenEvents) -> Option<Records>
        requires log { from.now.book ≡ C.log }
        ensures log { IfSome result (λ taken. taken.reached.book ≡ C.log) }
        ensures taken { IfSome result (λ taken.
            AreTaken C.settings C.journal from.now.events taken.reached.events (map (λ frame. frame.items) taken.frames.items)) }
    {
        self.store.lock(rt).take_records(from)
    }

    /// Takes the lock, and takes the records that wait, as [`Shared::take_records`] does, with a snapshot of the book after
    /// them ([`Store::take_with_snapshot`]). Meanwhile no desk can take the lock: all bytes of all uploads are copied. `None`
    /// as there. It may wait for the desks.
    pub fn take_with_snapshot<W: Wait>(
        &self,
        rt: &W,
        alloc: Global,
        from: &SeenEvents,
    ) -> Option<RecordsAndSnapshot>
        requires log { from.now.book ≡ C.log }
        ensures log { IfSome result (λ taken. taken.records.reached.book ≡ C.log) }
        ensures taken { IfSome result (λ taken. AreTaken C.settings C.journal from.now.events taken.records.reached.events
            (map (λ frame. frame.items) taken.records.frames.items)) }
        ensures snapshot { IfSome result (λ taken. IfOk taken.snapshot (λ rooms.
            IsSnapshot 0 (book_at C.settings taken.records.reached.events) (map (λ room. room.items) rooms.items))) }
    {
        self.store.lock(rt).take_with_snapshot(alloc, from)
    }

    /// Takes the lock, and tells how many bytes the blocks have that are held ([`Store::held_bytes`]). It may wait for the
    /// desks.
    pub fn held_bytes<W: Wait>(&self, rt: &W) -> u64
        ensures { (events : List Event) × HaveHappened C.settings events × (result ≡ held_bytes (book_at C.settings events)) }
    {
        self.store.lock(rt).held_bytes()
    }

    /// Takes the lock, and makes a change at a desk again whose record stands in the journal already
    /// ([`Store::make_again`]), where changes are journalled. It may wait for the desks.
    pub fn make_again<W: Wait>(
        &self,
        rt: &W,
        desk: &mut Desk<C, R, M>,
        change: Change,
        now: Moment,
    ) -> Result<(), AgainFault>
        requires { IsSome C.journal }
        ensures again { MakesAgain C.settings change.entry now result desk.old desk.new }
        ensures counted { desk.new.steps ≡ next_count desk.old.steps }
    {
        self.store.lock(rt).make_again(desk, change, now)
    }
}

ghost use Rattle.std.specs.Prelude.{◌≡◌, ◌≤◌, None, IfOk, IfSome, IsSome, OnOk, length, map, option_map, vec_capacity};
ghost use mathlib.Core.List.{IsPrefix};
ghost use Rattle.book_replay.specs.Snapshot.{IsSnapshot};
ghost use Rattle.head_board.specs.Events.{HaveHappened, book_at};
ghost use Rattle.tus_steps.specs.Asked.{change_in as change_asked};
ghost use Rattle.tus_steps.specs.Changing.{IsFound};
ghost use Rattle.tus_steps.specs.declared.asked.Asked.TheVariants as asks;
ghost use Rattle.tus_steps.specs.PlacedReply.{reply_in};
ghost use Rattle.tus_steps.specs.Step.{IsContentReply};
ghost use Rattle.tus_shared.specs.Desk.{Moves, Spends, next_count, queueing};
ghost use Rattle.tus_shared.specs.Restoring.{RestoresNothing};
ghost use Rattle.tus_shared.specs.Headline.{Headline};
ghost use Rattle.tus_shared.specs.Journal.{AreTaken, change_frame, held_bytes, spare_of};
ghost use Rattle.tus_shared.specs.Steps.{AddsChange, IsDone, IsDoneAgain, IsStepAt, IsSweepAt};
ghost use Rattle.upload_book.specs.Change.{CanBeMade};
ghost use Rattle.upload_book.specs.Begun.{IsBegun};
ghost use Rattle.upload_book.specs.declared.change.Change.TheVariants as changes;
ghost use Rattle.upload_book.specs.declared.head_row.Name.{Name};
ghost use Rattle.upload_book.specs.Lawful.{IsLawful};

use crate::again_fault::AgainFault;
use crate::charges::Charges;
use crate::desk::Desk;
use crate::making::make_ready;
use crate::queue::{
    RecordQueue, Records, RecordsAndSnapshot, is_idle, pass_queue, queue_frame, take_queue,
};
use crate::store_ledger::StoreLedger;
use book_replay::{SnapshotFault, can_be_made, snapshot_records, tell_fits};
use head_board::{Board, SeenEvents};
use std::alloc::Global;
use std::marker::Model;
use std::sync::Wait;
use std::sync::ledger::Ledger;
use tus_steps::{Asked, PlacedReply, Request, answer_asked};
use upload_book::{Begun, Book, Change, Moment, Outcome, Refused, Swept};

/// What stands behind the lock: the book, the board that shows its heads, and the books of three ledgers, whose totals
/// are the book's charged and released blocks, and how many changes it accepted; and, where changes are journalled, the
/// records of those that were not taken out yet to be written. A contract sees all that happened to the book, as events in
/// their order; the plain book after them is the one for which the book stands.
#[derive(Drop)]
pub struct Store<C: Charges, R: Ledger, M: Ledger, B: Wait + Drop> {
    pub(crate) book: Book,
    pub(crate) board: Board<B>,
    pub(crate) charged: StoreLedger<C>,
    pub(crate) released: StoreLedger<R>,
    pub(crate) made: StoreLedger<M>,
    pub(crate) queue: Option<RecordQueue>,
}

impl<C: Charges, R: Ledger, M: Ledger, B: Wait + Drop> Model for Store<C, R, M, B> {
    ghost use Rattle.std.specs.Prelude.{List};
    ghost use Rattle.head_board.specs.Event.{Event};
    ghost use Rattle.tus_shared.specs.inside.QueueRule.{IsQueued};
    ghost use Rattle.tus_shared.specs.inside.StoreRule.{IsStore};
    ghost use Rattle.upload_book.specs.Book.{plain_of};

    ghost Value = { List Event };

    ghost view = { λ s. s.board.events };

    ghost invariant = { λ s. IsStore C.settings C.desks C.log (plain_of s.book) s.board s.charged s.released s.made
        × IsQueued C.settings C.journal C.log s.board.events s.queue };
}

impl<C: Charges, R: Ledger, M: Ledger, B: Wait + Drop> Store<C, R, M, B> {
    /// Lends the book, and says of it what is true whenever the lock is got: every block is free or counted by exactly its
    /// holders, every upload's bytes read through its blocks are those of the plain book, in which each final upload is
    /// the concatenation that it was created from and no tenant exceeds its quota. Where changes are journalled, a final upload
    /// may have been created in an earlier opening, and have come with the snapshot that the journal begins with.
    pub fn headline(&self) -> &Book
        ensures { Headline C.settings C.journal self.now result.now }
    {
        self.book.tell_blocks();
        &self.book
    }

    /// Answers a request at a desk and applies it to the book, as the plain book does at this moment
    /// ([`tus_steps::answer`]). What it asks for was found before the lock was taken ([`tus_steps::asked_of`], under the
    /// settings of the desk), and so was the room into which the bytes of a GET are copied: memory lacks for these only where
    /// it is too small. Their first ones may stand there already. A change that is accepted is the next event, made at this
    /// desk. The desk has seen all events after it, and its shares rise by what the request charges and releases, and by
    /// that event. The step is counted at the desk. The shares of other desks stay, since no other desk is lent. The reply
    /// is put to its place.
    ///
    /// Where changes are journalled, the frame of the record of the change that is asked for was made before the lock was
    /// taken. That of a change that is made is queued, and the room of the desk falls by its length. A change that the book would
    /// accept is refused as Memory where there is no frame, where the room is less than the frame and what the change has to
    /// spare, or where the queue has no place for the frame. Then nothing happens, and the refusal of a PATCH tells when its
    /// upload expires.
    pub fn step(
        &mut self,
        desk: &mut Desk<C, R, M>,
        request: &Request,
        asked: Asked,
        frame: Option<Vec<u8>>,
        begun: Begun,
        now: Moment,
        reply: &mut PlacedReply,
    )
        requires found { IsFound C.settings request.now asked }
        requires frame { IfSome frame (λ f. IfSome (change_asked asked) (λ found. f.items ≡ change_frame C.journal found.change now)) }
        requires begun { (name : Name) → asked ≡ asks.Content name → IsBegun (book_at C.settings desk.old.seen) name begun.first begun.bytes.items }
        ensures happened { HaveHappened C.settings self.old }
        ensures stays_happened { HaveHappened C.settings self.new }
        ensures lawful { IsLawful (book_at C.settings self.old) }
        ensures stays_lawful { IsLawful (book_at C.settings self.new) }
        ensures begins { IsPrefix desk.old.seen self.old }
        ensures step { IsStepAt (queueing desk.old (option_map (λ f. f.items) frame)) (book_at C.settings self.old) request.now now (reply_in reply.new) (book_at C.settings self.new) }
        ensures adds { AddsChange (queueing desk.old (option_map (λ f. f.items) frame)) C.settings self.old desk.old.number request.now now (reply_in reply.new) self.new }
        ensures moves { Moves C.settings self.old self.new desk.old desk.new }
        ensures spends { Spends self.old self.new desk.old desk.new }
        ensures seen { desk.new.seen ≡ self.new }
        ensures counted { desk.new.steps ≡ next_count desk.old.steps }
        ensures missed { desk.new.missed ≡ desk.old.missed }
        ensures room { (name : Name) → asked.entry ≡ asks.Content name
            → IsContentReply (book_at C.settings self.old) request.now now name (vec_capacity begun.bytes) (reply_in reply.new) }
    {
        self.begin(desk);
        match asked {
            Asked::Change(asked) => {
                let offset = asked.offset;
                let outcome = self.make(desk, asked.change, frame, now);
                reply.put_change(request, offset, outcome);
            }
            asked => answer_asked(self.headline(), request, asked, now, begun, reply),
        }
    }

    /// Ends all uploads that have expired at this moment, as the plain book's sweep does. That is the next event, made at
    /// this desk, also where none has expired. The desk has seen all events after it, and its shares rise by what that
    /// releases, and by that event. The step is counted at the desk.
    ///
    /// `None` only where changes are journalled, and its record is not queued, as in [`Store::step`]; then nothing happens.
    pub fn sweep(
        &mut self,
        desk: &mut Desk<C, R, M>,
        frame: Option<Vec<u8>>,
        now: Moment,
    ) -> Option<Swept>
        requires frame { IfSome frame (λ f. f.items ≡ change_frame C.journal changes.Sweep now) }
        ensures happened { HaveHappened C.settings self.old }
        ensures stays_happened { HaveHappened C.settings self.new }
        ensures lawful { IsLawful (book_at C.settings self.old) }
        ensures stays_lawful { IsLawful (book_at C.settings self.new) }
        ensures begins { IsPrefix desk.old.seen self.old }
        ensures sweep { IsSweepAt (queueing desk.old (option_map (λ f. f.items) frame)) C.settings self.old desk.old.number now result self.new }
        ensures moves { Moves C.settings self.old self.new desk.old desk.new }
        ensures spends { Spends self.old self.new desk.old desk.new }
        ensures seen { desk.new.seen ≡ self.new }
        ensures counted { desk.new.steps ≡ next_count desk.old.steps }
        ensures missed { desk.new.missed ≡ desk.old.missed }
    {
        self.begin(desk);
        match self.make(desk, Change::Sweep, frame, now) {
            Ok(Outcome::Swept(swept)) => Some(swept),
            Ok(_) => unreachable!("a sweep gives what it ended"),
            Err(_) => None,
        }
    }

    /// Makes a change at a desk whose record stands in the journal already, as when a journal is opened: it is the next
    /// event, made at this desk, and nothing is queued. The records that are queued from now on come after it. The desk has
    /// seen all events after it, its shares rise by what that charges and releases, and by that event, and its room stays.
    /// The step is counted at the desk. It is for a store whose changes are journalled.
    ///
    /// `Err` is Waiting where records wait in the queue, Change where a book may not be asked for the change, and Refused
    /// where the book refuses it or lacks memory; then nothing happens.
    pub fn make_again(
        &mut self,
        desk: &mut Desk<C, R, M>,
        change: Change,
        now: Moment,
    ) -> Result<(), AgainFault>
        requires journal { IsSome C.journal }
        ensures happened { HaveHappened C.settings self.old }
        ensures stays_happened { HaveHappened C.settings self.new }
        ensures lawful { IsLawful (book_at C.settings self.old) }
        ensures stays_lawful { IsLawful (book_at C.settings self.new) }
        ensures begins { IsPrefix desk.old.seen self.old }
        ensures again { IsDoneAgain C.settings self.old desk.old.number change.entry now result self.new }
        ensures moves { Moves C.settings self.old self.new desk.old desk.new }
        ensures room { desk.new.room ≡ desk.old.room }
        ensures seen { desk.new.seen ≡ self.new }
        ensures counted { desk.new.steps ≡ next_count desk.old.steps }
        ensures missed { desk.new.missed ≡ desk.old.missed }
    {
        self.begin(desk);
        self.make_kept(desk, change, now)
    }

    /// Takes the frames of all records that wait out of the queue, where that begins behind these events: those of the
    /// events after these, one each, in their order. Then nothing waits, and the queue begins behind all events, which are
    /// told beside the frames. `None` where changes are not journalled, or the queue begins elsewhere; then it stays.
    pub fn take_records(&mut self, from: &SeenEvents) -> Option<Records>
        requires log { from.now.book ≡ C.log }
        ensures same { self.new ≡ self.old }
        ensures reached { IfSome result (λ taken. taken.reached ≡ record { book = C.log; events = self.old }) }
        ensures taken { IfSome result (λ taken.
            AreTaken C.settings C.journal from.now.events self.old (map (λ frame. frame.items) taken.frames.items)) }
    {
        let reached = self.board.seen().again();
        take_queue(&mut self.queue, from, reached)
    }

    /// Takes the records that wait, as [`Store::take_records`] does, and with them a snapshot of the book: the records by which
    /// it is put back, whose bytes are copied ([`book_replay::snapshot_records`]). `None` as there.
    pub fn take_with_snapshot(
        &mut self,
        alloc: Global,
        from: &SeenEvents,
    ) -> Option<RecordsAndSnapshot>
        requires log { from.now.book ≡ C.log }
        ensures same { self.new ≡ self.old }
        ensures reached { IfSome result (λ taken. taken.records.reached ≡ record { book = C.log; events = self.old }) }
        ensures taken { IfSome result (λ taken.
            AreTaken C.settings C.journal from.now.events self.old (map (λ frame. frame.items) taken.records.frames.items)) }
        ensures snapshot { IfSome result (λ taken.
            IfOk taken.snapshot (λ rooms. IsSnapshot 0 (book_at C.settings self.old) (map (λ room. room.items) rooms.items))) }
    {
        let records = self.take_records(from)?;
        let snapshot = self.snapshot(alloc);
        Some(RecordsAndSnapshot { records, snapshot })
    }

    /// How many bytes the blocks have that are held, as far as a word tells.
    pub fn held_bytes(&self) -> u64
        ensures value { result ≡ held_bytes (book_at C.settings self.now) }
        ensures happened { HaveHappened C.settings self.now }
    {
        let numbers = self.book.settings().numbers();
        let held = numbers.blocks - self.book.free_blocks();
        held.saturating_mul(numbers.block_size)
    }

    // The records of the pieces of the book's snapshot, each behind room for the header of its frame. A piece has no moment of
    // its own, so each has the first that there is.
    fn snapshot(&self, alloc: Global) -> Result<Vec<Vec<u8>>, SnapshotFault>
        ensures { IfOk result (λ rooms. IsSnapshot 0 (book_at C.settings self.now) (map (λ room. room.items) rooms.items)) }
    {
        let Some(first) = Moment::new(0) else {
            unreachable!("there is a first moment")
        };
        snapshot_records(alloc, &self.book, first)
    }

    // Begins a step of a desk, which is counted there: the desk has seen all events then.
    fn begin(&self, desk: &mut Desk<C, R, M>)
        ensures begins { IsPrefix desk.old.seen self.now }
        ensures desk { desk.new ≡ record desk.old { seen = self.now; steps = next_count desk.old.steps } }
    {
        self.board.show_to(&mut desk.reader);
        desk.steps = desk.steps.wrapping_add(1);
    }

    // Makes a change at a desk that has seen all events: it is prepared, the frame of its record is queued where changes
    // are journalled, and then the change, which can no longer fail, is shown and committed. So nothing is queued or shown
    // of a change that is not made.
    fn make(
        &mut self,
        desk: &mut Desk<C, R, M>,
        change: Change,
        frame: Option<Vec<u8>>,
        now: Moment,
    ) -> Result<Outcome, Refused>
        requires change { CanBeMade (length C.settings.tenants) change }
        requires plain { RestoresNothing change }
        requires frame { IfSome frame (λ f. f.items ≡ change_frame C.journal change now) }
        requires seen { desk.old.seen ≡ self.old }
        ensures happened { HaveHappened C.settings self.old }
        ensures stays_happened { HaveHappened C.settings self.new }
        ensures lawful { IsLawful (book_at C.settings self.old) }
        ensures stays_lawful { IsLawful (book_at C.settings self.new) }
        ensures done { IsDone (queueing desk.old (option_map (λ f. f.items) frame)) (book_at C.settings self.old) self.old desk.old.number change.entry now result self.new }
        ensures moves { Moves C.settings self.old self.new desk.old desk.new }
        ensures spends { Spends self.old self.new desk.old desk.new }
        ensures spares { OnOk result (IsSome desk.old.journal → spare_of change.entry ≤ desk.new.room) }
        ensures seen { desk.new.seen ≡ self.new }
        ensures steps { desk.new.steps ≡ desk.old.steps }
        ensures missed { desk.new.missed ≡ desk.old.missed }
    {
        // the contract of this call tells that the book is lawful
        let _lawful = self.book.settings();
        // and these two that the change can be made again of its record
        let _in_range = now.secs();
        tell_fits(self.book.settings().tenant_count(), &change);
        let spare = spare_for(&change);
        let ready = match self.book.prepare(change, now) {
            Ok(ready) => ready,
            Err(refused) => return Err(refused),
        };
        if queue_frame(&mut self.queue, &mut desk.room, frame, spare).is_err() {
            return Err(ready.refused_for_memory(&self.book));
        }
        Ok(make_ready(
            &mut self.book,
            &mut self.board,
            &mut self.charged,
            &mut self.released,
            &mut self.made,
            desk,
            ready,
        ))
    }

    // Makes a change whose record stands in the journal, at a desk that has seen all events.
    fn make_kept(
        &mut self,
        desk: &mut Desk<C, R, M>,
        change: Change,
        now: Moment,
    ) -> Result<(), AgainFault>
        requires journal { IsSome C.journal }
        requires seen { desk.old.seen ≡ self.old }
        ensures happened { HaveHappened C.settings self.old }
        ensures stays_happened { HaveHappened C.settings self.new }
        ensures lawful { IsLawful (book_at C.settings self.old) }
        ensures stays_lawful { IsLawful (book_at C.settings self.new) }
        ensures again { IsDoneAgain C.settings self.old desk.old.number change.entry now result self.new }
        ensures moves { Moves C.settings self.old self.new desk.old desk.new }
        ensures room { desk.new.room ≡ desk.old.room }
        ensures seen { desk.new.seen ≡ self.new }
        ensures steps { desk.new.steps ≡ desk.old.steps }
        ensures missed { desk.new.missed ≡ desk.old.missed }
    {
        if !can_be_made(self.book.settings().tenant_count(), &change) {
            return Err(AgainFault::Change);
        }
        if !is_idle(&self.queue) {
            return Err(AgainFault::Waiting);
        }
        let ready = match self.book.prepare(change, now) {
            Ok(ready) => ready,
            Err(refused) => return Err(AgainFault::Refused(refused)),
        };
        make_ready(
            &mut self.book,
            &mut self.board,
            &mut self.charged,
            &mut self.released,
            &mut self.made,
            desk,
            ready,
        );
        pass_queue(&mut self.queue, self.board.seen().again());
        Ok(())
    }
}

// How many bytes of a desk's room stay where a change is journalled: none is kept back from what ends uploads, so that they
// can still be ended when there is little room.
fn spare_for(change: &Change) -> u64
    ensures { result ≡ spare_of change.now }
{
    match change {
        Change::Terminate(_) | Change::Sweep => 0,
        Change::Create { .. }
        | Change::Append { .. }
        | Change::Concat { .. }
        | Change::Restore(_) => SPARE,
    }
}

// What a change that ends nothing leaves of a desk's room, in bytes.
const SPARE: u64 = 65_536;

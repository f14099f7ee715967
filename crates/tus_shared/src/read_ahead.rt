//! The bytes of a GET are copied in ranges, and the lock is got anew for each: so nobody waits for all of them.
ghost use Rattle.std.specs.Prelude.{◌≡◌, ◌≤◌, ◌-◌, [], min, vec_capacity, vec_len};
ghost use mathlib.Core.List.{IsPrefix};
ghost use Rattle.head_board.specs.Events.{book_at};
ghost use Rattle.tus_shared.specs.Answers.{OnlyLooks, OnlySeesMore};
ghost use Rattle.tus_shared.specs.Range.{range};
ghost use Rattle.tus_steps.specs.declared.asked.Asked.TheVariants as asks;
ghost use Rattle.upload_book.specs.Begun.{IsBegun, with_more};
ghost use Rattle.upload_book.specs.Content.{content_answer};
ghost use Rattle.upload_book.specs.declared.head_row.Name.{Name};
ghost use Rattle.upload_book.specs.PlainBook.{answer_of};

use crate::charges::Charges;
use crate::desk::Desk;
use crate::shared::Shared;
use crate::store::Store;
use std::sync::Wait;
use std::sync::ledger::Ledger;
use tus_steps::Asked;
use upload_book::{Begun, Moment, Name};

// How many bytes of a GET are copied at most with the lock held.
const RANGE: usize = 262_144;

impl<C: Charges, R: Ledger, M: Ledger> Desk<C, R, M> {
    /// Copies the bytes that a GET asks for into memory that was reserved for all of them, range by range. The rest,
    /// less than a range, is left to the step itself, as all is where no memory was reserved. For any other request nothing is
    /// copied. It may wait for other desks.
    pub(crate) fn read_ahead<W: Wait, B: Wait + Drop>(
        &mut self,
        rt: &W,
        shared: &Shared<C, R, M, B>,
        asked: &Asked,
        now: Moment,
        room: Begun,
    ) -> Begun
        requires empty { room.bytes.items ≡ [] }
        ensures begun { (name : Name) → asked.now ≡ asks.Content name → IsBegun (book_at C.settings self.new.seen) name result.first result.bytes.items }
        ensures desk { OnlyLooks self.old self.new }
        ensures room { vec_capacity room.bytes ≤ vec_capacity result.bytes }
    {
        let mut begun = room;
        if let Asked::Content(name) = asked {
            for _ in 0..begun.bytes.capacity() / RANGE {
                shared
                    .store
                    .lock(rt)
                    .read_ahead(self, name, now, &mut begun);
            }
        }
        begun
    }
}

impl<C: Charges, R: Ledger, M: Ledger, B: Wait + Drop> Store<C, R, M, B> {
    /// Copies the next bytes of an upload behind those that `begun` has: 256 KiB, or as many as there are or as there
    /// is room for ([`upload_book::Book::read_ahead`]). Where a GET at `now` is refused, it copies none. The desk has seen all
    /// events after it, and makes no step.
    pub fn read_ahead(&self, desk: &mut Desk<C, R, M>, name: &Name, now: Moment, begun: &mut Begun)
        requires begun { IsBegun (book_at C.settings desk.old.seen) name.now begun.old.first begun.old.bytes.items }
        ensures stays { IsBegun (book_at C.settings desk.new.seen) name.now begun.new.first begun.new.bytes.items }
        ensures more { begun.new.bytes.items ≡ with_more (answer_of (book_at C.settings self.now) name.now.tenant (content_answer name.now.id now))
            begun.old.first (min range (vec_capacity begun.old.bytes - vec_len begun.old.bytes)) begun.old.bytes.items }
        ensures first { begun.new.first ≡ begun.old.first }
        ensures begins { IsPrefix desk.old.seen desk.new.seen }
        ensures seen { desk.new.seen ≡ self.now }
        ensures desk { OnlySeesMore desk.old desk.new }
        ensures room { vec_capacity begun.old.bytes ≤ vec_capacity begun.new.bytes }
    {
        self.board.show_to(&mut desk.reader);
        self.book.read_ahead(name, now, begun, RANGE);
    }
}

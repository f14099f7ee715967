ghost use Rattle.std.specs.Prelude.{◌≡◌, ◌+◌, All, List, length, vec_len};
ghost use Rattle.std.specs.List.{sum_by};
ghost use mathlib.Core.List.{IsPrefix};
ghost use Rattle.head_board.specs.Event.{Event};
ghost use Rattle.tus_shared.specs.Desk as spec;
ghost use Rattle.tus_shared.specs.Store.{IsBookAt};
ghost use Rattle.upload_book.specs.Book.{plain_of};
ghost use Rattle.upload_book.specs.Charge.{charge_in};
ghost use Rattle.upload_book.specs.Lawful.{IsLawful};

use crate::charges::Charges;
use crate::desk::Desk;
use crate::shared::Shared;
use crate::store::Store;
use head_board::Board;
use std::sync::Wait;
use std::sync::ledger::{Ledger, Share};
use upload_book::Book;

/// What all desks of an opening counted together, in blocks.
#[derive(Clone, Copy, Debug, PartialEq, Eq)]
pub struct Balance {
    /// How many were charged.
    pub charged: u64,
    /// How many of them were released.
    pub released: u64,
    /// How many the tenants pay still: those charged and not released.
    pub held: u64,
}

/// Ends an opening: takes the book out of the lock, and adds the shares of all of its desks. The sums are
/// the totals of the book, and what is held is what its tenants pay. The book is the one after all that happened to it,
/// which begins with what each desk has seen: as many events as the desks made changes. It may wait for readers, of which
/// none is left.
pub fn settle<C: Charges, R: Ledger, M: Ledger, B: Wait + Drop>(
    shared: Shared<C, R, M, B>,
    desks: Vec<Desk<C, R, M>>,
) -> (Book, Balance)
    requires all { vec_len desks ≡ C.desks }
    requires charged_parts { C.parts ≡ 16 }
    requires released_parts { R.parts ≡ 16 }
    requires made_parts { M.parts ≡ 16 }
    ensures settings { (plain_of result.0).settings ≡ C.settings }
    ensures lawful { IsLawful (plain_of result.0) }
    ensures charged_sum { result.1.charged ≡ sum_by (λ (d : spec.Desk). d.charged) desks.items }
    ensures released_sum { result.1.released ≡ sum_by (λ (d : spec.Desk). d.released) desks.items }
    ensures charged { result.1.charged ≡ (plain_of result.0).charged }
    ensures released { result.1.released ≡ (plain_of result.0).released }
    ensures happened { (events : List Event)
        × IsBookAt C.settings events (plain_of result.0)
        × All (λ (d : spec.Desk). IsPrefix d.seen events) desks.items
        × (length events ≡ sum_by (λ (d : spec.Desk). d.made) desks.items) }
    ensures held { result.1.held ≡ sum_by (charge_in C.settings.numbers) (plain_of result.0).tenants }
{
    let Shared { store } = shared;
    let Store {
        book,
        board,
        mut charged,
        mut released,
        mut made,
        queue: _,
    } = store.into_inner();
    gather(
        &board,
        &mut charged.rest,
        &mut released.rest,
        &mut made.rest,
        desks,
    );
    charged.book.audit(&mut charged.rest);
    released.book.audit(&mut released.rest);
    made.book.audit(&mut made.rest);
    let balance = Balance {
        charged: book.charged_total(),
        released: book.released_total(),
        held: book.charged_total() - book.released_total(),
    };
    (book, balance)
}

// Takes the shares of these desks in, each of which has seen events of the board.
fn gather<C: Charges, R: Ledger, M: Ledger, B: Wait + Drop>(
    board: &Board<B>,
    charged: &mut Share<C>,
    released: &mut Share<R>,
    made: &mut Share<M>,
    desks: Vec<Desk<C, R, M>>,
)
    requires log { board.now.log ≡ C.log }
    ensures seen { All (λ (d : spec.Desk). IsPrefix d.seen board.now.events) desks.items }
    ensures charged_parts { charged.new.parts ≡ charged.old.parts + vec_len desks }
    ensures released_parts { released.new.parts ≡ released.old.parts + vec_len desks }
    ensures made_parts { made.new.parts ≡ made.old.parts + vec_len desks }
    ensures charged { charged.new.amount ≡ charged.old.amount + sum_by (λ (d : spec.Desk). d.charged) desks.items }
    ensures released { released.new.amount ≡ released.old.amount + sum_by (λ (d : spec.Desk). d.released) desks.items }
    ensures made { made.new.amount ≡ made.old.amount + sum_by (λ (d : spec.Desk). d.made) desks.items }
{
    for desk in desks {
        let Desk {
            alloc: _,
            settings: _,
            number: _,
            journal: _,
            charged: its_charged,
            released: its_released,
            made: its_made,
            mut reader,
            kept: _,
            room: _,
            steps: _,
        } = desk;
        board.show_to(&mut reader);
        charged.merge(its_charged);
        released.merge(its_released);
        made.merge(its_made);
    }
}

//! How a change is made for which the book is ready.
ghost use Rattle.std.specs.Prelude.{◌≡◌, ◌++◌, ◌∷◌, [], Ok, length};
ghost use Rattle.head_board.specs.Events.{IsLineOf, book_at, event_of};
ghost use Rattle.tus_shared.specs.Desk.{Moves};
ghost use Rattle.tus_shared.specs.Steps.{IsNextEvent};
ghost use Rattle.tus_shared.specs.inside.StoreRule.{IsStore};
ghost use Rattle.upload_book.specs.Book.{plain_of};
ghost use Rattle.upload_book.specs.Change.{CanBeMade, change_answer};
ghost use Rattle.upload_book.specs.declared.board_line.BoardLine.{BoardLine};
ghost use Rattle.upload_book.specs.Lawful.{IsLawful};
ghost use Rattle.upload_book.specs.Ready.{IsReady, change_in, moment_in};

use crate::charges::Charges;
use crate::desk::Desk;
use crate::store_ledger::StoreLedger;
use head_board::{Board, Coming};
use std::sync::Wait;
use std::sync::ledger::Ledger;
use upload_book::{Book, Outcome, Ready};

// Makes a change that the book may be asked for and is ready for, at a desk that has seen all events: its note is shown, and then the change,
// which can no longer fail, is committed. So nothing is shown of a change that is not made.
pub(crate) fn make_ready<C: Charges, R: Ledger, M: Ledger, B: Wait + Drop>(
    book: &mut Book,
    board: &mut Board<B>,
    charged: &mut StoreLedger<C>,
    released: &mut StoreLedger<R>,
    made: &mut StoreLedger<M>,
    desk: &mut Desk<C, R, M>,
    ready: Ready,
) -> Outcome
    requires ready { IsReady book.old ready }
    requires asked { CanBeMade (length C.settings.tenants) (change_in ready) }
    requires store { IsStore C.settings C.desks C.log (plain_of book.old) board.old charged.old released.old made.old }
    ensures answer { change_answer (plain_of book.old) (change_in ready.entry) (moment_in ready.entry) ≡ Ok result }
    ensures store { IsStore C.settings C.desks C.log (plain_of book.new) board.new charged.new released.new made.new }
    ensures next { IsNextEvent board.old.events desk.old.number (change_in ready.entry) (moment_in ready.entry) board.new.events }
    ensures lawful { IsLawful (book_at C.settings board.new.events) }
    ensures moves { Moves C.settings board.old.events board.new.events desk.old desk.new }
    ensures room { desk.new.room ≡ desk.old.room }
    ensures seen { desk.new.seen ≡ board.new.events }
    ensures steps { desk.new.steps ≡ desk.old.steps }
    ensures missed { desk.new.missed ≡ desk.old.missed }
{
    show_note(
        board,
        book,
        &Coming {
            desk: desk.number,
            ready: &ready,
        },
    );
    let had_charged = book.charged_total();
    let had_released = book.released_total();
    let outcome = book.commit(ready);
    let cost = book.charged_total() - had_charged;
    let given_back = book.released_total() - had_released;
    charged.book.add(&mut desk.charged, cost);
    released.book.add(&mut desk.released, given_back);
    made.book.add(&mut desk.made, 1);
    board.show_to(&mut desk.reader);
    outcome
}

// Shows the note of a change for which the book is ready, on the board of the book.
fn show_note<B: Wait + Drop>(board: &mut Board<B>, book: &Book, coming: &Coming)
    requires ready { IsReady book.now coming.now.ready.now }
    requires asked { CanBeMade (length board.old.settings.tenants) (event_of coming.now).change }
    requires book { plain_of book.now ≡ book_at board.old.settings board.old.events }
    ensures line { (line : BoardLine) × IsLineOf (plain_of book.now) (event_of coming.now) line }
    ensures shown { board.new ≡ record board.old { events = board.old.events ++ event_of coming.now ∷ [] } }
{
    let note = coming.ready.note(book);
    board.show(coming, &note)
}

ghost use Rattle.std.specs.Prelude.{ℕ, Option, None};
ghost use Rattle.logbook.specs.Pages.{Book};
ghost use Rattle.head_board.specs.NoBoard.{no_log, no_settings};
ghost use Rattle.upload_book.specs.Settings as spec;

use std::marker::Brand;
use std::sync::ledger::Ledger;

/// The ledger of the blocks that are charged. Its type also stands for what one opening fixes, so that
/// a desk can only be used with the store that it was opened with.
pub trait Charges: Ledger {
    // The settings of the book.
    ghost settings: { spec.Settings };

    // How many desks there are.
    ghost desks: { ℕ };

    // The log of what happens to the book.
    ghost log: { Book };

    // The key under which changes are journalled; none without a journal.
    ghost journal: { Option ℕ };
}

impl Charges for Brand {
    ghost settings = { no_settings };

    ghost desks = { 0 };

    ghost log = { no_log };

    ghost journal = { None };
}

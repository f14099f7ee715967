ghost use Rattle.std.specs.Prelude.{◌≡◌, ◌+◌, ◌<◌};

use std::marker::Model;
use std::sync::ledger::{Blank, Book, Ledger, Share};

// What the store keeps of one ledger: its book, and the share of the parts that no desk has. A contract sees the total of
// that book, and the parts and the amount of that share.
#[derive(Drop)]
pub struct StoreLedger<L: Ledger> {
    pub book: Book<L>,
    pub rest: Share<L>,
}

impl<L: Ledger> Model for StoreLedger<L> {
    ghost use Rattle.tus_shared.specs.inside.StoreRule.{LedgerView};

    ghost Value = { LedgerView };

    ghost view = { λ l. record { total = l.book.total; parts = l.rest.parts; rest = l.rest.amount } };
}

impl<L: Ledger> StoreLedger<L> {
    // The store's side of a new ledger, of which no desk has a part.
    pub fn open(blank: Blank) -> Self
        requires name { blank.name ≡ L.name }
        requires parts { blank.parts ≡ L.parts }
        ensures total { result.total ≡ 0 }
        ensures parts { result.parts ≡ L.parts }
        ensures amount { result.rest ≡ 0 }
    {
        let (book, rest) = blank.open::<L>();
        StoreLedger { book, rest }
    }

    // One part for a desk, which counts nothing.
    pub fn part(&mut self) -> Share<L>
        requires parts { 0 < self.old.parts }
        requires amount { self.old.rest ≡ 0 }
        ensures parts { result.parts ≡ 1 }
        ensures amount { result.amount ≡ 0 }
        ensures left { self.new.parts + 1 ≡ self.old.parts }
        ensures none_left { self.new.rest ≡ 0 }
        ensures total { self.new.total ≡ self.old.total }
    {
        self.rest.split_off(1, 0)
    }
}

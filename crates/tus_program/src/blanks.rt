//! What the ledgers of a new store are made of.
ghost use Rattle.std.specs.Prelude.{◌≡◌};

use std::sync::ledger::Blank;
use tus_shared::Opened;

/// The ledgers of a store that is still to be opened, and the events of its book, of which there is none.
#[derive(Drop)]
pub struct Blanks {
    /// Of the blocks that are charged.
    pub charged: Blank,
    /// Of the blocks that are released.
    pub released: Blank,
    /// Of the events that desks make.
    pub made: Blank,
    pub events: Opened,
}

impl Blanks {
    /// Ledgers of 16 parts each, one for each desk that there may be.
    pub fn new() -> Blanks
        ensures charged { result.charged.parts ≡ 16 }
        ensures released { result.released.parts ≡ 16 }
        ensures made { result.made.parts ≡ 16 }
    {
        Blanks {
            charged: Blank::new(16),
            released: Blank::new(16),
            made: Blank::new(16),
            events: Opened::new(),
        }
    }
}

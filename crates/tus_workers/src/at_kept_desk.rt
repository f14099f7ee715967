ghost use Rattle.std.specs.Prelude.{◌≡◌, IsTrue, is_some};
ghost use mathlib.Core.List.{IsPrefix};
ghost use Rattle.tus_workers.specs.Serving.{ServesKept, SweepsKept};

use crate::at_desk::AtDesk;
use crate::keeping::{Compacting, Keeping};
use connection_turns::Durability;
use http_wire::Answer;
use std::sync::Wait;
use std::sync::ledger::Ledger;
use std::time;
use tus_shared::{Charges, Desk, Gate};
use tus_steps::{Method, PlacedReply, Request};
use upload_book::Moment;

/// How many bytes the record of a change has at most, besides the body of its request: its texts are of a head of at most
/// 16,384 bytes.
const RECORD_BYTES: u64 = 32_768;

/// A desk of a store that may outlive its process, as what answers the requests of connections. Where changes are journalled
/// it holds back its replies, and before a request, or a sweep, there is made room for the record of what that may change.
#[derive(Drop)]
pub struct AtKeptDesk<
    'a,
    C: Charges,
    R: Ledger,
    M: Ledger,
    W: Wait,
    B: Wait + Drop,
    G: Gate,
    K: Keeping<C, R, M, B>,
> {
    at: AtDesk<'a, C, R, M, W, B, G>,
    keeping: &'a K,
}

impl<
    'a,
    C: Charges,
    R: Ledger,
    M: Ledger,
    W: Wait,
    B: Wait + Drop,
    G: Gate,
    K: Keeping<C, R, M, B>,
> AtKeptDesk<'a, C, R, M, W, B, G, K> {
    /// The desk, with what keeps what happens there.
    pub fn new(at: AtDesk<'a, C, R, M, W, B, G>, keeping: &'a K) -> Self
        ensures { result.at.desk ≡ at.entry.desk }
    {
        AtKeptDesk { at, keeping }
    }

    /// Ends the uploads that have expired at this moment, unless it was asked for that before. Room for the record of that is
    /// made first.
    pub fn sweep_once(&mut self, now: Moment)
        ensures { SweepsKept C.settings now self.old.at.desk self.new.at.desk }
    {
        self.at.sweep_kept(self.keeping, now);
    }

    // Sees to it that there is room for the records of what a request may do at this moment: what it changes, and the sweep
    // before it. A HEAD does neither, and asks for none.
    fn make_room_for(&mut self, request: &Request, now: Moment)
        ensures { self.new.at.desk ≡ record self.old.at.desk { room = self.new.at.desk.room } }
    {
        match request.method {
            Method::Post | Method::Patch | Method::Delete => {
                let bytes = (request.body.len() as u64).saturating_add(RECORD_BYTES);
                self.keeping.make_room(self.at.rt, &mut self.at.desk, bytes);
            }
            Method::Get | Method::Options | Method::Other => {
                self.at.make_sweep_room(self.keeping, now);
            }
            Method::Head => {}
        }
    }

    // The desk, without what keeps what happens there.
    pub(crate) fn into_desk(self) -> AtDesk<'a, C, R, M, W, B, G>
        ensures { result.desk ≡ self.entry.at.desk }
    {
        let AtKeptDesk { at, keeping: _ } = self;
        at
    }

    /// The desk, lent.
    pub fn desk(&self) -> &Desk<C, R, M>
        ensures { result.now ≡ self.now.at.desk }
    {
        &self.at.desk
    }
}

impl<
    'a,
    C: Charges,
    R: Ledger,
    M: Ledger,
    W: Wait + time::Clock,
    B: Wait + Drop,
    G: Gate,
    K: Keeping<C, R, M, B>,
> AtKeptDesk<'a, C, R, M, W, B, G, K> {
    /// Keeps all that the desk has seen. Says whether that is kept.
    pub fn keep(&mut self) -> bool
        ensures kept { IsTrue result → IsPrefix self.new.at.desk.seen self.new.at.desk.kept }
        ensures alone { self.new.at.desk ≡ record self.old.at.desk { kept = self.new.at.desk.kept } }
    {
        self.keeping
            .keep(self.at.rt, self.at.shared, &mut self.at.desk)
    }

    /// Makes what is kept smaller, where it has become large; once a second.
    pub fn compact(&self) -> Compacting {
        self.keeping.compact(self.at.rt, self.at.shared)
    }

    /// The same, after something more was kept.
    pub fn compact_synced(&self) -> Compacting {
        self.keeping.compact_synced(self.at.rt, self.at.shared)
    }
}

impl<
    'a,
    C: Charges,
    R: Ledger,
    M: Ledger,
    W: Wait,
    B: Wait + Drop,
    G: Gate,
    K: Keeping<C, R, M, B>,
> Answer for AtKeptDesk<'a, C, R, M, W, B, G, K> {
    ghost max_size = { λ _. C.settings.numbers.max_size };

    ghost steps = { λ old request now reply new. ServesKept C.settings request now reply old.at.desk new.at.desk };

    fn max_size(&self) -> u64 {
        self.at.max_size()
    }

    fn answer(&mut self, request: &Request, now: Moment, reply: &mut PlacedReply) {
        self.make_room_for(request, now);
        self.at.answer(request, now, reply);
    }
}

impl<
    'a,
    C: Charges,
    R: Ledger,
    M: Ledger,
    W: Wait,
    B: Wait + Drop,
    G: Gate,
    K: Keeping<C, R, M, B>,
> Durability for AtKeptDesk<'a, C, R, M, W, B, G, K> {
    ghost holds_back = { λ at. is_some at.at.desk.journal };

    fn holds_back(&self) -> bool {
        self.at.desk.journal().is_some()
    }
}

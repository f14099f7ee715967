ghost use Rattle.std.specs.Prelude.{◌≡◌};
ghost use Rattle.tus_workers.specs.Serving.{ServesTurn, SweepsKept};

use crate::keeping::Keeping;
use crate::sweeping::Sweeping;
use http_wire::Answer;
use std::sync::Wait;
use std::sync::ledger::Ledger;
use tus_shared::{Charges, Desk, Gate, Shared};
use tus_steps::{PlacedReply, Request};
use upload_book::Moment;

/// A desk, as what answers the requests of one connection. Uploads that have expired are ended before a request is answered
/// that is no HEAD: at most once in each second, and where the heads tell that there may be some. So they don't keep
/// their quota while connections last, and no HEAD waits for that. It may wait for the other desks of its store.
#[derive(Drop)]
pub struct AtDesk<'a, C: Charges, R: Ledger, M: Ledger, W: Wait, B: Wait + Drop, G: Gate> {
    pub(crate) rt: &'a W,
    pub(crate) desk: Desk<C, R, M>,
    pub(crate) shared: &'a Shared<C, R, M, B>,
    gate: &'a G,
    // How many requests were answered.
    turn: usize,
    // When it asked whether uploads have expired.
    pub(crate) sweeping: Sweeping,
}

impl<'a, C: Charges, R: Ledger, M: Ledger, W: Wait, B: Wait + Drop, G: Gate> AtDesk<
    'a,
    C,
    R,
    M,
    W,
    B,
    G,
> {
    /// The desk, which has answered nothing on this connection.
    pub fn new(rt: &'a W, desk: Desk<C, R, M>, shared: &'a Shared<C, R, M, B>, gate: &'a G) -> Self
        ensures { result.desk ≡ desk }
    {
        AtDesk {
            rt,
            desk,
            shared,
            gate,
            turn: 0,
            sweeping: Sweeping::new(),
        }
    }

    /// Ends the uploads that have expired, as [`Sweeping::sweep_kept`] does.
    pub(crate) fn sweep_kept<K: Keeping<C, R, M, B>>(&mut self, keeping: &K, now: Moment)
        ensures { SweepsKept C.settings now self.old.desk self.new.desk }
    {
        self.sweeping
            .sweep_kept(self.rt, &mut self.desk, self.shared, keeping, now);
    }

    /// Sees to it that there is room for the record of that, as [`Sweeping::make_room`] does.
    pub(crate) fn make_sweep_room<K: Keeping<C, R, M, B>>(&mut self, keeping: &K, now: Moment)
        ensures { self.new.desk ≡ record self.old.desk { room = self.new.desk.room } }
    {
        let sweeping = self.sweeping;
        sweeping.make_room(self.rt, &mut self.desk, keeping, now);
    }

    /// The desk, for the next connection.
    pub fn into_desk(self) -> Desk<C, R, M>
        ensures { result ≡ self.entry.desk }
    {
        self.desk
    }
}

impl<'a, C: Charges, R: Ledger, M: Ledger, W: Wait, B: Wait + Drop, G: Gate> Answer
    for AtDesk<'a, C, R, M, W, B, G> {
    ghost max_size = { λ _. C.settings.numbers.max_size };

    ghost steps = { λ old request now reply new. ServesTurn C.settings request now reply old.desk new.desk };

    fn max_size(&self) -> u64 {
        self.desk.settings().numbers().max_size
    }

    fn answer(&mut self, request: &Request, now: Moment, reply: &mut PlacedReply) {
        if !request.method.is_head() {
            self.sweeping
                .sweep_once(self.rt, &mut self.desk, self.shared, now);
        }
        let turn = self.turn;
        self.turn = turn.saturating_add(1);
        self.desk
            .answer_in_place(self.rt, self.shared, request, now, turn, self.gate, reply);
    }
}

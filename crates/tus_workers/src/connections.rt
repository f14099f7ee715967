//! Whose turn it is among the clients of one worker.
ghost use Rattle.std.specs.Prelude.{◌≡◌, None, Some, IfOk, IsSome};
ghost use mathlib.Core.List.{IsPrefix};
ghost use Rattle.turn_lists.specs.Lists.{empty_lists, list_of, without};
ghost use Rattle.turn_lists.specs.Rounds.{HadRound};
ghost use Rattle.tus_workers.specs.Turns.{HadRoundOfOthers, HaveLeft, after_next};

use crate::client::Next;
use crate::clients::Clients;
use connection_turns::Durability;
use http_wire::Clock;
use service_watch::Cut;
use std::alloc::{AllocError, Global};
use std::sync::Wait;
use std::sync::ledger::Ledger;
use std::time;
use turn_lists::{TurnList, TurnLists};
use tus_shared::{Charges, Desk};

/// The clients of one worker, and on which lists they stand whose next turn needs no event. What changes no list is called at
/// the clients themselves.
#[derive(Drop)]
pub(crate) struct Connections<'a, 'n, W: Wait> {
    pub clients: Clients<'a, 'n, W>,
    lists: TurnLists,
}

impl<'a, 'n, W: Wait + time::Clock> Connections<'a, 'n, W> {
    /// These clients, of whom none stands on a list, and who are below `most`. The error is that there is no memory for the
    /// lists of so many.
    pub fn new(alloc: Global, clients: Clients<'a, 'n, W>, most: usize) -> Result<Self, AllocError>
        ensures { IfOk result (λ connections. connections.lists ≡ empty_lists most) }
    {
        Ok(Connections {
            clients,
            lists: TurnLists::new(alloc, most)?,
        })
    }

    /// Whether some client has more to do, of which no event need tell.
    pub fn has_more(&self) -> bool {
        !self.lists.is_empty(TurnList::HasMore)
    }

    /// Takes a turn of the client with this key, of which an event told, at this second; unless its turn comes by a list.
    pub fn turn_of_event<A: Durability, K: Clock>(
        &mut self,
        key: usize,
        answerer: &mut A,
        clock: &mut K,
        second: u64,
    )
        ensures listed { IsSome (list_of self.old.lists key) → self.new.lists ≡ self.old.lists }
        ensures turned { (next : _) × (self.new.lists ≡ after_next next key self.old.lists) }
    {
        if self.lists.list_of(key).is_none() {
            self.turn(key, answerer, clock, second);
        }
    }

    // Takes a turn of the client with this key, if there is one, at this second.
    fn turn<A: Durability, K: Clock>(
        &mut self,
        key: usize,
        answerer: &mut A,
        clock: &mut K,
        second: u64,
    )
        ensures { (next : _) × (self.new.lists ≡ after_next next key self.old.lists) }
    {
        let next = self.clients.turn(key, answerer, clock, second);
        self.go_after(key, next);
    }

    // Puts the client with this key to the list by which its next turn comes, if by one. One that no list takes is let go.
    fn go_after(&mut self, key: usize, next: Next)
        ensures { self.new.lists ≡ after_next next key self.old.lists }
    {
        match next {
            Next::Waits => {}
            Next::Stands(list) => {
                if !self.lists.put(key, list) {
                    self.clients.remove(key);
                }
            }
            Next::Ends => self.lists.leave(key),
        }
    }

    /// Takes one turn of each client that has more to do, at this second.
    pub fn go_on<A: Durability, K: Clock>(&mut self, answerer: &mut A, clock: &mut K, second: u64)
        ensures { HadRound TurnList.HasMore self.old.lists self.new.lists }
    {
        self.turn_listed(TurnList::HasMore, answerer, clock, second);
    }

    // Takes one turn of each client that stands on a list. Who comes to it again meanwhile has its turn in the next round.
    fn turn_listed<A: Durability, K: Clock>(
        &mut self,
        list: TurnList,
        answerer: &mut A,
        clock: &mut K,
        second: u64,
    )
        ensures { HadRound list self.old.lists self.new.lists }
    {
        let clients = &mut self.clients;
        self.lists.take_round(list, |key| {
            clients.turn(key, answerer, clock, second).list()
        });
    }

    /// Sends at this second what was held back, now that all is kept that the desk has seen.
    pub fn send_held<C: Charges, R: Ledger, M: Ledger>(&mut self, desk: &Desk<C, R, M>, second: u64)
        requires kept { IsPrefix desk.now.seen desk.now.kept }
    {
        // `take_round` asks that a turn may always be taken, and a turn here may be taken only while the desk is kept.
        for _ in 0..self.lists.len(TurnList::WaitsForKeeping) {
            if let Some(key) = self.lists.take_first(TurnList::WaitsForKeeping) {
                let next = self.clients.send(desk, key, second);
                self.go_after(key, next);
            }
        }
    }

    /// The same for those that are too late at this second: they may have taken bytes, of which no event told yet.
    pub fn send_late<C: Charges, R: Ledger, M: Ledger>(&mut self, desk: &Desk<C, R, M>, second: u64)
        requires kept { IsPrefix desk.now.seen desk.now.kept }
    {
        for key in 0..self.clients.key_bound() {
            if self.clients.is_late(key, second) {
                let next = self.clients.send(desk, key, second);
                self.go_after(key, next);
            }
        }
    }

    /// Cuts off those that other workers, or requests of this one, asked to end, and then takes a turn of each client whose
    /// message waits for another one to end.
    pub fn give_way<A: Durability, K: Clock>(
        &mut self,
        answerer: &mut A,
        clock: &mut K,
        second: u64,
    )
        ensures { HadRoundOfOthers TurnList.WaitsForTurn self.old.lists self.new.lists }
    {
        self.cut_asked(answerer, clock);
        self.turn_listed(TurnList::WaitsForTurn, answerer, clock, second);
    }

    // Cuts off those that other workers, or requests of this one, asked to end.
    fn cut_asked<A: Durability, K: Clock>(&mut self, answerer: &mut A, clock: &mut K)
        ensures { HaveLeft self.old.lists self.new.lists }
    {
        for place in self.clients.take_asked() {
            let Some((key, why)) = self.clients.to_cut(place) else {
                continue;
            };
            self.cut(key, why, answerer, clock);
        }
    }

    /// Cuts off those that are too late at this second, each after one more turn: bytes may have come, or may have been taken,
    /// of which no event told yet. What came of a body that is applied when it is cut is kept.
    pub fn cut_late<A: Durability, K: Clock>(
        &mut self,
        answerer: &mut A,
        clock: &mut K,
        second: u64,
    ) {
        for key in 0..self.clients.key_bound() {
            if self.clients.is_late(key, second) {
                self.turn(key, answerer, clock, second);
                if self.clients.is_late(key, second) {
                    let why = self.clients.lateness(key, second);
                    self.cut(key, why, answerer, clock);
                }
            }
            self.clients.renew_pace(key, second);
        }
    }

    /// Has each client end after one more message at most, from this second on, and lets go who has none under way. That is
    /// seen in a turn, since bytes may have come of which no event told yet.
    pub fn end_soon<A: Durability, K: Clock>(
        &mut self,
        answerer: &mut A,
        clock: &mut K,
        second: u64,
    ) {
        if !self.clients.end_soon() {
            return;
        }
        for key in 0..self.clients.key_bound() {
            self.turn_of_event(key, answerer, clock, second);
        }
    }

    /// Cuts off all that are left, since the service is stopped. What came of a body that is applied when it is cut is kept.
    pub fn cut_all<A: Durability, K: Clock>(&mut self, answerer: &mut A, clock: &mut K)
        ensures { HaveLeft self.old.lists self.new.lists }
    {
        for key in 0..self.clients.key_bound() {
            self.cut(key, Cut::Stopped, answerer, clock);
        }
    }

    // Cuts a client off for this reason, if there is one with this key.
    fn cut<A: Durability, K: Clock>(
        &mut self,
        key: usize,
        why: Cut,
        answerer: &mut A,
        clock: &mut K,
    )
        ensures { self.new.lists ≡ without self.old.lists key (list_of self.old.lists key) }
    {
        self.clients.cut(key, why, answerer, clock);
        self.lists.leave(key);
    }
}

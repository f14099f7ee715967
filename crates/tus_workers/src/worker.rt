//! A worker, and how desks get one each.
ghost use Rattle.std.specs.Prelude.{◌≡◌, ◌≤◌, [], false, map, All, IfOk, vec_capacity, vec_len};
ghost use Rattle.std.specs.List.{list_any};

use crate::accept::{Accept, Listener};
use std::io;
use std::sync::ledger::Ledger;
use tus_shared::{Charges, Desk};

/// A worker: the desk at which it answers, and what it accepts connections from.
#[derive(Drop)]
pub struct Worker<C: Charges, R: Ledger, M: Ledger, A: Accept> {
    pub desk: Desk<C, R, M>,
    pub acceptor: A,
}

/// A worker for each of the desks, in their order, with an acceptor at the listener. They stand in `workers`, an empty
/// list that has room for them. The error says that an acceptor could not be had.
pub fn hire<L: Listener, C: Charges, R: Ledger, M: Ledger>(
    listener: &L,
    desks: Vec<Desk<C, R, M>>,
    mut workers: Vec<Worker<C, R, M, L::Acceptor>>,
) -> io::Result<Vec<Worker<C, R, M, L::Acceptor>>>
where
    L::Acceptor: Drop,
    requires empty { workers.items ≡ [] }
    requires room { vec_len desks ≤ vec_capacity workers }
    ensures desks { IfOk result (λ workers. map (λ w. w.desk) workers.items ≡ desks.items) }
    ensures count { IfOk result (λ workers. vec_len workers ≡ vec_len desks) }
    ensures alive { IfOk result (λ workers. All (λ w. L.Acceptor.has_failed w.acceptor ≡ false) workers.items) }
    ensures unstopped { IfOk result (λ workers. All (λ w. L.Acceptor.is_stopped w.acceptor ≡ false) workers.items) }
    ensures new { IfOk result (λ workers. All (λ w. L.Acceptor.accepted w.acceptor ≡ 0) workers.items) }
{
    for desk in desks {
        let acceptor = listener.acceptor()?;
        workers.push_reserved(Worker { desk, acceptor });
    }
    Ok(workers)
}

/// The desks of the workers, in their order. They stand in `desks`, an empty list that has room for them.
pub fn dismiss<C: Charges, R: Ledger, M: Ledger, A: Accept + Drop>(
    workers: Vec<Worker<C, R, M, A>>,
    mut desks: Vec<Desk<C, R, M>>,
) -> Vec<Desk<C, R, M>>
    requires empty { desks.items ≡ [] }
    requires room { vec_len workers ≤ vec_capacity desks }
    ensures { result.items ≡ map (λ w. w.desk) workers.items }
{
    for worker in workers {
        let Worker { desk, acceptor: _ } = worker;
        desks.push_reserved(desk);
    }
    desks
}

/// Whether an accept of one of these workers failed.
pub fn any_failed<C: Charges, R: Ledger, M: Ledger, A: Accept>(
    workers: &[Worker<C, R, M, A>],
) -> bool
    ensures { result ≡ list_any (λ w. A.has_failed w.acceptor) workers.now }
{
    workers.iter().any(|worker| worker.acceptor.failed())
}

//! What the scenes are played at.
use crate::tests::keeper::location::Location;
use journal_keeper::Journalled;
use std::alloc::Global;
use std::sync::Wait;
use std::sync::ledger::Ledger;
use tus_shared::{Desk, Shared};

/// A store, and the place where its journal stands.
#[derive(Drop)]
pub(crate) struct Stage<'a, 'b, C: Journalled, R: Ledger, M: Ledger, W: Wait> {
    pub(crate) rt: &'b W,
    pub(crate) alloc: Global,
    pub(crate) shared: &'a Shared<C, R, M, &'b W>,
    pub(crate) location: &'a Location,
}

/// Two desks of a store.
#[derive(Drop)]
pub(crate) struct Desks<C: Journalled, R: Ledger, M: Ledger> {
    pub(crate) first: Desk<C, R, M>,
    pub(crate) second: Desk<C, R, M>,
}

ghost use Rattle.std.specs.Prelude.{◌≡◌, ◌%◌, IfOk};
ghost use Rattle.head_board.specs.inside.LastChanges.{all_marked, last_after, last_of, marked};

use crate::event_log::SeenEvents;
use crate::head_table::HeadTable;
use std::alloc::{AllocError, Global};
use std::marker::Model;
use upload_book::NotedChange;

// How many slots there are.
const SLOTS: usize = 256;

/// Up to which event what is told of an upload last changed, by its id. The ids of all tenants share the slots by their
/// remainder, so a slot may have later events than those that changed an upload, and never fewer. A contract sees the slots.
#[derive(Drop)]
pub struct LastChanges {
    slots: Vec<SeenEvents>,
}

impl Model for LastChanges {
    ghost use Rattle.std.specs.Prelude.{◌≡◌, vec_len, List};
    ghost use Rattle.head_board.specs.inside.EventLog.{LogPrefix};

    ghost Value = { List LogPrefix };

    ghost view = { λ c. c.slots.items };

    ghost invariant = { λ c. vec_len c.slots ≡ 256 };
}

impl LastChanges {
    /// No change came after these events. All memory is taken here; the error is that there was too little.
    pub(crate) fn new(alloc: Global, seen: &SeenEvents) -> Result<LastChanges, AllocError>
        ensures { IfOk result (λ c. c ≡ all_marked seen.now) }
    {
        let mut slots = Vec::with_capacity(alloc, SLOTS)?;
        for _ in 0..SLOTS {
            slots.push_reserved(seen.again());
        }
        Ok(LastChanges { slots })
    }

    /// The events up to the last change of what is told under an id.
    pub(crate) fn of(&self, id: u64) -> &SeenEvents
        ensures { result.now ≡ last_of self.now id }
    {
        &self.slots[slot_of(id)]
    }

    /// A change comes to these heads by the last of these events.
    pub(crate) fn note(&mut self, table: &HeadTable, change: &NotedChange, after: &SeenEvents)
        ensures { self.new ≡ last_after self.old table.now change.now after.now }
    {
        match change {
            NotedChange::Created(tenant, _) => self.mark(table.next_id(*tenant), after),
            NotedChange::Shared(tenant, _) => self.mark(table.next_id(*tenant), after),
            NotedChange::Grown(name, _) => self.mark(name.id, after),
            NotedChange::Gone(name) => self.mark(name.id, after),
            NotedChange::Swept(_) => self.mark_all(after),
            NotedChange::Next(_) => self.mark_all(after),
            NotedChange::Totals => {}
        }
    }

    // What is told under an id changed by the last of these events.
    fn mark(&mut self, id: u64, after: &SeenEvents)
        ensures { self.new ≡ marked self.old id after.now }
    {
        self.slots[slot_of(id)] = after.again();
    }

    // What is told under any id may have changed by the last of these events.
    fn mark_all(&mut self, after: &SeenEvents)
        ensures { self.new ≡ all_marked after.now }
    {
        for slot in self.slots.iter_mut() {
            *slot = after.again();
        }
    }
}

// The slot of an id.
fn slot_of(id: u64) -> usize
    ensures { result ≡ id % 256 }
{
    id as usize % SLOTS
}

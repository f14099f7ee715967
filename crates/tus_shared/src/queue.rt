//! What waits to be written to a journal.
ghost use Rattle.std.specs.Prelude.{◌≡◌, ◌++◌, ◌∷◌, ◌+◌, ◌<◌, ◌≤◌, [], Some, IfNone, IfSome, IsTrue, ◌↔◌, false, length, map, option_map, if◌then◌else◌};
ghost use Rattle.tus_shared.specs.inside.QueueRule.{IsFramed, Takes, new_queue, passed};

use crate::unqueued::Unqueued;
use book_replay::SnapshotFault;
use core::mem;
use head_board::SeenEvents;
use std::alloc::Global;
use std::marker::Model;

/// Frames that were taken out of the queue of a store, to be written to the journal in their order.
#[derive(Drop)]
pub struct Records {
    /// The frames, each that of one record.
    pub frames: Vec<Vec<u8>>,
    /// How far the events reach whose records these are. Here the queue begins again.
    pub reached: SeenEvents,
}

/// Records that were taken out of the queue of a store, and a snapshot of its book behind them.
#[derive(Drop)]
pub struct RecordsAndSnapshot {
    /// The records.
    pub records: Records,
    /// The records of the pieces of the book's snapshot, after the last of the events whose records were taken, each behind
    /// room for the header of its frame; or why there are none.
    pub snapshot: Result<Vec<Vec<u8>>, SnapshotFault>,
}

// The frames of the records of the last events, which wait to be written, and the events before these.
#[derive(Drop)]
pub(crate) struct RecordQueue {
    alloc: Global,
    frames: Vec<Vec<u8>>,
    behind: SeenEvents,
}

impl Model for RecordQueue {
    ghost use Rattle.std.specs.Prelude.{map, vec_capacity};
    ghost use Rattle.tus_shared.specs.inside.QueueRule.{QueueView};

    ghost Value = { QueueView };

    ghost view = { λ q. record {
      log = q.behind.book;
      behind = q.behind.events;
      frames = map (λ frame. frame.items) q.frames.items;
      places = vec_capacity q.frames;
    } };
}

impl RecordQueue {
    // A queue in which nothing waits, behind these events.
    pub(crate) fn new(alloc: Global, behind: SeenEvents) -> RecordQueue
        ensures { result ≡ record { log = behind.book; behind = behind.events; frames = []; places = 0 } }
    {
        RecordQueue {
            alloc,
            frames: Vec::new(alloc),
            behind,
        }
    }

    // Whether nothing waits.
    pub(crate) fn is_empty(&self) -> bool
        ensures { IsTrue result ↔ (self.now.frames ≡ []) }
    {
        self.frames.is_empty()
    }

    // Whether it begins behind these events.
    pub(crate) fn begins_behind(&self, from: &SeenEvents) -> bool
        requires { from.now.book ≡ self.now.log }
        ensures { IsTrue result → from.now.events ≡ self.now.behind }
    {
        let no_less = from.begins(&self.behind);
        let no_more = self.behind.begins(from);
        no_less && no_more
    }

    // Puts a frame behind those that wait. Says whether there was a place for it: else nothing is put, all places are taken, and
    // memory lacked for more.
    fn push(&mut self, frame: Vec<u8>) -> bool
        ensures pushed { self.new ≡ (if result then record self.old { frames = self.old.frames ++ frame.items ∷ []; places = self.new.places } else self.old) }
        ensures full { result ≡ false → self.old.places ≤ length self.old.frames }
    {
        if self.frames.reserve(1).is_err() {
            return false;
        }
        self.frames.push_reserved(frame);
        true
    }

    // Takes all frames that wait, which reach to these events.
    pub(crate) fn take(&mut self, reached: SeenEvents) -> Vec<Vec<u8>>
        ensures frames { map (λ frame. frame.items) result.items ≡ self.old.frames }
        ensures queue { self.new ≡ record { log = reached.book; behind = reached.events; frames = []; places = 0 } }
    {
        self.behind = reached;
        mem::replace(&mut self.frames, Vec::new(self.alloc))
    }

    // From now on it begins behind these events.
    pub(crate) fn pass(&mut self, reached: SeenEvents)
        ensures { self.new ≡ record self.old { log = reached.book; behind = reached.events } }
    {
        self.behind = reached;
    }
}

// Queues the frame of a record, where there is a queue. The error is why it is not queued, and then nothing changes.
pub(crate) fn queue_frame(
    queue: &mut Option<RecordQueue>,
    room: &mut u64,
    frame: Option<Vec<u8>>,
    spare: u64,
) -> Result<(), Unqueued>
    ensures { IsFramed result queue.old (option_map (λ f. f.items) frame) room.old spare queue.new room.new }
{
    match queue {
        Some(waiting) => queue_in(waiting, room, frame, spare),
        None => Ok(()),
    }
}

// The same, in a queue that there is.
fn queue_in(
    queue: &mut RecordQueue,
    room: &mut u64,
    frame: Option<Vec<u8>>,
    spare: u64,
) -> Result<(), Unqueued>
    ensures { IsFramed result (Some queue.old) (option_map (λ f. f.items) frame) room.old spare (Some queue.new) room.new }
{
    let Some(frame) = frame else {
        return Err(Unqueued::NoFrame);
    };
    let Some(left) = left_of(*room, frame.len() as u64, spare) else {
        return Err(Unqueued::NoRoom);
    };
    if !queue.push(frame) {
        return Err(Unqueued::NoPlace);
    }
    *room = left;
    Ok(())
}

// What is left of a room after so many bytes, where it is no less than what is to be spared.
fn left_of(room: u64, len: u64, spare: u64) -> Option<u64>
    ensures left { IfSome result (λ left. (left + len ≡ room) × (spare ≤ left)) }
    ensures none { IfNone result (room < len + spare) }
{
    let left = room.checked_sub(len)?;
    if left < spare {
        return None;
    }
    Some(left)
}

// The queue of a store, behind these events, where changes are journalled under a key.
pub(crate) fn queue_of(
    alloc: Global,
    journal: Option<u64>,
    behind: SeenEvents,
) -> Option<RecordQueue>
    ensures { result ≡ new_queue journal behind.book behind.events }
{
    match journal {
        Some(_) => Some(RecordQueue::new(alloc, behind)),
        None => None,
    }
}

// Whether nothing waits.
pub(crate) fn is_idle(queue: &Option<RecordQueue>) -> bool
    ensures { IsTrue result → IfSome queue.now (λ waiting. waiting.frames ≡ []) }
{
    let Some(queue) = queue else {
        return true;
    };
    queue.is_empty()
}

// From now on the queue, if there is one, begins behind these events.
pub(crate) fn pass_queue(queue: &mut Option<RecordQueue>, reached: SeenEvents)
    ensures { queue.new ≡ passed queue.old reached.book reached.events }
{
    if let Some(queue) = queue {
        queue.pass(reached);
    }
}

// Takes all frames that wait, which reach to these events, where the queue begins behind the first ones. Else it stays.
pub(crate) fn take_queue(
    queue: &mut Option<RecordQueue>,
    from: &SeenEvents,
    reached: SeenEvents,
) -> Option<Records>
    requires log { IfSome queue.old (λ waiting. from.now.book ≡ waiting.log) }
    ensures reached { IfSome result (λ taken. taken.reached ≡ reached) }
    ensures none { IfNone result (queue.new ≡ queue.old) }
    ensures taken { IfSome result (λ taken. Takes queue.old from.now.events (map (λ frame. frame.items) taken.frames.items) reached.book reached.events queue.new) }
{
    match queue {
        Some(queue) if queue.begins_behind(from) => {
            let frames = queue.take(reached.again());
            Some(Records { frames, reached })
        }
        _ => None,
    }
}

//! What is done at a desk and by its keeper, as a table, and what it comes to.
use crate::tests::keeper::location::Location;
use crate::tests::keeper::requests::{Asked, turn};
use crate::tests::keeper::stage::Stage;
use crate::tests::torn_disk::TornDisk;
use journal_file::JournalError;
use journal_keeper::{Compacted, Journalled, KeepFault, Keeper};
use std::process::Abort;
use std::sync::Wait;
use std::sync::ledger::Ledger;
use std::time;
use tus_shared::{Desk, NoGate};
use tus_steps::Reply;
use upload_book::Refusal;

/// What keeping comes to.
#[derive(Clone, Copy, PartialEq, Eq)]
pub(crate) enum Kept {
    Done,
    /// A call of the disk failed.
    DiskFails,
    /// Keeping has failed before.
    HasEnded,
    /// Any other fault.
    Fails,
}

/// What a look at a journal comes to.
#[derive(Clone, Copy, PartialEq, Eq)]
pub(crate) enum Looked {
    Told(Compacted),
    /// Nobody knows which journal stands in its place.
    Unsure,
    /// Any other fault.
    Fails,
}

pub(crate) enum Step {
    /// The desk is granted room for so many bytes.
    Grant(u64),
    /// It makes a change.
    Makes(Asked<'static>),
    /// It refuses a change as Memory.
    Refuses(Asked<'static>),
    /// Keeping what the desk has seen comes to this.
    Keeps(Kept),
    /// Whether all that it has seen is kept.
    IsKept(bool),
    /// Where it is to have room for so many bytes, it has room for so many then.
    HasRoom(u64, u64),
    /// Where it is to have room for so many bytes, its room stays as it is.
    HasNoMoreRoom(u64),
    /// Whether keeping has failed, after so many syncs.
    HasFailed(bool, u64),
    /// A look at the journal comes to this.
    Looks(Looked),
    /// The file has so many bytes, and at most so many to be kept.
    FileHas(usize, u64),
    /// The file has no bytes but the frames and the zeros, and at most so many to be kept.
    FileIsShort(u64),
}

// Makes room at a desk for so many bytes. Gives how much it had, and how much it has.
fn make_room<C: Journalled, R: Ledger, M: Ledger>(
    keeper: &mut Keeper<TornDisk, C>,
    desk: &mut Desk<C, R, M>,
    location: &Location,
    bytes: u64,
) -> (u64, u64) {
    let before = desk.room();
    keeper.make_room(desk, bytes, location);
    (before, desk.room())
}

impl<C: Journalled, R: Ledger, M: Ledger, W: Wait + Abort + time::Clock> Stage<'_, '_, C, R, M, W> {
    /// Whether a desk makes the change that it is asked for; else it was refused as Memory.
    pub(crate) fn makes(&self, desk: &mut Desk<C, R, M>, asked: Asked<'_>) -> bool {
        let turn = turn(self.rt, asked);
        match desk.answer(self.rt, self.shared, &turn.request, turn.now, 0, &NoGate) {
            Reply::Created { .. } | Reply::Patched { .. } | Reply::Deleted => true,
            Reply::Refused { refusal, .. } => {
                assert!(self.rt; refusal == Refusal::Memory);
                false
            }
            _ => panic!(self.rt; "another reply"),
        }
    }

    // What keeping all that a desk has seen comes to.
    fn keep(&self, keeper: &mut Keeper<TornDisk, C>, desk: &mut Desk<C, R, M>) -> Kept {
        match keeper.keep(self.rt, self.shared, desk) {
            Ok(()) => Kept::Done,
            Err(KeepFault::Journal(JournalError::Disk(_))) => Kept::DiskFails,
            Err(KeepFault::Ended) => Kept::HasEnded,
            Err(_) => Kept::Fails,
        }
    }

    /// What a look at the journal comes to.
    pub(crate) fn look(&self, keeper: &mut Keeper<TornDisk, C>) -> Looked {
        match keeper.compact(self.rt, self.shared, self.location) {
            Ok(told) => Looked::Told(told),
            Err(KeepFault::Place) => Looked::Unsure,
            Err(_) => Looked::Fails,
        }
    }

    // Takes a step. Gives whether it came to what it has to.
    fn takes(
        &self,
        keeper: &mut Keeper<TornDisk, C>,
        desk: &mut Desk<C, R, M>,
        step: &Step,
    ) -> bool {
        match step {
            Step::Grant(bytes) => {
                desk.grant(*bytes);
                true
            }
            Step::Makes(asked) => self.makes(desk, *asked),
            Step::Refuses(asked) => !self.makes(desk, *asked),
            Step::Keeps(kept) => self.keep(keeper, desk) == *kept,
            Step::IsKept(is_kept) => desk.is_kept() == *is_kept,
            Step::HasRoom(bytes, room) => {
                make_room(keeper, desk, self.location, *bytes).1 == *room
            }
            Step::HasNoMoreRoom(bytes) => {
                let (before, after) = make_room(keeper, desk, self.location, *bytes);
                before == after
            }
            Step::HasFailed(has_failed, syncs) => {
                keeper.has_failed() == *has_failed && keeper.numbers().synced.syncs == *syncs
            }
            Step::Looks(looked) => self.look(keeper) == *looked,
            Step::FileHas(len, most) => {
                keeper.disk().bytes().len() == *len && self.location.kept_at_most() == *most
            }
            Step::FileIsShort(most) => {
                keeper.disk().bytes().len() as u64 == keeper.numbers().file_bytes
                    && self.location.kept_at_most() == *most
            }
        }
    }

    /// Each of these steps comes to what it has to.
    pub(crate) fn play(
        &self,
        keeper: &mut Keeper<TornDisk, C>,
        desk: &mut Desk<C, R, M>,
        steps: &[Step],
    ) {
        for (place, step) in steps.iter().enumerate() {
            assert!(self.rt; self.takes(keeper, desk, step), "step {place}");
        }
    }
}

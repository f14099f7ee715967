//! What is done with a journal, as a table, and what it comes to.
use crate::tests::KEY;
use crate::tests::file::payloads::{assert_crashes, frames_of, has_all};
use crate::tests::torn_disk::TornDisk;
use journal_file::{Damage, Journal, JournalError};
use std::alloc::Global;
use std::process::Abort;

/// What a call comes to.
#[derive(Clone, Copy, PartialEq, Eq)]
pub(crate) enum Outcome {
    Done,
    NoRoom,
    Unusable,
    NotMixing,
    Damaged(Damage),
    Memory,
    DiskFails,
}

/// Why a call failed.
pub(crate) fn reason(why: &JournalError) -> Outcome {
    match why {
        JournalError::NoRoom => Outcome::NoRoom,
        JournalError::Unusable => Outcome::Unusable,
        JournalError::NotMixing => Outcome::NotMixing,
        JournalError::Damaged(damage) => Outcome::Damaged(*damage),
        JournalError::Memory => Outcome::Memory,
        JournalError::Disk(_) => Outcome::DiskFails,
    }
}

/// What a call came to.
pub(crate) fn outcome_of<T: Drop>(called: Result<T, JournalError>) -> Outcome {
    match called {
        Ok(_) => Outcome::Done,
        Err(why) => reason(&why),
    }
}

/// What is done with a journal, and what it has to show.
pub(crate) enum Step {
    /// The frames of these payloads are appended.
    Append(&'static [&'static [u8]], Outcome),
    Sync(Outcome),
    /// Room for so many bytes more is made.
    Extend(usize, Outcome),
    /// What stands behind the zeros is cut off.
    Shorten(Outcome),
    /// There is room for so many bytes.
    HasRoom(usize),
    /// The file has so many bytes.
    HasLen(usize),
    /// The file has, from a place on and for so many bytes, this byte alone.
    Holds(usize, usize, u8),
    /// After each crash it has of these payloads those that are whole, and at least so many.
    Survives(&'static [&'static [u8]], usize),
}

// Takes a step. Gives whether it came to what it has to.
fn takes(rt: &impl Abort, alloc: Global, journal: &mut Journal<TornDisk>, step: &Step) -> bool {
    match step {
        Step::Append(payloads, outcome) => {
            outcome_of(journal.append(&frames_of(rt, alloc, payloads))) == *outcome
        }
        Step::Sync(outcome) => outcome_of(journal.sync()) == *outcome,
        Step::Extend(more, outcome) => outcome_of(journal.extend(*more)) == *outcome,
        Step::Shorten(outcome) => outcome_of(journal.shorten()) == *outcome,
        Step::HasRoom(room) => journal.room() == *room,
        Step::HasLen(len) => journal.disk().bytes().len() == *len,
        Step::Holds(start, count, byte) => has_all(journal.disk().bytes(), *start, *count, *byte),
        Step::Survives(payloads, synced) => {
            assert_crashes(rt, alloc, journal.disk(), payloads, *synced);
            true
        }
    }
}

/// Each of these steps comes to what it has to.
pub(crate) fn play(
    rt: &impl Abort,
    alloc: Global,
    journal: &mut Journal<TornDisk>,
    steps: &[Step],
) {
    for (place, step) in steps.iter().enumerate() {
        assert!(rt; takes(rt, alloc, journal, step), "step {place}");
    }
}

/// A new journal with room for so many bytes.
pub(crate) fn new_journal(rt: &impl Abort, disk: TornDisk, room: usize) -> Journal<TornDisk> {
    let Ok(journal) = Journal::create(disk, KEY, room) else {
        panic!(rt; "no journal");
    };
    journal
}

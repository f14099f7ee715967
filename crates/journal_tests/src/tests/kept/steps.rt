//! What is done with a kept book, as a table, and what it has to show.
use crate::tests::kept::books::{Answer, ask, ask_unkept};
use crate::tests::kept::requests::{change, head, request};
use crate::tests::kept::seen::{seen_after, seen_of};
use crate::tests::torn_disk::TornDisk;
use kept_book::KeptBook;
use std::alloc::Global;
use std::process::Abort;
use upload_book::Moment;

pub(crate) enum Step {
    /// It answers the change of this number so.
    Change(u64, Answer),
    /// It answers a HEAD of an upload so.
    Head(&'static [u8], Answer),
    /// It answers the change of this number, at a path, so where nothing more is kept.
    Unkept(u64, &'static [u8], Answer),
    /// The same of a HEAD.
    UnkeptHead(&'static [u8], Answer),
    /// A sweep at a second ends so many uploads.
    Sweeps(u64, u64),
    /// It shows what a plain book does after the first so many changes.
    Shows(u64),
}

// How many uploads a sweep at a second ends.
fn swept(rt: &impl Abort, kept: &mut KeptBook<TornDisk>, secs: u64) -> Option<u64> {
    let now = Moment::new(secs).expect(rt, "a moment");
    match kept.sweep(now) {
        Ok(Some(swept)) => Some(swept.uploads),
        _ => None,
    }
}

// Takes a step. Gives whether the book shows what it has to.
fn takes(rt: &impl Abort, alloc: Global, kept: &mut KeptBook<TornDisk>, step: &Step) -> bool {
    match step {
        Step::Change(number, answer) => ask(rt, kept, &change(*number)) == *answer,
        Step::Head(path, answer) => ask(rt, kept, &head(path)) == *answer,
        Step::Unkept(number, path, answer) => {
            ask_unkept(rt, kept, &request(*number, path)) == *answer
        }
        Step::UnkeptHead(path, answer) => ask_unkept(rt, kept, &head(path)) == *answer,
        Step::Sweeps(secs, uploads) => swept(rt, kept, *secs) == Some(*uploads),
        Step::Shows(changes) => seen_of(rt, kept.book()) == seen_after(rt, alloc, *changes),
    }
}

/// Each of these steps shows what it has to.
pub(crate) fn play(rt: &impl Abort, alloc: Global, kept: &mut KeptBook<TornDisk>, steps: &[Step]) {
    for (place, step) in steps.iter().enumerate() {
        assert!(rt; takes(rt, alloc, kept, step), "step {place}");
    }
}

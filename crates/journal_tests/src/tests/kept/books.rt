//! Kept books on a disk, and their answers.
use crate::tests::KEY;
use crate::tests::acme::settings;
use crate::tests::kept::requests::moment;
use crate::tests::torn_disk::TornDisk;
use kept_book::{AnswerFault, KeptBook};
use std::alloc::Global;
use std::process::Abort;
use tus_steps::{PlacedReply, ReplyKind, Request};
use upload_book::{Moment, Refusal};

/// A new book, with so much room in its journal.
pub(crate) fn new_book(
    rt: &impl Abort,
    alloc: Global,
    disk: TornDisk,
    room: usize,
) -> KeptBook<TornDisk> {
    let Ok(kept) = KeptBook::create(alloc, settings(rt), disk, KEY, room) else {
        panic!(rt; "not made");
    };
    kept
}

/// The book that a disk has.
pub(crate) fn open_book(rt: &impl Abort, alloc: Global, disk: TornDisk) -> KeptBook<TornDisk> {
    let Ok(kept) = KeptBook::open(alloc, settings(rt), disk, KEY) else {
        panic!(rt; "not opened");
    };
    kept
}

/// What a request comes to.
#[derive(Clone, Copy, PartialEq, Eq)]
pub(crate) enum Answer {
    Created,
    /// The upload has so many bytes.
    Patched(u64),
    Deleted,
    /// The upload has so many bytes.
    Head(u64),
    /// The second at which the upload expires stands beside the refusal.
    Refused(Refusal, Option<u64>),
    /// A write or a sync failed.
    Fails,
    /// One has failed before.
    HasEnded,
    /// Anything else.
    Other,
}

fn answer_in(reply: &PlacedReply) -> Answer {
    match reply.kind {
        ReplyKind::Created { .. } => Answer::Created,
        ReplyKind::Patched { offset, .. } => Answer::Patched(offset),
        ReplyKind::Deleted => Answer::Deleted,
        ReplyKind::Head => Answer::Head(reply.row.offset),
        ReplyKind::Refused {
            refusal,
            expires,
            ..
        } => Answer::Refused(refusal, expires.map(Moment::secs)),
        _ => Answer::Other,
    }
}

/// Answers a request.
pub(crate) fn ask(rt: &impl Abort, kept: &mut KeptBook<TornDisk>, request: &Request) -> Answer {
    let mut reply = PlacedReply::new();
    match kept.answer(request, moment(rt), &mut reply) {
        Ok(()) => answer_in(&reply),
        Err(AnswerFault::Journal(_)) => Answer::Fails,
        Err(AnswerFault::Ended) => Answer::HasEnded,
    }
}

/// Answers a request where nothing more can be kept.
pub(crate) fn ask_unkept(
    rt: &impl Abort,
    kept: &mut KeptBook<TornDisk>,
    request: &Request,
) -> Answer {
    let mut reply = PlacedReply::new();
    kept.answer_unkept(request, moment(rt), &mut reply);
    answer_in(&reply)
}

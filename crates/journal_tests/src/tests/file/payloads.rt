//! Payloads as frames, and what a crash leaves of them.
use crate::tests::KEY;
use crate::tests::torn_disk::TornDisk;
use journal_file::{Journal, Opened};
use journal_frames::{Frames, push_frame};
use std::alloc::Global;
use std::process::Abort;

// Puts the frame of a payload behind others.
fn push(rt: &impl Abort, frames: &mut Vec<u8>, payload: &[u8]) {
    assert!(rt; payload.len() <= 16);
    assert!(rt; push_frame(frames, KEY, payload).is_ok());
}

/// The frames of some payloads.
pub(crate) fn frames_of(rt: &impl Abort, alloc: Global, payloads: &[&[u8]]) -> Vec<u8> {
    let mut frames = Vec::new(alloc);
    for payload in payloads {
        push(rt, &mut frames, payload);
    }
    frames
}

/// Whether a file has this byte everywhere from a place on, so many times.
pub(crate) fn has_all(file: &[u8], start: usize, count: usize, byte: u8) -> bool {
    file.iter()
        .skip(start)
        .take(count)
        .all(|found| *found == byte)
}

// How many of these payloads are frames at the start of a file.
fn count_whole(rt: &impl Abort, alloc: Global, file: &[u8], payloads: &[&[u8]]) -> usize {
    let mut whole = Vec::new(alloc);
    for (count, payload) in payloads.iter().enumerate() {
        push(rt, &mut whole, payload);
        if !file.starts_with(&whole) {
            return count;
        }
    }
    payloads.len()
}

// Whether these frames are the first so many of the payloads, and no others.
fn are_first(frames: &[u8], payloads: &[&[u8]], count: usize) -> bool {
    let mut read = Frames::new(KEY, frames);
    for payload in payloads.iter().take(count) {
        let Ok(found) = read.next() else {
            return false;
        };
        if found != *payload {
            return false;
        }
    }
    read.next().is_err()
}

// The journal of a disk that was left by a crash.
fn open(rt: &impl Abort, alloc: Global, disk: TornDisk) -> Opened<TornDisk> {
    let Ok(opened) = Journal::open(alloc, disk, KEY) else {
        panic!(rt; "not opened");
    };
    opened
}

/// A disk of which a journal is opened has these payloads.
pub(crate) fn assert_opens(
    rt: &impl Abort,
    alloc: Global,
    disk: TornDisk,
    payloads: &[&[u8]],
) -> Journal<TornDisk> {
    let opened = open(rt, alloc, disk);
    assert!(rt; are_first(&opened.frames, payloads, payloads.len()));
    opened.journal
}

// Whether a journal is opened of what a crash left that has the payloads whose frames are whole, and at least so many.
fn survives(
    rt: &impl Abort,
    alloc: Global,
    left: TornDisk,
    payloads: &[&[u8]],
    synced: usize,
) -> bool {
    let count = count_whole(rt, alloc, left.bytes(), payloads);
    let opened = open(rt, alloc, left);
    count >= synced && are_first(&opened.frames, payloads, count)
}

/// A journal survives each crash that loses what was not synced of one range.
pub(crate) fn assert_crashes(
    rt: &impl Abort,
    alloc: Global,
    disk: &TornDisk,
    payloads: &[&[u8]],
    synced: usize,
) {
    let len = disk.bytes().len();
    for start in 0..=len {
        for end in start..=len {
            let left = disk.after_loss(start, end).expect(rt, "memory");
            assert!(rt;
                survives(rt, alloc, left, payloads, synced),
                "{start} to {end}"
            );
        }
    }
}

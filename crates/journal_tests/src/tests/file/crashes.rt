//! A small script at a journal, and each range of bytes that a crash may lose after each step.
use crate::tests::KEY;
use crate::tests::file::payloads::{assert_crashes, assert_opens, frames_of};
use crate::tests::file::steps::Outcome::Done;
use crate::tests::file::steps::{Step, new_journal, play};
use crate::tests::torn_disk::TornDisk;
use journal_file::Journal;
use std::alloc::Global;
use std::process::Abort;

const X: &[u8] = b"x";

const A: &[u8] = b"a";

const BC: &[u8] = b"bc";

static EACH_STEP: [Step; 9] = [
    Step::Survives(&[], 0),
    Step::Append(&[X], Done),
    Step::Survives(&[X], 0),
    Step::Sync(Done),
    Step::Survives(&[X], 1),
    Step::Append(&[A, BC], Done),
    Step::Survives(&[X, A, BC], 1),
    Step::Sync(Done),
    Step::Survives(&[X, A, BC], 3),
];

#[test]
fn each_loss_after_each_step(rt: HostRuntime) {
    let mut journal = new_journal(&rt, TornDisk::sound(rt.alloc()), 80);
    play(&rt, rt.alloc(), &mut journal, &EACH_STEP);
}

static MORE_ROOM: [Step; 8] = [
    Step::Append(&[X], Done),
    Step::HasRoom(0),
    Step::Extend(26, Done),
    Step::HasRoom(26),
    Step::Survives(&[X], 1),
    Step::Append(&[BC], Done),
    Step::HasRoom(0),
    Step::Survives(&[X, BC], 1),
];

#[test]
fn each_loss_after_more_room(rt: HostRuntime) {
    let mut journal = new_journal(&rt, TornDisk::sound(rt.alloc()), 25);
    play(&rt, rt.alloc(), &mut journal, &MORE_ROOM);
}

// A frame, zeros behind it, and 4 MiB behind these that are no frames.
fn long_disk(rt: &impl Abort, alloc: Global) -> TornDisk {
    let mut disk = TornDisk::sound(alloc);
    assert!(rt; disk.put(0, &frames_of(rt, alloc, &[X])));
    assert!(rt; disk.put(25, &[0; 16]));
    let rest = vec![in alloc; 1u8; 4_194_304].expect(rt, "memory");
    assert!(rt; disk.put(41, &rest));
    disk
}

static LONG: [Step; 4] = [
    Step::HasRoom(4_194_288),
    Step::HasLen(4_194_345),
    Step::Holds(25, 4_194_304, 0),
    Step::Holds(4_194_329, 16, 1),
];

// A long file behind a torn tail is left as it is but for 4 MiB of zeros, and a journal goes on over these.
#[test]
fn long_file_is_opened(rt: HostRuntime) {
    let mut journal = assert_opens(&rt, rt.alloc(), long_disk(&rt, rt.alloc()), &[X]);
    play(&rt, rt.alloc(), &mut journal, &LONG);
}

static BEFORE_CRASH: [Step; 3] = [
    Step::Append(&[X], Done),
    Step::Sync(Done),
    Step::Append(&[A, BC], Done),
];

// The disk after a crash at which the second of three frames lost its first bytes.
fn torn(rt: &impl Abort, alloc: Global) -> TornDisk {
    let mut journal = new_journal(rt, TornDisk::sound(alloc), 100);
    play(rt, alloc, &mut journal, &BEFORE_CRASH);
    journal.disk().after_loss(30, 40).expect(rt, "memory")
}

static AFTER_CRASH: [Step; 3] = [
    Step::HasRoom(75),
    Step::Append(&[BC], Done),
    Step::Sync(Done),
];

// A frame that lost its first bytes is gone, with all behind it, and the journal goes on.
#[test]
fn goes_on_after_a_crash(rt: HostRuntime) {
    let mut journal = assert_opens(&rt, rt.alloc(), torn(&rt, rt.alloc()), &[X]);
    play(&rt, rt.alloc(), &mut journal, &AFTER_CRASH);
    assert_opens(&rt, rt.alloc(), journal.into_disk(), &[X, BC]);
}

// How many payloads are told to be synced, where the disk may be frozen.
fn synced_before(first: &[u8], others: &[u8], journal: &mut Journal<TornDisk>) -> usize {
    if journal.append(first).is_err() || journal.sync().is_err() {
        return 0;
    }
    if journal.append(others).is_err() || journal.sync().is_err() {
        return 1;
    }
    3
}

// The disk fails at a call, and then the machine: what was told to be synced is there after each crash. Gives how many
// payloads these are.
fn synced_in(rt: &impl Abort, alloc: Global, calls: u64, first: &[u8], others: &[u8]) -> usize {
    let Ok(mut journal) = Journal::create(TornDisk::new(alloc, usize::MAX, calls), KEY, 80) else {
        return 0;
    };
    let synced = synced_before(first, others, &mut journal);
    assert_crashes(rt, alloc, journal.disk(), &[X, A, BC], synced);
    synced
}

// How many payloads are synced, by the number of calls after which the disk fails. Making the journal takes three calls: a
// length, a write and a sync; then a write and a sync, twice.
static SYNCED: [usize; 9] = [0, 0, 0, 0, 0, 1, 1, 3, 3];

fn assert_synced(rt: &impl Abort, alloc: Global, first: &[u8], others: &[u8]) {
    for (calls, synced) in SYNCED.iter().enumerate() {
        assert!(rt;
            synced_in(rt, alloc, calls as u64, first, others) == *synced,
            "{calls} calls"
        );
    }
}

#[test]
fn each_call_fails_in_turn(rt: HostRuntime) {
    let first = frames_of(&rt, rt.alloc(), &[X]);
    let others = frames_of(&rt, rt.alloc(), &[A, BC]);
    assert_synced(&rt, rt.alloc(), &first, &others);
}

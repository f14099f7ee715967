//! Journals that are written beside another one, and finished.
use crate::tests::KEY;
use crate::tests::file::payloads::{assert_opens, frames_of};
use crate::tests::file::steps::Outcome::Done;
use crate::tests::file::steps::{Outcome, Step, play, reason};
use crate::tests::torn_disk::TornDisk;
use journal_file::{Draft, Journal, JournalError};
use std::alloc::Global;
use std::process::Abort;

const X: &[u8] = b"x";

const A: &[u8] = b"a";

const BC: &[u8] = b"bc";

// A file that held something else.
fn used_disk(rt: &impl Abort, alloc: Global) -> TornDisk {
    let mut disk = TornDisk::sound(alloc);
    assert!(rt; disk.put(0, &[1; 200]));
    disk
}

// A draft over a file that has at most so many bytes then.
fn begun(rt: &impl Abort, disk: TornDisk, longest: usize) -> Draft<TornDisk> {
    let Ok(draft) = Draft::new(disk, KEY, longest) else {
        panic!(rt; "not begun");
    };
    draft
}

// Whether a draft takes a frame, none, and two.
fn takes_three(rt: &impl Abort, alloc: Global, draft: &mut Draft<TornDisk>) -> bool {
    draft.frames_len() == 0
        && draft.append(&frames_of(rt, alloc, &[X])).is_ok()
        && draft.append(b"").is_ok()
        && draft.append(&frames_of(rt, alloc, &[A, BC])).is_ok()
        && draft.frames_len() == 76
}

// The journal of a draft of three frames, over a file of which 150 bytes were kept.
fn finished_journal(rt: &impl Abort, alloc: Global) -> Journal<TornDisk> {
    let mut draft = begun(rt, used_disk(rt, alloc), 150);
    assert!(rt; takes_three(rt, alloc, &mut draft));
    let Ok(journal) = draft.finish(25) else {
        panic!(rt; "not finished");
    };
    journal
}

static FINISHED: [Step; 9] = [
    Step::HasLen(150),
    Step::Holds(117, 33, 1),
    Step::Append(&[A], Done),
    Step::HasRoom(0),
    Step::Extend(10, Done),
    Step::Holds(101, 26, 0),
    Step::Holds(127, 23, 1),
    Step::Shorten(Done),
    Step::HasLen(127),
];

// The journal has what was appended, also when it goes on. What the file held stands behind the zeros: more room is made over
// it, and then it is cut off.
#[test]
fn finished(rt: HostRuntime) {
    let mut journal = finished_journal(&rt, rt.alloc());
    play(&rt, rt.alloc(), &mut journal, &FINISHED);
    assert_opens(&rt, rt.alloc(), journal.into_disk(), &[X, A, BC, A]);
}

// Writes a draft in two appends with a sync between them, and finishes it.
fn write(disk: TornDisk, first: &[u8], others: &[u8]) -> Result<Journal<TornDisk>, JournalError> {
    let mut draft = Draft::new(disk, KEY, 4_096)?;
    draft.append(first)?;
    draft.sync()?;
    draft.append(others)?;
    draft.finish(30)
}

// Whether the draft was finished: then all that was appended is there after a crash, and else the disk failed.
fn is_finished(
    rt: &impl Abort,
    alloc: Global,
    written: Result<Journal<TornDisk>, JournalError>,
) -> bool {
    match written {
        Ok(journal) => {
            let left = journal
                .disk()
                .after_loss(0, usize::MAX)
                .expect(rt, "memory");
            assert_opens(rt, alloc, left, &[X, A, BC]);
            true
        }
        Err(why) => {
            assert!(rt; reason(&why) == Outcome::DiskFails);
            false
        }
    }
}

// A used disk that is frozen after so many calls from now on.
fn frozen_after(rt: &impl Abort, alloc: Global, calls: u64) -> TornDisk {
    let mut disk = TornDisk::new(alloc, usize::MAX, calls.saturating_add(1));
    assert!(rt; disk.put(0, &[1; 200]));
    disk
}

// A draft is not finished before the disk has answered so many calls: its length, a write, a sync, a write; then zeros and a
// sync.
const NEEDED: u64 = 6;

// A draft is finished over a disk that answers enough calls, and over no other.
fn assert_finished(rt: &impl Abort, alloc: Global, calls: u64, first: &[u8], others: &[u8]) {
    let written = write(frozen_after(rt, alloc, calls), first, others);
    assert!(rt;
        is_finished(rt, alloc, written) == (calls >= NEEDED),
        "{calls} calls"
    );
}

// The disk fails at a call, and at each one after: there is no journal, or one that a crash leaves with all that was
// appended.
#[test]
fn each_call_fails_in_turn(rt: HostRuntime) {
    let first = frames_of(&rt, rt.alloc(), &[X]);
    let others = frames_of(&rt, rt.alloc(), &[A, BC]);
    for calls in 0..8 {
        assert_finished(&rt, rt.alloc(), calls, &first, &others);
    }
}

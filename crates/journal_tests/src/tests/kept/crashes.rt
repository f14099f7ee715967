//! The script on a disk that fails at a call, and then the machine does: each image that it may leave is opened.
use crate::tests::KEY;
use crate::tests::acme::settings;
use crate::tests::kept::books::{Answer, ask, open_book};
use crate::tests::kept::requests::{CHANGES, change};
use crate::tests::kept::seen::{Seen, all_seen, seen_of};
use crate::tests::torn_disk::TornDisk;
use kept_book::KeptBook;
use std::alloc::Global;
use std::process::Abort;

// The room of the journal, which is enough for the script.
const ROOM: usize = 4000;

// How many changes were told. After a call that failed nothing more is answered.
fn told(rt: &impl Abort, kept: &mut KeptBook<TornDisk>) -> u64 {
    for number in 0..CHANGES {
        let answer = ask(rt, kept, &change(number));
        if answer == Answer::Fails {
            assert!(rt; ask(rt, kept, &change(number)) == Answer::HasEnded);
            return number;
        }
        assert!(rt; answer != Answer::HasEnded);
    }
    CHANGES
}

// Whether the book that is opened of a disk has exactly the first so many changes: all that were told, and at most one more.
fn opens(rt: &impl Abort, alloc: Global, disk: TornDisk, all: &[Seen], told: u64) -> bool {
    let kept = open_book(rt, alloc, disk);
    let now = seen_of(rt, kept.book());
    let place = told as usize;
    all.get(place) == Some(&now) || all.get(place.saturating_add(1)) == Some(&now)
}

// Some images of what a crash leaves.
fn assert_images(rt: &impl Abort, alloc: Global, disk: &TornDisk, all: &[Seen], told: u64) {
    for seed in 0..6 {
        let left = disk.after_crash(seed).expect(rt, "memory");
        assert!(rt; opens(rt, alloc, left, all, told), "{told} were told");
    }
}

// The script over a disk that is frozen after so many calls, and some images of what is left. How many changes were told, if
// the book was made.
fn told_in(rt: &impl Abort, alloc: Global, all: &[Seen], calls: u64) -> Option<u64> {
    let disk = TornDisk::new(alloc, usize::MAX, calls);
    let Ok(mut kept) = KeptBook::create(alloc, settings(rt), disk, KEY, ROOM) else {
        return None;
    };
    let told = told(rt, &mut kept);
    assert_images(rt, alloc, kept.disk(), all, told);
    Some(told)
}

// Making the book takes three calls, and each change two.
fn assert_each(rt: &impl Abort, alloc: Global, all: &[Seen]) {
    for calls in 0..84 {
        let told = told_in(rt, alloc, all, calls);
        assert!(rt; told.is_some() || calls < 3, "{calls}");
        assert!(rt; (told == Some(CHANGES)) == (calls >= 83), "{calls}");
    }
}

#[test]
fn each_call_fails_in_turn(rt: HostRuntime) {
    let all = all_seen(&rt, rt.alloc());
    assert!(rt; all.len() as u64 == CHANGES + 1);
    assert_each(&rt, rt.alloc(), &all);
}

//! A small journal of which each byte is changed in turn.
use crate::tests::KEY;
use crate::tests::acme::settings;
use crate::tests::kept::books::{Answer, new_book};
use crate::tests::kept::seen::{Seen, seen_of};
use crate::tests::kept::steps::{Step, play};
use crate::tests::torn_disk::TornDisk;
use journal_file::JournalError;
use kept_book::{KeptBook, OpenFault};
use std::alloc::Global;
use std::process::Abort;
use upload_book::Book;

static TWO_CHANGES: [Step; 2] = [
    Step::Change(0, Answer::Created),
    Step::Change(1, Answer::Patched(4)),
];

// A book with a journal of the first two changes, with little room behind it.
fn small(rt: &impl Abort, alloc: Global) -> KeptBook<TornDisk> {
    let mut kept = new_book(rt, alloc, TornDisk::sound(alloc), 150);
    play(rt, alloc, &mut kept, &TWO_CHANGES);
    kept
}

// The book is as it was before the byte at a place was raised.
fn assert_as_before(rt: &impl Abort, book: &Book, before: &Seen, place: usize) {
    assert!(rt; seen_of(rt, book) == *before, "the byte at {place}");
}

// Whether it is damage that begins at this byte of the file, or before it.
fn is_damage_before(why: &OpenFault, place: usize) -> bool {
    match why {
        OpenFault::Journal(JournalError::Damaged(damage)) => damage.at <= place,
        _ => false,
    }
}

fn assert_damage(rt: &impl Abort, why: &OpenFault, place: usize) {
    assert!(rt; is_damage_before(why, place), "the byte at {place}");
}

// The byte at a place is one more, which is told as damage, or changes nothing. Whether it is told.
fn is_told(
    rt: &impl Abort,
    alloc: Global,
    mut disk: TornDisk,
    place: usize,
    before: &Seen,
) -> bool {
    disk.raise(place);
    match KeptBook::open(alloc, settings(rt), disk, KEY) {
        Ok(kept) => {
            assert_as_before(rt, kept.book(), before, place);
            false
        }
        Err(not) => {
            assert_damage(rt, &not.why, place);
            true
        }
    }
}

// How many bytes are told as damage, where each is raised in turn.
fn told(rt: &impl Abort, alloc: Global, disk: &TornDisk, before: &Seen) -> u64 {
    let mut told: u64 = 0;
    for place in 0..disk.bytes().len() {
        let copy = disk.after_crash(0).expect(rt, "memory");
        if is_told(rt, alloc, copy, place, before) {
            told = told.saturating_add(1);
        }
    }
    told
}

// All of both frames but the bytes that are 255, and some of the zeros.
#[test]
fn each_byte_raised_in_turn(rt: HostRuntime) {
    let kept = small(&rt, rt.alloc());
    let before = seen_of(&rt, kept.book());
    assert!(rt; told(&rt, rt.alloc(), kept.disk(), &before) > 100);
}

// The frames of another key are told as damage.
#[test]
fn another_key(rt: HostRuntime) {
    let disk = small(&rt, rt.alloc()).into_disk();
    let Err(not) = KeptBook::open(rt.alloc(), settings(&rt), disk, KEY + 1) else {
        panic!(&rt; "opened");
    };
    assert!(rt; is_damage_before(&not.why, usize::MAX));
}

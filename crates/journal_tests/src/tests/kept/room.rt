//! Room for records: made where there is none, and refused where it can't be.
use crate::tests::kept::books::{Answer, new_book, open_book};
use crate::tests::kept::steps::{Step, play};
use crate::tests::torn_disk::TornDisk;
use std::alloc::Global;
use std::process::Abort;
use upload_book::Refusal;

// Takes steps at a new book, with so much room in its journal, and others at the book that is opened again of its disk.
fn play_again(
    rt: &impl Abort,
    alloc: Global,
    disk: TornDisk,
    room: usize,
    steps: &[Step],
    again: &[Step],
) {
    let mut kept = new_book(rt, alloc, disk, room);
    play(rt, alloc, &mut kept, steps);
    let mut opened = open_book(rt, alloc, kept.into_disk());
    play(rt, alloc, &mut opened, again);
}

static THREE_CHANGES: [Step; 3] = [
    Step::Change(0, Answer::Created),
    Step::Change(1, Answer::Patched(4)),
    Step::Change(2, Answer::Patched(6)),
];

static SHOWS_THREE: [Step; 1] = [Step::Shows(3)];

#[test]
fn room_is_made(rt: HostRuntime) {
    let disk = TornDisk::sound(rt.alloc());
    play_again(&rt, rt.alloc(), disk, 0, &THREE_CHANGES, &SHOWS_THREE);
}

const LACKS_MEMORY: Answer = Answer::Refused(Refusal::Memory, Some(4600));

static FULL: [Step; 4] = [
    Step::Change(0, Answer::Created),
    Step::Change(1, LACKS_MEMORY),
    Step::Change(1, LACKS_MEMORY),
    Step::Shows(1),
];

static SHOWS_ONE: [Step; 1] = [Step::Shows(1)];

// On a full disk a PATCH is refused as Memory, with the time when its upload expires, and so is the next one. Nothing is
// changed by them, and the book is opened again as it was.
#[test]
fn a_full_disk(rt: HostRuntime) {
    let disk = TornDisk::new(rt.alloc(), 200, u64::MAX);
    play_again(&rt, rt.alloc(), disk, 100, &FULL, &SHOWS_ONE);
}

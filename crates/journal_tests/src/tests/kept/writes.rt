//! What is written: a record of each change, and nothing for what changes nothing.
use crate::tests::kept::books::{Answer, new_book, open_book};
use crate::tests::kept::requests::{moment, request};
use crate::tests::kept::seen::{seen_after, seen_of};
use crate::tests::kept::steps::{Step, play};
use crate::tests::torn_disk::TornDisk;
use kept_book::{KeptBook, answer_all};
use std::alloc::Global;
use std::process::Abort;
use tus_steps::Reply;
use upload_book::Refusal;

// A book with the first change of the script.
fn with_upload(rt: &impl Abort, alloc: Global) -> KeptBook<TornDisk> {
    let mut kept = new_book(rt, alloc, TornDisk::sound(alloc), 4000);
    play(rt, alloc, &mut kept, &[Step::Change(0, Answer::Created)]);
    kept
}

// A change that is refused, a HEAD, and a sweep that ends nothing.
static NOTHING: [Step; 3] = [
    Step::Change(2, Answer::Refused(Refusal::Offset, Some(4600))),
    Step::Head(b"/files/acme/1", Answer::Head(2)),
    Step::Sweeps(4599, 0),
];

#[test]
fn nothing_is_written(rt: HostRuntime) {
    let mut kept = with_upload(&rt, rt.alloc());
    let before = kept.disk().bytes().to_vec(rt.alloc()).expect(&rt, "memory");
    play(&rt, rt.alloc(), &mut kept, &NOTHING);
    assert!(rt; kept.disk().bytes() == before.as_slice());
}

static SWEEP: [Step; 1] = [Step::Sweeps(4600, 1)];

// A sweep that ends an upload is kept.
#[test]
fn a_sweep_is_written(rt: HostRuntime) {
    let mut kept = with_upload(&rt, rt.alloc());
    play(&rt, rt.alloc(), &mut kept, &SWEEP);
    let now = seen_of(&rt, kept.book());
    let opened = open_book(&rt, rt.alloc(), kept.into_disk());
    assert!(rt; seen_of(&rt, opened.book()) == now);
}

// Whether two requests are answered in a row, the second with four bytes.
fn answers_two(rt: &impl Abort, alloc: Global, kept: &mut KeptBook<TornDisk>) -> bool {
    let turns = [
        (request(0, b"/files/acme"), moment(rt)),
        (request(1, b"/files/acme/1"), moment(rt)),
    ];
    let answered = answer_all(alloc, kept, &turns).expect(rt, "memory");
    answered.fault.is_none()
        && matches!(
            answered.replies.get(1),
            Some(Reply::Patched { offset: 4, .. })
        )
}

// Some requests in a row.
#[test]
fn a_session(rt: HostRuntime) {
    let mut kept = new_book(&rt, rt.alloc(), TornDisk::sound(rt.alloc()), 4000);
    assert!(rt; answers_two(&rt, rt.alloc(), &mut kept));
    assert!(rt; seen_of(&rt, kept.book()) == seen_after(&rt, rt.alloc(), 2));
}

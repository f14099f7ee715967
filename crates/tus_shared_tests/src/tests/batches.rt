//! Desks that answer batches at once.

use crate::tests::requests::Asked::{Delete, Get, Patch};
use crate::tests::requests::{Answer, Asked, answer_by, answer_of, moment, turn};
use crate::tests::stage::{Scene, played};
use std::alloc::Global;
use std::process::Abort;
use std::sync::atomic::{AtomicU64, Ordering};
use std::test::Fail;
use std::thread;
use tus_shared::{Gate, Stop, Turn};
use tus_steps::Reply;
use upload_book::{Book, Name, Refusal};
use worked_example::settings;

/// The first upload of acme.
pub const FIRST: &[u8] = b"/files/acme/1";

/// Comes back when a word has at least this value, or else sets `missed` after a long time.
pub fn wait_for(word: &AtomicU64, value: u64, missed: &AtomicU64) {
    for _ in 0..100_000_000u64 {
        if word.load(Ordering::SeqCst) >= value || missed.load(Ordering::SeqCst) == 1 {
            return;
        }
        thread::yield_now();
    }
    missed.store(1, Ordering::SeqCst);
}

/// Holds the first turn of desk 1 until that of desk 0 has the lock, and this one, with the lock, until the other was
/// answered.
#[derive(Drop)]
pub struct Meeting {
    locked: AtomicU64,
    answered: AtomicU64,
    pub missed: AtomicU64,
}

impl Meeting {
    pub fn new() -> Meeting {
        Meeting {
            locked: AtomicU64::new(0),
            answered: AtomicU64::new(0),
            missed: AtomicU64::new(0),
        }
    }
}

impl Gate for Meeting {
    fn pass(&self, desk: usize, turn: usize, stop: Stop) {
        match (desk, turn, stop) {
            (0, 0, Stop::Locked) => {
                self.locked.store(1, Ordering::SeqCst);
                wait_for(&self.answered, 1, &self.missed);
            }
            (1, 0, Stop::Before) => wait_for(&self.locked, 1, &self.missed),
            (1, 0, Stop::Answered) => self.answered.store(1, Ordering::SeqCst),
            _ => {}
        }
    }
}

/// Whether the replies at a desk tell this.
fn tell(replies: &[Reply], answers: &[Answer]) -> bool {
    let mut are_told = replies.len() == answers.len();
    for (reply, expected) in replies.iter().zip(answers) {
        are_told = are_told && answer_by(reply).is(*expected);
    }
    are_told
}

/// Asserts what the replies at a desk tell.
pub fn assert_answers(rt: &impl Abort, replies: Option<&Vec<Reply>>, answers: &[Answer]) {
    let replies = replies.expect(rt, "a list");
    assert!(rt; tell(replies, answers));
}

const BEGUN: Answer<'static> = Answer::Row(0, Some(10), b"", Some(4600));

const GROWN: Answer<'static> = Answer::Row(5, Some(10), b"", Some(4600));

/// Each desk was met, in time.
pub fn assert_met(rt: &impl Abort, missed: &AtomicU64) {
    assert!(rt; missed.load(Ordering::SeqCst) == 0, "each desk was met");
}

/// The first desk tells of the upload as it has grown, and the second as it was before.
pub fn assert_grows(rt: &impl Abort, replies: &[Vec<Reply>]) {
    assert_answers(rt, replies.get(0), &[Answer::Patched(5, Some(4600)), GROWN]);
    assert_answers(rt, replies.get(1), &[BEGUN]);
}

// The book tells this of an upload of acme.
fn assert_row(rt: &impl Abort, book: &Book, id: u64, expected: Answer) {
    let row = book.look(&Name { tenant: 0, id }, moment(rt, 1000));
    assert!(rt; answer_of(&row).is(expected), "upload {id}");
}

/// The book has one upload, which has grown.
pub fn assert_grown(rt: &impl Abort, book: &Book) {
    assert_row(rt, book, 1, GROWN);
    assert_row(rt, book, 2, Answer::Refused(Refusal::Unknown, None));
}

#[test]
fn two_desks_work_at_once(rt: HostRuntime) -> Result<(), Fail> {
    let settled = played(&rt, rt.alloc(), settings()?, 2, &Scene::Meeting)?;
    assert!(rt; settled.numbers == [2, 0, 2, 10]);
    Ok(())
}

/// Holds each turn until all sixteen desks have come to it.
#[derive(Drop)]
pub struct Together {
    begun: AtomicU64,
    pub missed: AtomicU64,
}

impl Together {
    pub fn new() -> Together {
        Together {
            begun: AtomicU64::new(0),
            missed: AtomicU64::new(0),
        }
    }
}

impl Gate for Together {
    fn pass(&self, _desk: usize, turn: usize, stop: Stop) {
        if stop == Stop::Before {
            self.begun.fetch_add(1, Ordering::SeqCst);
            let all = (turn as u64).saturating_add(1).saturating_mul(16);
            wait_for(&self.begun, all, &self.missed);
        }
    }
}

/// A turn that sixteen desks have at once, what one of them is told, and what each other is told.
pub type Race = (Asked, Answer<'static>, Answer<'static>);

const ALL_BYTES: Answer<'static> = Answer::Bytes(b"abcdefghijklmnopqrstuvwxyz012345");

/// A table of races, each `asked => first, late;`.
macro_rules! races {
    ($($asked:expr => $first:expr, $late:expr;)*) => {
        [$(($asked, $first, $late)),*]
    };
}

/// An upload of 32 bytes grows by a block at a time, is sent, and ends.
pub static RACES: [Race; 10] = races! {
    Patch(FIRST, b"0", b"abcd") => Answer::Patched(4, Some(4600)), LATE;
    Patch(FIRST, b"4", b"efgh") => Answer::Patched(8, Some(4600)), LATE;
    Patch(FIRST, b"8", b"ijkl") => Answer::Patched(12, Some(4600)), LATE;
    Patch(FIRST, b"12", b"mnop") => Answer::Patched(16, Some(4600)), LATE;
    Patch(FIRST, b"16", b"qrst") => Answer::Patched(20, Some(4600)), LATE;
    Patch(FIRST, b"20", b"uvwx") => Answer::Patched(24, Some(4600)), LATE;
    Patch(FIRST, b"24", b"yz01") => Answer::Patched(28, Some(4600)), LATE;
    Patch(FIRST, b"28", b"2345") => Answer::Patched(32, None), Answer::Refused(Refusal::Offset, None);
    Get(FIRST) => ALL_BYTES, ALL_BYTES;
    Delete(FIRST) => Answer::Deleted, Answer::Refused(Refusal::Gone, None);
};

// What a PATCH is told where another was first.
const LATE: Answer<'static> = Answer::Refused(Refusal::Offset, Some(4600));

// Whether of the desks' replies to one turn one tells `first`, and each other `late`.
fn is_won(replies: &[Vec<Reply>], turn: usize, first: Answer, late: Answer) -> bool {
    let mut is_open = true;
    for batch in replies {
        let Some(reply) = batch.get(turn) else {
            return false;
        };
        let answer = answer_by(reply);
        if is_open && answer.is(first) {
            is_open = false;
        } else if !answer.is(late) {
            return false;
        }
    }
    !is_open
}

/// The turns of these races.
pub fn race_turns(rt: &impl Abort, alloc: Global, races: &[Race]) -> Vec<Turn<'static>> {
    let mut turns = Vec::new(alloc);
    for (asked, _, _) in races {
        turns.push(turn(rt, *asked)).expect(rt, "room for a turn");
    }
    turns
}

/// Asserts what the desks' replies tell, turn by turn.
pub fn assert_races(rt: &impl Abort, replies: &[Vec<Reply>], races: &[Race]) {
    assert!(rt; replies.len() == 16);
    for (turn, (_, first, late)) in races.iter().enumerate() {
        assert!(rt; is_won(replies, turn, *first, *late), "turn {turn}");
    }
}

// Sixteen desks race for one upload, and its blocks are free at the end.
#[test]
fn sixteen_desks_at_one_upload(rt: HostRuntime) -> Result<(), Fail> {
    let settled = played(&rt, rt.alloc(), settings()?, 16, &Scene::Race)?;
    assert!(rt; settled.numbers == [8, 8, 0, 12]);
    Ok(())
}

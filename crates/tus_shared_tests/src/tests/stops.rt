//! What a gate is passed: each stop of each turn, in order; at `Locked` the lock is held, and at `Answered` it is not. A
//! HEAD does not pass `Locked`.
//! Batches after others come to the desks in the same places.

use crate::tests::batches::{assert_answers, wait_for};
use crate::tests::requests::{Answer, moment};
use crate::tests::stage::{Scene, played};
use std::process::Abort;
use std::sync::atomic::{AtomicU64, Ordering};
use std::test::Fail;
use std::thread;
use tus_shared::{Gate, Stop};
use tus_steps::Reply;
use upload_book::{Book, ByteSpan, Name};
use worked_example::settings;

// The digit of a stop: 1 before the lock, 2 with it, 3 with the reply.
fn digit_of(stop: Stop) -> u64 {
    match stop {
        Stop::Before => 1,
        Stop::Locked => 2,
        Stop::Answered => 3,
    }
}

// Puts a digit behind those of a word.
fn note_in(word: &AtomicU64, digit: u64) {
    let noted = word.load(Ordering::SeqCst);
    word.store(
        noted.saturating_mul(10).saturating_add(digit),
        Ordering::SeqCst,
    );
}

/// Notes the stops of two desks, a digit each: 1, 2 and 3 in a desk's first turn, 4, 5 and 6 in its second. Desk 1
/// waits until the other has the lock. That one then gives it time to come to the lock too, notes if it got it, and
/// waits at its end until the other was answered.
#[derive(Drop)]
pub struct Notes {
    first: AtomicU64,
    second: AtomicU64,
    intruded: AtomicU64,
    missed: AtomicU64,
}

impl Notes {
    pub fn new() -> Notes {
        Notes {
            first: AtomicU64::new(0),
            second: AtomicU64::new(0),
            intruded: AtomicU64::new(0),
            missed: AtomicU64::new(0),
        }
    }

    fn note(&self, desk: usize, digit: u64) {
        let word = if desk == 0 { &self.first } else { &self.second };
        note_in(word, digit);
    }

    fn look_for_intruder(&self) {
        wait_for(&self.second, 1, &self.missed);
        for _ in 0..10_000u64 {
            thread::yield_now();
        }
        if self.second.load(Ordering::SeqCst) > 1 {
            self.intruded.store(1, Ordering::SeqCst);
        }
    }
}

impl Gate for Notes {
    fn pass(&self, desk: usize, turn: usize, stop: Stop) {
        let digit = digit_of(stop);
        self.note(desk, (turn as u64).saturating_mul(3).saturating_add(digit));
        match (desk, stop) {
            (0, Stop::Locked) => self.look_for_intruder(),
            (0, Stop::Answered) => wait_for(&self.second, 123, &self.missed),
            (1, Stop::Before) => wait_for(&self.first, 12, &self.missed),
            _ => {}
        }
    }
}

/// Notes the stops of a turn, a digit each.
#[derive(Drop)]
pub struct Digits {
    pub noted: AtomicU64,
}

impl Gate for Digits {
    fn pass(&self, _desk: usize, _turn: usize, stop: Stop) {
        note_in(&self.noted, digit_of(stop));
    }
}

/// One desk passed the three stops of its turn, and the other those of both of its turns, each in order; no desk had the
/// lock beside the other, and none was missed.
pub fn assert_noted(rt: &impl Abort, notes: &Notes) {
    assert!(rt; notes.first.load(Ordering::SeqCst) == 123);
    assert!(rt; notes.second.load(Ordering::SeqCst) == 123456);
    assert!(rt; notes.intruded.load(Ordering::SeqCst) == 0);
    assert!(rt; notes.missed.load(Ordering::SeqCst) == 0);
}

/// The first desk's batch begins the upload, and the second's ends it.
pub fn assert_fills(rt: &impl Abort, replies: &[Vec<Reply>]) {
    let begun = Answer::Patched(5, Some(4600));
    let grown = Answer::Patched(8, Some(4600));
    assert_answers(rt, replies.get(0), &[begun]);
    assert_answers(rt, replies.get(1), &[grown, Answer::Patched(10, None)]);
}

/// The book has all bytes of an upload of acme.
pub fn assert_full(rt: &impl Abort, book: &Book, id: u64) {
    let name = Name { tenant: 0, id };
    let all = ByteSpan::front(u64::MAX);
    let content = book.content(&name, moment(rt, 1000), all, book.none_begun());
    let content = content.expect(rt, "a content");
    assert!(rt;
        content.as_slice() == b"helloworld".as_slice(),
        "upload {id}"
    );
}

#[test]
fn a_turn_passes_its_stops(rt: HostRuntime) -> Result<(), Fail> {
    let settled = played(&rt, rt.alloc(), settings()?, 2, &Scene::Stops)?;
    assert!(rt; settled.numbers == [6, 0, 6, 6]);
    Ok(())
}

//! What is done at the desks of a new store, and what is settled after it.

ghost use Rattle.std.specs.Prelude.{◌≡◌};

use crate::tests::batches::{
    FIRST, Meeting, RACES, Together, assert_grown, assert_grows, assert_met, assert_races,
    race_turns,
};
use crate::tests::requests::Asked::{Head, Patch, Post};
use crate::tests::requests::{Answer, Asked, answer_by, answer_of, moment, turn};
use crate::tests::steps::{At, Call, Step, Way, assert_tells};
use crate::tests::stops::{Digits, Notes, assert_fills, assert_full, assert_noted};
use std::alloc::Global;
use std::marker::Brand;
use std::process::Abort;
use std::sync::Wait;
use std::sync::atomic::{AtomicU64, Ordering};
use std::sync::ledger::{Blank, Ledger};
use std::thread::Threads;
use tus_shared::{
    Balance, Charges, Desk, Gate, NoGate, OpenFault, Opened, Shared, Turn, settle, work_all,
};
use tus_steps::Reply;
use upload_book::{Book, Name, Settings};

/// What is done at the desks of a new store.
#[derive(Clone, Copy)]
pub enum Scene<'a> {
    Nothing,
    /// Two desks answer a batch at once: one is held in its first turn, with the lock, until the other has answered a HEAD.
    Meeting,
    /// Sixteen desks race for one upload, and come to each of its turns together.
    Race,
    /// Two desks fill an upload, and once more, as they came back from the first batches, another one. Then what takes the
    /// lock is looked at.
    Stops,
    /// Two desks are taken through these steps, each of them in this way.
    Table(Way, &'a [Step]),
}

/// What is settled after a scene.
#[derive(Clone, Copy)]
pub struct Settled {
    /// How many blocks were charged, were released, and are held, and how many are free.
    pub numbers: [u64; 4],
    /// How many desks there were.
    pub desks: usize,
}

// A store and its desks, which a method asks by their numbers.
#[derive(Drop)]
struct Stage<'a, C: Charges, R: Ledger, M: Ledger, W: Wait> {
    rt: &'a W,
    alloc: Global,
    shared: Shared<C, R, M, &'a W>,
    desks: Vec<Desk<C, R, M>>,
}

impl<
    C: Charges + Send + Sync,
    R: Ledger + Send + Sync,
    M: Ledger + Send + Sync,
    W: Threads + Wait + Abort + Sync,
> Stage<'_, C, R, M, W> {
    // The reply of a desk, which passes this gate.
    fn answer<G: Gate>(&mut self, desk: usize, turn: &Turn, gate: &G) -> Reply {
        let desk = self.desks.get_mut(desk).expect(self.rt, "a desk");
        desk.answer(self.rt, &self.shared, &turn.request, turn.now, 0, gate)
    }

    // The reply of a desk.
    fn call(&mut self, desk: usize, turn: &Turn) -> Reply {
        let desk = self.desks.get_mut(desk).expect(self.rt, "a desk");
        desk.call(self.rt, &self.shared, &turn.request, turn.now)
    }

    // The replies of all desks, a batch each, at once.
    fn answer_all<G: Gate + Sync>(&mut self, batches: &[&[Turn]], gate: &G) -> Vec<Vec<Reply>> {
        assert!(self.rt; batches.len() == self.desks.len(), "a batch for each desk");
        let (rt, alloc) = (self.rt, self.alloc);
        let replies = work_all(rt, alloc, &self.shared, &mut self.desks, batches, gate);
        replies.expect(self.rt, "room for the replies")
    }

    // The reply of one of two desks to a batch of one turn, beside a batch of none at the other.
    fn reply_in_batch(&mut self, desk: usize, batch: &[Turn]) -> Reply {
        let none: [Turn; 0] = [];
        let batches = if desk == 0 {
            [&batch[..], &none[..]]
        } else {
            [&none[..], &batch[..]]
        };
        let mut replies = self.answer_all(&batches, &NoGate);
        let replies = replies.get_mut(desk).expect(self.rt, "a list");
        replies.pop().expect(self.rt, "a reply")
    }

    // A desk makes an upload of this length.
    fn create(&mut self, desk: usize, length: &'static [u8]) {
        let created = turn(self.rt, Post(length));
        let _ = self.call(desk, &created);
    }

    fn play(&mut self, scene: &Scene) {
        match scene {
            Scene::Nothing => {}
            Scene::Meeting => self.meet(),
            Scene::Race => self.race(),
            Scene::Stops => {
                self.fill(b"/files/acme/1");
                self.fill(b"/files/acme/2");
                self.assert_heads_take_no_lock();
            }
            Scene::Table(way, steps) => {
                for (place, step) in steps.iter().enumerate() {
                    self.take(step, At { place, way: *way });
                }
            }
        }
    }

    // A PATCH and a HEAD at one desk, and at the other a HEAD that is answered before that PATCH.
    fn meet(&mut self) {
        self.create(0, b"10");
        let meeting = Meeting::new();
        let first = [
            turn(self.rt, Patch(FIRST, b"0", b"hello")),
            turn(self.rt, Head(FIRST)),
        ];
        let second = [turn(self.rt, Head(FIRST))];
        let replies = self.answer_all(&[&first[..], &second[..]], &meeting);
        assert_met(self.rt, &meeting.missed);
        assert_grows(self.rt, &replies);
    }

    // Each desk answers the same batch.
    fn race(&mut self) {
        self.create(0, b"32");
        let together = Together::new();
        let batch = race_turns(self.rt, self.alloc, &RACES);
        let replies = self.answer_all(&[&batch[..]; 16], &together);
        assert_met(self.rt, &together.missed);
        assert_races(self.rt, &replies, &RACES);
    }

    // Both desks answer batches at once, of one turn and of two, which fill a new upload at this path. The stops are noted
    // by the number of the desk, so a batch that comes to another desk than the one in its place is seen.
    fn fill(&mut self, path: &'static [u8]) {
        self.create(1, b"10");
        let notes = Notes::new();
        let first = [turn(self.rt, Patch(path, b"0", b"hello"))];
        let second = [
            turn(self.rt, Patch(path, b"5", b"wor")),
            turn(self.rt, Patch(path, b"8", b"ld")),
        ];
        let replies = self.answer_all(&[&first[..], &second[..]], &notes);
        assert_fills(self.rt, &replies);
        assert_noted(self.rt, &notes);
    }

    // The stops that a desk passes for what it is asked.
    fn stops_of(&mut self, asked: Asked) -> u64 {
        let digits = Digits {
            noted: AtomicU64::new(0),
        };
        let turn = turn(self.rt, asked);
        let _ = self.answer(0, &turn, &digits);
        digits.noted.load(Ordering::SeqCst)
    }

    // A creation takes the lock; a HEAD does not, of an upload that is there, of one that never was, and of none.
    fn assert_heads_take_no_lock(&mut self) {
        assert!(self.rt; self.stops_of(Post(b"10")) == 123);
        for target in [&b"/files/acme/1"[..], b"/files/acme/9", b"/files/acme"] {
            assert!(self.rt; self.stops_of(Head(target)) == 13);
        }
    }

    // Takes a desk through one step.
    fn take(&mut self, step: &Step, at: At) {
        match step.call {
            Call::Ask(asked) => self.ask(asked, step, at),
            Call::Look(tenant, id) => self.look(&Name { tenant, id }, step, at),
            Call::Sweep => self.sweep(step, at),
        }
    }

    // The reply of a desk to a request tells what the step says.
    fn ask(&mut self, asked: Asked, step: &Step, at: At) {
        let turn = Turn {
            request: asked.request(),
            now: moment(self.rt, step.secs),
        };
        let reply = match at.way {
            Way::Call => self.call(step.desk, &turn),
            Way::Answer => self.answer(step.desk, &turn, &NoGate),
            Way::Batch => self.reply_in_batch(step.desk, &[turn]),
        };
        assert_tells(self.rt, answer_by(&reply), step.answer, at);
    }

    // A desk's HEAD of an upload tells what the step says.
    fn look(&mut self, name: &Name, step: &Step, at: At) {
        let desk = self.desks.get_mut(step.desk).expect(self.rt, "a desk");
        let head = desk.head(name, moment(self.rt, step.secs));
        assert_tells(self.rt, answer_of(&head), step.answer, at);
    }

    // A sweep at a desk tells what the step says.
    fn sweep(&mut self, step: &Step, at: At) {
        let desk = self.desks.get_mut(step.desk).expect(self.rt, "a desk");
        let swept = desk.sweep(self.rt, &self.shared, moment(self.rt, step.secs));
        let swept = swept.expect(self.rt, "a sweep");
        let answer = Answer::Swept(swept.uploads, swept.blocks, swept.released);
        assert_tells(self.rt, answer, step.answer, at);
    }
}

// Asserts what the book has after a scene.
fn assert_left(rt: &impl Abort, scene: &Scene, book: &Book) {
    match scene {
        Scene::Meeting => assert_grown(rt, book),
        Scene::Stops => {
            assert_full(rt, book, 1);
            assert_full(rt, book, 2);
        }
        Scene::Nothing | Scene::Race | Scene::Table(..) => {}
    }
}

// Plays a scene at the desks of a store of these brands, and settles them.
fn settle_after<
    C: Charges + Send + Sync,
    R: Ledger + Send + Sync,
    M: Ledger + Send + Sync,
    W: Threads + Wait + Abort + Sync,
>(
    rt: &W,
    alloc: Global,
    settings: Settings,
    desks: usize,
    charged: Blank,
    released: Blank,
    made: Blank,
    events: Opened,
    scene: &Scene,
) -> Result<Settled, OpenFault>
    requires settings { settings ≡ C.settings }
    requires desks { desks ≡ C.desks }
    requires charged { (charged.name ≡ C.name) × (charged.parts ≡ C.parts) × (C.parts ≡ 16) }
    requires released { (released.name ≡ R.name) × (released.parts ≡ R.parts) × (R.parts ≡ 16) }
    requires made { (made.name ≡ M.name) × (made.parts ≡ M.parts) × (M.parts ≡ 16) }
    requires log { events.seen.book ≡ C.log }
    requires journal { C.journal ≡ None }
{
    let (shared, opened) = Shared::<C, R, M, &W>::open(
        rt, alloc, settings, desks, charged, released, made, events, None,
    )?;
    let mut stage = Stage {
        rt,
        alloc,
        shared,
        desks: opened,
    };
    stage.play(scene);
    let Stage {
        shared,
        desks: after,
        ..
    } = stage;
    assert!(rt; after.len() == desks, "each desk comes back");
    let free = shared.look(rt, |book| book.free_blocks());
    let (book, balance) = settle(shared, after);
    assert!(rt;
        book.free_blocks() == free,
        "what a look behind the lock tells"
    );
    assert_left(rt, scene, &book);
    let Balance {
        charged,
        released,
        held,
    } = balance;
    Ok(Settled {
        numbers: [charged, released, held, free],
        desks,
    })
}

/// Plays a scene at so many desks of a new store, and settles them.
pub fn played<W: Threads + Wait + Abort + Sync>(
    rt: &W,
    alloc: Global,
    settings: Settings,
    desks: usize,
    scene: &Scene,
) -> Result<Settled, OpenFault> {
    settle_after::<Brand, Brand, Brand, W>(
        rt,
        alloc,
        settings,
        desks,
        Blank::new(16),
        Blank::new(16),
        Blank::new(16),
        Opened::new(),
        scene,
    )
}

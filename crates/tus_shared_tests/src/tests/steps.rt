//! Tables of calls at two desks, each with what it tells and what is settled after it.

use crate::tests::requests::{Answer, Asked};
use crate::tests::stage::{Scene, played};
use std::alloc::Global;
use std::process::Abort;
use std::sync::Wait;
use std::test::Fail;
use std::thread::Threads;
use upload_book::Numbers;
use worked_example::{NUMBERS, settings_of};

/// A call at a desk.
#[derive(Clone, Copy)]
pub enum Call {
    /// A request, in each of the ways in which a desk answers one.
    Ask(Asked),
    /// A HEAD of the upload of this tenant and id.
    Look(u8, u64),
    Sweep,
}

/// A call at a desk at a moment, what it tells, and what is settled after it.
#[derive(Clone, Copy)]
pub struct Step {
    pub desk: usize,
    pub secs: u64,
    pub call: Call,
    pub answer: Answer<'static>,
    /// How many blocks were charged, released, and are held, and how many are free.
    pub settled: [u64; 4],
}

/// A table of steps, each `desk secs call => answer, settled;`.
macro_rules! steps {
    ($($desk:literal $secs:literal $call:expr => $answer:expr, $settled:expr;)*) => {
        [$(Step {
            desk: $desk,
            secs: $secs,
            call: $call,
            answer: $answer,
            settled: $settled,
        }),*]
    };
}

pub(crate) use steps;

/// How a desk is asked for its reply to a request.
#[derive(Clone, Copy, Debug)]
pub enum Way {
    Call,
    Answer,
    Batch,
}

/// Where a step stands: its place in the table, and the way in which its request is asked.
#[derive(Clone, Copy)]
pub struct At {
    pub place: usize,
    pub way: Way,
}

/// What a desk tells is what the step here says, by each way in which it is asked.
pub fn assert_tells(rt: &impl Abort, answer: Answer, expected: Answer, at: At) {
    let At { place, way } = at;
    assert!(rt; answer == expected, "step {place}, by {way:?}");
}

/// Takes two desks through the steps of a table, in each way in which a desk answers. What stands behind the lock
/// is seen when they are settled, so they are opened anew for each beginning of the table, and settled after it.
pub fn run<W: Threads + Wait + Abort + Sync>(
    rt: &W,
    alloc: Global,
    steps: &[Step],
) -> Result<(), Fail> {
    run_with(rt, alloc, NUMBERS, steps)
}

/// The same with other numbers of the settings.
pub fn run_with<W: Threads + Wait + Abort + Sync>(
    rt: &W,
    alloc: Global,
    numbers: Numbers,
    steps: &[Step],
) -> Result<(), Fail> {
    for way in [Way::Call, Way::Answer, Way::Batch] {
        for (place, step) in steps.iter().enumerate() {
            let table = Scene::Table(way, &steps[..place + 1]);
            let settled = played(rt, alloc, settings_of(numbers)?, 2, &table)?;
            assert!(rt;
                settled.numbers == step.settled,
                "after step {place}, by {way:?}"
            );
        }
    }
    Ok(())
}

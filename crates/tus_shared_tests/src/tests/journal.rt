//! Desks whose changes are journalled: what they queue, what they refuse without room, what they know to be kept, and the
//! same changes made again at a new desk.

ghost use Rattle.std.specs.Prelude.{◌≡◌, IsSome};

use crate::tests::requests::Asked::{Delete, Get, Head, Patch, Post};
use crate::tests::requests::{Answer, Asked, answer_by, moment, turn};
use journal_frames::Frames;
use journal_records::{PartIds, Record, Segments, read_record};
use std::alloc::Global;
use std::marker::Brand;
use std::process::Abort;
use std::sync::Wait;
use std::sync::ledger::{Blank, Ledger};
use std::test::Fail;
use tus_shared::{AgainFault, Charges, Desk, NoGate, Opened, Records, SeenEvents, Shared};
use upload_book::{Change, Name, NewUpload, Refusal, Refused, Settings};
use worked_example::{hello, no_bytes, settings};

// The key of the journal.
const KEY: u64 = 7;

// What comes of a change that is to be made again.
#[derive(Clone, Copy)]
enum Made {
    Again,
    OfNoTenant,
    OfNoUpload,
    Waiting,
}

fn outcome(made: Made) -> Result<(), AgainFault> {
    match made {
        Made::Again => Ok(()),
        Made::OfNoTenant => Err(AgainFault::Change),
        Made::OfNoUpload => Err(UNKNOWN),
        Made::Waiting => Err(AgainFault::Waiting),
    }
}

// What is done at the desk of a new store, whose queue begins behind no event, and what it has to show. A mark stands at
// events: at first at none.
enum Step {
    // Room for so many bytes more is granted.
    Grant(u64),
    // It has room for so many bytes.
    HasRoom(u64),
    // It answers a request.
    Told(Asked, Answer<'static>),
    // It sweeps, or lacks room for that.
    Sweeps(bool),
    // A change that stands in the journal is made again, or not, for this reason.
    Again(Stands, Made),
    // What waits behind the mark are the records of these changes; the mark then stands behind them.
    Taken(&'static [Kept]),
    // The same, and with the frames the room is so many bytes.
    TakenOf(&'static [Kept], u64),
    // The queue does not begin at no event.
    BeginsLater,
    // The mark stands at what the desk has seen.
    Marked,
    // The desk is told that the events up to the mark are kept, or that none are.
    Learns,
    LearnsOfNone,
    // Whether it knows that all it has seen is kept.
    IsKept(bool),
}

// Whether a desk answers so to a request at second 1000.
fn answers<C: Charges, R: Ledger, M: Ledger, W: Wait + Abort>(
    rt: &W,
    shared: &Shared<C, R, M, &W>,
    desk: &mut Desk<C, R, M>,
    asked: Asked,
    expected: Answer,
) -> bool {
    let turn = turn(rt, asked);
    let reply = desk.answer(rt, shared, &turn.request, turn.now, 0, &NoGate);
    answer_by(&reply).is(expected)
}

// Takes what waits out of the queue, which begins there.
fn taken<C: Charges, R: Ledger, M: Ledger, W: Wait + Abort>(
    rt: &W,
    shared: &Shared<C, R, M, &W>,
    from: &SeenEvents,
) -> Records
    requires { from.now.book ≡ C.log }
    ensures { result.reached.book ≡ C.log }
{
    let records = shared.take_records(rt, from);
    records.expect(rt, "the queue begins there")
}

// Which change a frame has the record of.
#[derive(Clone, Copy, PartialEq, Eq)]
enum Kept {
    // One of no test here.
    Other,
    Created,
    // How many bytes it adds, and from where on.
    Patched(u64, u64),
    // Of which id.
    Ended(u64),
    Swept,
}

// Which change, made at second 1000, a frame has the record of.
fn kept_in(frame: &[u8]) -> Option<Kept> {
    let payload = Frames::new(KEY, frame).next().ok()?;
    let mut parts = PartIds::new();
    let mut segments = Segments::new();
    let Record { now, change } = read_record(payload, &mut parts, &mut segments)?;
    if now.secs() != 1000 {
        return None;
    }
    Some(kept_of(&change))
}

fn kept_of(change: &Change) -> Kept {
    match change {
        Change::Create { .. } => Kept::Created,
        Change::Append { chunk, .. } => Kept::Patched(chunk.bytes.len() as u64, chunk.offset),
        Change::Terminate(name) => Kept::Ended(name.id),
        Change::Sweep => Kept::Swept,
        Change::Concat { .. } | Change::Restore(_) => Kept::Other,
    }
}

// Whether the frames are those of the records of these changes, in their order.
fn are_kept(records: &Records, expected: &[Kept]) -> bool {
    let mut are_kept = records.frames.len() == expected.len();
    for (frame, kept) in records.frames.iter().zip(expected) {
        are_kept = are_kept && kept_in(frame) == Some(*kept);
    }
    are_kept
}

const CREATED: Answer<'static> = Answer::Created(1, None, Some(4600));

const SECOND: Answer<'static> = Answer::Created(2, None, Some(4600));

const PATCHED: Answer<'static> = Answer::Patched(5, Some(4600));

const LACKS: Answer<'static> = Answer::Refused(Refusal::Memory, None);

// The same of a PATCH, which tells when its upload expires.
const PATCH_LACKS: Answer<'static> = Answer::Refused(Refusal::Memory, Some(4600));

const EMPTY: Answer<'static> = Answer::Row(0, Some(10), b"", Some(4600));

// How many bytes the frames have together.
fn written_in(records: &Records) -> u64 {
    let mut written: u64 = 0;
    for frame in &records.frames {
        written = written.saturating_add(frame.len() as u64);
    }
    written
}

const HALF: Answer<'static> = Answer::Row(5, Some(10), b"", Some(4600));

const SHORT: Answer<'static> = Answer::Refused(Refusal::Unfinished, None);

// A change whose record stands in the journal.
#[derive(Clone, Copy)]
enum Stands {
    Creation(u8),
    // Five bytes for an upload of acme.
    Hello(u64),
}

const CREATION: Stands = Stands::Creation(0);

const HELLO: Stands = Stands::Hello(1);

impl Stands {
    fn change(self) -> Change<'static> {
        match self {
            Stands::Creation(tenant) => Change::Create {
                tenant,
                new: NewUpload {
                    partial: false,
                    length: Some(10),
                    metadata: b"",
                    concat: b"",
                },
                first: no_bytes(),
            },
            Stands::Hello(id) => Change::Append {
                name: Name { tenant: 0, id },
                chunk: hello(),
            },
        }
    }
}

// Makes a change again that stands in the journal, at second 1000.
fn again<C: Charges, R: Ledger, M: Ledger, W: Wait + Abort>(
    rt: &W,
    shared: &Shared<C, R, M, &W>,
    desk: &mut Desk<C, R, M>,
    stands: Stands,
) -> Result<(), AgainFault>
    requires { IsSome C.journal }
{
    shared.make_again(rt, desk, stands.change(), moment(rt, 1000))
}

const UNKNOWN: AgainFault = AgainFault::Refused(Refused {
    refusal: Refusal::Unknown,
    expires: None,
});

// Takes what waits behind the mark, and moves it behind that. Gives how many bytes the frames have, if they are those of the
// records of these changes.
fn take<C: Charges, R: Ledger, M: Ledger, W: Wait + Abort>(
    rt: &W,
    shared: &Shared<C, R, M, &W>,
    mark: &mut SeenEvents,
    expected: &[Kept],
) -> Option<u64>
    requires { mark.old.book ≡ C.log }
    ensures { mark.new.book ≡ C.log }
{
    let records = taken(rt, shared, mark);
    let written = are_kept(&records, expected).then_some(written_in(&records));
    *mark = records.reached;
    written
}

// Whether a desk sweeps, and has room for that.
fn sweeps<C: Charges, R: Ledger, M: Ledger, W: Wait + Abort>(
    rt: &W,
    shared: &Shared<C, R, M, &W>,
    desk: &mut Desk<C, R, M>,
) -> bool {
    desk.sweep(rt, shared, moment(rt, 1000)).is_some()
}

// Takes a step. Says whether all is as the step says.
fn goes<C: Charges, R: Ledger, M: Ledger, W: Wait + Abort>(
    rt: &W,
    shared: &Shared<C, R, M, &W>,
    desk: &mut Desk<C, R, M>,
    opened: &SeenEvents,
    mark: &mut SeenEvents,
    step: &Step,
) -> bool
    requires journal { IsSome C.journal }
    requires opened { opened.now.book ≡ C.log }
    requires mark { mark.old.book ≡ C.log }
    ensures { mark.new.book ≡ C.log }
{
    match step {
        Step::Told(asked, answer) => answers(rt, shared, desk, *asked, *answer),
        Step::Sweeps(expected) => sweeps(rt, shared, desk) == *expected,
        Step::Again(stands, made) => again(rt, shared, desk, *stands) == outcome(*made),
        Step::Taken(kept) => take(rt, shared, mark, kept).is_some(),
        Step::TakenOf(kept, all) => {
            let written = take(rt, shared, mark, kept).unwrap_or(0);
            written > 0 && u64::saturating_add(desk.room(), written) == *all
        }
        Step::BeginsLater => shared.take_records(rt, opened).is_none(),
        Step::HasRoom(room) => desk.room() == *room,
        Step::IsKept(kept) => desk.is_kept() == *kept,
        Step::Grant(room) => {
            desk.grant(*room);
            true
        }
        Step::Marked => {
            *mark = desk.seen_events();
            true
        }
        Step::Learns => {
            desk.learn_kept(mark);
            true
        }
        Step::LearnsOfNone => {
            desk.learn_kept(opened);
            true
        }
    }
}

// Takes all steps.
fn take_steps<C: Charges, R: Ledger, M: Ledger, W: Wait + Abort>(
    rt: &W,
    shared: &Shared<C, R, M, &W>,
    desk: &mut Desk<C, R, M>,
    opened: &SeenEvents,
    steps: &[Step],
)
    requires journal { IsSome C.journal }
    requires opened { opened.now.book ≡ C.log }
{
    assert!(rt; desk.journal() == Some(KEY));
    let mut mark = opened.again();
    for (place, step) in steps.iter().enumerate() {
        assert!(rt;
            goes(rt, shared, desk, opened, &mut mark, step),
            "step {place}"
        );
    }
}

// Takes steps at the desk of a new store.
fn play<C: Charges, R: Ledger, M: Ledger, W: Wait + Abort>(
    rt: &W,
    alloc: Global,
    settings: Settings,
    charged: Blank,
    released: Blank,
    made: Blank,
    events: Opened,
    steps: &[Step],
) -> Result<(), Fail>
    requires settings { settings ≡ C.settings }
    requires desks { C.desks ≡ 1 }
    requires charged { (charged.name ≡ C.name) × (charged.parts ≡ C.parts) × (C.parts ≡ 16) }
    requires released { (released.name ≡ R.name) × (released.parts ≡ R.parts) × (R.parts ≡ 16) }
    requires made { (made.name ≡ M.name) × (made.parts ≡ M.parts) × (M.parts ≡ 16) }
    requires log { events.seen.book ≡ C.log }
    requires journal { C.journal ≡ Some 7 }
{
    let opened = events.seen.again();
    let (shared, mut desks) = Shared::<C, R, M, &W>::open(
        rt,
        alloc,
        settings,
        1,
        charged,
        released,
        made,
        events,
        Some(KEY),
    )?;
    let mut desk = desks.pop().ok_or("a desk")?;
    take_steps(rt, &shared, &mut desk, &opened, steps);
    Ok(())
}

fn play_at<W: Wait + Abort>(rt: &W, alloc: Global, steps: &[Step]) -> Result<(), Fail> {
    play::<Brand, Brand, Brand, W>(
        rt,
        alloc,
        settings()?,
        Blank::new(16),
        Blank::new(16),
        Blank::new(16),
        Opened::new(),
        steps,
    )
}

// Each change queues its record, once; what changes nothing queues nothing, and what was taken is not taken again.
static QUEUES: [Step; 9] = [
    Step::Grant(1 << 20),
    Step::Told(Post(b"10"), CREATED),
    Step::Told(Head(b"/files/acme/1"), EMPTY),
    Step::Told(Patch(b"/files/acme/1", b"0", b"hello"), PATCHED),
    Step::TakenOf(&[Kept::Created, Kept::Patched(5, 0)], 1 << 20),
    Step::Told(Delete(b"/files/acme/1"), Answer::Deleted),
    Step::BeginsLater,
    Step::Taken(&[Kept::Ended(1)]),
    Step::Taken(&[]),
];

// Without room a change is refused as Memory, and nothing happens; with little, uploads can be ended, and no more.
static NEEDS_ROOM: [Step; 13] = [
    Step::Told(Post(b"10"), LACKS),
    Step::Sweeps(false),
    Step::Grant(65_536 + 100),
    Step::Told(Post(b"10"), CREATED),
    Step::Told(Post(b"10"), LACKS),
    Step::Told(
        Head(b"/files/acme/2"),
        Answer::Refused(Refusal::Unknown, None),
    ),
    Step::Told(Patch(b"/files/acme/1", b"0", b"hello"), PATCH_LACKS),
    Step::Told(Delete(b"/files/acme/1"), Answer::Deleted),
    Step::Sweeps(true),
    Step::Taken(&[Kept::Created, Kept::Ended(1), Kept::Swept]),
    Step::Grant(u64::MAX),
    Step::HasRoom(u64::MAX),
    Step::Told(Post(b"10"), SECOND),
];

// What a desk has seen is kept once it was told so. To take is not to keep, and nothing is forgotten.
static KNOWS_WHAT_IS_KEPT: [Step; 14] = [
    Step::Grant(1 << 20),
    Step::IsKept(true),
    Step::Told(Post(b"10"), CREATED),
    Step::IsKept(false),
    Step::Taken(&[Kept::Created]),
    Step::IsKept(false),
    Step::Learns,
    Step::IsKept(true),
    Step::LearnsOfNone,
    Step::IsKept(true),
    Step::Told(Head(b"/files/acme/1"), EMPTY),
    Step::IsKept(true),
    Step::Told(Delete(b"/files/acme/1"), Answer::Deleted),
    Step::IsKept(false),
];

// The upload to which a desk answers after its changes were made again. No room was needed, and the queue begins behind
// them.
static MAKES_AGAIN: [Step; 13] = [
    Step::Again(CREATION, Made::Again),
    Step::Again(HELLO, Made::Again),
    Step::Told(Head(b"/files/acme/1"), HALF),
    Step::Told(Get(b"/files/acme/1"), SHORT),
    Step::HasRoom(0),
    Step::BeginsLater,
    Step::Marked,
    Step::Learns,
    Step::IsKept(true),
    Step::Grant(1 << 20),
    Step::Told(
        Patch(b"/files/acme/1", b"5", b"world"),
        Answer::Patched(10, None),
    ),
    Step::Told(Get(b"/files/acme/1"), Answer::Bytes(b"helloworld")),
    Step::Taken(&[Kept::Patched(5, 5)]),
];

// What is not made again: a change of no tenant, one that the book refuses, and any behind a record that waits.
static REFUSES: [Step; 8] = [
    Step::Again(Stands::Creation(2), Made::OfNoTenant),
    Step::Again(HELLO, Made::OfNoUpload),
    Step::Grant(1 << 20),
    Step::Told(Post(b"10"), CREATED),
    Step::Again(HELLO, Made::Waiting),
    Step::Taken(&[Kept::Created]),
    Step::Again(HELLO, Made::Again),
    Step::Told(Head(b"/files/acme/1"), HALF),
];

#[test]
fn desks_with_a_journal(rt: HostRuntime) -> Result<(), Fail> {
    for steps in [
        &QUEUES[..],
        &NEEDS_ROOM,
        &KNOWS_WHAT_IS_KEPT,
        &MAKES_AGAIN,
        &REFUSES,
    ] {
        play_at(&rt, rt.alloc(), steps)?;
    }
    Ok(())
}

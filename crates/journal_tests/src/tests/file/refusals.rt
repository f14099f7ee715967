//! Why calls of a journal fail, each reason once.
use crate::tests::KEY;
use crate::tests::file::payloads::frames_of;
use crate::tests::file::steps::Outcome::{Damaged, DiskFails, Done, NoRoom, NotMixing, Unusable};
use crate::tests::file::steps::{Outcome, Step, new_journal, outcome_of, play, reason};
use crate::tests::torn_disk::TornDisk;
use journal_file::{Damage, Draft, Journal, WholeFrames, recover, whole_frames};
use sqlite_disk::{Disk, Memory};
use std::alloc::Global;
use std::process::Abort;

static LACKS_ROOM: [Step; 3] = [
    Step::Append(&[b"x"], NoRoom),
    Step::HasRoom(24),
    Step::Extend(usize::MAX, NoRoom),
];

#[test]
fn no_room(rt: HostRuntime) {
    let mut journal = new_journal(&rt, TornDisk::sound(rt.alloc()), 24);
    play(&rt, rt.alloc(), &mut journal, &LACKS_ROOM);
}

#[test]
fn no_room_for_a_new_journal(rt: HostRuntime) {
    let created = Journal::create(TornDisk::sound(rt.alloc()), KEY, usize::MAX);
    assert!(rt; outcome_of(created) == NoRoom);
}

// What the kit's file in memory leaves after a crash may be any bytes.
#[test]
fn not_mixing(rt: HostRuntime) {
    let created = Journal::create(Memory::new(rt.alloc()), KEY, 10);
    assert!(rt; outcome_of(created) == NotMixing);
}

static FROZEN: [Step; 5] = [
    Step::Sync(DiskFails),
    Step::Sync(Unusable),
    Step::Append(&[], Unusable),
    Step::Extend(1, Unusable),
    Step::Shorten(Unusable),
];

#[test]
fn unusable(rt: HostRuntime) {
    let disk = TornDisk::new(rt.alloc(), usize::MAX, 3);
    let mut journal = new_journal(&rt, disk, 30);
    play(&rt, rt.alloc(), &mut journal, &FROZEN);
    let mut disk = journal.into_disk();
    assert!(rt; outcome_of(recover(rt.alloc(), &mut disk, KEY)) == Unusable);
}

// A draft fails for the same reasons, where they apply.
#[test]
fn draft_without_room(rt: HostRuntime) {
    let Ok(draft) = Draft::new(TornDisk::sound(rt.alloc()), KEY, 4_096) else {
        panic!(&rt; "not begun");
    };
    assert!(rt; outcome_of(draft.finish(usize::MAX)) == NoRoom);
}

#[test]
fn draft_not_mixing(rt: HostRuntime) {
    let begun = Draft::new(Memory::new(rt.alloc()), KEY, 4_096);
    assert!(rt; outcome_of(begun) == NotMixing);
}

// Whether a draft whose disk is frozen fails so.
fn is_frozen(draft: &mut Draft<TornDisk>) -> bool {
    outcome_of(draft.sync()) == DiskFails
        && outcome_of(draft.sync()) == Unusable
        && outcome_of(draft.append(b"")) == Unusable
}

#[test]
fn draft_unusable(rt: HostRuntime) {
    let disk = TornDisk::new(rt.alloc(), usize::MAX, 1);
    let Ok(mut draft) = Draft::new(disk, KEY, 4_096) else {
        panic!(&rt; "not begun");
    };
    assert!(rt; is_frozen(&mut draft));
    assert!(rt; outcome_of(draft.finish(1)) == Unusable);
}

// What becomes of the file of a journal.
enum Change {
    Stays,
    // These bytes are written at a place.
    Put(usize, &'static [u8]),
    // It ends here.
    End(usize),
}

// A file of another key, one that was changed where its second frame lies, one that ends behind its frames, and one without a
// byte: each is told with the place of the first frame that is none. Each change with the key that the file is recovered under.
static ROWS: [(Change, u64, Outcome); 6] = [
    (Change::Stays, KEY + 1, Damaged(Damage { at: 0, len: 76 })),
    (Change::Stays, KEY, Done),
    (
        Change::Put(50, b"dc"),
        KEY,
        Damaged(Damage { at: 26, len: 76 }),
    ),
    (Change::Put(50, b"cd"), KEY, Done),
    (Change::End(52), KEY, Damaged(Damage { at: 52, len: 52 })),
    (Change::End(0), KEY, Damaged(Damage { at: 0, len: 0 })),
];

// Whether a file can be changed so.
fn changes(disk: &mut TornDisk, change: &Change) -> bool {
    match change {
        Change::Stays => true,
        Change::Put(at, bytes) => disk.put(*at, bytes),
        Change::End(len) => disk.may_be_used() && disk.set_len(*len).is_ok(),
    }
}

static TWO: [Step; 2] = [Step::Append(&[b"ab", b"cd"], Done), Step::Sync(Done)];

// The file of a journal of two frames.
fn two_frames(rt: &impl Abort, alloc: Global) -> TornDisk {
    let mut journal = new_journal(rt, TornDisk::sound(alloc), 60);
    play(rt, alloc, &mut journal, &TWO);
    journal.into_disk()
}

#[test]
fn changed(rt: HostRuntime) {
    let mut disk = two_frames(&rt, rt.alloc());
    for (place, (change, key, outcome)) in ROWS.iter().enumerate() {
        assert!(rt; changes(&mut disk, change), "row {place}");
        let recovered = recover(rt.alloc(), &mut disk, *key);
        assert!(rt; outcome_of(recovered) == *outcome, "row {place}");
    }
}

// A length and part of a header, and then zeros.
const TORN: [u8; 32] = [
    0, 0, 0, 0, 0, 0, 0, 9, 0, 0, 0, 0, 0, 0, 0, 0, 0, 0, 0, 0, 0, 0, 0, 0, 0, 0, 0, 0, 0, 0, 0, 0,
];

// The whole frames of a file are counted, and a torn tail behind them is no damage.
#[test]
fn counted(rt: HostRuntime) {
    let mut file = frames_of(&rt, rt.alloc(), &[b"ab", b"cde"]);
    assert!(rt; file.extend_from_slice(&TORN).is_ok());
    let found = whole_frames(KEY, &file);
    assert!(rt; found == Ok(WholeFrames { count: 2, end: 53 }));
}

// A disk of which no journal is opened is given back.
#[test]
fn not_opened(rt: HostRuntime) {
    let Err(not) = Journal::open(rt.alloc(), TornDisk::sound(rt.alloc()), KEY) else {
        panic!(&rt; "an empty file was opened");
    };
    assert!(rt; reason(&not.why) == Damaged(Damage { at: 0, len: 0 }));
    assert!(rt; not.disk.bytes().is_empty());
}

//! Two desks of a new store, and the keeper of its journal.
ghost use Rattle.std.specs.Prelude.{◌≡◌, [], Some};
ghost use Rattle.journal_file.specs.Journal.{key_of, IsJournal};

use crate::tests::KEY;
use crate::tests::acme::settings;
use crate::tests::keeper::location::{Ends, Location};
use crate::tests::keeper::requests::{Asked, large_settings};
use crate::tests::keeper::stage::{Desks, Stage};
use crate::tests::keeper::steps::{Kept, Step};
use crate::tests::torn_disk::TornDisk;
use journal_file::{Journal, JournalError};
use journal_frames::{Frames, HEADER_LEN};
use journal_keeper::{Journalled, Keeper, KeeperNumbers, SharedKeeper};
use std::alloc::Global;
use std::marker::Brand;
use std::process::Abort;
use std::sync::Wait;
use std::sync::ledger::{Blank, Ledger};
use std::time;
use tus_shared::{Desk, Opened, Shared};
use upload_book::Settings;

// The room of a new journal, which is enough for what is kept here.
const ROOM: usize = 1000;

// What a test does.
#[derive(Clone, Copy)]
enum Scene {
    // These two have the keeper behind its lock.
    OneSyncServesBoth,
    RoomIsMade,
    Lent(Lent),
}

// What is done with a keeper that is lent.
#[derive(Clone, Copy)]
enum Lent {
    DiskIsNearlyFull { granted: u64 },
    // These steps at the first desk.
    Steps(&'static [Step]),
    IsLeftAfterACrash,
    IsMadeSmall { ends: Ends },
}

impl Scene {
    fn settings(self, rt: &impl Abort) -> Settings {
        match self {
            Scene::Lent(Lent::IsMadeSmall { .. }) => large_settings(rt),
            _ => settings(rt),
        }
    }

    // What becomes of a new journal.
    fn ends(self) -> Ends {
        match self {
            Scene::Lent(Lent::IsMadeSmall { ends }) => ends,
            _ => Ends::Nowhere,
        }
    }
}

// Whether a keeper told of one sync of two records, and of what its file has.
fn are_of_two(numbers: &KeeperNumbers, file: &[u8]) -> bool {
    numbers.synced.syncs == 1
        && numbers.synced.records == 2
        && count(file) == 2
        && numbers.file_bytes == file.len() as u64
        && numbers.bytes == len_of_frames(file)
}

// Whether a keeper keeps what a desk has seen, and nothing else.
fn keeps_seen<C: Journalled, R: Ledger, M: Ledger>(
    keeper: &Keeper<TornDisk, C>,
    desk: &Desk<C, R, M>,
) -> bool {
    let seen = desk.seen_events();
    let kept = keeper.kept();
    seen.begins(&kept) && kept.begins(&seen)
}

// How much room a desk has, where it is to have room for 200 bytes of records.
fn granted_for_records<C: Journalled, R: Ledger, M: Ledger>(
    keeper: &mut Keeper<TornDisk, C>,
    desk: &mut Desk<C, R, M>,
    location: &Location,
) -> u64 {
    keeper.make_room(desk, 200, location);
    desk.room()
}

// On a full disk no room is granted, and a change is refused. An upload can still be ended, and all is kept.
static FULL_DISK: [Step; 8] = [
    Step::Grant(65_536 + 100),
    Step::Makes(Asked::Create),
    Step::HasNoMoreRoom(2_000),
    Step::Refuses(Asked::Create),
    Step::Makes(Asked::Delete(b"/files/acme/1")),
    Step::Keeps(Kept::Done),
    Step::IsKept(true),
    Step::HasFailed(false, 1),
];

// After a sync that failed the desk is told nothing, and nothing more is kept.
static SYNC_FAILS: [Step; 6] = [
    Step::Grant(1 << 20),
    Step::Makes(Asked::Create),
    Step::Keeps(Kept::DiskFails),
    Step::IsKept(false),
    Step::Keeps(Kept::HasEnded),
    Step::HasFailed(true, 0),
];

// How many records stand in frames under the key, up to ten.
fn count(frames: &[u8]) -> u64 {
    let mut frames = Frames::new(KEY, frames);
    let mut found: u64 = 0;
    for _ in 0..10 {
        if frames.next().is_ok() {
            found = found.saturating_add(1);
        }
    }
    found
}

// How many bytes the frames under the key have, up to ten of them.
fn len_of_frames(file: &[u8]) -> u64 {
    let mut frames = Frames::new(KEY, file);
    let mut len: u64 = 0;
    for _ in 0..10 {
        if let Ok(payload) = frames.next() {
            len = len.saturating_add((HEADER_LEN + payload.len()) as u64);
        }
    }
    len
}

// Two changes that are kept, and one that is not.
static TWO_OF_THREE: [Step; 5] = [
    Step::Grant(1 << 20),
    Step::Makes(Asked::Create),
    Step::Makes(Asked::Delete(b"/files/acme/1")),
    Step::Keeps(Kept::Done),
    Step::Makes(Asked::Create),
];

// How many records are found after a crash that lost what this seed says.
fn left_by(rt: &impl Abort, alloc: Global, disk: &TornDisk, seed: u64) -> u64 {
    let left = disk.after_crash(seed).expect(rt, "memory");
    let Ok(opened) = Journal::open_or_create(alloc, left, KEY) else {
        panic!(rt; "not opened");
    };
    count(&opened.frames)
}

// Whether what a crash leaves is damaged under another key.
fn is_damaged(rt: &impl Abort, alloc: Global, disk: &TornDisk) -> bool {
    let left = disk.after_crash(0).expect(rt, "memory");
    matches!(
        Journal::open_or_create(alloc, left, KEY + 1),
        Err(JournalError::Damaged(_))
    )
}

fn assert_two_left(rt: &impl Abort, alloc: Global, disk: &TornDisk) {
    for seed in 0..3 {
        assert!(rt; left_by(rt, alloc, disk, seed) == 2);
    }
    assert!(rt; is_damaged(rt, alloc, disk));
}

impl<C: Journalled, R: Ledger, M: Ledger, W: Wait + Abort + time::Clock> Stage<'_, '_, C, R, M, W> {
    // Each of two desks creates an upload.
    fn create_two(&self, desks: &mut Desks<C, R, M>) {
        desks.first.grant(1 << 20);
        desks.second.grant(1 << 20);
        assert!(self.rt; self.makes(&mut desks.first, Asked::Create));
        assert!(self.rt; self.makes(&mut desks.second, Asked::Create));
    }

    // Whether what one desk has kept is kept of the other too, which is only told so.
    fn serves_both(&self, keeper: &SharedKeeper<TornDisk, C>, desks: &mut Desks<C, R, M>) -> bool {
        let Desks { first, second } = desks;
        if first.is_kept() || second.is_kept() {
            return false;
        }
        if keeper.keep(self.rt, self.shared, first).is_err() {
            return false;
        }
        if !first.is_kept() || second.is_kept() {
            return false;
        }
        keeper.keep(self.rt, self.shared, second).is_ok() && second.is_kept()
    }

    fn one_sync_serves_both(&self, keeper: Keeper<TornDisk, C>, desks: &mut Desks<C, R, M>) {
        self.create_two(desks);
        let keeper = SharedKeeper::new(keeper);
        assert!(self.rt; self.serves_both(&keeper, desks));
        let numbers = keeper.numbers(self.rt);
        let keeper = keeper.into_keeper();
        assert!(self.rt; keeps_seen(&keeper, &desks.second));
        assert!(self.rt; are_of_two(&numbers, keeper.disk().bytes()));
    }

    // How much room a desk of a new journal has, where it asks for so many bytes.
    fn room_for(
        &self,
        keeper: &SharedKeeper<TornDisk, C>,
        desk: &mut Desk<C, R, M>,
        bytes: u64,
    ) -> u64 {
        keeper.make_room(self.rt, desk, bytes, self.location);
        desk.room()
    }

    // Whether a desk is granted 65,536 bytes and 4 MiB beyond what it asks for, and nothing where it has enough. What stands
    // beside the journal stays.
    fn has_enough(&self, keeper: &SharedKeeper<TornDisk, C>, desk: &mut Desk<C, R, M>) -> bool {
        self.room_for(keeper, desk, 100) == 100 + 65_536 + 4_194_304
            && self.room_for(keeper, desk, 4_194_304) == 100 + 65_536 + 4_194_304
            && !self.location.was_taken_away()
    }

    fn room_is_made(&self, keeper: Keeper<TornDisk, C>, desk: &mut Desk<C, R, M>) {
        let keeper = SharedKeeper::new(keeper);
        assert!(self.rt; self.has_enough(&keeper, desk));
        assert!(self.rt; keeper.into_keeper().disk().bytes().len() > 4_259_940);
    }

    // On a disk without room for 4 MiB ahead a desk is granted this room for 200 bytes of records, and the next one nothing. What
    // stands beside the journal is given up first.
    fn disk_is_nearly_full(
        &self,
        keeper: &mut Keeper<TornDisk, C>,
        desks: &mut Desks<C, R, M>,
        granted: u64,
    ) {
        let Desks { first, second } = desks;
        assert!(self.rt; granted_for_records(keeper, first, self.location) == granted);
        assert!(self.rt; self.location.was_taken_away());
        assert!(self.rt; granted_for_records(keeper, second, self.location) == 0);
    }

    // After a crash all that was kept is found, whatever else was lost; and nothing under another key.
    fn is_left_after_a_crash(&self, keeper: &mut Keeper<TornDisk, C>, desk: &mut Desk<C, R, M>) {
        self.play(keeper, desk, &TWO_OF_THREE);
        assert_two_left(self.rt, self.alloc, keeper.disk());
    }

    // Plays a scene with a keeper that is lent.
    fn perform_lent(
        &self,
        keeper: &mut Keeper<TornDisk, C>,
        desks: &mut Desks<C, R, M>,
        scene: Lent,
    ) {
        match scene {
            Lent::DiskIsNearlyFull { granted } => self.disk_is_nearly_full(keeper, desks, granted),
            Lent::Steps(steps) => self.play(keeper, &mut desks.first, steps),
            Lent::IsLeftAfterACrash => self.is_left_after_a_crash(keeper, &mut desks.first),
            Lent::IsMadeSmall { ends } => self.is_made_small(keeper, &mut desks.first, ends),
        }
    }

    // The same with a keeper that is let go then.
    fn perform_owned(
        &self,
        mut keeper: Keeper<TornDisk, C>,
        desks: &mut Desks<C, R, M>,
        scene: Lent,
    ) {
        self.perform_lent(&mut keeper, desks, scene);
    }

    // Plays a scene at two desks.
    fn perform(&self, keeper: Keeper<TornDisk, C>, desks: &mut Desks<C, R, M>, scene: Scene) {
        match scene {
            Scene::OneSyncServesBoth => self.one_sync_serves_both(keeper, desks),
            Scene::RoomIsMade => self.room_is_made(keeper, &mut desks.first),
            Scene::Lent(lent) => self.perform_owned(keeper, desks, lent),
        }
    }
}

// Plays a scene where the desks stand in a list.
fn perform_at<C: Journalled, R: Ledger, M: Ledger, W: Wait + Abort + time::Clock>(
    stage: &Stage<'_, '_, C, R, M, W>,
    keeper: Keeper<TornDisk, C>,
    mut desks: Vec<Desk<C, R, M>>,
    scene: Scene,
) {
    let second = desks.pop().expect(stage.rt, "two desks");
    let first = desks.pop().expect(stage.rt, "two desks");
    let mut desks = Desks { first, second };
    stage.perform(keeper, &mut desks, scene);
}

// Plays a scene at two desks of a new store, over an empty journal.
fn play_scene<C: Journalled, R: Ledger, M: Ledger, W: Wait + Abort + time::Clock>(
    rt: &W,
    alloc: Global,
    settings: Settings,
    charged: Blank,
    released: Blank,
    made: Blank,
    events: Opened,
    journal: Journal<TornDisk>,
    scene: Scene,
)
    requires settings { settings ≡ C.settings }
    requires desks { C.desks ≡ 2 }
    requires charged { (charged.name ≡ C.name) × (charged.parts ≡ C.parts) × (C.parts ≡ 16) }
    requires released { (released.name ≡ R.name) × (released.parts ≡ R.parts) × (R.parts ≡ 16) }
    requires made { (made.name ≡ M.name) × (made.parts ≡ M.parts) × (M.parts ≡ 16) }
    requires log { events.seen.book ≡ C.log }
    requires journal { C.journal ≡ Some 7 }
    requires key { key_of journal ≡ 7 }
    requires empty { IsJournal journal [] [] }
{
    let durable = events.seen.again();
    let keeper = Keeper::<TornDisk, C>::new(alloc, journal, durable);
    let opened = Shared::<C, R, M, &W>::open(
        rt,
        alloc,
        settings,
        2,
        charged,
        released,
        made,
        events,
        Some(KEY),
    );
    let Ok((shared, desks)) = opened else {
        panic!(rt; "no store");
    };
    let location = Location::new(alloc, scene.ends());
    let stage = Stage {
        rt,
        alloc,
        shared: &shared,
        location: &location,
    };
    perform_at(&stage, keeper, desks, scene);
}

// The scene over a disk with room for so many bytes, that is frozen after so many calls.
fn play_at<W: Wait + Abort + time::Clock>(
    rt: &W,
    alloc: Global,
    all: usize,
    calls: u64,
    scene: Scene,
) {
    let Ok(journal) = Journal::create(TornDisk::new(alloc, all, calls), KEY, ROOM) else {
        panic!(rt; "no journal");
    };
    play_scene::<Brand, Brand, Brand, W>(
        rt,
        alloc,
        scene.settings(rt),
        Blank::new(16),
        Blank::new(16),
        Blank::new(16),
        Opened::new(),
        journal,
        scene,
    );
}

// The scene over a disk that neither fills up nor fails.
fn play_sound<W: Wait + Abort + time::Clock>(rt: &W, alloc: Global, scene: Scene) {
    play_at(rt, alloc, usize::MAX, u64::MAX, scene);
}

#[test]
fn one_sync_serves_two_desks(rt: HostRuntime) {
    play_sound(&rt, rt.alloc(), Scene::OneSyncServesBoth);
}

#[test]
fn room_is_granted(rt: HostRuntime) {
    play_sound(&rt, rt.alloc(), Scene::RoomIsMade);
}

// So many bytes are left for records, and the room that a desk is granted then.
static LEFT: [(usize, u64); 4] = [
    (65_736, 65_736),
    (65_735, 65_536),
    (65_536, 65_536),
    (65_535, 0),
];

#[test]
fn a_nearly_full_disk(rt: HostRuntime) {
    for (left, granted) in &LEFT {
        let scene = Lent::DiskIsNearlyFull { granted: *granted };
        play_at(&rt, rt.alloc(), left + 16, u64::MAX, Scene::Lent(scene));
    }
}

#[test]
fn a_full_disk(rt: HostRuntime) {
    let scene = Scene::Lent(Lent::Steps(&FULL_DISK));
    play_at(&rt, rt.alloc(), ROOM + 16, u64::MAX, scene);
}

// Making the journal takes three calls, and keeping what waits a write and a sync.
#[test]
fn a_sync_that_fails(rt: HostRuntime) {
    let scene = Scene::Lent(Lent::Steps(&SYNC_FAILS));
    play_at(&rt, rt.alloc(), usize::MAX, 4, scene);
}

#[test]
fn what_was_kept_is_left(rt: HostRuntime) {
    play_sound(&rt, rt.alloc(), Scene::Lent(Lent::IsLeftAfterACrash));
}

#[test]
fn a_journal_is_made_small(rt: HostRuntime) {
    for ends in [
        Ends::InPlace,
        Ends::Beside,
        Ends::Unsure,
        Ends::Nowhere,
        Ends::Full,
    ] {
        play_sound(&rt, rt.alloc(), Scene::Lent(Lent::IsMadeSmall { ends }));
    }
}

// A new journal asks for the length of its file, writes and syncs a slice, and then writes zeros and syncs them.
#[test]
fn a_new_journal_whose_disk_fails(rt: HostRuntime) {
    for calls in 0..14 {
        let ends = Ends::FailsAfter(calls);
        play_sound(&rt, rt.alloc(), Scene::Lent(Lent::IsMadeSmall { ends }));
    }
}

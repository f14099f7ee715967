//! A journal that has become large, and is made small.

use crate::tests::KEY;
use crate::tests::keeper::location::{Ends, Location};
use crate::tests::keeper::requests::{Asked, large_settings};
use crate::tests::keeper::stage::Stage;
use crate::tests::keeper::steps::Looked::Told;
use crate::tests::keeper::steps::{Kept, Looked, Step};
use crate::tests::torn_disk::TornDisk;
use book_replay::replay;
use journal_file::Journal;
use journal_frames::Frames;
use journal_keeper::Compacted::{Ended, GivenUp, GoesOn, Rests, Shortened};
use journal_keeper::{Journalled, Keeper};
use std::alloc::Global;
use std::process::Abort;
use std::sync::Wait;
use std::sync::ledger::Ledger;
use std::time;
use tus_shared::Desk;

// Five uploads of 12 MiB, each of which comes and goes.
static GONE: [&[u8]; 5] = [
    b"/files/acme/1",
    b"/files/acme/2",
    b"/files/acme/3",
    b"/files/acme/4",
    b"/files/acme/5",
];

// How many bytes such an upload has.
const PASSING: usize = 12 << 20;

// One of two blocks, which is there while the journal is made small.
static GOES_LATER: &[u8] = b"/files/acme/6";

const TWO_BLOCKS: usize = 65_537;

// As long as the uploads are there, the journal is not large; how long the file is that a keeper begins with is not known. Then
// they go.
static BECOMES_LARGE: [Step; 9] = [
    Step::Keeps(Kept::Done),
    Step::Looks(Told(Shortened)),
    Step::Looks(Told(Rests)),
    Step::Makes(Asked::Delete(b"/files/acme/1")),
    Step::Makes(Asked::Delete(b"/files/acme/2")),
    Step::Makes(Asked::Delete(b"/files/acme/3")),
    Step::Makes(Asked::Delete(b"/files/acme/4")),
    Step::Makes(Asked::Delete(b"/files/acme/5")),
    Step::Keeps(Kept::Done),
];

// An upload that comes while the journal is made small, and stays.
static COMES_MEANWHILE: [Step; 3] = [
    Step::Makes(Asked::Begin),
    Step::Makes(Asked::Patch(b"/files/acme/7", b"kept")),
    Step::Keeps(Kept::Done),
];

// The file that the new journal was written to was longer before. It has three times the bytes that were held, and 64 MiB; and
// where less is held, no more than the frames and the zeros. One that is kept has at most twice that.
static IS_SHORTENED: [Step; 7] = [
    Step::FileHas(67_502_080, 135_004_160),
    Step::Looks(Told(Rests)),
    Step::Makes(Asked::Delete(b"/files/acme/6")),
    Step::Keeps(Kept::Done),
    Step::Looks(Told(Shortened)),
    Step::FileIsShort(134_610_944),
    Step::Looks(Told(Rests)),
];

static NO_STEP: [Step; 0] = [];

// What is done once it is known what became of the new journal.
fn steps_after(ends: Ends) -> &'static [Step] {
    match ends {
        Ends::InPlace => &IS_SHORTENED,
        _ => &NO_STEP,
    }
}

// The bytes of an upload that goes.
fn bytes(rt: &impl Abort, alloc: Global, count: usize) -> Vec<u8> {
    vec![in alloc; 7u8; count].expect(rt, "memory")
}

// Whether two looks told what becomes of a new journal that ends so.
fn are_told(ends: Ends, begun: Looked, ended: Looked) -> bool {
    match ends {
        Ends::InPlace => begun == Told(GoesOn) && ended == Told(Ended),
        Ends::Beside | Ends::Full => begun == Told(GoesOn) && ended == Told(GivenUp),
        Ends::Nowhere => begun == Told(GivenUp) && ended == Told(Rests),
        Ends::Unsure => ended == Looked::Unsure,
        Ends::FailsAfter(_) => is_given_up(begun, ended) || ended == Told(Ended),
    }
}

// Whether one of two looks told that a new journal was given up.
fn is_given_up(begun: Looked, ended: Looked) -> bool {
    begun == Told(GivenUp) || ended == Told(GivenUp)
}

// Whether the journal is as two looks told that it was made small, or not.
fn is_as_told<C: Journalled>(
    keeper: &Keeper<TornDisk, C>,
    location: &Location,
    ends: Ends,
    begun: Looked,
    ended: Looked,
) -> bool {
    let has_ended = ended == Told(Ended);
    are_told(ends, begun, ended)
        && is_given_up(begun, ended) == location.was_taken_away()
        && keeper.has_failed() == matches!(ends, Ends::Unsure)
        && has_ended == (keeper.numbers().bytes < 67_000)
        && has_ended == location.was_let_go()
}

// Whether it marks how many bytes its frames have, and nothing once keeping has failed.
fn marks<C: Journalled>(keeper: &Keeper<TornDisk, C>, location: &Location) -> bool {
    keeper.mark(location);
    let bytes = if keeper.has_failed() {
        0
    } else {
        keeper.numbers().bytes
    };
    location.marked() == bytes
}

// How many uploads a book is to have after a crash.
fn uploads_after(ends: Ends) -> u64 {
    match ends {
        Ends::InPlace => 1,
        _ => 2,
    }
}

// Whether so many uploads are left after a crash that loses all that was not synced, and the next gets the id after them.
fn is_left(rt: &impl Abort, alloc: Global, disk: &TornDisk, uploads: u64) -> bool {
    let left = disk.after_crash(1).expect(rt, "memory");
    let Ok(opened) = Journal::open_or_create(alloc, left, KEY) else {
        panic!(rt; "not opened");
    };
    let Ok(book) = replay(alloc, large_settings(rt), Frames::new(KEY, &opened.frames)) else {
        panic!(rt; "not replayed");
    };
    book.upload_count(0) == uploads && book.next_id(0) == 8
}

impl<C: Journalled, R: Ledger, M: Ledger, W: Wait + Abort + time::Clock> Stage<'_, '_, C, R, M, W> {
    // Whether an upload is begun, and gets these bytes.
    fn uploads(&self, desk: &mut Desk<C, R, M>, path: &'static [u8], bytes: &[u8]) -> bool {
        self.makes(desk, Asked::Begin) && self.makes(desk, Asked::Patch(path, bytes))
    }

    // Uploads all that goes: these bytes five times, and those of two blocks.
    fn upload_all(&self, desk: &mut Desk<C, R, M>, body: &[u8], two_blocks: &[u8]) {
        for path in GONE {
            assert!(self.rt; self.uploads(desk, path, body));
        }
        assert!(self.rt; self.uploads(desk, GOES_LATER, two_blocks));
    }

    // Makes the journal 60 MiB long and somewhat longer, by uploads that come and go.
    fn make_large(&self, keeper: &mut Keeper<TornDisk, C>, desk: &mut Desk<C, R, M>) {
        let body = bytes(self.rt, self.alloc, PASSING);
        let two_blocks = bytes(self.rt, self.alloc, TWO_BLOCKS);
        desk.grant(1 << 30);
        self.upload_all(desk, &body, &two_blocks);
        self.play(keeper, desk, &BECOMES_LARGE);
    }

    /// A journal of more than 48 MiB whose uploads are gone is made small, while one that comes meanwhile is kept; or the old
    /// one goes on.
    pub(crate) fn is_made_small(
        &self,
        keeper: &mut Keeper<TornDisk, C>,
        desk: &mut Desk<C, R, M>,
        ends: Ends,
    ) {
        self.make_large(keeper, desk);
        let begun = self.look(keeper);
        self.play(keeper, desk, &COMES_MEANWHILE);
        let ended = self.look(keeper);
        assert!(self.rt; is_as_told(keeper, self.location, ends, begun, ended));
        self.play(keeper, desk, steps_after(ends));
        assert!(self.rt; marks(keeper, self.location));
        assert!(self.rt; is_left(self.rt, self.alloc, keeper.disk(), uploads_after(ends)));
    }
}

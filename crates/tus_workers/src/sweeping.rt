//! When a worker ends the uploads that have expired.
ghost use Rattle.std.specs.Prelude.{◌≡◌, ◌↔◌, ◌⊎◌, IsTrue, Some};
ghost use Rattle.tus_workers.specs.Serving.{SweepsExpired, SweepsKept};

use crate::keeping::Keeping;
use std::mem;
use std::sync::Wait;
use std::sync::ledger::Ledger;
use tus_shared::{Charges, Desk, Shared};
use upload_book::Moment;

/// At which moment it was last asked whether uploads have expired, and how often such were ended of which nobody was told.
#[derive(Clone, Copy)]
pub(crate) struct Sweeping {
    asked: Option<Moment>,
    sweeps: u64,
}

impl Sweeping {
    /// Nobody has asked yet.
    pub fn new() -> Self {
        Sweeping {
            asked: None,
            sweeps: 0,
        }
    }

    /// How often uploads were ended, since this was last asked.
    pub fn take_sweeps(&mut self) -> u64
        ensures { result ≡ self.old.sweeps }
    {
        mem::replace(&mut self.sweeps, 0)
    }

    // Whether it was last asked at this moment.
    fn was_asked(&self, now: Moment) -> bool
        ensures { IsTrue result ↔ (self.now.asked ≡ Some now) }
    {
        self.asked == Some(now)
    }

    /// Ends the uploads that have expired at this moment, as [`sweep_expired`] does, unless it was asked for that before.
    pub fn sweep_once<C: Charges, R: Ledger, M: Ledger, W: Wait, B: Wait + Drop>(
        &mut self,
        rt: &W,
        desk: &mut Desk<C, R, M>,
        shared: &Shared<C, R, M, B>,
        now: Moment,
    )
        ensures sweeps { SweepsExpired C.settings now desk.old desk.new ⊎ (desk.new ≡ desk.old) }
        ensures asked { self.new.asked ≡ Some now }
    {
        if self.was_asked(now) {
            return;
        }
        self.asked = Some(now);
        if sweep_expired(rt, desk, shared, now) {
            self.sweeps = self.sweeps.saturating_add(1);
        }
    }

    /// The same at a desk whose changes may be kept: room for the record of that is made first.
    pub fn sweep_kept<
        C: Charges,
        R: Ledger,
        M: Ledger,
        W: Wait,
        B: Wait + Drop,
        K: Keeping<C, R, M, B>,
    >(
        &mut self,
        rt: &W,
        desk: &mut Desk<C, R, M>,
        shared: &Shared<C, R, M, B>,
        keeping: &K,
        now: Moment,
    )
        ensures sweeps { SweepsKept C.settings now desk.old desk.new }
        ensures asked { self.new.asked ≡ Some now }
    {
        self.make_room(rt, desk, keeping, now);
        self.sweep_once(rt, desk, shared, now);
    }

    /// Sees to it that there is room for the record of a sweep, unless it was asked for one at this moment before.
    pub fn make_room<
        C: Charges,
        R: Ledger,
        M: Ledger,
        W: Wait,
        B: Wait + Drop,
        K: Keeping<C, R, M, B>,
    >(&self, rt: &W, desk: &mut Desk<C, R, M>, keeping: &K, now: Moment)
        ensures { desk.new ≡ record desk.old { room = desk.new.room } }
    {
        if !self.was_asked(now) {
            keeping.make_room(rt, desk, 0);
        }
    }
}

/// Ends the uploads that have expired at this moment, where the heads tell, beside the lock, that there may be some. Else it
/// takes no lock, and nothing is shown for nothing. It may wait for other desks. It tells whether it looked for them with the
/// lock.
pub(crate) fn sweep_expired<C: Charges, R: Ledger, M: Ledger, W: Wait, B: Wait + Drop>(
    rt: &W,
    desk: &mut Desk<C, R, M>,
    shared: &Shared<C, R, M, B>,
    now: Moment,
) -> bool
    ensures { SweepsExpired C.settings now desk.old desk.new }
{
    if desk.may_sweep(now) {
        let _swept = desk.sweep(rt, shared, now);
        return true;
    }
    false
}

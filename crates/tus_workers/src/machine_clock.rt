ghost use Rattle.std.specs.Prelude.{IfSome, ◌≡◌};

use http_wire::Clock;
use std::time;
use std::time::{SystemTime, UNIX_EPOCH};
use upload_book::Moment;

/// The last second that a moment may be: the end of the year 9999.
const LAST_SECOND: u64 = 253_402_300_799;

/// The clock of a worker: it stands still where a moment was set, and tells the machine's time where not.
#[derive(Drop)]
pub struct MachineClock<'a, H> {
    rt: &'a H,
    set: Option<Moment>,
}

impl<'a, H: time::Clock> MachineClock<'a, H> {
    /// A clock that stands at the moment that is set, if any.
    pub fn new(rt: &'a H, set: Option<Moment>) -> Self
        ensures { result.set ≡ set }
    {
        MachineClock { rt, set }
    }

    // The seconds since 1970 that the machine tells: 0 where its clock can't be read, or is set before that.
    fn seconds(&self) -> u64 {
        let Ok(now) = SystemTime::now(self.rt) else {
            return 0;
        };
        match now.duration_since(UNIX_EPOCH) {
            Ok(since) => since.as_secs(),
            Err(_) => 0,
        }
    }
}

impl<'a, H: time::Clock> Clock for MachineClock<'a, H> {
    ghost tells = { λ before now after. (after ≡ before) × IfSome before.set (λ set. now ≡ set) };

    fn moment(&mut self) -> Moment {
        match self.set {
            Some(set) => set,
            None => Moment::new(self.seconds().min(LAST_SECOND)).unwrap(),
        }
    }
}

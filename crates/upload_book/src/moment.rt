ghost use Rattle.std.specs.Prelude.{◌≡◌, ◌+◌, ◌≤◌, min, SomeIff};

use std::marker::Model;
use tus_text::LAST_SECOND;

/// A moment in whole seconds since the first of January 1970, UTC: 0 to 253,402,300,799, the last
/// second that a date of HTTP can name. A contract sees the number of seconds.
#[derive(Clone, Copy, Debug, PartialEq, Eq, PartialOrd, Ord)]
pub struct Moment {
    secs: u64,
}

impl Model for Moment {
    ghost use Rattle.std.specs.Prelude.{ℕ, ◌≤◌};

    ghost Value = { ℕ };

    ghost view = { λ m. m.secs };

    ghost invariant = { λ m. m.secs ≤ 253402300799 };

    ghost inverse = { λ n. record { secs = n } };
}

impl Moment {
    /// The moment `secs` seconds after the first of January 1970, or None past the year 9999.
    pub fn new(secs: u64) -> Option<Moment>
        ensures { SomeIff result (secs ≤ 253402300799) secs }
    {
        if secs <= LAST_SECOND {
            Some(Moment { secs })
        } else {
            None
        }
    }

    /// The seconds since the first of January 1970.
    pub fn secs(self) -> u64
        ensures value { result ≡ self }
        ensures range { result ≤ 253402300799 }
    {
        self.secs
    }

    /// The moment `secs` seconds later, or the last one that there is.
    pub(crate) fn after(self, secs: u64) -> Moment
        ensures { result ≡ min (self + secs) 253402300799 }
    {
        Moment {
            secs: self.secs.saturating_add(secs).min(LAST_SECOND),
        }
    }
}

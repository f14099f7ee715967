ghost use Rattle.std.specs.Prelude.{◌≡◌, ℕ};

use upload_book::Moment;

/// What tells the moment of a message. It is asked after the message has come, since that may take long.
pub trait Clock {
    // What it may tell: asked in one state, it tells this moment, and is in another state then.
    ghost tells: { Self → ℕ → Self → Type 0 };

    /// The moment it is. Nothing is owed on how the moments of two calls stand to each other.
    fn moment(&mut self) -> Moment
        ensures { tells self.old result self.new };
}

// A clock that stands still.
impl Clock for Moment {
    ghost tells = { λ before now after. (now ≡ before) × (after ≡ before) };

    fn moment(&mut self) -> Moment {
        *self
    }
}

/// Where a turn of a desk stands.
#[derive(Clone, Copy, Debug, PartialEq, Eq)]
pub enum Stop {
    /// It has not taken the lock yet.
    Before,
    /// It has the lock, and has changed nothing.
    Locked,
    /// It has its reply, and has let go of the lock.
    Answered,
}

/// What each turn of a desk passes on its way, so that a test can hold one desk until another has come to
/// some place. It owes nothing but to return.
pub trait Gate {
    /// The desk of this number comes to this stop of one of its turns. Both are counted from 0.
    fn pass(&self, desk: usize, turn: usize, stop: Stop);
}

/// The gate that holds nobody.
#[derive(Clone, Copy, Debug)]
pub struct NoGate;

impl Gate for NoGate {
    fn pass(&self, _desk: usize, _turn: usize, _stop: Stop) {}
}

/// Why the record of a change is not queued, where changes are journalled.
#[derive(Clone, Copy, Debug, PartialEq, Eq)]
pub enum Unqueued {
    /// There is no frame of it: memory lacked for one, or the record is longer than a frame holds.
    NoFrame,
    /// The room of the desk is less than the frame and what the change has to spare.
    NoRoom,
    /// All places of the queue are taken, and memory lacked for one more.
    NoPlace,
}

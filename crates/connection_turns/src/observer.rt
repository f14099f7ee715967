//! What sees the reads, answers and writes of a turn.
use http_wire::Connection;

/// What sees the reads, answers and writes of a turn, in their order. It changes nothing of them.
pub trait Observer {
    /// So many bytes were read.
    fn has_read(&mut self, bytes: usize);

    /// So many bytes were sent.
    fn has_sent(&mut self, bytes: usize);

    /// What came in is to be answered now.
    fn asks(&mut self, connection: &Connection);

    /// It was answered. The reply, if there is one, stands behind what was pending when it was asked.
    fn has_answered(&mut self, connection: &Connection);
}

/// Nobody watches.
#[derive(Clone, Copy)]
pub struct Unwatched;

impl Observer for Unwatched {
    fn has_read(&mut self, _bytes: usize) {}

    fn has_sent(&mut self, _bytes: usize) {}

    fn asks(&mut self, _connection: &Connection) {}

    fn has_answered(&mut self, _connection: &Connection) {}
}

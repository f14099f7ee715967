use crate::pace::ClientBounds;
use upload_book::Moment;

/// What each worker was asked for.
#[derive(Clone, Copy)]
pub struct WorkOptions {
    /// The moment of every message; the machine's clock where there is none.
    pub moment: Option<Moment>,
    /// How many connections it accepts.
    pub connections: u64,
    /// How many of them it holds at once, 1 or more.
    pub at_once: usize,
    /// What a client may take at most.
    pub bounds: ClientBounds,
    /// The size of the pieces in which bodies without a checksum are stored as they come; bodies are gathered where there is none.
    /// 0 is none.
    pub piece: Option<usize>,
    /// The most bytes of a body that may not come in pieces, where they are fewer than those of the greatest upload and 16,777,216.
    pub max_body: Option<u64>,
    /// How many bytes all workers together may hold of bodies that are half read, and of replies that are half sent.
    pub body_memory: u64,
    /// Whether clients are served by the readiness of their streams even where each worker holds one at a time, as replies have
    /// to be that are held back, and as a log and numbers want it.
    pub by_readiness: bool,
    /// Whether a GET may ask for a range of an upload's bytes.
    pub ranges: bool,
    /// For how many seconds messages that are under way may still end once a stop was asked for; none where nobody can ask for
    /// one.
    pub grace: Option<u64>,
}

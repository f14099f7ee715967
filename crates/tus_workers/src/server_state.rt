//! What the workers of a server know of each other.

use crate::bodies::Bodies;
use access_log::Watching;
use connection_turns::WorkOptions;
use std::alloc::{AllocError, Global};
use std::io::Eprint;
use std::net::{Net, TcpListener};
use std::sync::atomic::{AtomicBool, AtomicU64, Ordering};
use std::sync::{Mutex, Wait};
use std::{io, time};

/// The most bodies that stand in the table of all workers.
const BODIES_MAX: usize = 65_536;

/// What the workers of a server know of each other.
#[derive(Drop)]
pub struct ServerState {
    // How many workers there are.
    pub(crate) workers: u64,
    // How many connections are open.
    pub(crate) open: AtomicU64,
    // The bodies under way, and what wakes the workers.
    pub(crate) bodies: Bodies,
    // Whether each of them waits for its clients in turn.
    waits_for_each: bool,
    // How many workers have begun, and how many of them have ended.
    begun: AtomicU64,
    ended: AtomicU64,
    // It was told that some have not.
    has_told: AtomicBool,
    // Nothing more can be kept that is to be kept.
    is_over: AtomicBool,
    // A stop was asked for.
    is_stopping: AtomicBool,
    // How they are watched, if they are.
    pub(crate) watching: Option<Watching>,
    // Where numbers are asked for, until a worker has taken it.
    metrics: Mutex<Option<TcpListener>>,
}

impl ServerState {
    /// What so many workers with these options know at first: there are no connections, and no bodies. The error is that there
    /// is no memory for the table of these.
    pub fn new(alloc: Global, workers: usize, options: &WorkOptions) -> Result<Self, AllocError> {
        let places = workers.saturating_mul(options.at_once).min(BODIES_MAX);
        Ok(ServerState {
            workers: workers as u64,
            open: AtomicU64::new(0),
            bodies: Bodies::new(alloc, workers, places, options.body_memory)?,
            waits_for_each: waits_for_each(options),
            begun: AtomicU64::new(0),
            ended: AtomicU64::new(0),
            has_told: AtomicBool::new(false),
            is_over: AtomicBool::new(false),
            is_stopping: AtomicBool::new(false),
            watching: None,
            metrics: Mutex::new(None),
        })
    }

    /// Has the workers watched, and asked for numbers at the listener `metrics`, where there is one. It is to be called before
    /// they begin, and the options say that they are.
    pub fn watch_by(&mut self, watching: Watching, metrics: Option<TcpListener>) {
        self.watching = Some(watching);
        self.metrics = Mutex::new(metrics);
    }

    /// The listener at which numbers are asked for. It is there once.
    pub(crate) fn take_metrics<W: Wait>(&self, rt: &W) -> Option<TcpListener> {
        self.metrics.lock(rt).take()
    }

    /// Makes what tells the workers of events, where they hold many clients. It is to be called before they begin. The error is
    /// the system's.
    pub fn watch<N: Net>(&mut self, net: &N) -> io::Result<()> {
        if self.waits_for_each {
            return Ok(());
        }
        self.bodies.watch(net)
    }

    /// Waits until the log has all of its lines, where there is one, for some seconds at most. It is to be called after the
    /// workers have ended.
    pub(crate) fn finish_log<H: Wait + Eprint + time::Clock>(&self, rt: &H) {
        if let Some(watching) = &self.watching {
            watching.finish(rt);
        }
    }

    /// Notes that a worker has begun.
    pub(crate) fn begin(&self) {
        self.begun.fetch_add(1, Ordering::Relaxed);
    }

    /// Notes that a worker has ended.
    pub(crate) fn finish(&self) {
        self.ended.fetch_add(1, Ordering::Relaxed);
    }

    /// Whether of all workers that have begun one alone has not ended.
    pub(crate) fn has_one_left(&self) -> bool {
        let ended = self.ended.load(Ordering::Relaxed);
        self.begun.load(Ordering::Relaxed).saturating_sub(ended) <= 1
    }

    /// Notes that a stop was asked for, and wakes the workers that wait for events. Each ends in order by itself; none is waited
    /// for.
    pub(crate) fn stop(&self) {
        self.is_stopping.store(true, Ordering::Relaxed);
        self.bodies.wake_all();
    }

    /// Whether a stop was asked for.
    pub(crate) fn is_stopping(&self) -> bool {
        self.is_stopping.load(Ordering::Relaxed)
    }

    /// Notes that nothing more can be kept that is to be kept, so all workers are to end.
    pub(crate) fn end_all(&self) {
        self.is_over.store(true, Ordering::Relaxed);
    }

    /// Whether all workers are to end.
    pub(crate) fn are_to_end(&self) -> bool {
        self.is_over.load(Ordering::Relaxed)
    }

    /// Whether some worker has not begun, and this was not asked while it was so.
    pub(crate) fn lacks_threads(&self) -> bool {
        self.begun.load(Ordering::Relaxed) < self.workers
            && !self.has_told.swap(true, Ordering::Relaxed)
    }
}

/// Whether a worker waits for each of its clients in turn: it may, it holds one at a time, no ranges are served, bodies are gathered, and no bound
/// needs a look at the clock while it waits. Sixteen such workers can't hold more than 268,435,456 bytes of bodies.
pub(crate) fn waits_for_each(options: &WorkOptions) -> bool {
    !options.by_readiness
        && !options.ranges
        && options.piece.is_none()
        && options.max_body.is_none()
        && options.at_once <= 1
        && options.bounds.message_seconds == 0
        && options.bounds.least_rate == 0
        && options.body_memory >= 268_435_456
}

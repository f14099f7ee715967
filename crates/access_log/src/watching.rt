//! How the workers of a server are watched.

use crate::log_writer::{LogTarget, LogWriter};
use crate::resident::resident_bytes;
use service_watch::Counts;
use std::alloc::Global;
use std::fs::File;
use std::io::Eprint;
use std::sync::{Mutex, MutexGuard, Wait};
use std::thread::Threads;
use std::time;

/// How the workers of a server are watched, and what they have counted.
#[derive(Drop)]
pub struct Watching {
    pub(crate) counts: Mutex<Counts>,
    log: Option<LogWriter>,
    // The file by which the system tells how many pages of the process are in memory.
    pages: Option<File>,
}

impl Watching {
    /// A log, where there is one. By the file `pages` the system tells how many pages of the process are in memory, as
    /// `/proc/self/statm` of Linux. The log is written by a thread of its own; where that can't be had, this is said on standard
    /// error, and every line of it is counted as lost.
    pub fn new<H: Threads + Wait + Eprint + time::Clock + Copy + Send + 'static>(
        rt: &H,
        alloc: Global,
        log: Option<LogTarget>,
        pages: Option<File>,
    ) -> Self {
        let log = match log {
            Some(target) => Some(LogWriter::start(rt, alloc, target)),
            None => None,
        };
        Watching {
            counts: Mutex::new(Counts::new(alloc)),
            log,
            pages,
        }
    }

    /// Whether there is a log.
    pub(crate) fn has_log(&self) -> bool {
        self.log.is_some()
    }

    /// All that was counted, under its lock, with the lines that the log has lost since this was last asked. Workers that have
    /// something to count wait until the guard is dropped.
    pub fn lock_counts<'a, W: Wait>(&'a self, rt: &W) -> MutexGuard<'a, Counts> {
        let mut counts = self.counts.lock(rt);
        counts.lost_lines = counts.lost_lines.saturating_add(self.take_lost());
        counts
    }

    /// The bytes of the process that are in memory; none where the system does not tell them.
    pub fn resident_bytes(&self) -> Option<u64> {
        resident_bytes(&self.pages)
    }

    /// Has lines written to the log, and gives how many of them are lost, since there is no room for them.
    pub(crate) fn write<W: Wait>(&self, rt: &W, lines: &[u8]) -> u64 {
        match &self.log {
            Some(log) => log.put(rt, lines),
            None => 0,
        }
    }

    // How many lines could not be written, since this was last asked.
    fn take_lost(&self) -> u64 {
        match &self.log {
            Some(log) => log.take_lost(),
            None => 0,
        }
    }

    /// Waits until the log has all of its lines, for 5 seconds at most. It takes no more from then on: those are lost. Where some
    /// are left then that are for a file, this is said on standard error.
    pub fn finish<H: Wait + Eprint + time::Clock>(&self, rt: &H) {
        if let Some(log) = &self.log {
            log.finish(rt);
        }
    }
}

//! The writer of a log: a thread of its own, so that no worker waits for whoever reads the log.
ghost use Rattle.std.specs.Prelude.{◌≡◌, ◌≤◌, ◌++◌, ◌-◌, false, length, take, true, vec_capacity};
ghost use Rattle.access_log.specs.Lines.{FirstLines, HasPut, IsWhole, LosesLast, line_count};

use std::alloc::{AllocError, Global};
use std::fs::File;
use std::io::{Eprint, ErrorKind, Write};
use std::sync::atomic::{AtomicU64, Ordering};
use std::sync::{Arc, Condvar, CondvarTimeouts, Mutex, Wait};
use std::thread::{Threads, sleep, spawn};
use std::time::Duration;
use std::{mem, str, time};

/// The most bytes of lines that wait to be written: more than the requests of one round of a worker can have, each with the
/// longest target.
const WAITING_MAX: usize = 16_777_216;

/// The most room of a list of lines that is kept for the next ones.
const ROOM_KEPT: usize = 1_048_576;

/// Lines of fewer bytes were few, so that others gather before the next write, for so many milliseconds.
const FEW_BYTES: usize = 65_536;

const GATHER_MILLIS: u64 = 5;

/// For how many seconds the end of a server waits at most for lines that are not written yet.
const END_SECONDS: u64 = 5;

/// Where the lines of a log go.
#[derive(Drop)]
pub enum LogTarget {
    /// To standard error.
    Errors,
    /// To the end of a file that was opened for that.
    File(File),
}

/// What workers have of a log: they put lines, which a thread writes.
#[derive(Drop)]
pub(crate) struct LogWriter {
    // None where there is no such thread.
    queue: Option<Arc<Queue, Global>>,
    // Whether the lines go to a file, and not to standard error.
    has_file: bool,
}

impl LogWriter {
    /// Starts the thread. Where it can't be had, that is said on standard error, and every line will be lost.
    pub fn start<H: Threads + Wait + Eprint + time::Clock + Copy + Send + 'static>(
        rt: &H,
        alloc: Global,
        target: LogTarget,
    ) -> Self {
        let has_file = match &target {
            LogTarget::Errors => false,
            LogTarget::File(_) => true,
        };
        let queue = start_writing(*rt, alloc, target).ok();
        if queue.is_none() {
            let _ = rt.eprintln(
                "tus-server: no log is written, since there is no thread or no memory for it",
            );
        }
        LogWriter { queue, has_file }
    }

    /// Puts lines behind those that wait, as many of the first ones as there is room and memory for, and waits for nobody who
    /// reads them. It gives how many are lost: the others, the last ones.
    pub fn put<W: Wait>(&self, rt: &W, lines: &[u8]) -> u64
        ensures lost { LosesLast lines.now result }
    {
        match &self.queue {
            Some(queue) => queue.put(rt, lines),
            None => line_count(lines),
        }
    }

    /// How many lines were put and could not be written, since this was last asked.
    pub fn take_lost(&self) -> u64 {
        match &self.queue {
            Some(queue) => queue.lost.swap(0, Ordering::SeqCst),
            None => 0,
        }
    }

    /// Waits until all lines were written, for some seconds at most. No more are taken. Where some are left then that are for a
    /// file, this is said on standard error.
    pub fn finish<H: Wait + Eprint + time::Clock>(&self, rt: &H) {
        let Some(queue) = &self.queue else {
            return;
        };
        if !queue.finish(rt) && self.has_file {
            let _ = rt.eprintln("tus-server: the log lacks its last lines, since nobody took them");
        }
    }
}

/// Lines on their way to a log.
#[derive(Drop)]
struct Waiting {
    lines: Vec<u8>,
    // No more are put.
    is_complete: bool,
    // None is left, and none is being written.
    is_written: bool,
}

impl Waiting {
    // Puts as many of the first lines as there is room for, or none where memory is lacking, and gives how many bytes these have.
    fn put(&mut self, lines: &[u8]) -> usize
        ensures puts { self.new.lines.items ≡ self.old.lines.items ++ take result lines.now }
        ensures first { self.old.is_complete ≡ false → HasPut (16777216 - length self.old.lines.items) (vec_capacity self.old.lines - length self.old.lines.items) lines.now result }
        ensures within { result ≤ length lines.now }
        ensures whole { IsWhole (take result lines.now) }
        ensures room { length self.old.lines.items ≤ 16777216 → length self.new.lines.items ≤ 16777216 }
        ensures complete { self.old.is_complete ≡ true → result ≡ 0 }
        ensures stays { (self.new.is_complete ≡ self.old.is_complete) × (self.new.is_written ≡ self.old.is_written) }
    {
        if self.is_complete {
            return 0;
        }
        let room = WAITING_MAX.saturating_sub(self.lines.len());
        let fitting = whole_lines(lines, room);
        match self.lines.extend_from_slice(fitting) {
            Ok(()) => fitting.len(),
            Err(_) => 0,
        }
    }
}

/// What workers and the thread that writes share.
#[derive(Drop)]
struct Queue {
    waiting: Mutex<Waiting>,
    // Lines came, or no more will.
    came: Condvar,
    // All were written.
    written: Condvar,
    // How many could not be written, of which nobody was told.
    lost: AtomicU64,
}

impl Queue {
    // Puts as many of the first lines as there is room and memory for, and gives how many are lost.
    fn put<W: Wait>(&self, rt: &W, lines: &[u8]) -> u64
        ensures lost { LosesLast lines.now result }
    {
        let mut waiting = self.waiting.lock(rt);
        let put = waiting.put(lines);
        drop(waiting);
        self.came.notify_one();
        line_count(lines.split_at(put).1)
    }

    // Waits for lines, and exchanges them for this empty list. It is false once no more come.
    fn take<W: Wait>(&self, rt: &W, lines: &mut Vec<u8>) -> bool {
        let waiting = self.waiting.lock(rt);
        let mut waiting = self.came.wait_while(rt, waiting, |waiting| {
            waiting.lines.is_empty() && !waiting.is_complete
        });
        mem::swap(&mut waiting.lines, lines);
        waiting.is_written = lines.is_empty();
        !waiting.is_written
    }

    // Waits until all were written, for some seconds at most; whether they were.
    fn finish<W: Wait + time::Clock>(&self, rt: &W) -> bool {
        let mut waiting = self.waiting.lock(rt);
        waiting.is_complete = true;
        self.came.notify_one();
        let most = Duration::from_secs(END_SECONDS);
        let (waiting, _) = self
            .written
            .wait_timeout_while(rt, waiting, most, |waiting| !waiting.is_written);
        waiting.is_written
    }
}

// Starts the thread that writes what is put to the queue. The error is that there is no memory or no thread.
fn start_writing<H: Threads + Wait + Eprint + time::Clock + Copy + Send + 'static>(
    rt: H,
    alloc: Global,
    target: LogTarget,
) -> Result<Arc<Queue, Global>, AllocError> {
    let waiting = Waiting {
        lines: Vec::new(alloc),
        is_complete: false,
        is_written: false,
    };
    let queue = Arc::new(
        alloc,
        Queue {
            waiting: Mutex::new(waiting),
            came: Condvar::new(),
            written: Condvar::new(),
            lost: AtomicU64::new(0),
        },
    )?;
    let theirs = Arc::try_clone(&queue)?;
    // It is not joined: it may wait for a reader that never comes, and ends with the process.
    let _ = spawn(&rt, move || write_lines(&rt, alloc, &theirs, &target))?;
    Ok(queue)
}

// Writes what is put, until no more is.
fn write_lines<H: Wait + Eprint + time::Clock>(
    rt: &H,
    alloc: Global,
    queue: &Queue,
    target: &LogTarget,
) {
    let mut lines = Vec::new(alloc);
    let mut is_torn = false;
    for _ in rt.forever() {
        if !queue.take(rt, &mut lines) {
            queue.written.notify_all();
            return;
        }
        let lost = write(rt, target, &lines, &mut is_torn);
        queue.lost.fetch_add(lost, Ordering::SeqCst);
        let were_few = lines.len() < FEW_BYTES;
        if lines.capacity() > ROOM_KEPT {
            lines = Vec::new(alloc);
        }
        lines.clear();
        if were_few {
            sleep(rt, Duration::from_millis(GATHER_MILLIS));
        }
    }
}

// Writes lines, and gives how many of them were not written whole. A file ends within a line after such a one (`is_torn`), and
// the next lines begin behind the end of it.
fn write<H: Eprint>(rt: &H, target: &LogTarget, lines: &[u8], is_torn: &mut bool) -> u64 {
    match target {
        LogTarget::Errors => print_each(rt, lines),
        LogTarget::File(file) => {
            if *is_torn && !write_front(file, b"\n").is_empty() {
                return line_count(lines);
            }
            let rest = write_front(file, lines);
            let written = lines.len().saturating_sub(rest.len());
            let (front, _) = lines.split_at(written);
            *is_torn = !front.is_empty() && !front.ends_with(b"\n");
            line_count(rest)
        }
    }
}

// Writes as many of the first bytes as can be written, and gives the rest.
fn write_front<'a>(file: &File, bytes: &'a [u8]) -> &'a [u8] {
    let mut file = file;
    let mut rest = bytes;
    for _ in 0..u64::MAX {
        if rest.is_empty() {
            return rest;
        }
        match file.write(rest) {
            Ok(0) => return rest,
            Ok(count) => rest = rest.get(count..).unwrap_or(b""),
            Err(error) => match error.kind() {
                ErrorKind::Interrupted => {}
                _ => return rest,
            },
        }
    }
    rest
}

// Prints each line to standard error by itself, and gives how many could not be printed.
fn print_each<H: Eprint>(rt: &H, lines: &[u8]) -> u64 {
    let mut lost: u64 = 0;
    for line in lines.split_inclusive(|byte| *byte == b'\n') {
        if !is_printed(rt, line) {
            lost = lost.saturating_add(1);
        }
    }
    lost
}

fn is_printed<H: Eprint>(rt: &H, line: &[u8]) -> bool {
    match str::from_utf8(line) {
        Ok(text) => rt.eprint(text).is_ok(),
        Err(_) => false,
    }
}

// The first of these lines, as many as have so many bytes together at most.
fn whole_lines(lines: &[u8], most: usize) -> &[u8]
    ensures { FirstLines most lines.now result.now }
{
    let front = lines.get(..most).unwrap_or(lines);
    for end in (0..front.len()).rev() {
        if front[end] == b'\n' {
            return front.split_at(end + 1).0;
        }
    }
    b""
}

/// How many lines these are.
fn line_count(lines: &[u8]) -> u64
    ensures { result ≡ line_count lines.now }
{
    lines.iter().filter(|byte| **byte == b'\n').count() as u64
}

//! What a worker has seen, until it is told.

use crate::seen::{Answered, Record, Seen};
use crate::watching::Watching;
use service_watch::{
    Counts, Cut, CutLine, Log, RequestLine, Word, count_named, count_reply, method_name,
};
use std::alloc::{AllocError, Global};
use std::net::SocketAddr;
use std::sync::Wait;
use std::time::Instant;
use std::{mem, time};
use tus_text::Path;
use upload_book::Moment;

/// Something that is to be told.
#[derive(Drop)]
enum Finished {
    /// A request whose reply was sent, or can't be.
    Request {
        peer: Option<SocketAddr>,
        answered: Answered,
        micros: u64,
        was_sent: bool,
    },
    /// A connection that was cut off.
    Cut {
        peer: Option<SocketAddr>,
        cut: Cut,
    },
}

/// What a worker has seen, until it is told at the end of a round.
#[derive(Drop)]
pub struct Watch<'a> {
    alloc: Global,
    watching: &'a Watching,
    // When its clock began.
    start: Instant,
    finished: Vec<Finished>,
    log: Log,
    received: u64,
    sent: u64,
    accepted: u64,
    sweeps: u64,
    // How many lines were lost that nobody counted yet.
    lost: u64,
}

impl<'a> Watch<'a> {
    /// Nothing was seen yet by a worker whose clock began at `start`. What it sees is counted and logged by `watching`.
    pub fn new(alloc: Global, watching: &'a Watching, start: Instant) -> Self {
        Watch {
            alloc,
            watching,
            start,
            finished: Vec::new(alloc),
            log: Log::new(alloc),
            received: 0,
            sent: 0,
            accepted: 0,
            sweeps: 0,
            lost: 0,
        }
    }

    /// The microseconds since its clock began; 0 where the clock of the machine can't be read.
    pub fn micros<H: time::Clock>(&self, rt: &H) -> u64 {
        match self.start.elapsed(rt) {
            Ok(elapsed) => elapsed
                .as_secs()
                .saturating_mul(1_000_000)
                .saturating_add(u64::from(elapsed.subsec_micros())),
            Err(_) => 0,
        }
    }

    /// What is to be seen of a client at this address. Where there is no memory for that, nothing is.
    pub fn record(&self, peer: Option<SocketAddr>) -> Seen {
        Seen::new(Box::new(self.alloc, Record::new(self.alloc, peer)).ok())
    }

    /// Notes that a connection was accepted.
    pub fn accept(&mut self) {
        self.accepted = self.accepted.saturating_add(1);
    }

    /// Notes that uploads that had expired were ended so often.
    pub fn sweep(&mut self, sweeps: u64) {
        self.sweeps = self.sweeps.saturating_add(sweeps);
    }

    /// Takes what was seen of a client after a turn that ended at this microsecond of the worker's clock, of whose replies so many
    /// bytes are not sent yet. A request is told once all of its reply was sent, or the connection has ended. Where memory is
    /// lacking, a request is counted as lost.
    pub fn gather(&mut self, seen: &mut Seen, micros: u64, unsent: u64, has_ended: bool) {
        let Some(record) = &mut seen.record else {
            return;
        };
        hand_on(&mut record.received, &mut self.received);
        hand_on(&mut record.sent, &mut self.sent);
        hand_on(&mut record.lost, &mut self.lost);
        let sent = record.sent_among(unsent);
        let told = if has_ended {
            record.answered.len()
        } else {
            sent
        };
        if told == 0 {
            return;
        }
        let peer = record.peer;
        for (place, answered) in record.answered.drain(..told).enumerate() {
            let micros = micros.saturating_sub(answered.began);
            let was_sent = place < sent && answered.status.is_some();
            self.finish(Finished::Request {
                peer,
                answered,
                micros,
                was_sent,
            });
        }
    }

    /// Notes that a client of which this was seen is cut off, and why.
    pub fn cut(&mut self, seen: &Seen, cut: Cut) {
        let peer = match &seen.record {
            Some(record) => record.peer,
            None => None,
        };
        self.finish(Finished::Cut { peer, cut });
    }

    fn finish(&mut self, finished: Finished) {
        if self.finished.push(finished).is_err() {
            self.lost = self.lost.saturating_add(1);
        }
    }

    /// Counts what was seen since this was last called, and has its lines put to the log, with this moment. Lines for which there
    /// is no room, or no memory, are counted as lost.
    pub fn publish<W: Wait>(&mut self, rt: &W, now: Moment) {
        if self.is_quiet() {
            return;
        }
        let finished = mem::replace(&mut self.finished, Vec::new(self.alloc));
        if self.watching.has_log() {
            for line in finished.iter() {
                self.put_line(line, now);
            }
            self.write(rt);
        }
        self.count(rt, &finished);
    }

    // Whether nothing was seen.
    fn is_quiet(&self) -> bool {
        self.finished.is_empty()
            && self.received == 0
            && self.sent == 0
            && self.accepted == 0
            && self.sweeps == 0
            && self.lost == 0
    }

    // Has the lines that wait written. Those for which there is no room are lost.
    fn write<W: Wait>(&mut self, rt: &W) {
        let lines = self.log.waiting();
        if !lines.is_empty() {
            self.lost = self.lost.saturating_add(self.watching.write(rt, lines));
        }
        self.log.clear();
    }

    // Puts the line of what is to be told behind those that wait.
    fn put_line(&mut self, finished: &Finished, now: Moment) {
        let is_put = match finished {
            Finished::Request {
                peer,
                answered,
                micros,
                was_sent,
            } => put_request(
                self.alloc,
                &mut self.log,
                now,
                *peer,
                answered,
                *micros,
                *was_sent,
            ),
            Finished::Cut { peer, cut } => put_cut(self.alloc, &mut self.log, now, *peer, *cut),
        };
        if is_put.is_err() {
            self.lost = self.lost.saturating_add(1);
        }
    }

    // Adds what was seen to the counts of all workers.
    fn count<W: Wait>(&mut self, rt: &W, finished: &[Finished]) {
        let mut counts = self.watching.counts.lock(rt);
        for finished in finished {
            if count_finished(&mut counts, finished).is_err() {
                self.lost = self.lost.saturating_add(1);
            }
        }
        hand_on(&mut self.received, &mut counts.received);
        hand_on(&mut self.sent, &mut counts.sent);
        hand_on(&mut self.accepted, &mut counts.accepted);
        hand_on(&mut self.sweeps, &mut counts.sweeps);
        hand_on(&mut self.lost, &mut counts.lost_lines);
    }
}

// Adds a number to another, and begins it again at 0.
fn hand_on(number: &mut u64, to: &mut u64) {
    *to = to.saturating_add(*number);
    *number = 0;
}

// Puts the line of a request. The error is that memory is lacking; then the line is lost.
fn put_request(
    alloc: Global,
    log: &mut Log,
    now: Moment,
    peer: Option<SocketAddr>,
    answered: &Answered,
    micros: u64,
    was_sent: bool,
) -> Result<(), AllocError> {
    let peer = peer_text(alloc, peer)?;
    let path = path_text(alloc, answered)?;
    let line = RequestLine {
        moment: now,
        peer: peer.as_bytes(),
        tenant: tenant_of(&answered.path),
        method: answered.method,
        path: path.as_slice(),
        status: answered.status,
        word: answered.word.as_slice(),
        received: answered.received,
        sent: answered.sent,
        micros,
        was_sent,
    };
    if log.put_request(&line) {
        Ok(())
    } else {
        Err(AllocError)
    }
}

// Puts the line of a connection that was cut off. The error is that memory is lacking; then the line is lost.
fn put_cut(
    alloc: Global,
    log: &mut Log,
    now: Moment,
    peer: Option<SocketAddr>,
    cut: Cut,
) -> Result<(), AllocError> {
    let peer = peer_text(alloc, peer)?;
    let line = CutLine {
        moment: now,
        peer: peer.as_bytes(),
        cut,
    };
    if log.put_cut(&line) {
        Ok(())
    } else {
        Err(AllocError)
    }
}

// The address and the port of a client; nothing where they are not known.
fn peer_text(alloc: Global, peer: Option<SocketAddr>) -> Result<String, AllocError> {
    match peer {
        Some(peer) => peer.to_string(alloc),
        None => Ok(String::new(alloc)),
    }
}

// The name of the tenant that a path names.
fn tenant_of(path: &Path) -> &[u8] {
    match path {
        Path::Create { tenant } => tenant.as_slice(),
        Path::Upload { tenant, .. } => tenant.as_slice(),
        Path::Other => b"",
    }
}

// The text of a path.
fn path_text(alloc: Global, answered: &Answered) -> Result<Vec<u8>, AllocError> {
    let mut text = Vec::new(alloc);
    match &answered.path {
        Path::Create { tenant } => {
            text.extend_from_slice(b"/files/")?;
            text.extend_from_slice(tenant.as_slice())?;
        }
        Path::Upload { tenant, id } => {
            let id = id.to_string(alloc)?;
            text.extend_from_slice(b"/files/")?;
            text.extend_from_slice(tenant.as_slice())?;
            text.extend_from_slice(b"/")?;
            text.extend_from_slice(id.as_bytes())?;
        }
        Path::Other => text.extend_from_slice(&answered.target)?,
    }
    Ok(text)
}

// Counts what is told. The error is that memory is lacking for a name that was not counted before.
fn count_finished(counts: &mut Counts, finished: &Finished) -> Result<(), AllocError> {
    match finished {
        Finished::Request {
            answered,
            micros,
            ..
        } => {
            counts.seconds.count_request(*micros);
            if let Some(status) = answered.status {
                count_reply(&mut counts.replies, &word_of_method(answered), status)?;
            }
            if !answered.word.is_empty() {
                count_named(&mut counts.refusals, &answered.word)?;
            }
            Ok(())
        }
        Finished::Cut { cut, .. } => count_named(&mut counts.cuts, &Word::of(cut.name())),
    }
}

fn word_of_method(answered: &Answered) -> Word {
    match answered.method {
        Some(method) => Word::of(method_name(method)),
        None => Word::of(b"none"),
    }
}

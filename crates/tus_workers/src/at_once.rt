//! A worker that serves many clients at once, over its one desk.
ghost use Rattle.std.specs.Prelude.{◌≡◌, ◌+◌, ◌≤◌, ◌<◌, ◌^◌, ℕ, None, Some, IfSome, min, true, false, unwrap_or};
ghost use Rattle.http_wire.specs.RequestLimits.{AreSmall};

use crate::accept::Accept;
use crate::at_desk::AtDesk;
use crate::at_kept_desk::AtKeptDesk;
use crate::clients::Clients;
use crate::connections::Connections;
use crate::door::{Door, Entry, LISTENER};
use crate::keeping::{Compacting, Keeping};
use crate::machine_clock::MachineClock;
use crate::noting::{NotedReply, Noting};
use crate::server_state::ServerState;
use crate::stream::MESSAGES_MAX;
use crate::sweeping::Sweeping;
use crate::worker::Worker;
use crate::workers::Workers;
use access_log::Watch;
use admin_port::{ASKERS_MAX, MetricsDoor};
use connection_turns::{ClientConnection, Durability, WorkOptions};
use core::mem::replace_with;
use http_wire::{Clock, RequestLimits};
use mio::Events;
use std::alloc::AllocError;
use std::io::Eprint;
use std::sync::Wait;
use std::sync::atomic::Ordering;
use std::sync::ledger::Ledger;
use std::time::{Duration, Instant};
use std::{io, time};
use tus_shared::{Charges, Desk, NoGate};
use upload_book::Settings;

/// The most bytes of a body that is gathered, which is 16 MiB.
const GATHERED_MAX: u64 = 16_777_216;

/// How many events are taken at once.
const EVENTS_MAX: usize = 256;

/// For how many milliseconds a worker waits at most, so that each second is seen.
const TICK_MILLIS: u64 = 250;

/// For how many milliseconds a worker that has more clients than others leaves the next one to these.
const MANNERS_MILLIS: u64 = 1;

/// What a worker has besides its door and its desk.
#[derive(Drop)]
struct Rounds<'a, 'n, H: Wait + time::Clock> {
    connections: Connections<'a, 'n, H>,
    // Where numbers are asked for, if it is at this worker.
    metrics: Option<MetricsDoor>,
    clock: MachineClock<'a, H>,
    // When it was asked at the desk whether uploads have expired.
    sweeping: Sweeping,
    // Of how many clients it has told the others.
    told: u64,
    // It has left a connection to other workers, which may wait still.
    has_waited: bool,
    // It was told that a connection waits.
    has_rung: bool,
    // When it began, and the last second since then that it saw; 0 is none yet.
    start: Option<Instant>,
    second: u64,
    // The second at which it accepted nothing more, since a stop was asked for.
    stopped: Option<u64>,
}

impl<
    'a,
    C: Charges,
    R: Ledger,
    M: Ledger,
    H: Wait + Eprint + time::Clock,
    B: Wait + Drop,
    K: Keeping<C, R, M, B>,
> Workers<'a, C, R, M, H, B, K> {
    /// Serves the clients that come in, side by side, at most as many as the options say, until all connections were accepted
    /// and have ended. A fault of a connection ends that connection alone, and an accept that fails is tried again. Where
    /// there is no memory for the clients, or the system tells of no more events, the worker ends, and says so on standard
    /// error. Where nothing more can be kept that is to be kept, all workers end. Once a stop was asked for it accepts
    /// nothing more, and ends when its clients have, at the latest after the grace.
    pub(crate) fn work_at_once<A: Accept>(&self, number: usize, worker: &mut Worker<C, R, M, A>)
        requires alive { A.has_failed worker.old.acceptor ≡ false }
        requires unstopped { A.is_stopped worker.old.acceptor ≡ false }
        requires new { A.accepted worker.old.acceptor ≡ 0 }
        ensures all { A.has_failed worker.new.acceptor ≡ false → A.is_stopped worker.new.acceptor ≡ false
            → A.accepted worker.new.acceptor ≡ self.now.options.connections }
        ensures most { A.accepted worker.new.acceptor ≤ self.now.options.connections }
        ensures unasked { self.now.options.grace ≡ None → A.is_stopped worker.new.acceptor ≡ false }
    {
        let poll = self.server_state.bodies.take_poll(self.rt, number);
        let noted = NotedReply::new(None);
        let prepared = self.prepare_connections(number, worker.desk.settings(), &noted);
        let (Some(poll), Ok((mut rounds, mut events))) = (poll, prepared) else {
            self.say("tus-server: a worker ended, since it found no memory for its clients");
            worker.acceptor.give_up();
            return;
        };
        let mut door = Door::new(poll, self.options.connections);
        if !self.go_round(worker, &mut door, &mut rounds, &mut events) {
            worker.acceptor.give_up();
        }
    }

    // The clients of this worker, of which there are none yet, and the room for events. What a reply tells is put to `noted`. The
    // error is that there is no memory.
    fn prepare_connections<'n>(
        &self,
        number: usize,
        settings: &Settings,
        noted: &'n NotedReply,
    ) -> Result<(Rounds<'a, 'n, H>, Events), AllocError> {
        let events = Events::with_capacity(self.alloc, EVENTS_MAX)?;
        let clients = Clients::new(
            self.rt,
            self.alloc,
            &self.server_state.bodies,
            number,
            self.options.bounds,
            settings.copied(),
            self.options.at_once,
            self.watch(),
            noted,
        )?;
        let rounds = Rounds {
            connections: Connections::new(self.alloc, clients, self.options.at_once)?,
            metrics: None,
            clock: MachineClock::new(self.rt, self.options.moment),
            sweeping: Sweeping::new(),
            told: 0,
            has_waited: false,
            has_rung: false,
            start: Instant::now(self.rt).ok(),
            second: 0,
            stopped: None,
        };
        Ok((rounds, events))
    }

    // What this worker sees, where it is watched and the machine's clock can be read.
    fn watch(&self) -> Option<Watch<'a>> {
        let watching = self.server_state.watching.as_ref()?;
        let start = Instant::now(self.rt).ok()?;
        Some(Watch::new(self.alloc, watching, start))
    }

    // Opens the door, and goes round until all connections were accepted and have ended, or a stop was asked for; then it winds
    // up. Where numbers are asked for at this worker, it also waits for the other workers. It is false where the system failed
    // before that, or nothing more could be kept.
    fn go_round<A: Accept>(
        &self,
        worker: &mut Worker<C, R, M, A>,
        door: &mut Door,
        rounds: &mut Rounds<'a, '_, H>,
        events: &mut Events,
    ) -> bool
        requires unstopped { A.is_stopped worker.old.acceptor ≡ false }
        requires within { A.accepted worker.old.acceptor + door.old.left < 2 ^ 64 }
        ensures counts { A.accepted worker.new.acceptor + door.new.left
            ≡ A.accepted worker.old.acceptor + door.old.left }
        ensures failed { A.has_failed worker.new.acceptor ≡ A.has_failed worker.old.acceptor }
        ensures done { result ≡ true → A.is_stopped worker.new.acceptor ≡ false → door.new.left ≡ 0 }
        ensures unasked { self.now.options.grace ≡ None → A.is_stopped worker.new.acceptor ≡ false }
    {
        if door.open(&mut worker.acceptor).is_err() {
            self.say("tus-server: a worker ended, since it is told of no connections");
            return false;
        }
        rounds.metrics = self.open_metrics(door);
        for _ in 0..u64::MAX {
            if self.is_to_stop() {
                worker.acceptor.stop();
                return self.wind_up(worker, door, rounds, events);
            }
            if door.is_done() && self.may_leave(rounds) {
                return true;
            }
            if !self.goes_on(door, rounds, events) {
                return false;
            }
            self.serve_all(&mut worker.desk, rounds, events);
            self.take_in(worker, door, rounds);
            rounds.publish();
            self.answer_questions(&mut worker.desk, door, rounds, events);
        }
        false
    }

    // Lets go who has no message under way, and goes round until the others have had their replies; after the grace it cuts
    // off who is left. Where numbers are asked for at this worker, it also waits for the other workers. It is false where the
    // system failed before that, or nothing more could be kept.
    fn wind_up<A: Accept>(
        &self,
        worker: &mut Worker<C, R, M, A>,
        door: &mut Door,
        rounds: &mut Rounds<'a, '_, H>,
        events: &mut Events,
    ) -> bool
        ensures acceptor { worker.new.acceptor ≡ worker.old.acceptor }
        ensures left { door.new.left ≡ door.old.left }
    {
        events.clear();
        rounds.stopped = Some(second_since(self.rt, &rounds.start));
        for _ in 0..u64::MAX {
            self.serve_all(&mut worker.desk, rounds, events);
            self.tell_of_clients(rounds);
            rounds.publish();
            self.answer_questions(&mut worker.desk, door, rounds, events);
            if self.may_leave(rounds) {
                return true;
            }
            if !self.goes_on(door, rounds, events) {
                return false;
            }
        }
        false
    }

    // Waits for events. It is false where the system tells of none, which is said, or all workers are to end.
    fn goes_on(&self, door: &mut Door, rounds: &Rounds<'a, '_, H>, events: &mut Events) -> bool
        ensures { door.new.left ≡ door.old.left }
    {
        if self.server_state.are_to_end() {
            return false;
        }
        let most = Duration::from_millis(self.patience(door, rounds));
        if door.wait(events, most).is_err() {
            self.say("tus-server: a worker ended, since it is told of no events");
            return false;
        }
        true
    }

    // Whether nobody needs this worker any more: it has no clients, and where numbers are asked for here, the other workers
    // have ended, and each reply was sent.
    fn may_leave(&self, rounds: &Rounds<'a, '_, H>) -> bool {
        rounds.connections.clients.len() == 0
            && match &rounds.metrics {
                Some(metrics) => self.server_state.has_one_left() && !metrics.owes(),
                None => true,
            }
    }

    // Where numbers are asked for, at the first worker that asks for it. Where it can't be had, that is said.
    fn open_metrics(&self, door: &Door) -> Option<MetricsDoor> {
        let listener = self.server_state.take_metrics(self.rt)?;
        match MetricsDoor::open(self.alloc, listener, door.registry()) {
            Ok(metrics) => Some(metrics),
            Err(_) => {
                self.say("tus-server: nobody can ask for numbers, since no events tell of that");
                None
            }
        }
    }

    // Answers who asks for numbers.
    fn answer_questions(
        &self,
        desk: &mut Desk<C, R, M>,
        door: &Door,
        rounds: &mut Rounds<'a, '_, H>,
        events: &Events,
    ) {
        let (Some(metrics), Some(watching)) = (&mut rounds.metrics, &self.server_state.watching)
        else {
            return;
        };
        metrics.serve(self.alloc, door.registry(), events, rounds.second);
        for _ in 0..ASKERS_MAX {
            let Some(asked) = metrics.next_question() else {
                return;
            };
            let reply = self.reply_to(asked.question, watching, desk).ok();
            metrics.reply(asked.key, reply);
        }
    }

    // For how many milliseconds it may wait for events.
    fn patience(&self, door: &Door, rounds: &Rounds<'a, '_, H>) -> u64 {
        let may_come = rounds.stopped.is_none()
            && door.has_rung()
            && rounds.connections.clients.len() < self.options.at_once;
        if rounds.connections.has_more() || (may_come && !rounds.has_waited) {
            0
        } else if may_come {
            MANNERS_MILLIS
        } else {
            TICK_MILLIS
        }
    }

    // Serves the clients that are ready by the desk that the worker has.
    fn serve_all(&self, desk: &mut Desk<C, R, M>, rounds: &mut Rounds<'a, '_, H>, events: &Events) {
        replace_with(desk, (), |desk, _| {
            (self.serve_ready(desk, rounds, events), ())
        });
    }

    // Takes a turn of each client that is ready, had more to do, or waited for another one, and then sends what was held back.
    // In each new second those are cut off that are too late, uploads that have expired are ended, and what is kept is made
    // smaller, if it has become large; after the grace of a stop all are cut off.
    fn serve_ready(
        &self,
        desk: Desk<C, R, M>,
        rounds: &mut Rounds<'a, '_, H>,
        events: &Events,
    ) -> Desk<C, R, M> {
        let second = second_since(self.rt, &rounds.start);
        let mut at = AtDesk::new(self.rt, desk, self.shared, &NoGate);
        at.sweeping = rounds.sweeping;
        let kept = AtKeptDesk::new(at, self.keeping);
        let mut answerer = Noting::new(kept, rounds.connections.clients.noted());
        rounds.turn_ready(events, &mut answerer, second);
        self.send_kept(&mut answerer.inner, rounds, second);
        if rounds.is_over(second, self.options.grace) {
            rounds.connections.cut_all(&mut answerer, &mut rounds.clock);
            self.send_kept(&mut answerer.inner, rounds, second);
        }
        if second != rounds.second {
            rounds.pass_second(&mut answerer, second);
            answerer.inner.sweep_once(rounds.clock.moment());
            self.tell_of_threads(rounds.second);
            rounds.second = second;
            rounds.has_rung = true;
            // What came of a body that was cut off is kept, also where nobody is left.
            self.send_kept(&mut answerer.inner, rounds, second);
            self.note_compacting(answerer.inner.compact());
        }
        let at = answerer.into_inner().into_desk();
        rounds.sweeping = at.sweeping;
        rounds.note_sweeps();
        at.into_desk()
    }

    // Sends what was held back, after one sync for all; where nothing more can be kept, nothing is sent, and all workers are to
    // end. Where something was kept, what is kept is then made smaller, if it has become large.
    fn send_kept(
        &self,
        answerer: &mut AtKeptDesk<'a, C, R, M, H, B, NoGate, K>,
        rounds: &mut Rounds<'a, '_, H>,
        second: u64,
    ) {
        if !answerer.holds_back() {
            return;
        }
        let had_news = !answerer.desk().is_kept();
        if !answerer.keep() {
            self.server_state.end_all();
            return;
        }
        rounds.connections.send_held(answerer.desk(), second);
        if second != rounds.second {
            rounds.connections.send_late(answerer.desk(), second);
        }
        if had_news {
            self.note_compacting(answerer.compact_synced());
        }
    }

    // Says that what is kept could not be made smaller; where nothing more can be kept, all workers are to end.
    fn note_compacting(&self, compacting: Compacting) {
        match compacting {
            Compacting::Fine => {}
            Compacting::GivenUp => self.say(
                "tus-server: the journal can't be made smaller for want of memory or disk, and goes on as it is",
            ),
            Compacting::Failed => self.server_state.end_all(),
        }
    }

    // Takes in one client, if one waits; then uploads that have expired are ended. A worker that has more clients than others
    // leaves it to these at first.
    fn take_in<A: Accept>(
        &self,
        worker: &mut Worker<C, R, M, A>,
        door: &mut Door,
        rounds: &mut Rounds<'a, '_, H>,
    )
        requires unstopped { A.is_stopped worker.old.acceptor ≡ false }
        requires within { A.accepted worker.old.acceptor + door.old.left < 2 ^ 64 }
        ensures counts { A.accepted worker.new.acceptor + door.new.left
            ≡ A.accepted worker.old.acceptor + door.old.left }
        ensures failed { A.has_failed worker.new.acceptor ≡ A.has_failed worker.old.acceptor }
        ensures stopped { A.is_stopped worker.new.acceptor ≡ A.is_stopped worker.old.acceptor }
    {
        if rounds.has_rung {
            rounds.has_rung = false;
            door.ring();
        }
        self.tell_of_clients(rounds);
        if !door.has_rung() || rounds.connections.clients.len() >= self.options.at_once {
            return;
        }
        if !rounds.has_waited && self.has_more_than_others(rounds) {
            rounds.has_waited = true;
            return;
        }
        rounds.has_waited = false;
        match door.accept(&mut worker.acceptor) {
            Entry::Came(stream) => {
                let max_size = worker.desk.settings().numbers().max_size;
                let piece = piece_of(&self.options);
                let limits = limits_of(&self.options, piece, max_size);
                let client_connection = ClientConnection::new(limits, piece, MESSAGES_MAX);
                let second = rounds.second;
                rounds
                    .connections
                    .clients
                    .admit(door.registry(), stream, client_connection, second);
                let now = rounds.clock.moment();
                rounds
                    .sweeping
                    .sweep_kept(self.rt, &mut worker.desk, self.shared, self.keeping, now);
                rounds.note_sweeps();
            }
            Entry::Refused => self.say(
                "tus-server: no connection can be accepted at the moment, and it is tried again",
            ),
            Entry::Nobody => {}
        }
    }

    // Whether it has more clients than others, by more than one.
    fn has_more_than_others(&self, rounds: &Rounds<'a, '_, H>) -> bool {
        let clients = rounds.connections.clients.len() as u64;
        let all = self.server_state.open.load(Ordering::Relaxed);
        let workers = self.server_state.workers;
        clients.saturating_mul(workers) > all.saturating_add(workers)
    }

    // Tells the others how many clients it has.
    fn tell_of_clients(&self, rounds: &mut Rounds<'a, '_, H>) {
        let clients = rounds.connections.clients.len() as u64;
        let open = &self.server_state.open;
        if clients > rounds.told {
            open.fetch_add(clients - rounds.told, Ordering::Relaxed);
        } else if clients < rounds.told {
            open.fetch_sub(rounds.told - clients, Ordering::Relaxed);
        }
        rounds.told = clients;
    }

    // Where some worker has found no thread, and this one began in an earlier second, that is said, once.
    fn tell_of_threads(&self, began: u64) {
        if began > 0 && self.server_state.lacks_threads() {
            self.say(
                "tus-server: there are threads for some of the workers alone, and these serve",
            );
        }
    }

    // Says this on standard error, if that can be.
    fn say(&self, line: &str) {
        let _ = self.rt.eprintln(line);
    }
}

impl<'a, 'n, H: Wait + time::Clock + Eprint> Rounds<'a, 'n, H> {
    // Notes how often uploads that had expired were ended.
    fn note_sweeps(&mut self) {
        let sweeps = self.sweeping.take_sweeps();
        self.connections.clients.note_sweeps(sweeps);
    }

    // Tells what was seen in this round.
    fn publish(&mut self) {
        self.connections.clients.publish(&mut self.clock);
    }

    // Whether a grace of so many seconds is over at this second, once a stop was asked for. A second may have been under way.
    fn is_over(&self, second: u64, grace: Option<u64>) -> bool {
        let grace = grace.unwrap_or(0);
        match self.stopped {
            Some(since) => grace == 0 || second.saturating_sub(since) > grace,
            None => false,
        }
    }

    // Takes a turn of each client that is ready, had more to do, or waited for another one. Once a stop was asked for each has
    // one more message at most.
    fn turn_ready<S: Durability>(&mut self, events: &Events, answerer: &mut S, second: u64) {
        self.connections.go_on(answerer, &mut self.clock, second);
        for event in events.iter() {
            if event.token() == LISTENER {
                self.has_rung = true;
            } else {
                if event.is_read_closed() || event.is_error() {
                    self.connections.clients.close(event.token().0);
                }
                self.connections
                    .turn_of_event(event.token().0, answerer, &mut self.clock, second);
            }
        }
        self.connections.give_way(answerer, &mut self.clock, second);
        if self.stopped.is_some() {
            self.connections.end_soon(answerer, &mut self.clock, second);
        }
    }

    // Cuts off those that are too late at this second.
    fn pass_second<S: Durability>(&mut self, answerer: &mut S, second: u64) {
        self.connections.cut_late(answerer, &mut self.clock, second);
    }
}

// The size of the pieces in which bodies are stored, if they are.
fn piece_of(options: &WorkOptions) -> Option<usize>
    ensures some { IfSome result (λ size. 0 < size) }
    ensures told { (size : ℕ) → 0 < size → options.now.piece ≡ Some size → result ≡ Some size }
    ensures none { options.now.piece ≡ None → result ≡ None }
    ensures zero { options.now.piece ≡ Some 0 → result ≡ None }
{
    options.piece.filter(|size| *size > 0)
}

// What a request may have, where an upload has at most `max_size`: ranges where the options say so. A body with a checksum has at most as many as the option
// tells, and 16 MiB. One without is as long as an upload may be where there are pieces, and else as one with.
fn limits_of(options: &WorkOptions, piece: Option<usize>, max_size: u64) -> RequestLimits
    requires size { max_size ≤ 2 ^ 40 }
    ensures small { AreSmall result }
    ensures gathered { result.other ≡ min (min (unwrap_or options.now.max_body max_size) max_size) (2 ^ 24) }
    ensures whole { piece ≡ None → result.plain ≡ result.other }
    ensures pieces { IfSome piece (λ size. result.plain ≡ max_size) }
    ensures ranges { result.ranges ≡ options.now.ranges }
{
    let other = options
        .max_body
        .unwrap_or(max_size)
        .min(max_size)
        .min(GATHERED_MAX);
    let plain = match piece {
        Some(_) => max_size,
        None => other,
    };
    RequestLimits {
        plain,
        other,
        ranges: options.ranges,
    }
}

// How many seconds have begun since then: 1 at first, and always where the machine's clock can't be read.
fn second_since<H: time::Clock>(rt: &H, start: &Option<Instant>) -> u64 {
    let Some(start) = start else {
        return 1;
    };
    match start.elapsed(rt) {
        Ok(elapsed) => elapsed.as_secs().saturating_add(1),
        Err(_) => 1,
    }
}

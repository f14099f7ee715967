//! The workers of a server: each has a desk, and serves one connection after another, or many side by side.
ghost use Rattle.std.specs.Prelude.{◌≡◌, ◌≤◌, false, All, IfSome, None};

use crate::accept::Accept;
use crate::keeping::Keeping;
use crate::machine_clock::MachineClock;
use crate::server_state::{ServerState, waits_for_each};
use crate::stream::{ServedStream, serve_stream};
use crate::sweeping::sweep_expired;
use crate::worker::Worker;
use crate::yielding::YieldingStream;
use connection_turns::{ROOM_KEPT, WorkOptions, may_be_unread};
use core::mem::replace_with;
use http_wire::{Buffers, Clock, Tapped};
use std::alloc::Global;
use std::io::{Eprint, Read};
use std::net::{Shutdown, TcpStream};
use std::sync::Wait;
use std::sync::atomic::Ordering;
use std::sync::ledger::Ledger;
use std::thread::{Threads, for_each_mut};
use std::time;
use std::time::{Duration, Instant};
use tus_shared::{Charges, Desk, NoGate, Shared};

/// For how many seconds the rest of a refused input is read, and for how long its next byte is waited for.
const LINGER_SECONDS: u64 = 5;

/// How many bytes of such a rest are read at once, and how often.
const REST_SIZE: usize = 16_384;

const REST_READS: usize = 4096;

/// Lets each of the workers work, in a thread of its own where one can be had: it accepts as many connections as the options
/// say. Where it holds one at a time and has no bound but the idle one, it waits for each in turn; else it serves those that
/// are there side by side. After each accept it ends the uploads that have expired, where there may be some.
/// A fault of a connection ends that connection alone. Where a worker that waits fails to accept, or one of many clients has no
/// memory for them, it ends, and says so on standard error. Where changes are journalled each worker serves its clients side by
/// side, and no reply is sent before `keeping` has kept all that its desk has seen; where it can keep nothing more, all workers
/// end. Once a stop was asked for where numbers are, which needs a grace in the options, each worker accepts nothing more, lets
/// go who has no message under way, and ends when the others have had their replies, or are cut off after the grace. At last it
/// waits until the log has its lines, for some seconds at most.
pub fn work_all<
    A: Accept + Send,
    C: Charges + Send + Sync,
    R: Ledger + Send + Sync,
    M: Ledger + Send + Sync,
    H: Threads + Wait + Eprint + time::Clock + Sync,
    B: Wait + Drop + Send,
    K: Keeping<C, R, M, B> + Sync,
>(
    rt: &H,
    alloc: Global,
    shared: &Shared<C, R, M, B>,
    keeping: &K,
    workers: &mut [Worker<C, R, M, A>],
    options: WorkOptions,
    server_state: &ServerState,
)
    requires alive { All (λ w. A.has_failed w.acceptor ≡ false) workers.old }
    requires unstopped { All (λ w. A.is_stopped w.acceptor ≡ false) workers.old }
    requires new { All (λ w. A.accepted w.acceptor ≡ 0) workers.old }
    ensures all { All (λ w. A.has_failed w.acceptor ≡ false → A.is_stopped w.acceptor ≡ false
        → A.accepted w.acceptor ≡ options.connections) workers.new }
    ensures most { All (λ w. A.accepted w.acceptor ≤ options.connections) workers.new }
    ensures unasked { All (λ w. options.grace ≡ None → A.is_stopped w.acceptor ≡ false) workers.new }
{
    let threads = workers.len().max(1);
    let common = Workers {
        rt,
        alloc,
        shared,
        keeping,
        options,
        server_state,
    };
    for_each_mut(
        rt,
        workers,
        threads,
        &|number, worker: &mut Worker<C, R, M, A>| { common.work(number, worker) },
    );
    server_state.finish_log(rt);
}

/// What the workers of a server share.
#[derive(Drop)]
pub(crate) struct Workers<
    'a,
    C: Charges,
    R: Ledger,
    M: Ledger,
    H,
    B: Wait + Drop,
    K: Keeping<C, R, M, B>,
> {
    pub(crate) rt: &'a H,
    pub(crate) alloc: Global,
    pub(crate) shared: &'a Shared<C, R, M, B>,
    pub(crate) keeping: &'a K,
    pub(crate) options: WorkOptions,
    pub(crate) server_state: &'a ServerState,
}

impl<
    'a,
    C: Charges,
    R: Ledger,
    M: Ledger,
    H: Wait + Eprint + time::Clock,
    B: Wait + Drop,
    K: Keeping<C, R, M, B>,
> Workers<'a, C, R, M, H, B, K> {
    /// Accepts as many connections as the options say, and serves them, as [`work_all`] says.
    pub(crate) fn work<A: Accept>(&self, number: usize, worker: &mut Worker<C, R, M, A>)
        requires alive { A.has_failed worker.old.acceptor ≡ false }
        requires unstopped { A.is_stopped worker.old.acceptor ≡ false }
        requires new { A.accepted worker.old.acceptor ≡ 0 }
        ensures all { A.has_failed worker.new.acceptor ≡ false → A.is_stopped worker.new.acceptor ≡ false
            → A.accepted worker.new.acceptor ≡ self.now.options.connections }
        ensures most { A.accepted worker.new.acceptor ≤ self.now.options.connections }
        ensures unasked { self.now.options.grace ≡ None → A.is_stopped worker.new.acceptor ≡ false }
    {
        self.server_state.begin();
        self.work_begun(number, worker);
        self.server_state.finish();
    }

    // Accepts the connections in the way of its options.
    fn work_begun<A: Accept>(&self, number: usize, worker: &mut Worker<C, R, M, A>)
        requires alive { A.has_failed worker.old.acceptor ≡ false }
        requires unstopped { A.is_stopped worker.old.acceptor ≡ false }
        requires new { A.accepted worker.old.acceptor ≡ 0 }
        ensures all { A.has_failed worker.new.acceptor ≡ false → A.is_stopped worker.new.acceptor ≡ false
            → A.accepted worker.new.acceptor ≡ self.now.options.connections }
        ensures most { A.accepted worker.new.acceptor ≤ self.now.options.connections }
        ensures unasked { self.now.options.grace ≡ None → A.is_stopped worker.new.acceptor ≡ false }
    {
        if waits_for_each(&self.options) && worker.desk.journal().is_none() {
            self.work_in_turn(worker);
        } else {
            self.work_at_once(number, worker);
        }
    }

    /// Whether the workers are to end in order, since a stop was asked for.
    pub(crate) fn is_to_stop(&self) -> bool
        ensures { self.now.options.grace ≡ None → result ≡ false }
    {
        match self.options.grace {
            Some(_) => self.server_state.is_stopping(),
            None => false,
        }
    }

    // Accepts one connection after another, and serves it. Nothing is journalled, and nobody can ask for a stop.
    fn work_in_turn<A: Accept>(&self, worker: &mut Worker<C, R, M, A>)
        requires alive { A.has_failed worker.old.acceptor ≡ false }
        requires unstopped { A.is_stopped worker.old.acceptor ≡ false }
        requires new { A.accepted worker.old.acceptor ≡ 0 }
        requires journal { C.journal ≡ None }
        ensures all { A.has_failed worker.new.acceptor ≡ false
            → A.accepted worker.new.acceptor ≡ self.now.options.connections }
        ensures most { A.accepted worker.new.acceptor ≤ self.now.options.connections }
        ensures unstopped { A.is_stopped worker.new.acceptor ≡ false }
    {
        let mut clock = MachineClock::new(self.rt, self.options.moment);
        let mut buffers = None;
        for _ in 0..self.options.connections {
            let Ok(stream) = worker.acceptor.accept() else {
                return;
            };
            let _ = sweep_expired(self.rt, &mut worker.desk, self.shared, clock.moment());
            buffers = replace_with(&mut worker.desk, buffers, |desk, buffers| {
                self.attend(&stream, desk, buffers, &mut clock)
            });
        }
    }

    // Serves one connection, and gives back the desk and the buffers, unless these grew too large. Where there is
    // no memory for buffers, the connection ends unanswered.
    fn attend(
        &self,
        stream: &TcpStream,
        desk: Desk<C, R, M>,
        buffers: Option<Buffers>,
        clock: &mut MachineClock<'a, H>,
    ) -> (Desk<C, R, M>, Option<Buffers>)
        requires journal { C.journal ≡ None }
        ensures { IfSome result.1 (λ buffers. buffers.read_buffer.room ≤ 2097152) }
    {
        let buffers = match buffers {
            Some(buffers) => buffers,
            None => match Buffers::new(self.alloc) {
                Ok(buffers) => buffers,
                Err(_) => return (desk, None),
            },
        };
        self.prepare(stream);
        self.server_state.open.fetch_add(1, Ordering::Relaxed);
        let connection = YieldingStream::new(stream, &self.server_state.open);
        let reader = Tapped::new(&connection);
        let writer = Tapped::new(&connection);
        let ServedStream {
            ended,
            desk,
            reader: _,
            writer: _,
            buffers,
        } = serve_stream(
            self.rt,
            buffers,
            reader,
            writer,
            desk,
            self.shared,
            clock,
            &NoGate,
        );
        self.server_state.open.fetch_sub(1, Ordering::Relaxed);
        if may_be_unread(&ended, &buffers) {
            self.linger(stream);
        }
        if buffers.room() <= ROOM_KEPT {
            (desk, Some(buffers))
        } else {
            (desk, None)
        }
    }

    // Sets up a connection: small replies are sent at once, and a client that is silent for too long is cut off.
    // A connection that refuses this is served all the same.
    fn prepare(&self, stream: &TcpStream) {
        let idle = match self.options.bounds.idle {
            0 => None,
            seconds => Some(Duration::from_secs(seconds)),
        };
        let _ = stream.set_nodelay(true);
        let _ = stream.set_read_timeout(idle);
        let _ = stream.set_write_timeout(idle);
    }

    // Ends a connection whose input may not have been read: says that nothing follows, and drops what still comes,
    // within bounds. A close with unread bytes would take the last reply from the client.
    fn linger(&self, stream: &TcpStream) {
        let Ok(start) = Instant::now(self.rt) else {
            return;
        };
        let linger = Duration::from_secs(LINGER_SECONDS);
        let _ = stream.shutdown(Shutdown::Write);
        let _ = stream.set_read_timeout(Some(linger));
        let mut reader = stream;
        let mut rest = [0; REST_SIZE];
        for _ in 0..REST_READS {
            match reader.read(&mut rest) {
                Ok(0) | Err(_) => return,
                Ok(_) => {}
            }
            match start.elapsed(self.rt) {
                Ok(elapsed) if elapsed < linger => {}
                _ => return,
            }
        }
    }
}

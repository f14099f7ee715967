//! How many connections the limit of descriptors allows.
ghost use Rattle.std.specs.Prelude.{◌≡◌, ◌⊎◌, ◌+◌, ◌*◌, ◌<◌, ◌≤◌};

use connection_turns::WorkOptions;
use libc::types::rlimit;
use std::io::Eprint;
use thiserror::Error;

/// How many descriptors a server has at most besides those of its workers: three streams, the listener, the log, the file that
/// tells of memory, seven of a journal, and for numbers a listener, those who ask and one that is turned away.
const OWN: u64 = 31;

/// How many descriptors a worker has besides those of its clients: what tells it of events, what wakes it, its listener, and one
/// connection more that is let go.
const OF_WORKER: u64 = 4;

/// That workers hold fewer connections than they were asked to.
#[derive(Debug, Drop, Error)]
#[error("tus-server: each worker holds {at_once} connections at once, since {limit} descriptors may be open (ulimit -n)")]
struct FewDescriptors {
    at_once: u64,
    limit: u64,
}

/// The options for so many workers, by which they hold no more connections at once than the process may have descriptors for;
/// that is said on standard error, where it is fewer than was asked for. A worker that holds one at a time is left that one.
pub fn within_descriptors<H: Eprint>(rt: &H, options: WorkOptions, workers: usize) -> WorkOptions
    ensures other { result ≡ record options { at_once = result.at_once } }
    ensures most { result.at_once ≤ options.at_once }
    ensures some { 1 ≤ options.at_once → 1 ≤ result.at_once }
{
    let Some(limit) = descriptor_limit() else {
        return options;
    };
    let most = most_at_once(limit, (workers as u64).max(1));
    if options.at_once as u64 <= most {
        return options;
    }
    let _ = rt.eprintln(FewDescriptors {
        at_once: most,
        limit,
    });
    WorkOptions {
        at_once: most as usize,
        ..options
    }
}

// How many connections each of so many workers may hold where so many descriptors may be open: as many as leave the server its
// own, and one at least.
fn most_at_once(limit: u64, workers: u64) -> u64
    requires { 0 < workers }
    ensures some { 1 ≤ result }
    ensures fits { (31 + workers * (result + 4) ≤ limit) ⊎ (result ≡ 1) }
    ensures most { limit < 31 + workers * (result + 1 + 4) }
{
    let left = limit.saturating_sub(OWN) / workers;
    left.saturating_sub(OF_WORKER).max(1)
}

// How many descriptors the process may have; None where the system does not tell.
fn descriptor_limit() -> Option<u64> {
    let mut limit = rlimit {
        rlim_cur: 0,
        rlim_max: 0,
    };
    if libc::getrlimit(libc::RLIMIT_NOFILE, &mut limit) == 0 {
        Some(limit.rlim_cur)
    } else {
        None
    }
}

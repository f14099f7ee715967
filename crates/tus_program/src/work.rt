//! What each worker is given to do.
ghost use Rattle.std.specs.Prelude.{◌≡◌};
ghost use Rattle.tus_program.specs.Work.{work_of};

use connection_turns::{ClientBounds, WorkOptions};
use server_words::WorkerOptions;

/// What each worker is given to do, by what the command line asks of it.
pub fn work_of(options: &WorkerOptions) -> WorkOptions
    ensures { result ≡ work_of options.now }
{
    WorkOptions {
        moment: options.moment,
        connections: options.connections,
        at_once: options.at_once,
        bounds: ClientBounds {
            idle: options.idle,
            message_seconds: options.message_seconds,
            least_rate: options.least_rate,
        },
        body_memory: options.body_memory,
        piece: options.piece,
        max_body: options.max_body,
        by_readiness: options.by_readiness,
        ranges: options.ranges,
        grace: options.grace,
    }
}

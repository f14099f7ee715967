//! How replies that were held back are sent.
ghost use Rattle.std.specs.Prelude.{◌≡◌};
ghost use Rattle.connection_turns.specs.Sending.{IsAfterSending};
ghost use Rattle.connection_turns.specs.Turn.{SendsOn};

use crate::turn::{Step, TURN_STEPS, TurnOutcome, bytes_in, is_spent, send};
use http_wire::Connection;
use std::io::Write;

/// What came of sending, with the writer for the next time.
#[derive(Drop)]
pub struct Sent<W> {
    pub outcome: TurnOutcome,
    /// How many bytes were written.
    pub moved: usize,
    pub writer: W,
}

/// Sends what is pending of a connection, until all is sent, a write would block, or 262,144 bytes were written. It reads
/// and answers nothing. A call that a signal interrupted is made again.
///
/// The outcome is AwaitsRoom where a write would have blocked, Failed where one failed or took nothing, and else HasMore: the
/// connection may have more to do, of which no event need tell.
pub fn send_pending<W: Write + Drop>(connection: &mut Connection, writer: W) -> Sent<W>
    ensures sends { SendsOn connection.old connection.new (W.contents writer) (W.contents result.writer) }
    ensures outcome { IsAfterSending result.outcome }
    ensures limits { connection.new.limits ≡ connection.old.limits }
    ensures piece { connection.new.piece ≡ connection.old.piece }
{
    let mut writer = writer;
    let mut moved: usize = 0;
    for _ in 0..TURN_STEPS {
        if connection.pending_len() == 0 || is_spent(moved, 0) {
            break;
        }
        let (after, step) = send(connection, writer);
        writer = after;
        if let Step::Stops(outcome) = step {
            return Sent {
                outcome,
                moved,
                writer,
            };
        }
        moved = moved.saturating_add(bytes_in(step));
    }
    Sent {
        outcome: TurnOutcome::HasMore,
        moved,
        writer,
    }
}

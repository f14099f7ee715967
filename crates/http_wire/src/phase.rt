//! How far a connection has come with what its client sends.
ghost use Rattle.std.specs.Prelude.{◌≡◌};
ghost use Rattle.http_wire.specs.OnConnection.{at_start, phase_after};

use crate::conversation::Ended;
use crate::fault::WireFault;
use crate::incoming::{Cut, Incoming};
use crate::read::layout::Layout;
use crate::read::pieces::{Part, PiecedBody};
use crate::read::stage::Stage;

/// How far a connection has come. `M` is what tells of a message.
#[derive(Drop)]
pub enum Phase<M: Drop> {
    /// Bytes may have come at which it has not looked.
    Looking(Stage),
    /// It has looked at all that came, and more is needed.
    Waiting(Stage),
    /// This came in, and is owed an answer.
    Owing(Incoming<M>),
    /// This piece of a body came, and is owed an answer.
    Piece(PiecedBody, Part),
    /// Nothing more is read: so the conversation ended, or a read failed.
    Over(Result<Ended, WireFault>),
    /// Nothing more is read: it ended within a body that was taken in pieces. This cut the body, or else a piece was refused.
    Stopped(Option<Cut>),
}

impl Phase<Layout> {
    /// The start of a message of which nothing was seen.
    pub fn start() -> Self
        ensures { result ≡ at_start }
    {
        Phase::Looking(Stage::new())
    }

    /// What follows a turn that ended so.
    pub fn after(turn: Result<Option<Ended>, WireFault>) -> Self
        ensures { result ≡ phase_after turn }
    {
        match turn {
            Ok(None) => Phase::start(),
            Ok(Some(ended)) => Phase::Over(Ok(ended)),
            Err(fault) => Phase::Over(Err(fault)),
        }
    }
}

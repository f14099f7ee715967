ghost use Rattle.std.specs.Prelude.{◌≡◌, ◌<◌, ◌∷◌, ◌++◌, [], ℕ, List, length, true, false, IfOk, IfErr, IsErr, OnOk};
ghost use Rattle.std.specs.Io.KnownBytes.{Appends, Consumes};
ghost use Rattle.http_wire.specs.Asking.{BreaksAfterTurns};
ghost use Rattle.http_wire.specs.RequestLimits.{alike};
ghost use Rattle.http_wire.specs.Clock.{AreTold, IsTimed, Tells};
ghost use Rattle.http_wire.specs.Fault.{NamesStream};
ghost use Rattle.http_wire.specs.Turns.{Breaks, Converses, IsReadWhen};

use crate::answer::Answer;
use crate::clock::Clock;
use crate::conversation::Ended;
use crate::fault::WireFault;
use crate::source::{Sink, Source};
use crate::wire::Wire;

/// Takes turns on a wire, each at the moment that the clock tells, until the input ends, the connection closes
/// or `most` turns were taken: the loop of a server's connection. The clock is asked for the moment of a message once that
/// has come, so not where a fault comes first. The error is `WireFault::Read` or `WireFault::Write`; without one nothing has
/// failed.
pub fn serve<R: Source + Drop, W: Sink + Drop, A: Answer, C: Clock>(
    wire: &mut Wire<R, W>,
    answerer: &mut A,
    clock: &mut C,
    most: usize,
) -> Result<Ended, WireFault>
    requires { wire.old.reads ≡ true }
    ensures converses { IfOk result (λ e. (moments : List ℕ)
        × AreTold C.tells clock.old clock.new most e moments × (got text : List ℕ)
        × Consumes (R.remaining wire.old.reader) (R.remaining wire.new.reader) got
        × Appends (W.contents wire.old.writer) (W.contents wire.new.writer) text
        × Converses A.steps (alike wire.old.max_size) moments
        (record { input = wire.old.held ++ got; text = text; before = answerer.old; after = answerer.new }) e) }
    ensures read { IfOk result (λ e. IsReadWhen e (R.remaining wire.new.reader)) }
    ensures breaks { IfErr result (λ f. (moments : List ℕ) × (last : C)
        × (length moments < most) × Tells C.tells clock.old moments last
        × IsTimed C.tells last clock.new (IsErr result) (λ now. (got text : List ℕ)
        × Consumes (R.remaining wire.old.reader) (R.remaining wire.new.reader) got
        × Appends (W.contents wire.old.writer) (W.contents wire.new.writer) text
        × Breaks A.steps (alike wire.old.max_size) (moments ++ now ∷ [])
        (record { input = wire.old.held ++ got; text = text; before = answerer.old; after = answerer.new }) f)) }
    ensures asked { IfErr result (λ f. (got text : List ℕ)
        × Consumes (R.remaining wire.old.reader) (R.remaining wire.new.reader) got
        × Appends (W.contents wire.old.writer) (W.contents wire.new.writer) text
        × BreaksAfterTurns A.steps C.tells (alike wire.old.max_size) clock.old clock.new
        (record { input = wire.old.held ++ got; text = text; before = answerer.old; after = answerer.new }) f) }
    ensures reads { IfOk result (λ e. e ≡ Ended.Moments → wire.new.reads ≡ true) }
    ensures reader { OnOk result (R.has_failed wire.new.reader ≡ false) }
    ensures writer { OnOk result (W.has_failed wire.new.writer ≡ false) }
    ensures fault { IfErr result (NamesStream (R.has_failed wire.new.reader) (W.has_failed wire.new.writer)) }
{
    for taken in 0..most {
        let turn = wire.take_turn(answerer, clock)?;
        if let Some(ended) = turn {
            return Ok(ended);
        }
    }
    prove!(wire.is_open());
    Ok(Ended::Moments)
}

//! Laws of the definitions that the contracts cite: each is the contract of a function that does
//! nothing, and holds of every input.
ghost use Rattle.http_wire.specs.InPieces.{PiecesAreATurn};
ghost use Rattle.http_wire.specs.Laws.{BodiesComeFirst, InputsJoin, MessagesAreShort, OneMessage, TurnsJoin, WireFollowsOrder};

use crate::answer::Answer;
use crate::clock::Clock;

/// An input may come in parts. Where some bytes are whole messages after which the connection stays
/// open, a conversation goes on with what comes later as one that begins there does, from the state
/// that they left; and whole messages that come later only make more whole messages.
pub fn inputs_join<A: Answer>()
    ensures conversation { InputsJoin A.steps }
    ensures turns { TurnsJoin A.steps }
{}

/// What an input begins with is determined by its bytes and the greatest length of a body, but for a
/// refusal that memory is lacking.
pub fn one_message()
    ensures { OneMessage }
{}

/// Where a failed read cut a message that is not applied when it is cut, its clock had not been asked: none is asked
/// between a head and such a body.
pub fn bodies_come_first<A: Answer, C: Clock>()
    ensures { BodiesComeFirst A.steps C.tells }
{}

/// A message is at most 16,384 bytes of head, with the line ends before it, and the greatest body.
pub fn messages_are_short()
    ensures { MessagesAreShort }
{}

/// The wire refuses a request by its fields for the first reason that applies, and all its reasons stand
/// in the one order of refusals.
pub fn refusals_follow_the_order()
    ensures { WireFollowsOrder }
{}

/// A message whose body was taken in pieces is a turn of a conversation in which requests are answered in pieces. Its last
/// piece got the reply.
pub fn pieces_are_a_turn()
    ensures { PiecesAreATurn }
{}

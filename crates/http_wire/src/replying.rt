//! The answer to what came in: the step of a message, and what is to be sent of it.
ghost use Rattle.std.specs.Prelude.{◌≡◌, ◌++◌, List, ℕ, Option, true};
ghost use Rattle.http_wire.specs.Incoming.{map_incoming};
ghost use Rattle.http_wire.specs.Layout.{IsMessage, framed_at, request_at};
ghost use Rattle.http_wire.specs.OnConnection.{turn_end};
ghost use Rattle.http_wire.specs.History.{Answering, Follows, IsAnsweredAt, NotesBy};
ghost use Rattle.http_wire.specs.ReplyText.{reply_text};
ghost use Rattle.http_wire.specs.inside.IncomingLayout.{IsLent};
ghost use Rattle.http_wire.specs.inside.Standing.{GathersIn};
ghost use Rattle.http_wire.specs.inside.TurnFinish.{AnswersTurn, ended_after, turn_cut};
ghost use Rattle.tus_steps.specs.PlacedReply.{reply_in};
ghost use Rattle.tus_steps.specs.declared.reply.Reply.{Reply};
ghost use Rattle.tus_steps.specs.declared.reply.Reply.TheVariants.{Deleted};

use crate::answer::Answer;
use crate::buffers::Buffers;
use crate::conversation::Ended;
use crate::fault::WireFault;
use crate::incoming::{Cut, Incoming};
use crate::read::layout::Layout;
use crate::read::request::request_in;
use upload_book::Moment;

/// Lets what the buffers lend be answered, puts the answer behind what is pending, and tells how the turn ends once that is
/// sent.
pub fn answer_incoming<A: Answer>(
    buffers: &mut Buffers,
    answerer: &mut A,
    incoming: &Incoming<Layout>,
    now: Moment,
) -> Result<Option<Ended>, WireFault>
    requires lent { IsLent buffers.old.read_buffer.lent incoming.now }
    requires room { buffers.old.write_buffer.has_room ≡ true }
    ensures read_buffer { buffers.new.read_buffer ≡ buffers.old.read_buffer }
    ensures answers { (put : List ℕ)
        × (buffers.new.write_buffer.pending ≡ buffers.old.write_buffer.pending ++ put)
        × AnswersTurn A.steps now buffers.old.read_buffer (map_incoming (framed_at buffers.old.read_buffer.lent) incoming.now)
        put answerer.old answerer.new result
        × (answered : List Answering) × Follows A.steps answerer.old answered answerer.new
        × IsAnsweredAt now answered
        × ((piece : Option ℕ) (before : List Answering) → GathersIn piece buffers.old.read_buffer incoming.now
        → AnswersTurn (NotesBy piece) now buffers.old.read_buffer
        (map_incoming (framed_at buffers.old.read_buffer.lent) incoming.now) put before (before ++ answered) result) }
    ensures end { result ≡ turn_end (map_incoming (framed_at buffers.old.read_buffer.lent) incoming.now) }
{
    match incoming {
        Incoming::Message(layout) => {
            answer_message(buffers, answerer, layout, now);
            Ok(ended_after(layout.framing.close))
        }
        Incoming::Refused(refusal, framing) => {
            buffers.is_refused = true;
            buffers.write_buffer.put_refusal(*refusal, now, *framing);
            Ok(ended_after(true))
        }
        Incoming::CutPatch(layout, why) => {
            apply_cut(buffers, answerer, layout, now);
            turn_cut(*why)
        }
        Incoming::CutOther => Ok(Some(Ended::Cut)),
        Incoming::End => Ok(Some(Ended::Input)),
    }
}

/// How a turn ends once its reply is sent: with the connection, where that closes.
pub fn ended_after(close: bool) -> Option<Ended>
    ensures { result ≡ ended_after close }
{
    if close { Some(Ended::Closed) } else { None }
}

/// How a turn ends whose body was cut.
pub fn turn_cut(why: Cut) -> Result<Option<Ended>, WireFault>
    ensures { result ≡ turn_cut why }
{
    match why {
        Cut::Ended => Ok(Some(Ended::Cut)),
        Cut::Fault => Err(WireFault::Read),
    }
}

/// Makes the step of a message that the buffers lend, and puts its reply. The step stays where the reply can't be written.
pub fn answer_message<A: Answer>(
    buffers: &mut Buffers,
    answerer: &mut A,
    layout: &Layout,
    now: Moment,
)
    requires message { IsMessage layout.now buffers.old.read_buffer.lent }
    requires room { buffers.old.write_buffer.has_room ≡ true }
    ensures read_buffer { buffers.new.read_buffer ≡ buffers.old.read_buffer }
    ensures answers { (reply : Reply)
        × A.steps answerer.old (request_at layout.now buffers.old.read_buffer.lent) now reply answerer.new
        × (buffers.new.write_buffer.pending
        ≡ buffers.old.write_buffer.pending ++ reply_text reply now layout.now.framing) }
    ensures let_go { reply_in buffers.new.reply.value ≡ Deleted }
{
    let request = request_in(layout, buffers.read_buffer.lent());
    answerer.answer(&request, now, &mut buffers.reply);
    buffers
        .write_buffer
        .put_reply(&mut buffers.reply, now, layout.framing);
}

/// Makes the step of a PATCH whose body was cut, with the bytes that came. It gets no reply: what was put in its place is let
/// go.
pub fn apply_cut<A: Answer>(buffers: &mut Buffers, answerer: &mut A, layout: &Layout, now: Moment)
    requires { IsMessage layout.now buffers.old.read_buffer.lent }
    ensures read_buffer { buffers.new.read_buffer ≡ buffers.old.read_buffer }
    ensures write_buffer { buffers.new.write_buffer ≡ buffers.old.write_buffer }
    ensures step { (reply : Reply)
        × A.steps answerer.old (request_at layout.now buffers.old.read_buffer.lent) now reply answerer.new }
    ensures let_go { reply_in buffers.new.reply.value ≡ Deleted }
{
    let request = request_in(layout, buffers.read_buffer.lent());
    answerer.answer(&request, now, &mut buffers.reply);
    buffers.reply.let_go();
}

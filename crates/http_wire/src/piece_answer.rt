//! The answer to a piece of a body: its step, and what becomes of the connection.
ghost use Rattle.std.specs.Prelude.{◌≡◌, ◌-◌, true, length};
ghost use Rattle.http_wire.specs.NextMessage.{closing};
ghost use Rattle.http_wire.specs.PiecedBody.{piece_in};
ghost use Rattle.http_wire.specs.inside.PieceAnswer.{AnswersPiece};
ghost use Rattle.http_wire.specs.inside.Standing.{HasPiece};
ghost use Rattle.http_wire.specs.declared.read.pieces.Part.TheVariants.{Last, Middle};
ghost use Rattle.tus_steps.specs.InPieces.{is_taken};
ghost use Rattle.tus_steps.specs.PlacedReply.{reply_in};
ghost use Rattle.tus_steps.specs.declared.reply.Reply.{Reply};

use crate::answer::Answer;
use crate::buffers::Buffers;
use crate::phase::Phase;
use crate::read::head::closing;
use crate::read::layout::Layout;
use crate::read::pieces::{Part, PiecedBody};
use crate::read::request::request_in;
use crate::read::stage::Stage;
use crate::replying::{apply_cut, ended_after};
use tus_steps::{PlacedReply, Request};
use upload_book::Moment;

/// Lets the piece that the buffers lend be answered, and tells how far the connection has come then. The reply is put behind
/// what is pending. Where a piece with more to come is refused, the buffers note it: what follows it is not read.
pub fn answer_piece<A: Answer>(
    buffers: &mut Buffers,
    answerer: &mut A,
    body: &PiecedBody,
    part: Part,
    now: Moment,
) -> Phase<Layout>
    requires piece { HasPiece buffers.old.read_buffer body.now part }
    requires room { buffers.old.write_buffer.has_room ≡ true }
    ensures { (reply : Reply)
        × A.steps answerer.old (piece_in body.now buffers.old.read_buffer.lent).request now reply answerer.new
        × AnswersPiece now body.now part reply buffers.old.read_buffer buffers.new.read_buffer
        buffers.old.write_buffer.pending buffers.new.write_buffer.pending result }
{
    let len = buffers.read_buffer.lent().len() - body.layout.head_len;
    let layout = body.piece_at(len);
    match part {
        Part::Middle => answer_middle(buffers, answerer, body, len, now),
        Part::Last => answer_last(buffers, answerer, body, len, now),
        Part::Cut(why) => {
            apply_cut(buffers, answerer, &layout, now);
            Phase::Stopped(Some(why))
        }
    }
}

// The same for a piece with more to come. Where it is accepted, it is let go, and the head is held for the next.
fn answer_middle<A: Answer>(
    buffers: &mut Buffers,
    answerer: &mut A,
    body: &PiecedBody,
    len: usize,
    now: Moment,
) -> Phase<Layout>
    requires piece { HasPiece buffers.old.read_buffer body.now Middle }
    requires len { len ≡ length buffers.old.read_buffer.lent - body.now.layout.head_len }
    requires room { buffers.old.write_buffer.has_room ≡ true }
    ensures { (reply : Reply)
        × A.steps answerer.old (piece_in body.now buffers.old.read_buffer.lent).request now reply answerer.new
        × AnswersPiece now body.now Middle reply buffers.old.read_buffer buffers.new.read_buffer
        buffers.old.write_buffer.pending buffers.new.write_buffer.pending result }
{
    let layout = body.piece_at(len);
    let request = request_in(&layout, buffers.read_buffer.lent());
    answerer.answer(&request, now, &mut buffers.reply);
    if !is_taken(&request, &buffers.reply) {
        buffers.is_refused = true;
        buffers
            .write_buffer
            .put_reply(&mut buffers.reply, now, closing(layout.framing));
        return Phase::Stopped(None);
    }
    let mut body = *body;
    body.given += len;
    if body.created.is_none() {
        body.created = buffers.reply.created();
    }
    buffers.reply.let_go();
    buffers.read_buffer.take_back(body.layout.head_len);
    Phase::Looking(Stage::Pieces(body))
}

// The same for the last piece. Where the pieces before created an upload, the reply is that to its creation.
fn answer_last<A: Answer>(
    buffers: &mut Buffers,
    answerer: &mut A,
    body: &PiecedBody,
    len: usize,
    now: Moment,
) -> Phase<Layout>
    requires piece { HasPiece buffers.old.read_buffer body.now Last }
    requires len { len ≡ length buffers.old.read_buffer.lent - body.now.layout.head_len }
    requires room { buffers.old.write_buffer.has_room ≡ true }
    ensures { (reply : Reply)
        × A.steps answerer.old (piece_in body.now buffers.old.read_buffer.lent).request now reply answerer.new
        × AnswersPiece now body.now Last reply buffers.old.read_buffer buffers.new.read_buffer
        buffers.old.write_buffer.pending buffers.new.write_buffer.pending result }
{
    let layout = body.piece_at(len);
    let request = request_in(&layout, buffers.read_buffer.lent());
    answerer.answer(&request, now, &mut buffers.reply);
    if body.created.is_some() {
        buffers.reply.tell_creation(&request.path);
    }
    buffers
        .write_buffer
        .put_reply(&mut buffers.reply, now, layout.framing);
    Phase::after(Ok(ended_after(layout.framing.close)))
}

// Whether the bytes of a piece with this request were taken.
fn is_taken(request: &Request, reply: &PlacedReply) -> bool
    ensures { result ≡ is_taken request.now (reply_in reply.now) }
{
    if request.method.is_patch() {
        reply.is_patched()
    } else {
        reply.created().is_some()
    }
}

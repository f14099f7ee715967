//! A connection that holds no stream: what its client sends is put in, and what it is to be sent is taken out.
ghost use Rattle.std.specs.Prelude.{◌≡◌, ◌≢◌, ◌⊎◌, ◌≤◌, ◌<◌, ◌+◌, ◌-◌, ◌^◌, ◌++◌, ℕ, List, [], Ok, None, Some, true, false, length, drop, take, Option, IfOk, OnOk, OnErr, IfSome, is_err, is_some, option_map};
ghost use Rattle.std.specs.Bool.{OnFalse, OnTrue};
ghost use Rattle.std.specs.Io.KnownBytes.{Appends, Consumes, IsAtEnd, Keeps};
ghost use Rattle.http_wire.specs.RequestLimits.{AreSmall, AreWithin, alike};
ghost use Rattle.http_wire.specs.ConnectionCalls.{BreaksTo, Puts, Sends, Takes};
ghost use Rattle.http_wire.specs.Incoming.{map_incoming, is_cut_by_fault};
ghost use Rattle.http_wire.specs.Layout.{IsLayoutWithin, framed_at};
ghost use Rattle.http_wire.specs.Message.{framed};
ghost use Rattle.http_wire.specs.OnConnection.{HasNoMessage, IsFresh, IsIdle, OnConnection, Stands, StandsIn, at_start, body_held, body_in, ended_in, is_looking, left, left_in, looking_again, owed_in, passed_over, phase_after, piece_owed, turn_end, under_way, unless_pending, wanted, wanted_in};
ghost use Rattle.http_wire.specs.PiecedBody.{piece_in};
ghost use Rattle.http_wire.specs.History.{Answering, Follows, HasHistory, History, IsAnsweredAt, noted_before, nothing_yet};
ghost use Rattle.http_wire.specs.ReadOnWire.{TellsEnd, read_limit};
ghost use Rattle.http_wire.specs.ReplyText.{refusal_text, reply_text};
ghost use Rattle.http_wire.specs.Streams.{took_nothing};
ghost use Rattle.http_wire.specs.Writes.{Writes};
ghost use Rattle.http_wire.specs.inside.IncomingLayout.{IsLent};
ghost use Rattle.http_wire.specs.inside.Phases.{Gathers, map_phase, IsPhase, lacking};
ghost use Rattle.http_wire.specs.inside.PieceAnswer.{AnswersOwed};
ghost use Rattle.http_wire.specs.inside.Sending.{empty_write_buffer};
ghost use Rattle.http_wire.specs.inside.Standing.{Fits, GathersAt, HasRoom, KeepsBody, Standing, StaysBody, Wants as WantsMore, pieced};
ghost use Rattle.http_wire.specs.inside.TurnFinish.{AnswersTurn};
ghost use Rattle.http_wire.specs.declared.phase.Phase.TheVariants.{Looking, Waiting};
ghost use Rattle.http_wire.specs.declared.read.stage.Stage.TheVariants.{Head};
ghost use Rattle.http_wire.specs.inside.HeadSearch.{search_start};
ghost use Rattle.tus_steps.specs.PlacedReply.{reply_in};
ghost use Rattle.tus_steps.specs.declared.reply.Reply.TheVariants.{Deleted};

use crate::answer::Answer;
use crate::buffers::Buffers;
use crate::conversation::Ended;
use crate::fault::WireFault;
use crate::framing::Framing;
use crate::incoming::{Cut, Incoming};
use crate::message::Message;
use crate::phase::Phase;
use crate::piece_answer::answer_piece;
use crate::read::layout::Layout;
use crate::read::pieces::{Part, PiecedBody};
use crate::read::read_buffer::{READ_SIZE, ReadBuffer};
use crate::read::stage::{Looked, Stage, lend_all};
use crate::refusal::WireRefusal;
use crate::replying::{answer_incoming, turn_cut};
use crate::request_limits::RequestLimits;
use crate::source::{Sink, Source};
use crate::write::send::flush;
use crate::write::write_buffer::WriteBuffer;
use std::alloc::{AllocError, Global};
use std::io;
use std::marker::Model;
use tus_steps::PlacedReply;
use upload_book::Moment;

/// What a connection wants at some point.
#[derive(Clone, Copy, Debug, PartialEq, Eq)]
pub enum Wants {
    /// To read: bytes of a message, or the end of the input.
    Read,
    /// To write what is pending.
    Write,
    /// An answer to what came in.
    Answer,
    /// Nothing more: the conversation is over, and all of it was sent.
    Nothing,
}

/// A connection: what came of its client's messages, and what is to be sent. It holds no stream. A caller asks what it wants,
/// and does that: it reads into it, writes what is pending, or answers what came in. Each call makes at most one read or one
/// write, and waits only where the stream or the answerer does. After a write that failed it is let go.
///
/// It gathers each body, or takes those of PATCHes and POSTs without a checksum in pieces. Then a piece is owed an answer as a message is,
/// and may be answered once it has come.
///
/// A contract sees what it holds, how far it has come, and what is to be sent. It sees the most bytes of bodies too, and how many
/// bytes a piece has, where there are pieces.
#[derive(Drop)]
pub struct Connection {
    buffers: Buffers,
    phase: Phase<Layout>,
    limits: RequestLimits,
    piece: Option<usize>,
}

impl Model for Connection {
    ghost use Rattle.http_wire.specs.Layout.{framed_at};
    ghost use Rattle.http_wire.specs.OnConnection.{OnConnection};
    ghost use Rattle.http_wire.specs.inside.Phases.{map_phase, IsConnection};

    ghost Value = { OnConnection };

    ghost view = { λ c. record {
      read_buffer = c.buffers.read_buffer;
      phase = map_phase (framed_at c.buffers.read_buffer.lent) c.phase;
      write_buffer = c.buffers.write_buffer;
      limits = c.limits;
      piece = c.piece;
    } };

    ghost invariant = { λ c. IsConnection c.buffers.read_buffer c.phase c.limits c.piece };
}

impl Connection {
    /// A connection of which nothing was read, and which gathers each body. A body has at most `max_size` bytes, below 2^62. The
    /// error is that memory is lacking.
    pub fn new(alloc: Global, max_size: u64) -> Result<Self, AllocError>
        requires { max_size < 2 ^ 62 }
        ensures fresh { IfOk result IsFresh }
        ensures begins { IfOk result (HasHistory nothing_yet) }
        ensures limits { IfOk result (λ c. c.limits ≡ alike max_size) }
        ensures gathers { IfOk result (λ c. c.piece ≡ None) }
    {
        let buffers = Buffers::new(alloc)?;
        Ok(Connection::with_buffers(buffers, max_size))
    }

    /// The same over buffers that another connection has left, so that it takes no memory. What they hold is neither read
    /// nor sent.
    pub fn with_buffers(buffers: Buffers, max_size: u64) -> Self
        requires { max_size < 2 ^ 62 }
        ensures fresh { IsFresh result }
        ensures begins { HasHistory nothing_yet result }
        ensures limits { result.limits ≡ alike max_size }
        ensures gathers { result.piece ≡ None }
    {
        Connection::by_pieces(buffers, RequestLimits::alike(max_size), None)
    }

    /// The same, but it may take bodies in pieces. Bodies have at most as many bytes as `limits` tell, each below 2^62. The body of
    /// a PATCH or a POST without a checksum is taken so if it has more bytes than `piece`, which is above 0. A piece is taken once
    /// so many bytes have come, and has at most 16,384 more. The last piece is taken once the rest has come. Where there is no
    /// `piece`, each body is gathered.
    pub fn by_pieces(buffers: Buffers, limits: RequestLimits, piece: Option<usize>) -> Self
        requires limits { AreSmall limits }
        requires some { IfSome piece (λ n. 0 < n) }
        ensures fresh { IsFresh result }
        ensures begins { HasHistory nothing_yet result }
        ensures limits { result.limits ≡ limits }
        ensures piece { result.piece ≡ piece }
    {
        let mut buffers = buffers;
        buffers.renew();
        Connection {
            buffers,
            phase: Phase::start(),
            limits,
            piece,
        }
    }

    /// Whether all that was read was answered, and all answers were sent: then nothing is in its buffers, and a new connection
    /// over others goes on where this one is. So a silent client costs no buffers. It is not idle where the input ended, nor
    /// where line ends came before the next message, which count for its head.
    pub fn is_idle(&self) -> bool
        ensures idle { OnTrue result (IsIdle self.now) }
        ensures busy { OnFalse result (IsIdle self.now → ⊥) }
        ensures renews { OnTrue result ((p : History) (c : OnConnection) → HasHistory p self.now → IsFresh c
            → c.limits ≡ self.now.limits → c.piece ≡ self.now.piece → HasHistory p c) }
    {
        is_at_start(&self.phase) && is_empty(&self.buffers)
    }

    /// How many bytes it holds of a body that has not come whole, as far as `wants` has looked. It is 0 while a head is read,
    /// and once a message or a piece came in.
    pub fn body_held(&self) -> usize
        ensures { result ≡ body_held self.now.read_buffer self.now.phase }
    {
        match &self.phase {
            Phase::Looking(Stage::Body(layout)) | Phase::Waiting(Stage::Body(layout)) =>
                self.held_behind(layout.head_len),
            Phase::Looking(Stage::Pieces(body)) | Phase::Waiting(Stage::Pieces(body)) =>
                self.held_behind(body.layout.head_len),
            _ => 0,
        }
    }

    // How many bytes are held behind a head of this length.
    fn held_behind(&self, head_len: usize) -> usize
        ensures { result ≡ length self.now.read_buffer.held - head_len }
    {
        let held = self.buffers.read_buffer.held().len();
        held.saturating_sub(head_len)
    }

    /// A message whose head was read and whose body has not come whole, as far as `wants` has looked. It is lent with the
    /// bytes of its body that came so far and were not taken as pieces. None while a head is read, and once a message or a piece
    /// came in.
    pub fn under_way(&self) -> Option<Message<'_>>
        ensures { option_map framed result ≡ under_way self.now.read_buffer self.now.phase }
    {
        match &self.phase {
            Phase::Looking(Stage::Body(layout)) | Phase::Waiting(Stage::Body(layout)) => Some(
                lend_held(layout, &self.buffers.read_buffer),
            ),
            Phase::Looking(Stage::Pieces(body)) | Phase::Waiting(Stage::Pieces(body)) => Some(
                lend_piece(body, self.buffers.read_buffer.held()),
            ),
            _ => None,
        }
    }

    /// For how many bytes of messages its buffers have memory: 65,536 at first. It grows with the greatest body that came, and
    /// never shrinks.
    pub fn room(&self) -> usize
        ensures { result ≡ self.now.read_buffer.room }
    {
        self.buffers.room()
    }

    /// The buffers. What they hold is lost.
    pub fn into_buffers(self) -> Buffers
        ensures { result.read_buffer ≡ self.read_buffer }
    {
        self.buffers
    }

    /// Looks at what came since the last look, and tells what the connection wants then. `100 Continue` is put to what is
    /// to be sent where it is due, once for a message: its head was judged, and its body was not looked for. A body for which
    /// there is no memory is refused (503), only where head and body have more than 49,152 bytes. It wants to read
    /// only while the input has not ended, nothing is pending, and no whole message is held. It wants an answer before it
    /// wants to write, as long as at most 8,192 bytes are pending; where more are, it does not look.
    pub fn wants(&mut self) -> Wants
        ensures wants { result ≡ wanted self.new }
        ensures stands { (bytes said : List ℕ) → Stands bytes said self.old
            → (put : List ℕ) × (self.new.write_buffer.pending ≡ self.old.write_buffer.pending ++ put)
            × Stands bytes (said ++ put) self.new }
        ensures history { (p : History) → HasHistory p self.old → HasHistory p self.new }
        ensures still { is_looking self.old.phase ≡ false → self.new ≡ self.old }
        ensures same { is_looking self.new.phase ≡ false → self.new.write_buffer ≡ self.old.write_buffer }
        ensures looks { self.old.write_buffer.has_room ≡ true → is_looking self.new.phase ≡ true
            → self.new.write_buffer.pending ≢ self.old.write_buffer.pending }
        ensures needs { result ≡ Wants.Read → (bytes said : List ℕ) → Stands bytes said self.new
            → HasNoMessage self.new.limits bytes }
        ensures few { result ≡ Wants.Answer → length self.new.write_buffer.pending ≤ 8192 }
        ensures some { result ≡ Wants.Write → self.new.write_buffer.pending ≢ [] }
        ensures nearer { left self.new ≤ left self.old }
        ensures unended { result ≡ Wants.Read → self.new.read_buffer.ended ≡ false }
        ensures ended { self.new.read_buffer.ended ≡ self.old.read_buffer.ended }
        ensures tells_end { IfSome (owed_in self.new.phase) (λ i. TellsEnd self.new.read_buffer.ended (Ok i)) }
        ensures unbroken { is_looking self.old.phase ≡ true
            → IfSome (owed_in self.new.phase) (λ i. is_cut_by_fault i ≡ false) }
        ensures gathers { self.new.piece ≡ None → body_in self.new.phase ≡ None }
        ensures limits { self.new.limits ≡ self.old.limits }
        ensures piece { self.new.piece ≡ self.old.piece }
    {
        if let Phase::Looking(stage) = &self.phase {
            self.phase = look_on(*stage, &mut self.buffers, self.limits, self.piece);
            return wants_at(&self.phase, &self.buffers.write_buffer);
        }
        wants_at(&self.phase, &self.buffers.write_buffer)
    }

    /// Reads once, where it wants to read. `Ok` gives how many bytes came; 0 tells that the input ended. An error is the
    /// reader's, and then nothing came and it still wants to read. Where the error tells that nothing had come yet, it may
    /// read again, by a [`Tapped`](crate::Tapped) made anew, since one remembers any error; else [`Connection::fail`] tells
    /// the connection. It asks for what the message lacks of its body, or of the next piece, and at most 16,384 bytes beyond.
    pub fn read_from<R: Source>(&mut self, reader: &mut R) -> io::Result<usize>
        requires alive { R.has_failed reader.old ≡ false }
        requires wants { wanted self.old ≡ Wants.Read }
        ensures takes { IfOk result (λ n. (got : List ℕ) × (length got ≡ n)
            × Consumes (R.remaining reader.old) (R.remaining reader.new) got × Takes got self.old self.new) }
        ensures end { IfOk result (λ n. n ≡ 0 → IsAtEnd (R.remaining reader.new)) }
        ensures few { IfOk result (λ n. (most : ℕ) → AreWithin self.old.limits most → (bytes said : List ℕ)
            → Stands bytes said self.old → length bytes + n ≤ read_limit most) }
        ensures nearer { OnOk result (left self.new < left self.old) }
        ensures room { self.new.read_buffer.room ≡ self.old.read_buffer.room }
        ensures fits { length self.new.read_buffer.held ≤ self.new.read_buffer.room }
        ensures none { OnErr result (Keeps (R.remaining reader.old) (R.remaining reader.new)
            × (self.new ≡ record self.old { read_buffer = record self.old.read_buffer { lent = [] } })) }
        ensures kept { OnErr result ((p : History) → HasHistory p self.old → HasHistory p self.new) }
        ensures failed { R.has_failed reader.new ≡ is_err result }
    {
        let most = READ_SIZE + lacking(&self.phase, &self.buffers.read_buffer);
        let count = self.buffers.read_buffer.fill(reader, most)?;
        if let Phase::Waiting(stage) = &self.phase {
            self.phase = Phase::Looking(*stage);
        }
        Ok(count)
    }

    /// Tells that the input ended, where it wants to read: no more of it will be read.
    pub fn end(&mut self)
        requires { wanted self.old ≡ Wants.Read }
        ensures history { (p : History) → HasHistory p self.old → HasHistory p self.new }
        ensures stands { (bytes said : List ℕ) → Stands bytes said self.old → Stands bytes said self.new }
        ensures read_buffer { self.new.read_buffer ≡ record self.old.read_buffer { ended = true } }
        ensures phase { self.new.phase ≡ looking_again self.old.phase }
        ensures nearer { left self.new < left self.old }
        ensures write_buffer { self.new.write_buffer ≡ self.old.write_buffer }
        ensures limits { self.new.limits ≡ self.old.limits }
        ensures piece { self.new.piece ≡ self.old.piece }
    {
        if let Phase::Waiting(stage) = &self.phase {
            let stage = *stage;
            self.buffers.read_buffer.end();
            self.phase = Phase::Looking(stage);
        }
    }

    /// Tells that a read failed, where it wants to read: nothing more will come. A PATCH that is applied when it is cut is
    /// owed its step, as is a creation behind its first piece. Of any other message nothing is, and the conversation is over, with
    /// `WireFault::Read`.
    pub fn fail(&mut self)
        requires { wanted self.old ≡ Wants.Read }
        ensures breaks { (bytes said : List ℕ) → Stands bytes said self.old
            → BreaksTo self.old.limits bytes said self.new.read_buffer self.new.phase }
        ensures history { (p : History) → HasHistory p self.old → HasHistory p self.new }
        ensures tells_end { IfSome (owed_in self.new.phase) (λ i. TellsEnd self.new.read_buffer.ended (Ok i)) }
        ensures write_buffer { self.new.write_buffer ≡ self.old.write_buffer }
        ensures ended { self.new.read_buffer.ended ≡ self.old.read_buffer.ended }
        ensures gathers { self.new.piece ≡ None → body_in self.new.phase ≡ None }
        ensures limits { self.new.limits ≡ self.old.limits }
        ensures piece { self.new.piece ≡ self.old.piece }
    {
        if let Phase::Waiting(stage) = &self.phase {
            self.phase = broken(*stage, &mut self.buffers.read_buffer);
        }
    }

    /// What came in and is owed an answer; a message is lent.
    pub fn incoming(&self) -> Option<Incoming<Message<'_>>>
        ensures { option_map (map_incoming framed) result ≡ owed_in self.now.phase }
    {
        match &self.phase {
            Phase::Owing(incoming) => Some(lend_message(incoming, &self.buffers.read_buffer)),
            _ => None,
        }
    }

    /// The piece of a body that came and is owed an answer; it is lent. Its request has the bytes of the piece, and tells how many
    /// came before them and how many are to come behind them.
    pub fn piece(&self) -> Option<Message<'_>>
        ensures { option_map framed result ≡ piece_owed self.now.read_buffer self.now.phase }
    {
        match &self.phase {
            Phase::Piece(body, _) => Some(lend_piece(body, self.buffers.read_buffer.lent())),
            _ => None,
        }
    }

    /// Whether a body is under way that is taken in pieces, as far as `wants` has looked. After an answer it tells that this was the
    /// answer to a piece with more to come.
    pub fn is_in_pieces(&self) -> bool
        ensures { result ≡ is_some (body_in self.now.phase) }
    {
        match &self.phase {
            Phase::Looking(Stage::Pieces(_))
            | Phase::Waiting(Stage::Pieces(_))
            | Phase::Piece(_, _) => true,
            _ => false,
        }
    }

    /// Lets what came in be answered at its moment, and puts the answer behind what is pending. Then it may look for the next
    /// message, or the conversation is over. A refusal is put, and closes. A PATCH that was cut is applied with the bytes that
    /// came, and gets no reply. The end and any other message that was cut get none either. Each takes a moment.
    ///
    /// A piece with more to come gets no reply where it is accepted; the reply that refuses it closes the connection. The last
    /// piece gets the reply to its message. What came of a piece before its body was cut is applied and gets none.
    pub fn answer<A: Answer>(&mut self, answerer: &mut A, now: Moment)
        requires { wanted self.old ≡ Wants.Answer }
        ensures answers { IfSome (owed_in self.old.phase) (λ i. (put : List ℕ)
            × (self.new.write_buffer.pending ≡ self.old.write_buffer.pending ++ put)
            × AnswersTurn A.steps now self.old.read_buffer i put answerer.old answerer.new (turn_end i)) }
        ensures pieces { AnswersOwed A.steps now answerer.old answerer.new self.old self.new self.old.phase }
        ensures history { (p : History) → HasHistory p self.old → (answered : List Answering)
            × Follows A.steps answerer.old answered answerer.new
            × IsAnsweredAt now answered
            × HasHistory (noted_before (body_in self.new.phase) p now answered) self.new }
        ensures phase { IfSome (owed_in self.old.phase) (λ i. self.new.phase ≡ phase_after (turn_end i)) }
        ensures read_buffer { IfSome (owed_in self.old.phase) (λ i. self.new.read_buffer ≡ self.old.read_buffer) }
        ensures gathers { self.new.piece ≡ None → body_in self.new.phase ≡ None }
        ensures limits { self.new.limits ≡ self.old.limits }
        ensures piece { self.new.piece ≡ self.old.piece }
    {
        match &self.phase {
            Phase::Owing(incoming) => {
                let turn = answer_incoming(&mut self.buffers, answerer, incoming, now);
                self.phase = Phase::after(turn);
            }
            Phase::Piece(body, part) => {
                self.phase = answer_piece(&mut self.buffers, answerer, body, *part, now);
            }
            _ => {}
        }
    }

    // Leaves a message that came in without an answer, and begins with the next.
    pub(crate) fn pass_over(&mut self)
        ensures { self.new ≡ record self.old { phase = passed_over self.old.phase } }
    {
        if let Phase::Owing(Incoming::Message(_)) = &self.phase {
            self.phase = Phase::start();
        }
    }

    /// How the conversation ended; `Ok(None)` while it lasts. Its last reply may still be pending. The error is
    /// `WireFault::Read`: a read failed.
    pub fn ended(&self) -> Result<Option<Ended>, WireFault>
        ensures { result ≡ ended_in self.now.phase }
    {
        match &self.phase {
            Phase::Over(Ok(ended)) => Ok(Some(*ended)),
            Phase::Over(Err(fault)) => Err(*fault),
            Phase::Stopped(None) => Ok(Some(Ended::Closed)),
            Phase::Stopped(Some(why)) => turn_cut(*why),
            _ => Ok(None),
        }
    }
}

impl Connection {
    /// The next bytes that are pending: a prefix of all of them, which is empty only where nothing is.
    pub fn pending(&self) -> &[u8]
        ensures prefix { (rest : List ℕ) × (self.now.write_buffer.pending ≡ result.now ++ rest) }
        ensures some { result.now ≡ [] → self.now.write_buffer.pending ≡ [] }
    {
        self.buffers.write_buffer.pending()
    }

    /// How many bytes are pending in all, those of an upload included.
    pub fn pending_len(&self) -> usize
        ensures { result ≡ length self.now.write_buffer.pending }
    {
        self.buffers.write_buffer.len()
    }

    /// Drops the first bytes that are pending, which were sent; `count` is at most all that is.
    pub fn sent(&mut self, count: usize)
        requires { count ≤ length self.old.write_buffer.pending }
        ensures { Sends count self.old self.new }
    {
        self.buffers.write_buffer.sent(count);
    }

    /// Writes once what is pending, of which there is some. `Ok` gives how many bytes were taken: these are no longer
    /// pending. Where it is 0, the writer has failed, as after an error, and nothing changed. Where an error tells that there
    /// is no room yet, it may be written again, by a [`Tapped`](crate::Tapped) made anew.
    pub fn write_to<W: Sink>(&mut self, writer: &mut W) -> io::Result<usize>
        requires alive { W.has_failed writer.old ≡ false }
        requires some { self.old.write_buffer.pending ≢ [] }
        ensures wrote { IfOk result (λ n. (n ≤ length self.old.write_buffer.pending) × Sends n self.old self.new
            × Appends (W.contents writer.old) (W.contents writer.new) (take n self.old.write_buffer.pending)) }
        ensures none { OnErr result (Appends (W.contents writer.old) (W.contents writer.new) []
            × (self.new ≡ self.old)) }
        ensures failed { W.has_failed writer.new ≡ took_nothing result self.old.write_buffer.pending }
    {
        self.buffers.write_buffer.write_to(writer)
    }
}

// What the drivers that wait need besides.
impl Connection {
    // Puts the reply to a message at the message's moment behind what is pending, whatever is owed. The bytes of an upload are
    // taken out of the reply; what is in its place then answers no request.
    pub(crate) fn put_reply(&mut self, reply: &mut PlacedReply, now: Moment, framing: Framing)
        requires { self.old.write_buffer.has_room ≡ true }
        ensures puts { Puts (reply_text (reply_in reply.old) now framing) self.old self.new }
        ensures gone { reply_in reply.new ≡ Deleted }
    {
        self.buffers.write_buffer.put_reply(reply, now, framing);
    }

    // The same for a refusal of the wire.
    pub(crate) fn put_refusal(&mut self, refusal: WireRefusal, now: Moment, framing: Framing)
        requires { self.old.write_buffer.has_room ≡ true }
        ensures { Puts (refusal_text refusal now framing) self.old self.new }
    {
        self.buffers.write_buffer.put_refusal(refusal, now, framing);
    }

    // Writes all that is pending, however long that takes. The error is `WireFault::Write`; what was not sent then is
    // dropped.
    pub(crate) fn flush<W: Sink>(&mut self, writer: &mut W) -> Result<(), WireFault>
        requires { W.has_failed writer.old ≡ false }
        ensures writes { Writes (W.contents writer.old) (W.contents writer.new) (W.has_failed writer.new)
            self.old.write_buffer.pending result }
        ensures sent { self.new ≡ record self.old { write_buffer = empty_write_buffer } }
        ensures some { OnErr result (self.old.write_buffer.pending ≢ []) }
    {
        flush(writer, &mut self.buffers.write_buffer)
    }
}

// Looks at what came of a message, and puts `100 Continue` where it is due. Where there is no room for that, it looks later.
fn look_on(
    stage: Stage,
    buffers: &mut Buffers,
    limits: RequestLimits,
    piece: Option<usize>,
) -> Phase<Layout>
    requires limits { AreSmall limits }
    requires piece { IfSome piece (λ n. 0 < n) }
    requires fits { Fits buffers.old.read_buffer stage }
    ensures stands { (bytes said : List ℕ) → Standing limits bytes said buffers.old.read_buffer stage
        → (put : List ℕ) × (buffers.new.write_buffer.pending ≡ buffers.old.write_buffer.pending ++ put)
        × StandsIn limits bytes (said ++ put) buffers.new.read_buffer (map_phase (framed_at buffers.new.read_buffer.lent) result) }
    ensures phase { IsPhase buffers.new.read_buffer result }
    ensures some { is_looking result ≡ true → buffers.new.write_buffer.pending ≢ [] }
    ensures same { is_looking result ≡ false → buffers.new.write_buffer ≡ buffers.old.write_buffer }
    ensures looks { buffers.old.write_buffer.has_room ≡ true → is_looking result ≡ true
        → buffers.new.write_buffer.pending ≢ buffers.old.write_buffer.pending }
    ensures nearer { left_in buffers.new.read_buffer (map_phase (framed_at buffers.new.read_buffer.lent) result) buffers.new.write_buffer.pending
        ≤ left_in buffers.old.read_buffer (Looking stage) buffers.old.write_buffer.pending }
    ensures unbroken { IfSome (owed_in (map_phase (framed_at buffers.new.read_buffer.lent) result))
        (λ i. is_cut_by_fault i ≡ false) }
    ensures body { KeepsBody piece (pieced stage) (body_in result) }
    ensures gathers { GathersAt piece stage → Gathers piece buffers.new.read_buffer result }
    ensures ended { buffers.new.read_buffer.ended ≡ buffers.old.read_buffer.ended }
{
    if !buffers.write_buffer.has_room() {
        return Phase::Looking(stage);
    }
    let mut stage = stage;
    match stage.look(
        &mut buffers.read_buffer,
        &mut buffers.spans,
        &mut buffers.fields,
        limits,
        piece,
    ) {
        Looked::More => Phase::Waiting(stage),
        Looked::Continue => {
            buffers.write_buffer.put_continue();
            Phase::Looking(stage)
        }
        Looked::Came(incoming) => Phase::Owing(incoming),
        Looked::Piece(body, part) => Phase::Piece(body, part),
    }
}

// How many bytes the body lacks of a message for which the connection waits, or its next piece.
fn lacking(phase: &Phase<Layout>, read_buffer: &ReadBuffer) -> usize
    requires { IsPhase read_buffer.now phase.now }
    ensures lacks { result ≡ lacking read_buffer.now phase.now }
    ensures few { result < 2 ^ 63 }
{
    match phase {
        Phase::Waiting(Stage::Body(layout)) => {
            let total = layout.head_len + layout.body_len;
            total.saturating_sub(read_buffer.held().len())
        }
        Phase::Waiting(Stage::Pieces(body)) => {
            let left = body.layout.body_len - body.given;
            let total = body.layout.head_len + body.piece.min(left);
            total.saturating_sub(read_buffer.held().len())
        }
        _ => 0,
    }
}

// What a connection wants at this phase.
fn wants_at(phase: &Phase<Layout>, write_buffer: &WriteBuffer) -> Wants
    ensures wants { (text : List ℕ) → result ≡ wanted_in write_buffer.now (map_phase (framed_at text) phase.now) }
    ensures some { is_looking phase.now ≡ false → result ≡ Wants.Write → write_buffer.now.pending ≢ [] }
    ensures few { result ≡ Wants.Answer → length write_buffer.now.pending ≤ 8192 }
{
    match phase {
        Phase::Looking(_) => Wants::Write,
        Phase::Waiting(_) => unless_pending(write_buffer, Wants::Read),
        Phase::Owing(_) | Phase::Piece(_, _) => {
            if write_buffer.has_room() {
                Wants::Answer
            } else {
                Wants::Write
            }
        }
        Phase::Over(_) | Phase::Stopped(_) => unless_pending(write_buffer, Wants::Nothing),
    }
}

// This, unless something is to be sent first.
fn unless_pending(write_buffer: &WriteBuffer, wants: Wants) -> Wants
    ensures { result ≡ unless_pending write_buffer.now.pending wants }
{
    if write_buffer.is_empty() {
        wants
    } else {
        Wants::Write
    }
}

// What a read that failed leaves of a message.
fn broken(stage: Stage, read_buffer: &mut ReadBuffer) -> Phase<Layout>
    requires fits { Fits read_buffer.old stage }
    requires wants { WantsMore read_buffer.old stage }
    ensures breaks { (limits : RequestLimits) (bytes said : List ℕ) → Standing limits bytes said read_buffer.old stage
        → BreaksTo limits bytes said read_buffer.new (map_phase (framed_at read_buffer.new.lent) result) }
    ensures phase { IsPhase read_buffer.new result }
    ensures body { StaysBody (pieced stage) (body_in result) }
    ensures gathers { (piece : Option ℕ) → GathersAt piece stage → Gathers piece read_buffer.new result }
    ensures ended { read_buffer.new.ended ≡ read_buffer.old.ended }
{
    match stage {
        Stage::Head(_) => Phase::Over(Err(WireFault::Read)),
        Stage::Body(layout) => {
            if !layout.is_applied_when_cut() {
                return Phase::Over(Err(WireFault::Read));
            }
            lend_all(read_buffer);
            Phase::Owing(Incoming::CutPatch(layout, Cut::Fault))
        }
        Stage::Pieces(body) => {
            if !body.is_applied_when_cut() {
                return Phase::Over(Err(WireFault::Read));
            }
            lend_all(read_buffer);
            Phase::Piece(body, Part::Cut(Cut::Fault))
        }
    }
}

// What came in, with the bytes of a message as the read buffer lends them.
fn lend_message<'i>(
    incoming: &Incoming<Layout>,
    read_buffer: &'i ReadBuffer,
) -> Incoming<Message<'i>>
    requires { IsLent read_buffer.now.lent incoming.now }
    ensures { map_incoming framed result ≡ map_incoming (framed_at read_buffer.now.lent) incoming.now }
{
    match incoming {
        Incoming::Message(layout) => Incoming::Message(Message {
            layout: *layout,
            text: read_buffer.lent(),
        }),
        Incoming::CutPatch(layout, why) => Incoming::CutPatch(
            Message {
                layout: *layout,
                text: read_buffer.lent(),
            },
            *why,
        ),
        Incoming::CutOther => Incoming::CutOther,
        Incoming::Refused(refusal, framing) => Incoming::Refused(*refusal, *framing),
        Incoming::End => Incoming::End,
    }
}

// A message whose body is under way, with all that is held of it.
fn lend_held<'i>(layout: &Layout, read_buffer: &'i ReadBuffer) -> Message<'i>
    requires { HasRoom read_buffer.now layout.now }
    ensures { framed result ≡ framed_at read_buffer.now.held layout.now }
{
    Message {
        layout: *layout,
        text: read_buffer.held(),
    }
}

// The piece of a body that stands in this text behind the head.
fn lend_piece<'i>(body: &PiecedBody, text: &'i [u8]) -> Message<'i>
    requires head { body.now.layout.head_len ≤ length text.now }
    requires within { IsLayoutWithin body.now.layout.head_len body.now.layout }
    ensures { framed result ≡ piece_in body.now text.now }
{
    Message {
        layout: body.piece_at(text.len() - body.layout.head_len),
        text,
    }
}

// Whether no byte of a message was seen.
fn is_at_start(phase: &Phase<Layout>) -> bool
    ensures start { OnTrue result ((phase.now ≡ at_start) ⊎ (phase.now ≡ Waiting (Head search_start))) }
    ensures other { OnFalse result (((phase.now ≡ at_start) ⊎ (phase.now ≡ Waiting (Head search_start))) → ⊥) }
{
    match phase {
        Phase::Looking(Stage::Head(search)) | Phase::Waiting(Stage::Head(search)) =>
            search.is_new(),
        _ => false,
    }
}

// Whether nothing is held, and nothing is pending, and the input has not ended.
fn is_empty(buffers: &Buffers) -> bool
    ensures held { OnTrue result (buffers.now.read_buffer.held ≡ []) }
    ensures unended { OnTrue result (buffers.now.read_buffer.ended ≡ false) }
    ensures sent { OnTrue result (buffers.now.write_buffer ≡ empty_write_buffer) }
    ensures other { OnFalse result (buffers.now.read_buffer.held ≡ [] → buffers.now.read_buffer.ended ≡ false
        → buffers.now.write_buffer ≡ empty_write_buffer → ⊥) }
{
    buffers.read_buffer.held().is_empty()
        && !buffers.read_buffer.is_ended()
        && buffers.write_buffer.is_empty()
}

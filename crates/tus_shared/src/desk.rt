ghost use Rattle.std.specs.Prelude.{◌≡◌, ◌⊎◌, ◌≤◌, [], Err, IfNone, IfSome, false, length, true, vec_capacity};
ghost use Rattle.tus_steps.specs.Asked.{change_in as change_asked};
ghost use Rattle.tus_steps.specs.Changing.{IsFound};
ghost use Rattle.tus_steps.specs.declared.asked.Asked.TheVariants as asks;
ghost use Rattle.tus_steps.specs.PlacedReply.{reply_in};
ghost use Rattle.head_board.specs.Events.{book_at};
ghost use Rattle.head_board.specs.Board.{ReadsHead, ReadsProgress, ReadsTotals, SeesNoneExpired, row_read};
ghost use Rattle.tus_shared.specs.Answers.{Answers, AnswersBatch, AnswersTurn, MissesBoard, OnlySeesMore, SeesHead, Sweeps};
ghost use Rattle.tus_shared.specs.Desk.{next_count};
ghost use Rattle.tus_shared.specs.Journal.{change_frame};
ghost use Rattle.upload_book.specs.Begun.{IsBegun};
ghost use Rattle.upload_book.specs.declared.head_row.Name.{Name};
ghost use Rattle.upload_book.specs.declared.refusal.Refusal.TheVariants.{Board, Unknown};

use crate::charges::Charges;
use crate::gate::{Gate, NoGate, Stop};
use crate::shared::Shared;
use crate::turn::Turn;
use head_board::{HeadReader, SeenEvents, Totals};
use std::alloc::Global;
use std::marker::Model;
use std::sync::Wait;
use std::sync::ledger::{Ledger, Share};
use tus_steps::{Asked, PartIds, PlacedReply, Reply, ReplyKind, Request, asked_of};
use upload_book::{Begun, Change, HeadRow, Moment, Name, Progress, Refusal, Settings, Swept};

/// One of the desks that an opening gives, at which one thread answers its requests. It counts in three shares how many
/// blocks its own steps charged, how many they released, and how many of them changed the book, and has a reader of the
/// board; and it counts how many steps it made with the lock. Where changes are journalled it knows their key, how many bytes
/// of records it may still queue, and how far it was told that they are kept. A contract sees all of these, the desk's number,
/// whether it has missed the board, and the events that it has seen: each later answer is at least as new as these.
#[derive(Drop)]
pub struct Desk<C: Charges, R: Ledger, M: Ledger> {
    pub(crate) alloc: Global,
    pub(crate) settings: Settings,
    pub(crate) number: usize,
    pub(crate) journal: Option<u64>,
    pub(crate) charged: Share<C>,
    pub(crate) released: Share<R>,
    pub(crate) made: Share<M>,
    pub(crate) reader: HeadReader,
    pub(crate) kept: SeenEvents,
    pub(crate) room: u64,
    pub(crate) steps: u64,
}

impl<C: Charges, R: Ledger, M: Ledger> Model for Desk<C, R, M> {
    ghost use Rattle.tus_shared.specs.Desk as spec;
    ghost use Rattle.tus_shared.specs.inside.DeskRule.{IsDesk};

    ghost Value = { spec.Desk };

    ghost view = { λ d. record {
      number = d.number;
      journal = d.journal;
      charged = d.charged.amount;
      released = d.released.amount;
      made = d.made.amount;
      seen = d.reader.events;
      kept = d.kept.events;
      room = d.room;
      missed = d.reader.missed;
      steps = d.steps;
    } };

    ghost invariant = { λ d. IsDesk C.settings C.log C.journal d.settings d.reader d.journal d.kept.book d.charged.parts d.released.parts d.made.parts };
}

impl<C: Charges, R: Ledger, M: Ledger> Desk<C, R, M> {
    /// The settings that the desks were opened with.
    pub fn settings(&self) -> &Settings
        ensures { result.now ≡ C.settings }
    {
        &self.settings
    }

    /// Takes the lock for the step of this request at this moment ([`crate::Store::step`]), and gives its reply: the
    /// plain book's, after events that begin with what the desk has seen. After it the desk has seen all of them, and its
    /// own change, which is the next event. Where changes are journalled, it may be refused as Memory since there is no room
    /// for its record; then nothing happens. The bytes of a GET are a copy, for which the lock is got anew after each 256 KiB
    /// where memory was reserved for all of them. It may wait for other desks.
    pub fn call<W: Wait, B: Wait + Drop>(
        &mut self,
        rt: &W,
        shared: &Shared<C, R, M, B>,
        request: &Request,
        now: Moment,
    ) -> Reply
        ensures answers { Answers C.settings request.now now result self.old self.new }
        ensures counted { self.new.steps ≡ next_count self.old.steps }
    {
        let mut ids = PartIds::new();
        let asked = asked_of(&self.settings, request, &mut ids);
        let mut reply = PlacedReply::new();
        self.answer_locked(rt, shared, request, asked, now, 0, &NoGate, &mut reply);
        reply.into_reply()
    }

    /// Takes the lock for a sweep at this moment ([`crate::Store::sweep`]), and tells what it ended. `None` only where
    /// changes are journalled, and there is no room for its record; then nothing happens. It may wait for other desks.
    pub fn sweep<W: Wait, B: Wait + Drop>(
        &mut self,
        rt: &W,
        shared: &Shared<C, R, M, B>,
        now: Moment,
    ) -> Option<Swept>
        ensures sweeps { Sweeps C.settings now result self.old self.new }
        ensures counted { self.new.steps ≡ next_count self.old.steps }
    {
        let frame = self.frame_for(&Change::Sweep, now);
        shared.store.lock(rt).sweep(self, frame, now)
    }

    /// Reads on the board what a HEAD of this upload tells at this moment. The answer is at least as new as anything
    /// that this desk has reported, its own steps included. It is refused as Unknown where the name's tenant is not there
    /// or never had the id, and as Gone where the upload has ended or expired. The desk's counts stay. It takes no lock
    /// and no memory, and waits for nobody.
    ///
    /// Board says that the desk has missed the board, which happens in no run; all else of the desk is as it was.
    pub fn head(&mut self, name: &Name, now: Moment) -> Result<HeadRow, Refusal>
        ensures head { SeesHead C.settings name.now now result self.old self.new }
        ensures no_tenant { length C.settings.tenants ≤ name.now.tenant
            → (result ≡ Err Unknown) ⊎ (result ≡ Err Board) }
    {
        let mut row = HeadRow::empty();
        match self.read_board(name, now, &mut row) {
            Some(Ok(())) => Ok(row),
            Some(Err(refusal)) => Err(refusal),
            None => Err(Refusal::Board),
        }
    }

    // Reads what the board tells of an upload: its row, which is put to `row`, or why there is none; nothing, where the desk
    // has missed it.
    pub(crate) fn read_board(
        &mut self,
        name: &Name,
        now: Moment,
        row: &mut HeadRow,
    ) -> Option<Result<(), Refusal>>
        ensures reads { IfSome result (λ read. ReadsHead C.settings self.old.seen self.new.seen name.now now (row_read read row.new)) }
        ensures sees { IfSome result (λ read. OnlySeesMore self.old self.new) }
        ensures misses { IfNone result (MissesBoard self.old self.new) }
    {
        self.reader.look(name, now, row)
    }

    // Reads how far the board tells that an upload is, or why there is none; nothing, where the desk has missed it.
    pub(crate) fn read_progress(
        &mut self,
        name: &Name,
        now: Moment,
    ) -> Option<Result<Progress, Refusal>>
        ensures reads { IfSome result (ReadsProgress C.settings self.old.seen self.new.seen name.now now) }
        ensures sees { IfSome result (λ progress. OnlySeesMore self.old self.new) }
        ensures misses { IfNone result (MissesBoard self.old self.new) }
    {
        self.reader.progress(name, now)
    }

    /// Whether an upload may have expired at this moment, by what the board shows. If not, none has after events that begin
    /// with all that this desk has seen, and it has seen these then. If one may, the desk is as it was, but that it may have
    /// missed the board. It takes no lock and no memory, and waits for nobody.
    pub fn may_sweep(&mut self, now: Moment) -> bool
        ensures none { result ≡ false → SeesNoneExpired C.settings self.old.seen self.new.seen now }
        ensures alone { result ≡ false → OnlySeesMore self.old self.new }
        ensures stays { result ≡ true → self.new ≡ record self.old { missed = self.new.missed } }
        ensures missed { self.old.missed ≡ true → self.new.missed ≡ true }
    {
        self.reader.may_expire(now)
    }

    /// Reads on the board what is charged and paid, and how many uploads each tenant has. It is at least as new as anything
    /// that this desk has reported. The desk's counts stay. It takes no lock and no memory, waits for nobody, and looks at no
    /// upload. `None` says that the desk has missed the board, which happens in no run.
    pub fn totals(&mut self) -> Option<Totals>
        ensures reads { IfSome result (ReadsTotals C.settings self.old.seen self.new.seen) }
        ensures sees { IfSome result (λ totals. OnlySeesMore self.old self.new) }
        ensures misses { IfNone result (MissesBoard self.old self.new) }
    {
        self.reader.totals()
    }

    /// Answers a turn, and passes the gate on the way: at `Before`, then with the lock at `Locked`, if it takes the
    /// lock for its step, then without it at `Answered`. A HEAD of an upload is answered as [`Desk::head`] tells, without the lock, and
    /// one that is refused before that looks at nothing. All else, and a HEAD of an upload where the desk has missed the
    /// board, is answered as [`Desk::call`] does. The number of the turn is for the gate alone.
    pub fn answer<W: Wait, B: Wait + Drop, G: Gate>(
        &mut self,
        rt: &W,
        shared: &Shared<C, R, M, B>,
        request: &Request,
        now: Moment,
        turn: usize,
        gate: &G,
    ) -> Reply
        ensures { AnswersTurn C.settings request.now now result self.old self.new }
    {
        let mut reply = PlacedReply::new();
        self.answer_in_place(rt, shared, request, now, turn, gate, &mut reply);
        reply.into_reply()
    }

    /// The same, with the reply put to its place.
    pub fn answer_in_place<W: Wait, B: Wait + Drop, G: Gate>(
        &mut self,
        rt: &W,
        shared: &Shared<C, R, M, B>,
        request: &Request,
        now: Moment,
        turn: usize,
        gate: &G,
        reply: &mut PlacedReply,
    )
        ensures { AnswersTurn C.settings request.now now (reply_in reply.new) self.old self.new }
    {
        gate.pass(self.number, turn, Stop::Before);
        self.reply_to(rt, shared, request, now, turn, gate, reply);
        gate.pass(self.number, turn, Stop::Answered);
    }

    // Replies to a turn, without the first stop and the last.
    fn reply_to<W: Wait, B: Wait + Drop, G: Gate>(
        &mut self,
        rt: &W,
        shared: &Shared<C, R, M, B>,
        request: &Request,
        now: Moment,
        turn: usize,
        gate: &G,
        reply: &mut PlacedReply,
    )
        ensures { AnswersTurn C.settings request.now now (reply_in reply.new) self.old self.new }
    {
        // the contract of this call tells that the settings have no fault
        let _sound = self.settings.numbers();
        let mut ids = PartIds::new();
        match asked_of(&self.settings, request, &mut ids) {
            Asked::Look(name) => {
                self.reply_to_head(rt, shared, request, name, now, turn, gate, reply);
            }
            Asked::Refused(refusal) if request.method.is_head() => {
                reply.refuse(request, refusal, None);
            }
            asked => self.answer_locked(rt, shared, request, asked, now, turn, gate, reply),
        }
    }

    // Replies to a HEAD of an upload: from the board, or with the lock where the desk has missed that.
    fn reply_to_head<W: Wait, B: Wait + Drop, G: Gate>(
        &mut self,
        rt: &W,
        shared: &Shared<C, R, M, B>,
        request: &Request,
        name: Name,
        now: Moment,
        turn: usize,
        gate: &G,
        reply: &mut PlacedReply,
    )
        requires found { IsFound C.settings request.now (asks.Look name) }
        ensures { AnswersTurn C.settings request.now now (reply_in reply.new) self.old self.new }
    {
        match self.read_board(&name, now, &mut reply.row) {
            Some(Ok(())) => reply.kind = ReplyKind::Head,
            Some(Err(refusal)) => reply.refuse_head(refusal),
            None => {
                let asked = Asked::Look(name);
                self.answer_locked(rt, shared, request, asked, now, turn, gate, reply);
            }
        }
    }

    // Replies to what a turn asks for, with the lock. What can be done without it is done before it is taken.
    fn answer_locked<W: Wait, B: Wait + Drop, G: Gate>(
        &mut self,
        rt: &W,
        shared: &Shared<C, R, M, B>,
        request: &Request,
        mut asked: Asked,
        now: Moment,
        turn: usize,
        gate: &G,
        reply: &mut PlacedReply,
    )
        requires found { IsFound C.settings request.now asked }
        ensures answers { Answers C.settings request.now now (reply_in reply.new) self.old self.new }
        ensures missed { self.old.missed ≡ true → self.new.missed ≡ true }
        ensures counted { self.new.steps ≡ next_count self.old.steps }
    {
        let room = self.work_ahead(request, &mut asked, now);
        let begun = self.read_ahead(rt, shared, &asked, now, room);
        let frame = self.frame_ahead(&asked, now);
        self.step_locked(
            rt, shared, request, asked, frame, begun, now, turn, gate, reply,
        );
    }

    // The step of a turn, with the lock.
    fn step_locked<W: Wait, B: Wait + Drop, G: Gate>(
        &mut self,
        rt: &W,
        shared: &Shared<C, R, M, B>,
        request: &Request,
        asked: Asked,
        frame: Option<Vec<u8>>,
        begun: Begun,
        now: Moment,
        turn: usize,
        gate: &G,
        reply: &mut PlacedReply,
    )
        requires found { IsFound C.settings request.now asked }
        requires frame { IfSome frame (λ f. IfSome (change_asked asked) (λ found. f.items ≡ change_frame C.journal found.change now)) }
        requires begun { (name : Name) → asked ≡ asks.Content name → IsBegun (book_at C.settings self.old.seen) name begun.first begun.bytes.items }
        ensures answers { Answers C.settings request.now now (reply_in reply.new) self.old self.new }
        ensures missed { self.new.missed ≡ self.old.missed }
        ensures counted { self.new.steps ≡ next_count self.old.steps }
    {
        let mut store = shared.store.lock(rt);
        gate.pass(self.number, turn, Stop::Locked);
        store.step(self, request, asked, frame, begun, now, reply);
    }

    // Answers the turns of a batch, one after another, and gives their replies in a list that has room for
    // them.
    pub(crate) fn answer_all<W: Wait, B: Wait + Drop, G: Gate>(
        &mut self,
        rt: &W,
        shared: &Shared<C, R, M, B>,
        batch: &[Turn],
        mut replies: Vec<Reply>,
        gate: &G,
    ) -> Vec<Reply>
        requires empty { replies.items ≡ [] }
        requires room { length batch.now ≤ vec_capacity replies }
        ensures { AnswersBatch C.settings batch.now result.items self.old self.new }
    {
        for (number, turn) in batch.iter().enumerate() {
            let reply = self.answer(rt, shared, &turn.request, turn.now, number, gate);
            replies.push_reserved(reply);
        }
        replies
    }
}

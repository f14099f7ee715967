ghost use Rattle.std.specs.Prelude.{◌≡◌, ◌≢◌, ◌++◌, [], ℕ, List, true, false, length, IsTrue, IfErr, IfOk, IsErrOf, OnErr, OnOk};
ghost use Rattle.journal_file.specs.Journal.{disk_of, key_of, IsJournal};
ghost use Rattle.journal_file.specs.JournalError.{IsDamagedAt};
ghost use Rattle.journal_file.specs.declared.error.Damage.{Damage};
ghost use Rattle.journal_file.specs.declared.error.JournalError.TheVariants as JournalError;
ghost use Rattle.journal_frames.specs.Frames.{recovered, tail_of};
ghost use Rattle.journal_frames.specs.declared.tail.Tail.TheVariants.{Torn};
ghost use Rattle.tus_steps.specs.PlacedReply.{reply_in};
ghost use Rattle.upload_book.specs.Book.{plain_of};
ghost use Rattle.upload_book.specs.Change.{CanBeMade};
ghost use Rattle.upload_book.specs.Events.{ChangeEvent};
ghost use Rattle.upload_book.specs.PlainBook.{opening_book};
ghost use Rattle.upload_book.specs.Settings.{Settings as Numbers};
ghost use Rattle.kept_book.specs.Done.{done_reply};
ghost use Rattle.kept_book.specs.OpenFault.{IsOutsideFile};
ghost use Rattle.kept_book.specs.Sweeping.{IsSwept};
ghost use Rattle.upload_book.specs.Sweep.{EndsNone};

use crate::done::Done;
use crate::fault::{AnswerFault, NotKept, OpenFault};
use crate::log::RecordLog;
use book_replay::{replay, tell_fits};
use journal_file::{Journal, NotOpened, Opened};
use journal_frames::Frames;
use sqlite_disk::Disk;
use std::alloc::Global;
use tus_steps::{Asked, PartIds, PlacedReply, Request, answer_asked, asked_of};
use upload_book::{Book, Change, Moment, Outcome, Refused, Settings, Swept};

/// A book over a journal. All changes of the book stand there, synced, and no reply tells of one that does not.
#[derive(Drop)]
pub struct KeptBook<D: Disk> {
    book: Book,
    log: RecordLog<D>,
}

impl<D: Disk> KeptBook<D> {
    ghost use Rattle.book_replay.specs.Replay.{AllHappen, records_of};
    ghost use Rattle.kept_book.specs.Answer.{GoesOn, IsKeptStep, IsUnkeptAnswer};
    ghost use Rattle.kept_book.specs.Done.{added, IsDone, IsRefused};
    ghost use Rattle.kept_book.specs.Kept.{book_in, disk_in, has_failed, key_in, log_in, IsKept, IsLeftWithOneMore};

    /// Makes a book of these settings without an upload, over an empty journal under this key with so much room, over
    /// whatever the file held. A crash before it is `Ok` may leave any file.
    ///
    /// `Err` is the error of [`Journal::create`], or Memory.
    pub fn create(
        alloc: Global,
        settings: Settings,
        disk: D,
        key: u64,
        room: usize,
    ) -> Result<KeptBook<D>, OpenFault>
    where
        D: Drop,
        ensures kept { IfOk result (λ kept. IsKept kept settings []) }
        ensures key { IfOk result (λ kept. key_in kept ≡ key) }
        ensures clean { IfOk result (λ kept. D.is_clean (disk_in kept) ≡ D.is_clean disk) }
        ensures works { IfOk result (λ kept. has_failed kept ≡ false) }
        ensures outside { IfErr result IsOutsideFile }
    {
        let book = Book::new(alloc, settings)?;
        let journal = Journal::create(disk, key, room)?;
        let log = RecordLog::new(alloc, journal, key);
        Ok(KeptBook { book, log })
    }

    /// Opens the book of these settings whose changes a journal under this key holds, as far as [`Journal::open`] finds
    /// them: each is made again on the book that the ones before it left. It may crash too, and be called again.
    ///
    /// `Err` gives the disk back, with the error of `Journal::open` or that of [`replay`]. Of a file that a kept book of these
    /// settings left, whatever a crash lost of it, it is neither Damaged nor Record.
    pub fn open(
        alloc: Global,
        settings: Settings,
        disk: D,
        key: u64,
    ) -> Result<KeptBook<D>, NotKept<D>>
        // Where the disk told no lie, it is the book of the events whose records are found.
        ensures opened { (events : List ChangeEvent)
            → AllHappen (opening_book settings) events
            → recovered key (D.seen disk) ≡ records_of events
            → IfOk result (λ kept. IsTrue (D.is_clean (disk_in kept)) → IsKept kept settings events) }
        // Then, with at most a torn tail behind these records, the error is none of the file.
        ensures accepts { (events : List ChangeEvent)
            → AllHappen (opening_book settings) events
            → recovered key (D.seen disk) ≡ records_of events
            → tail_of key (D.seen disk) ≡ Torn
            → IfErr result (λ not. IsTrue (D.is_clean not.disk) → IsOutsideFile not.why) }
        ensures damaged { IfErr result (λ not. (damage : Damage) → not.why ≡ OpenFault.Journal (JournalError.Damaged damage)
            → IsTrue (D.is_clean not.disk) → IsDamagedAt key (D.seen disk) damage) }
        ensures key { IfOk result (λ kept. key_in kept ≡ key) }
        ensures works { IfOk result (λ kept. has_failed kept ≡ false) }
    {
        match Journal::open(alloc, disk, key) {
            Ok(opened) => KeptBook::of_opened(alloc, settings, opened, key),
            Err(not) => Err(not_opened(not)),
        }
    }

    // The book of these settings that is made again of the records of a journal, which was opened under this key.
    pub(crate) fn of_opened(
        alloc: Global,
        settings: Settings,
        opened: Opened<D>,
        key: u64,
    ) -> Result<KeptBook<D>, NotKept<D>>
        requires key { key_of opened.journal ≡ key }
        ensures kept { (events : List ChangeEvent)
            → AllHappen (opening_book settings) events
            → recovered key opened.frames.items ≡ records_of events
            → IsJournal opened.journal (records_of events) []
            → IfOk result (λ kept. IsKept kept settings events) }
        ensures accepts { (events : List ChangeEvent)
            → AllHappen (opening_book settings) events
            → recovered key opened.frames.items ≡ records_of events
            → IfErr result (λ not. IsOutsideFile not.why) }
        ensures disk { IfOk result (λ kept. disk_in kept ≡ disk_of opened.journal) }
        ensures given_back { IfErr result (λ not. not.disk ≡ disk_of opened.journal) }
        ensures key { IfOk result (λ kept. key_in kept ≡ key) }
        ensures works { IfOk result (λ kept. has_failed kept ≡ false) }
        ensures why { IfErr result (λ not. (damage : Damage) → not.why ≢ OpenFault.Journal (JournalError.Damaged damage)) }
    {
        match replay(alloc, settings, Frames::new(key, &opened.frames)) {
            Ok(book) => {
                let log = RecordLog::new(alloc, opened.journal, key);
                Ok(KeptBook { book, log })
            }
            Err(fault) => Err(NotKept {
                why: OpenFault::Replay(fault),
                disk: opened.journal.into_disk(),
            }),
        }
    }

    /// The book.
    pub fn book(&self) -> &Book
        ensures { plain_of result.now ≡ book_in self.now }
    {
        &self.book
    }

    /// The disk, lent.
    pub fn disk(&self) -> &D
        ensures { result.now ≡ disk_in self.now }
    {
        self.log.journal.disk()
    }

    /// The disk, as it is.
    pub fn into_disk(self) -> D
        ensures { result ≡ disk_in self }
    {
        let KeptBook { log, .. } = self;
        log.into_disk()
    }

    /// Tells what a crash leaves of a kept book: the records of all that happened to it, and no damage.
    pub fn tell_crash(&self)
        ensures { (s : Numbers) (events : List ChangeEvent)
            → IsKept self.now s events
            → (c : List ℕ) → D.may_leave (disk_in self.now) c → IsLeftWithOneMore (key_in self.now) s events c }
    {}

    /// Answers a request and applies it to the book, as the plain book does at this moment ([`tus_steps::answer`]). A
    /// change is made only once its record was appended to the journal and synced. The reply is put to its place. Where
    /// there is no room for the record, and none can be made, as on a full disk, the change is refused as where memory lacks,
    /// and nothing changes. What changes nothing writes nothing.
    ///
    /// `Err` is Journal where a write or a sync failed, and from then on Ended: nothing more is answered, and what the
    /// place of the reply has is no reply.
    pub fn answer(
        &mut self,
        request: &Request,
        now: Moment,
        reply: &mut PlacedReply,
    ) -> Result<(), AnswerFault>
        ensures step { OnOk result (IsKeptStep (book_in self.old) request.now now (reply_in reply.new) (book_in self.new)) }
        ensures kept { (s : Numbers) (events : List ChangeEvent)
            → IsKept self.old s events → OnOk result (GoesOn self.new s events) }
        // Whatever it answers, a crash leaves all that was kept before, and the change of this request or not.
        ensures crash { (s : Numbers) (events : List ChangeEvent)
            → IsKept self.old s events
            → (c : List ℕ) → D.may_leave (disk_in self.new) c → IsLeftWithOneMore (key_in self.old) s events c }
        ensures key { key_in self.new ≡ key_in self.old }
        ensures failed { OnErr result (has_failed self.new ≡ true) }
        ensures works { OnOk result (has_failed self.new ≡ false) }
        ensures stays { OnErr result (book_in self.new ≡ book_in self.old) }
        ensures due { IsErrOf result AnswerFault.Ended → has_failed self.old ≡ true }
        ensures ended { has_failed self.old ≡ true → IsErrOf result AnswerFault.Ended × (self.new ≡ self.old) }
    {
        if self.log.has_failed {
            return Err(AnswerFault::Ended);
        }
        let mut ids = PartIds::new();
        match asked_of(self.book.settings(), request, &mut ids) {
            Asked::Change(asked) => {
                let offset = asked.offset;
                let done = self.make(asked.change, now)?;
                put_done(reply, request, offset, done);
                Ok(())
            }
            asked => {
                answer_asked(
                    &self.book,
                    request,
                    asked,
                    now,
                    self.book.none_begun(),
                    reply,
                );
                Ok(())
            }
        }
    }

    /// Ends all uploads that have expired at this moment, as the plain book's sweep does, and gives what it did. Where none
    /// has, nothing is written. `Ok(None)` where there is no room for the record, and none can be made; then nothing
    /// changes.
    ///
    /// `Err` as of [`KeptBook::answer`].
    pub fn sweep(&mut self, now: Moment) -> Result<Option<Swept>, AnswerFault>
        ensures swept { IfOk result (λ swept. IsSwept (book_in self.old) now swept (book_in self.new)) }
        ensures kept { (s : Numbers) (events : List ChangeEvent)
            → IsKept self.old s events → OnOk result (GoesOn self.new s events) }
        ensures crash { (s : Numbers) (events : List ChangeEvent)
            → IsKept self.old s events
            → (c : List ℕ) → D.may_leave (disk_in self.new) c → IsLeftWithOneMore (key_in self.old) s events c }
        ensures key { key_in self.new ≡ key_in self.old }
        ensures failed { OnErr result (has_failed self.new ≡ true) }
        ensures works { OnOk result (has_failed self.new ≡ false) }
        ensures stays { OnErr result (book_in self.new ≡ book_in self.old) }
        ensures due { IsErrOf result AnswerFault.Ended → has_failed self.old ≡ true }
        ensures ended { has_failed self.old ≡ true → IsErrOf result AnswerFault.Ended × (self.new ≡ self.old) }
    {
        if self.log.has_failed {
            return Err(AnswerFault::Ended);
        }
        if is_fresh(&self.book, now) {
            return Ok(Some(Swept {
                uploads: 0,
                blocks: 0,
                released: 0,
            }));
        }
        match self.make(Change::Sweep, now)? {
            Done::Told(Ok(Outcome::Swept(swept))) => Ok(Some(swept)),
            Done::Told(_) => unreachable!("a sweep is never refused, and gives what it ended"),
            Done::Unkept(_) => Ok(None),
        }
    }

    /// Answers a request where nothing more can be kept, as once a write or a sync has failed: what changes nothing as the
    /// book does, and with the first refusal of a change that applies. A change that the book accepts is refused as where
    /// memory lacks. Nothing changes, and nothing is asked of the disk.
    pub fn answer_unkept(&mut self, request: &Request, now: Moment, reply: &mut PlacedReply)
        ensures answer { IsUnkeptAnswer (book_in self.old) request.now now (reply_in reply.new) }
        ensures stays { book_in self.new ≡ book_in self.old }
        ensures log { log_in self.new ≡ log_in self.old }
    {
        let mut ids = PartIds::new();
        match asked_of(self.book.settings(), request, &mut ids) {
            Asked::Change(asked) => {
                let offset = asked.offset;
                let refused = self.refuse(asked.change, now);
                reply.put_change(request, offset, Err(refused));
            }
            asked => {
                answer_asked(
                    &self.book,
                    request,
                    asked,
                    now,
                    self.book.none_begun(),
                    reply,
                );
            }
        }
    }

    // Refuses a change as the book does, or, where the book accepts it or memory lacks, as where memory lacks.
    fn refuse(&mut self, change: Change, now: Moment) -> Refused
        requires { CanBeMade (length (book_in self.old).settings.tenants) change }
        ensures refused { IsRefused (book_in self.old) change.entry now result }
        ensures stays { book_in self.new ≡ book_in self.old }
        ensures log { self.new.log ≡ self.old.log }
    {
        match self.book.prepare(change, now) {
            Ok(ready) => ready.refused_for_memory(&self.book),
            Err(refused) => refused,
        }
    }

    // Makes a change of the book: its record is framed and it is prepared, the record is kept, and then the change, which can
    // no longer fail, is committed. So nothing is kept of a change that is refused, and none is made that is not kept.
    fn make(&mut self, change: Change, now: Moment) -> Result<Done, AnswerFault>
        requires { CanBeMade (length (book_in self.old).settings.tenants) change }
        ensures done { IfOk result (λ done. IsDone (book_in self.old) change.entry now done (book_in self.new)) }
        ensures kept { (s : Numbers) (events : List ChangeEvent)
            → IsKept self.old s events
            → IfOk result (λ done. IsKept self.new s (events ++ added done change.entry now)) }
        ensures crash { (s : Numbers) (events : List ChangeEvent)
            → IsKept self.old s events
            → (c : List ℕ) → D.may_leave (disk_in self.new) c → IsLeftWithOneMore (key_in self.old) s events c }
        ensures key { key_in self.new ≡ key_in self.old }
        ensures failed { OnErr result (has_failed self.new ≡ true) }
        ensures works { OnOk result (has_failed self.old ≡ false → has_failed self.new ≡ false) }
        ensures stays { OnErr result (book_in self.new ≡ book_in self.old) }
        ensures fault { IsErrOf result AnswerFault.Ended → ⊥ }
    {
        let _in_range = now.secs();
        tell_fits(self.book.settings().tenant_count(), &change);
        let is_framed = self.log.frame(&change, now);
        let ready = match self.book.prepare(change, now) {
            Ok(ready) => ready,
            Err(refused) => return Ok(Done::Told(Err(refused))),
        };
        if !is_framed {
            return Ok(Done::Unkept(ready.refused_for_memory(&self.book)));
        }
        if !self.log.keep()? {
            return Ok(Done::Unkept(ready.refused_for_memory(&self.book)));
        }
        Ok(Done::Told(Ok(self.book.commit(ready))))
    }
}

// Why no journal was opened, as why no book was.
fn not_opened<D: Disk>(not: NotOpened<D>) -> NotKept<D>
    ensures disk { result.disk ≡ not.disk }
    ensures why { result.why ≡ OpenFault.Journal not.why }
{
    let NotOpened { why, disk } = not;
    NotKept {
        why: OpenFault::Journal(why),
        disk,
    }
}

// Answers a request that asked for a change, by what was done of it.
fn put_done(reply: &mut PlacedReply, request: &Request, offset: Option<u64>, done: Done)
    ensures { reply_in reply.new ≡ done_reply request.now offset done }
{
    match done {
        Done::Told(outcome) => reply.put_change(request, offset, outcome),
        Done::Unkept(refused) => reply.put_change(request, offset, Err(refused)),
    }
}

// Whether no upload has expired at this moment.
fn is_fresh(book: &Book, now: Moment) -> bool
    ensures { IsTrue result → EndsNone (plain_of book.now) now }
{
    // the settings tell that the book is lawful
    let _lawful = book.settings();
    match book.expiries().first() {
        Some(first) => now < first.at,
        None => true,
    }
}

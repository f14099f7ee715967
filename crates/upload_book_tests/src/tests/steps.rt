//! Tables of calls, each with what it answers and what holds after it. A book is taken through a table, and beside
//! it the plain program of a book.

use crate::tests::books::{ACME, BETA, moment, new_book, new_final, new_upload};
use crate::tests::plain::{Ending, PlainBook, PlainRow};
use std::alloc::Global;
use std::process::Abort;
use tus_text::Checksum;
use upload_book::{
    Appended, Book, ByteSpan, Chunk, Content, Created, FirstChunk, HeadRow, Kind, Moment, Name,
    Numbers, Payload, Refusal, Refused, Removed, Swept,
};

/// A call of a book.
#[derive(Clone, Copy)]
pub enum Call {
    /// A creation of an upload of its own, of this length.
    Post(Option<u64>),
    /// A creation of an upload of its own, of this length, with its first bytes.
    PostWith(Option<u64>, &'static [u8]),
    /// The same with a checksum.
    PostChecked(Option<u64>, Checksum, &'static [u8]),
    /// The same as without, but without the content type of a PATCH.
    PostUntyped(Option<u64>, &'static [u8]),
    /// A creation of a partial upload.
    Partial(Option<u64>),
    /// A creation of an upload of its own, of this length, and a PATCH with its first bytes.
    Begin(Option<u64>, &'static [u8]),
    /// The same of a partial upload.
    Part(Option<u64>, &'static [u8]),
    /// A concatenation of parts.
    Join(&'static [Option<u64>]),
    /// A PATCH of an upload, at an offset.
    Patch(u64, u64, &'static [u8]),
    /// A PATCH of an upload, at an offset, which tells a length.
    PatchOf(u64, u64, u64, &'static [u8]),
    /// A PATCH of an upload, at an offset, with a checksum.
    Checked(u64, u64, Checksum, &'static [u8]),
    /// A PATCH of an upload, at offset 0, without its content type.
    Untyped(u64, &'static [u8]),
    Head(u64),
    Get(u64),
    Delete(u64),
    Sweep,
    /// The uploads of all tenants that expire.
    Expiries,
}

/// What a call answers.
#[derive(Clone, Copy, PartialEq, Eq)]
pub enum Told<'a> {
    /// An id, and when the upload expires.
    Created(u64, Option<u64>),
    /// An offset, and when the upload expires.
    Appended(u64, Option<u64>),
    /// What a creation tells, and then what a PATCH tells.
    Begun(u64, Option<u64>, u64, Option<u64>),
    /// A kind, an offset, a length, and when the upload expires.
    Row(Kind, u64, Option<u64>, Option<u64>),
    Bytes(&'a [u8]),
    /// How many blocks became free, and how many are no longer paid.
    Removed(u64, u64),
    /// How many uploads ended, how many blocks became free, and how many are no longer paid.
    Swept(u64, u64, u64),
    Refused(Refusal),
    Expire(&'a [Ending]),
    /// Why a PATCH was refused, and when the upload expires.
    RefusedPatch(Refusal, Option<u64>),
}

/// A call at a moment for a tenant, what it answers, and what holds after it.
#[derive(Clone, Copy)]
pub struct Step {
    pub secs: u64,
    pub tenant: &'static [u8],
    pub call: Call,
    pub told: Told<'static>,
    /// What is paid, where that is another than before.
    pub after: Option<Paid>,
}

/// What acme pays, what beta pays, how many blocks are free, and how many were charged and released so far.
pub type Paid = [u64; 5];

/// A table of steps, each `secs tenant call => told, after;`, or without `after`, where that is as before.
macro_rules! steps {
    ($($secs:literal $tenant:ident $call:expr => $told:expr $(, $after:expr)?;)*) => {
        [$(Step {
            secs: $secs,
            tenant: $tenant,
            call: $call,
            told: $told,
            after: crate::tests::steps::changed!($($after)?),
        }),*]
    };
}

/// What is paid after a step, where it says so.
macro_rules! changed {
    () => {
        None
    };
    ($after:expr) => {
        Some($after)
    };
}

pub(crate) use changed;
pub(crate) use steps;

fn secs(expires: Option<Moment>) -> Option<u64> {
    expires.map(|end| end.secs())
}

fn created<'a>(answer: Result<Created, Refusal>) -> Told<'a> {
    match answer {
        Ok(created) => Told::Created(created.name.id, secs(created.expires)),
        Err(refusal) => Told::Refused(refusal),
    }
}

pub fn appended<'a>(answer: Result<Appended, Refused>) -> Told<'a> {
    match answer {
        Ok(appended) => Told::Appended(appended.offset, secs(appended.expires)),
        Err(refused) => Told::RefusedPatch(refused.refusal, secs(refused.expires)),
    }
}

fn row<'a>(answer: &Result<HeadRow, Refusal>) -> Told<'a> {
    match answer {
        Ok(row) => Told::Row(row.kind, row.offset, row.declared, secs(row.expires)),
        Err(refusal) => Told::Refused(*refusal),
    }
}

fn plain_row<'a>(answer: Result<PlainRow, Refusal>) -> Told<'a> {
    match answer {
        Ok((kind, offset, declared, expires)) => { Told::Row(kind, offset, declared, expires) }
        Err(refusal) => Told::Refused(refusal),
    }
}

fn bytes<'a>(answer: &'a Result<Content, Refusal>) -> Told<'a> {
    match answer {
        Ok(content) => Told::Bytes(content.as_slice()),
        Err(refusal) => Told::Refused(*refusal),
    }
}

fn plain_bytes<'a>(answer: &'a Result<Vec<u8>, Refusal>) -> Told<'a> {
    match answer {
        Ok(bytes) => Told::Bytes(bytes.as_slice()),
        Err(refusal) => Told::Refused(*refusal),
    }
}

fn removed<'a>(answer: Result<Removed, Refusal>) -> Told<'a> {
    match answer {
        Ok(removed) => Told::Removed(removed.blocks, removed.released),
        Err(refusal) => Told::Refused(refusal),
    }
}

fn swept<'a>(answer: Swept) -> Told<'a> {
    Told::Swept(answer.uploads, answer.blocks, answer.released)
}

/// A book, and the plain one beside it.
#[derive(Drop)]
struct Pair {
    book: Book,
    plain: PlainBook,
}

impl Pair {
    fn create(
        &mut self,
        rt: &impl Abort,
        tenant: &[u8],
        kind: Kind,
        length: Option<u64>,
        now: Moment,
    ) -> [Told<'static>; 2] {
        let place = self.book.settings().tenant(tenant).expect(rt, "a tenant");
        let new = new_upload(kind == Kind::Partial, length);
        let answer = self.book.create(place, new, now);
        let plainly = self
            .plain
            .create(rt, place, kind, length, &first(true, None, b""), now);
        [created(answer), created(plainly)]
    }

    fn create_with(
        &mut self,
        rt: &impl Abort,
        tenant: &[u8],
        length: Option<u64>,
        first: FirstChunk,
        now: Moment,
    ) -> [Told<'static>; 2] {
        let place = self.book.settings().tenant(tenant).expect(rt, "a tenant");
        let plainly = self
            .plain
            .create(rt, place, Kind::Plain, length, &first, now);
        let answer = self
            .book
            .create_with(place, new_upload(false, length), first, now);
        [created(answer), created(plainly)]
    }

    fn concat(
        &mut self,
        rt: &impl Abort,
        tenant: &[u8],
        parts: &[Option<u64>],
        now: Moment,
    ) -> [Told<'static>; 2] {
        let place = self.book.settings().tenant(tenant).expect(rt, "a tenant");
        let answer = self.book.concat(place, new_final(rt, parts), now);
        let plainly = self.plain.concat(rt, place, parts, now);
        [created(answer), created(plainly)]
    }

    fn append(
        &mut self,
        rt: &impl Abort,
        name: Name,
        chunk: Chunk,
        now: Moment,
    ) -> [Told<'static>; 2] {
        let plainly = self.plain.append(rt, &name, &chunk, now);
        let answer = self.book.append(&name, chunk, now);
        [appended(answer), appended(plainly)]
    }

    fn look(&self, name: Name, now: Moment) -> [Told<'static>; 2] {
        let answer = self.book.look(&name, now);
        let plainly = self.plain.look(&name, now);
        [row(&answer), plain_row(plainly)]
    }

    fn terminate(&mut self, name: Name, now: Moment) -> [Told<'static>; 2] {
        let answer = self.book.terminate(&name, now);
        let plainly = self.plain.terminate(&name, now);
        [removed(answer), removed(plainly)]
    }

    fn sweep(&mut self, now: Moment) -> [Told<'static>; 2] {
        let answer = self.book.sweep(now);
        let plainly = self.plain.sweep(now);
        [swept(answer), swept(plainly)]
    }

    // Asserts what a GET gives.
    fn assert_content(&self, rt: &impl Abort, place: usize, name: Name, now: Moment, told: Told) {
        let all = ByteSpan::front(u64::MAX);
        let answer = self.book.content(&name, now, all, self.book.none_begun());
        let plainly = self.plain.content(rt, &name, now);
        let wrong = wrong_in([bytes(&answer), plain_bytes(&plainly)], told);
        assert_right(rt, place, wrong);
    }

    // The uploads that expire, in order.
    fn expiries(&self, rt: &impl Abort) -> Vec<Ending> {
        let mut endings = Vec::new(self.plain.alloc);
        for expiring in self.book.expiries() {
            let Name { tenant, id } = expiring.name;
            let ending = [expiring.at.secs(), u64::from(tenant), id];
            endings.push(ending).expect(rt, "memory");
        }
        endings
    }

    // Whether the uploads which expire are those of the plain book, in order, and these where they are asked for.
    fn has_expiries(&self, rt: &impl Abort, told: Told) -> bool {
        let endings = self.expiries(rt);
        let is_expected = match told {
            Told::Expire(expected) => endings.as_slice() == expected,
            _ => true,
        };
        is_expected && endings == self.plain.expiries(rt)
    }

    // What the tenants pay, how many blocks are free, and the two totals.
    fn paid(&self, rt: &impl Abort) -> Paid {
        let book = &self.book;
        let acme = book.settings().tenant(ACME).expect(rt, "acme");
        let beta = book.settings().tenant(BETA).expect(rt, "beta");
        [
            book.charge(acme),
            book.charge(beta),
            book.free_blocks(),
            book.charged_total(),
            book.released_total(),
        ]
    }

    // The same by the plain book.
    fn plainly_paid(&self) -> Paid {
        let plain = &self.plain;
        let (acme, beta) = (plain.charge(0), plain.charge(1));
        let free = plain
            .numbers
            .blocks
            .saturating_sub(acme)
            .saturating_sub(beta);
        [acme, beta, free, plain.charged, plain.released]
    }

    // What is not as it is to be after a step, if anything.
    fn wrong_after(&self, rt: &impl Abort, told: Told, paid: Paid) -> Option<&'static str> {
        if !self.has_expiries(rt, told) {
            Some("the uploads that expire")
        } else if self.paid(rt) != paid {
            Some("what is paid")
        } else if self.plainly_paid() != paid {
            Some("what is paid by the plain book")
        } else {
            None
        }
    }
}

// The first bytes of an upload.
fn first<'a>(typed: bool, check: Option<Checksum>, bytes: &'a [u8]) -> FirstChunk<'a> {
    FirstChunk {
        typed,
        check,
        bytes: Payload::new(bytes),
        more: 0,
    }
}

// A PATCH of its content type.
fn typed<'a>(offset: u64, length: Option<u64>, bytes: &'a [u8]) -> Chunk<'a> {
    Chunk {
        offset,
        length,
        typed: true,
        check: None,
        bytes: Payload::new(bytes),
        more: 0,
    }
}

// The same with a checksum, which tells no length.
fn checked<'a>(offset: u64, check: Checksum, bytes: &'a [u8]) -> Chunk<'a> {
    Chunk {
        offset,
        length: None,
        typed: true,
        check: Some(check),
        bytes: Payload::new(bytes),
        more: 0,
    }
}

// A PATCH without its content type, at offset 0.
fn untyped<'a>(bytes: &'a [u8]) -> Chunk<'a> {
    Chunk {
        offset: 0,
        length: None,
        typed: false,
        check: None,
        bytes: Payload::new(bytes),
        more: 0,
    }
}

// What of the answers, of a book and of the plain one, is not this, if anything.
fn wrong_in(answers: [Told; 2], told: Told) -> Option<&'static str> {
    let [answer, plainly] = answers;
    if answer != told {
        Some("the answer")
    } else if plainly != told {
        Some("the answer of the plain book")
    } else {
        None
    }
}

// Asserts that nothing of a call is wrong.
fn assert_right(rt: &impl Abort, place: usize, wrong: Option<&'static str>) {
    if let Some(what) = wrong {
        panic!(rt; "call {place}: {what}");
    }
}

// What the call of a step answers, of a book and of the plain one.
fn answers(rt: &impl Abort, pair: &mut Pair, place: usize, step: &Step) -> [Told<'static>; 2] {
    let now = moment(rt, step.secs);
    let tenant = step.tenant;
    match step.call {
        Call::Post(length) => pair.create(rt, tenant, Kind::Plain, length, now),
        Call::PostWith(length, bytes) => {
            pair.create_with(rt, tenant, length, first(true, None, bytes), now)
        }
        Call::PostChecked(length, check, bytes) => {
            pair.create_with(rt, tenant, length, first(true, Some(check), bytes), now)
        }
        Call::PostUntyped(length, bytes) => {
            pair.create_with(rt, tenant, length, first(false, None, bytes), now)
        }
        Call::Partial(length) => pair.create(rt, tenant, Kind::Partial, length, now),
        Call::Join(parts) => pair.concat(rt, tenant, parts, now),
        _ => later_answers(rt, pair, place, step),
    }
}

// The same of a call that is no creation.
fn later_answers(
    rt: &impl Abort,
    pair: &mut Pair,
    place: usize,
    step: &Step,
) -> [Told<'static>; 2] {
    let now = moment(rt, step.secs);
    let settings = pair.book.settings();
    let tenant = settings.tenant(step.tenant).expect(rt, "a tenant");
    match step.call {
        Call::Patch(id, offset, bytes) => {
            pair.append(rt, Name { tenant, id }, typed(offset, None, bytes), now)
        }
        Call::PatchOf(id, offset, length, bytes) => {
            let chunk = typed(offset, Some(length), bytes);
            pair.append(rt, Name { tenant, id }, chunk, now)
        }
        Call::Checked(id, offset, check, bytes) => {
            let chunk = checked(offset, check, bytes);
            pair.append(rt, Name { tenant, id }, chunk, now)
        }
        Call::Untyped(id, bytes) => pair.append(rt, Name { tenant, id }, untyped(bytes), now),
        Call::Head(id) => pair.look(Name { tenant, id }, now),
        Call::Get(id) => {
            pair.assert_content(rt, place, Name { tenant, id }, now, step.told);
            [step.told, step.told]
        }
        Call::Delete(id) => pair.terminate(Name { tenant, id }, now),
        Call::Sweep => pair.sweep(now),
        Call::Expiries => [step.told, step.told],
        _ => panic!(rt; "call {place} is a creation"),
    }
}

// Takes the pair through one call, after which this is paid.
fn take(rt: &impl Abort, pair: &mut Pair, place: usize, step: &Step, paid: Paid) {
    let answers = answers(rt, pair, place, step);
    assert_right(rt, place, wrong_in(answers, step.told));
    assert_right(rt, place, pair.wrong_after(rt, step.told, paid));
}

// Takes the pair through a creation, by which nothing is paid, and through a PATCH of the upload that it gives.
fn begin(
    rt: &impl Abort,
    pair: &mut Pair,
    place: usize,
    step: &Step,
    creation: Call,
    bytes: &'static [u8],
    paid: Paid,
) {
    let Told::Begun(id, created, offset, expires) = step.told else {
        panic!(rt; "call {place} begins an upload");
    };
    let first = Step {
        call: creation,
        told: Told::Created(id, created),
        ..*step
    };
    let second = Step {
        call: Call::Patch(id, 0, bytes),
        told: Told::Appended(offset, expires),
        ..*step
    };
    take(rt, pair, place, &first, paid);
    take(rt, pair, place, &second, step.after.unwrap_or(paid));
}

// Takes the pair through one step, before which this is paid.
fn play(rt: &impl Abort, pair: &mut Pair, place: usize, step: &Step, paid: Paid) {
    match step.call {
        Call::Begin(length, bytes) => {
            begin(rt, pair, place, step, Call::Post(length), bytes, paid)
        }
        Call::Part(length, bytes) => {
            begin(rt, pair, place, step, Call::Partial(length), bytes, paid)
        }
        _ => take(rt, pair, place, step, step.after.unwrap_or(paid)),
    }
}

// Takes the pair through the steps of a table, before which this is paid, and gives what is paid then.
fn play_all(rt: &impl Abort, pair: &mut Pair, steps: &[Step], before: Paid) -> Paid {
    let mut paid = before;
    for (place, step) in steps.iter().enumerate() {
        play(rt, pair, place, step, paid);
        if let Some(after) = step.after {
            paid = after;
        }
    }
    paid
}

/// Takes a new book, and a new plain one, through the steps of a table.
pub fn run(rt: &impl Abort, alloc: Global, numbers: Numbers, steps: &[Step]) {
    run_behind(rt, alloc, numbers, &[], steps);
}

/// The same behind the steps of a beginning.
pub fn run_behind(
    rt: &impl Abort,
    alloc: Global,
    numbers: Numbers,
    beginning: &[Step],
    steps: &[Step],
) {
    let mut pair = Pair {
        book: new_book(rt, alloc, numbers),
        plain: PlainBook::new(alloc, numbers, [8, 4]),
    };
    let paid = play_all(rt, &mut pair, beginning, [0, 0, numbers.blocks, 0, 0]);
    play_all(rt, &mut pair, steps, paid);
}

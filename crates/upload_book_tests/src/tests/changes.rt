//! Changes in two halves: prepared and made, and prepared and let go.

ghost use Rattle.std.specs.Prelude.{IfOk, length};
ghost use Rattle.upload_book.specs.Book.{plain_of};
ghost use Rattle.upload_book.specs.Change.{CanBeMade};
ghost use Rattle.upload_book.specs.Ready.{IsReady};

use crate::tests::books::{ACME, acme, moment, new_book, new_upload};
use crate::tests::plain::PlainBook;
use crate::tests::steps::{Told, appended};
use std::process::Abort;
use upload_book::{
    Accounts, BoardLine, Book, Change, HeadChange, Kind, Moment, Name, Outcome, Ready, Refusal,
    Refused,
};
use worked_example::{NUMBERS, hello, no_bytes};

// What becomes of acme's first upload, which has ten bytes when it is complete.
#[derive(Clone, Copy)]
enum Asked {
    // A PATCH brings the first five.
    Patch,
    Delete,
    Sweep,
}

impl Asked {
    fn change(self, book: &Book) -> Change<'static>
        ensures { CanBeMade (length (plain_of book.now).settings.tenants) result }
    {
        match self {
            Asked::Patch => Change::Append {
                name: acme(1),
                chunk: hello(),
            },
            Asked::Delete => Change::Terminate(acme(1)),
            Asked::Sweep => Change::Sweep,
        }
    }
}

// What is done with a book, and what it has to show.
enum Step {
    // The PATCH is prepared at second 1000 and let go.
    LetsGo,
    // It is prepared at second 1000 and made, unless it is refused, and answers this, as by the plain program.
    Makes(Told<'static>),
    // The line of a change at a second, which is let go, puts the row of this upload, which is so far by it, and has these
    // accounts.
    Foretells(Asked, u64, Option<(Name, u64)>, [u64; 4]),
    // What was charged and released, and what the two tenants pay.
    Accounts([u64; 4]),
    // How far the upload is, what acme pays, and how many blocks are free.
    Has([u64; 3]),
}

static STEPS: [Step; 11] = [
    // A PATCH that is let go costs nothing, and its line tells what will be.
    Step::LetsGo,
    Step::Has([0, 0, 12]),
    Step::Foretells(
        Asked::Patch,
        1000,
        Some((Name { tenant: 0, id: 1 }, 5)),
        [2, 0, 2, 0],
    ),
    // The accounts after one that is made have its blocks.
    Step::Makes(Told::Appended(5, Some(4600))),
    Step::Has([5, 2, 10]),
    Step::Accounts([2, 0, 2, 0]),
    // What ends the upload gives its blocks back, and a sweep too soon does not.
    Step::Foretells(Asked::Delete, 1000, None, [2, 2, 0, 0]),
    Step::Foretells(Asked::Sweep, 4599, None, [2, 0, 2, 0]),
    Step::Foretells(Asked::Sweep, 4600, None, [2, 2, 0, 0]),
    // The same PATCH is refused after it, and changes nothing.
    Step::Makes(Told::RefusedPatch(Refusal::Offset, Some(4600))),
    Step::Has([5, 2, 10]),
];

// Prepares a change of the first upload.
fn prepare(book: &mut Book, asked: Asked, now: Moment) -> Result<Ready<'static>, Refused>
    ensures { IfOk result (IsReady book.new) }
{
    let change = asked.change(book);
    book.prepare(change, now)
}

// Prepares the PATCH and makes it.
fn make(book: &mut Book, now: Moment) -> Result<Outcome, Refused> {
    let ready = prepare(book, Asked::Patch, now)?;
    Ok(book.commit(ready))
}

// What it answers, where it is answered as a PATCH is.
fn answer(made: Result<Outcome, Refused>) -> Option<Told<'static>> {
    match made {
        Ok(Outcome::Appended(done)) => Some(appended(Ok(done))),
        Ok(_) => None,
        Err(refused) => Some(appended(Err(refused))),
    }
}

// Whether the PATCH answers this, of the book and of the plain one.
fn makes(rt: &impl Abort, book: &mut Book, plain: &mut PlainBook, told: Told) -> bool {
    let now = moment(rt, 1000);
    let plainly = plain.append(rt, &acme(1), &hello(), now);
    appended(plainly) == told && answer(make(book, now)) == Some(told)
}

// The upload whose row is put, and how far it is by that.
fn put_by(change: &HeadChange) -> Option<(Name, u64)> {
    match change {
        HeadChange::Put(name, row) => Some((*name, row.offset)),
        HeadChange::Gone(_) | HeadChange::Swept(_) | HeadChange::Next(_) | HeadChange::Totals =>
            None,
    }
}

// What was charged and released, and what the two tenants pay.
fn paid(accounts: &Accounts) -> [u64; 4] {
    [
        accounts.charged,
        accounts.released,
        accounts.charge[0],
        accounts.charge[1],
    ]
}

// The line of a change that is let go.
fn line(book: &mut Book, asked: Asked, now: Moment) -> Result<BoardLine, Refused> {
    let ready = prepare(book, asked, now)?;
    Ok(ready.line(book))
}

// Whether the line of a change tells this.
fn tells(line: Result<BoardLine, Refused>, put: Option<(Name, u64)>, accounts: [u64; 4]) -> bool {
    match line {
        Ok(line) => put_by(&line.change) == put && paid(&line.accounts) == accounts,
        Err(_) => false,
    }
}

// How far the upload is, what acme pays, and how many blocks are free.
fn seen(rt: &impl Abort, book: &Book) -> Option<[u64; 3]> {
    let tenant = book.settings().tenant(ACME).expect(rt, "acme");
    let row = book.look(&acme(1), moment(rt, 1000)).ok()?;
    Some([row.offset, book.charge(tenant), book.free_blocks()])
}

// The upload, in the book and in the plain program.
fn create(rt: &impl Abort, book: &mut Book, plain: &mut PlainBook) {
    let now = moment(rt, 1000);
    let place = book.settings().tenant(ACME).expect(rt, "acme");
    let created = book.create(place, new_upload(false, Some(10)), now);
    let plainly = plain.create(rt, place, Kind::Plain, Some(10), &no_bytes(), now);
    assert!(rt; created == plainly);
}

// Takes a step. Says whether the book shows what it has to.
fn goes(rt: &impl Abort, book: &mut Book, plain: &mut PlainBook, step: &Step) -> bool {
    match step {
        Step::LetsGo => prepare(book, Asked::Patch, moment(rt, 1000)).is_ok(),
        Step::Makes(told) => makes(rt, book, plain, *told),
        Step::Foretells(asked, secs, put, accounts) => {
            tells(line(book, *asked, moment(rt, *secs)), *put, *accounts)
        }
        Step::Accounts(accounts) => paid(&book.accounts()) == *accounts,
        Step::Has(has) => seen(rt, book) == Some(*has),
    }
}

#[test]
fn a_patch_in_two_halves(rt: HostRuntime) {
    let mut book = new_book(&rt, rt.alloc(), NUMBERS);
    let mut plain = PlainBook::new(rt.alloc(), NUMBERS, [8, 4]);
    create(&rt, &mut book, &mut plain);
    for (place, step) in STEPS.iter().enumerate() {
        assert!(rt; goes(&rt, &mut book, &mut plain, step), "step {place}");
    }
}

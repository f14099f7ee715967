ghost use Rattle.std.specs.Prelude.{◌≡◌, Err, IfErr, IfOk, Ok, OnErr, OnOk, length};
ghost use Rattle.upload_book.specs.Book.{plain_of};
ghost use Rattle.upload_book.specs.Change.{CanBeMade, MayLackFor, book_after_change, change_answer, change_lacking};
ghost use Rattle.upload_book.specs.Refusal.{IsAnswer};
ghost use Rattle.tus_steps.specs.PlacedReply.{reply_in};
ghost use Rattle.tus_steps.specs.Reply.{IsRefusing};
ghost use Rattle.tus_steps.specs.Step.{IsStep};

use crate::asked::{Asked, answer_asked, asked_of};
use crate::creation::PartIds;
use crate::placed_reply::PlacedReply;
use crate::reply::Reply;
use crate::request::Request;
use upload_book::{Book, Change, Moment, Outcome, Refused};

/// Answers a request and applies it to the book, as the plain book does at this moment: refused by the
/// first refusal of the order that applies, and then the book is as it was, or else by its operation.
/// OPTIONS is answered whatever the request says. Where the bytes of a PATCH, of a creation or of a GET, or
/// the lists of a final upload, find no memory, it is refused as Memory, and the book is as it was.
pub fn answer(book: &mut Book, request: &Request, now: Moment) -> Reply
    ensures step { IsStep (plain_of book.old) request.now now result (plain_of book.new) }
    ensures refused { IsRefusing result → book.new ≡ book.old }
    ensures settings { (plain_of book.new).settings ≡ (plain_of book.old).settings }
{
    let mut reply = PlacedReply::new();
    answer_in_place(book, request, now, &mut reply);
    reply.into_reply()
}

/// The same, with the reply put to its place.
pub fn answer_in_place(book: &mut Book, request: &Request, now: Moment, reply: &mut PlacedReply)
    ensures step { IsStep (plain_of book.old) request.now now (reply_in reply.new) (plain_of book.new) }
    ensures refused { IsRefusing (reply_in reply.new) → book.new ≡ book.old }
    ensures settings { (plain_of book.new).settings ≡ (plain_of book.old).settings }
{
    let mut ids = PartIds::new();
    match asked_of(book.settings(), request, &mut ids) {
        Asked::Change(asked) => {
            let offset = asked.offset;
            let outcome = make(book, asked.change, now);
            reply.put_change(request, offset, outcome);
        }
        asked => answer_asked(book, request, asked, now, book.none_begun(), reply),
    }
}

// Makes a change of the book, or finds why it is refused.
fn make(book: &mut Book, change: Change, now: Moment) -> Result<Outcome, Refused>
    requires { CanBeMade (length (plain_of book.old).settings.tenants) change }
    ensures answer { IfOk result (λ told. change_answer (plain_of book.old) change.entry now ≡ Ok told) }
    ensures made { OnOk result (plain_of book.new ≡ book_after_change (plain_of book.old) change.entry now) }
    ensures refused { IfErr result (λ why. IsAnswer
        (change_answer (plain_of book.old) change.entry now)
        (MayLackFor (plain_of book.old) change.entry now)
        (change_lacking (plain_of book.old) change.entry now) (Err why)) }
    ensures unchanged { OnErr result (book.new ≡ book.old) }
{
    let ready = book.prepare(change, now)?;
    Ok(book.commit(ready))
}

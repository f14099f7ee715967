ghost use Rattle.std.specs.Prelude.{◌≡◌, ℕ, IfSome, length};
ghost use Rattle.tus_steps.specs.Changing.{IsChangeStep, change_found, change_reply as reply_to};
ghost use Rattle.upload_book.specs.Change.{CanBeMade};
ghost use Rattle.upload_book.specs.Lawful.{IsLawful};
ghost use Rattle.upload_book.specs.PlainBook.{PlainBook};

use crate::asked::{Asked, asked_of};
use crate::creation::PartIds;
use crate::placed_reply::PlacedReply;
use crate::reply::Reply;
use crate::request::Request;
use crate::requested_change::ChangeOf;
use upload_book::{Outcome, Refused, Settings};

/// Finds the change that a request asks for, to one who makes it in two halves; a concatenation borrows from `ids`.
/// There is none where [`crate::answer`] changes nothing: where the request is a HEAD, a GET or OPTIONS, and where it
/// is refused before the book is asked. It takes no memory.
///
/// The reply is [`change_reply`] of what the two halves give, [`upload_book::Book::prepare`] and
/// [`upload_book::Book::commit`].
pub fn change_of<'a, 'b>(
    settings: &Settings,
    request: &Request<'a>,
    ids: &'b mut PartIds,
) -> Option<ChangeOf<'b>>
where
    'a: 'b,
    ensures found { result ≡ change_found settings.now request.now }
    ensures ready { IfSome result (λ asked. CanBeMade (length settings.now.tenants) asked.change) }
    ensures step { (b : PlainBook) (now : ℕ) → IsLawful b → b.settings ≡ settings.now
        → IsChangeStep b request.now now result }
{
    let Asked::Change(asked) = asked_of(settings, request, ids) else {
        return None;
    };
    Some(asked)
}

/// The reply to a request that asked for a change, by what the change gave or by why it was refused; `offset` is that
/// of [`ChangeOf`]. It takes no memory.
pub fn change_reply(
    request: &Request,
    offset: Option<u64>,
    outcome: Result<Outcome, Refused>,
) -> Reply
    ensures { result ≡ reply_to request.now offset outcome }
{
    let mut reply = PlacedReply::new();
    reply.put_change(request, offset, outcome);
    reply.into_reply()
}

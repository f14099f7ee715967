ghost use Rattle.std.specs.Prelude.{◌≡◌, ◌≢◌, [], IfOk, OnErr};
ghost use Rattle.tus_steps.specs.History.{IsHistory, requests_at};
ghost use Rattle.upload_book.specs.Book.{plain_of};

use crate::reply::Reply;
use crate::request::Request;
use crate::run_fault::RunFault;
use crate::step::answer;
use std::alloc::Global;
use upload_book::{Book, Moment};

/// Answers requests one after another, each at its moment, as [`answer`] does, and gives their replies in the same
/// order, one for each. The room for the replies is taken first: the error is that there was too little memory for
/// it, and then the book is as it was. No room is needed where there is no request.
pub fn run(
    alloc: Global,
    book: &mut Book,
    turns: &[(Request, Moment)],
) -> Result<Vec<Reply>, RunFault>
    ensures history { IfOk result (λ replies.
        IsHistory (plain_of book.old) (requests_at turns.now) replies.items (plain_of book.new)) }
    ensures lacking { OnErr result (book.new ≡ book.old) }
    ensures some { OnErr result (turns.now ≢ []) }
{
    let Ok(mut replies) = Vec::with_capacity(alloc, turns.len()) else {
        return Err(RunFault::Memory);
    };
    for (request, now) in turns {
        replies.push_reserved(answer(book, request, *now));
    }
    Ok(replies)
}

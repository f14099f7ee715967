ghost use Rattle.std.specs.Prelude.{◌≡◌, true, List, length, vec_len, IfOk, IfSome, None, OnErr};
ghost use Rattle.kept_book.specs.Kept.{has_failed, IsKept};
ghost use Rattle.kept_book.specs.Session.{IsSession};
ghost use Rattle.upload_book.specs.Events.{ChangeEvent};
ghost use Rattle.upload_book.specs.Settings.{Settings};

use crate::fault::AnswerFault;
use crate::kept::KeptBook;
use sqlite_disk::Disk;
use std::alloc::{AllocError, Global};
use tus_steps::{PlacedReply, Reply, Request};
use upload_book::Moment;

/// The replies that were given to requests, and why there were no more.
#[derive(Drop)]
pub struct SessionReplies {
    /// One for each of the first requests, in their order.
    pub replies: Vec<Reply>,
    /// `None` where all requests were answered.
    pub fault: Option<AnswerFault>,
}

/// Answers requests one after another, each at its moment, as [`KeptBook::answer`] does, up to the first that is not
/// answered. After a crash at any moment the book that is opened again is the plain book after a list of changes that
/// begins with everything that any of these replies told.
///
/// `Err` where there is no memory for the list of replies; then the kept book is as it was.
pub fn answer_all<D: Disk>(
    alloc: Global,
    kept: &mut KeptBook<D>,
    turns: &[(Request, Moment)],
) -> Result<SessionReplies, AllocError>
    ensures session { (s : Settings) (events : List ChangeEvent)
        → IsKept kept.old s events
        → IfOk result (λ it. IsSession kept.old kept.new s events turns.now it.replies.items) }
    ensures due { IfOk result (λ it. IfSome it.fault (λ _. has_failed kept.new ≡ true)) }
    ensures all { IfOk result (λ it. it.fault ≡ None → vec_len it.replies ≡ length turns.now) }
    ensures lacking { OnErr result (kept.new ≡ kept.old) }
{
    let mut replies = Vec::with_capacity(alloc, turns.len())?;
    for (request, now) in turns {
        let mut reply = PlacedReply::new();
        match kept.answer(request, *now, &mut reply) {
            Ok(()) => replies.push_reserved(reply.into_reply()),
            Err(fault) => {
                return Ok(SessionReplies {
                    replies,
                    fault: Some(fault),
                });
            }
        }
    }
    Ok(SessionReplies {
        replies,
        fault: None,
    })
}

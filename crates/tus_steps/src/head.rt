ghost use Rattle.std.specs.Prelude.{◌≡◌, ℕ};
ghost use Rattle.tus_steps.specs.Head.{IsHeadOf, IsHeadStep};
ghost use Rattle.tus_steps.specs.Reply.{head_reply as reply_to};
ghost use Rattle.upload_book.specs.PlainBook.{PlainBook};

use crate::asked::Asked;
use crate::creation::PartIds;
use crate::reply::{PathKind, Reply};
use crate::request::Request;
use upload_book::{HeadRow, Name, Refusal, Settings};

/// What a request is to one who can tell where uploads stand, and nothing else.
#[derive(Drop)]
pub enum HeadOf {
    /// It is no HEAD.
    NotHead,
    /// A HEAD that is refused before any upload is looked at, with this reply.
    Refused(Reply),
    /// A HEAD of the upload of this name, which may not be there.
    Of(Name),
}

/// Finds the upload that a HEAD asks for. A HEAD is refused, in this order, as Version, Path, Tenant and Method
/// (where its path names no upload), and with the reply that [`crate::answer`] gives. For any other the reply is
/// [`head_reply`] of what [`upload_book::Book::look`] tells of the name. It takes no memory.
pub fn head_of(settings: &Settings, request: &Request) -> HeadOf
    ensures found { IsHeadOf settings.now request.now result }
    ensures step { (b : PlainBook) (now : ℕ) → b.settings ≡ settings.now → IsHeadStep b request.now now result }
{
    if !request.method.is_head() {
        return HeadOf::NotHead;
    }
    let mut ids = PartIds::new();
    match request.asked(settings, &mut ids) {
        Ok(Asked::Look(name)) => HeadOf::Of(name),
        Ok(_) => unreachable!("a HEAD asks for nothing else"),
        Err(refusal) => HeadOf::Refused(Reply::refusing(request, refusal, None)),
    }
}

/// The reply to a HEAD of an upload, by what is told of it or by why that is refused. It takes no memory.
pub fn head_reply(outcome: Result<HeadRow, Refusal>) -> Reply
    ensures { result ≡ reply_to outcome }
{
    match outcome {
        Ok(row) => Reply::Head(row),
        Err(refusal) => Reply::Refused {
            refusal,
            head: true,
            place: PathKind::Upload,
            expires: None,
        },
    }
}

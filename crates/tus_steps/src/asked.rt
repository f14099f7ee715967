ghost use Rattle.std.specs.Prelude.{◌≡◌, None, vec_capacity};
ghost use Rattle.tus_steps.specs.Asked.{asked_in, change_in};
ghost use Rattle.tus_steps.specs.Changing.{IsFound};
ghost use Rattle.tus_steps.specs.declared.asked.Asked.TheVariants as asks;
ghost use Rattle.tus_steps.specs.PlacedReply.{reply_in};
ghost use Rattle.tus_steps.specs.Step.{IsContentReply, IsStep};
ghost use Rattle.upload_book.specs.Begun.{IsBegun};
ghost use Rattle.upload_book.specs.Book.{plain_of};
ghost use Rattle.upload_book.specs.declared.head_row.Name.{Name};

use crate::creation::PartIds;
use crate::placed_reply::{PlacedReply, ReplyKind};
use crate::request::Request;
use crate::requested_change::ChangeOf;
use upload_book::{Begun, Book, Change, Moment, Name, Refusal, Settings};

/// What a request asks for, as it is found before any book is at hand.
#[derive(Drop)]
pub enum Asked<'a> {
    /// To be told what the server can do.
    Options,
    /// Nothing: it is refused before the book is asked.
    Refused(Refusal),
    /// To see what stands of the upload of this name, which may not be there: it is a HEAD.
    Look(Name),
    /// The bytes of the upload of this name, which may not be there: it is a GET.
    Content(Name),
    /// To change the book.
    Change(ChangeOf<'a>),
}

impl<'a> Asked<'a> {
    // To make a change whose reply tells no offset beside the change's own.
    pub(crate) fn change(change: Change<'a>) -> Asked<'a>
        ensures { result ≡ asks.Change (record { change = change.entry; offset = None }) }
    {
        Asked::Change(ChangeOf {
            change,
            offset: None,
        })
    }
}

/// Finds what a request asks for, by its own fields and the settings alone; a concatenation borrows from `ids`. So a
/// request can be read before a lock is taken. It is refused, in this order, as Version, Path, Tenant, Method and Field.
/// It takes no memory.
///
/// [`answer_asked`] then answers it where it asks for no change. A change may be given to
/// [`upload_book::Book::prepare`], and the reply is [`crate::change_reply`] of what that and
/// [`upload_book::Book::commit`] give.
pub fn asked_of<'a, 'b>(
    settings: &Settings,
    request: &Request<'a>,
    ids: &'b mut PartIds,
) -> Asked<'b>
where
    'a: 'b,
    ensures { IsFound settings.now request.now result }
{
    if request.method.is_options() {
        return Asked::Options;
    }
    match request.asked(settings, ids) {
        Ok(asked) => asked,
        Err(refusal) => Asked::Refused(refusal),
    }
}

/// Answers a request that asks for no change, by what [`asked_of`] found of it under the book's settings: the reply is
/// the plain book's at this moment, and the book stays. The upload of a HEAD or a GET is found by halving. The bytes that a
/// GET gives are copied once; where `begun` has the first ones of them, behind these. It is refused as Memory only where they
/// are more than the capacity of `begun`, and get no more memory; nothing else takes memory.
pub fn answer_asked(
    book: &Book,
    request: &Request,
    asked: Asked,
    now: Moment,
    begun: Begun,
    reply: &mut PlacedReply,
)
    requires found { asked ≡ asked_in (plain_of book.now).settings request.now }
    requires begun { (name : Name) → asked ≡ asks.Content name → IsBegun (plain_of book.now) name begun.first begun.bytes.items }
    requires stays { change_in asked ≡ None }
    ensures step { IsStep (plain_of book.now) request.now now (reply_in reply.new) (plain_of book.now) }
    ensures room { (name : Name) → asked.entry ≡ asks.Content name
        → IsContentReply (plain_of book.now) request.now now name (vec_capacity begun.bytes) (reply_in reply.new) }
{
    match asked {
        Asked::Options => {
            let max_size = book.settings().numbers().max_size;
            reply.kind = ReplyKind::Options { max_size };
        }
        Asked::Refused(refusal) => reply.refuse(request, refusal, None),
        Asked::Look(name) => reply.put_head(book.look_lent(&name, now)),
        Asked::Content(name) => answer_content(book, request, &name, now, begun, reply),
        Asked::Change(_) => unreachable!("a change is made, and not only answered"),
    }
}

// Answers a GET of the upload of this name.
fn answer_content(
    book: &Book,
    request: &Request,
    name: &Name,
    now: Moment,
    begun: Begun,
    reply: &mut PlacedReply,
)
    requires { IsBegun (plain_of book.now) name.now begun.first begun.bytes.items }
    ensures { IsContentReply (plain_of book.now) request.now now name.now (vec_capacity begun.bytes) (reply_in reply.new) }
{
    let row = match book.look_lent(name, now) {
        Ok(row) => row,
        Err(refusal) => return reply.refuse(request, refusal, None),
    };
    let len = match book.content_len(name, now) {
        Ok(len) => len,
        Err(refusal) => return reply.refuse(request, refusal, None),
    };
    match request.range.extent(len) {
        Some(extent) => {
            let content = book.content(name, now, extent.span(len), begun);
            reply.put_content(request, extent, row.metadata(), content);
        }
        None => reply.kind = ReplyKind::Unsatisfiable { len },
    }
}

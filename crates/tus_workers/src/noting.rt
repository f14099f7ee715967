//! What answers requests, and notes what each reply tells, where somebody reads that.
ghost use Rattle.std.specs.Prelude.{◌≡◌, ℕ, List};
ghost use Rattle.http_wire.specs.Refusal as wire;
ghost use Rattle.http_wire.specs.ReplyText.{reply_status};
ghost use Rattle.tus_steps.specs.InPieces.{as_creation};
ghost use Rattle.tus_steps.specs.PlacedReply.{reply_in};
ghost use Rattle.tus_text.specs.declared.path.Path.TheVariants as path;
ghost use Rattle.tus_workers.specs.Noting.{told_word};

use access_log::SeenReply;
use connection_turns::Durability;
use http_wire::{Answer, WireRefusal, reply_status};
use service_watch::Word;
use std::cell::Cell;
use tus_steps::{PlacedReply, ReplyKind, Request};
use upload_book::Moment;

/// What the last reply tells, until who watches takes it.
pub(crate) type NotedReply = Cell<Option<SeenReply>>;

/// What answers requests as `inner` does, and notes what each reply tells.
#[derive(Drop)]
pub(crate) struct Noting<'n, A> {
    pub inner: A,
    // None where nobody reads it.
    noted: Option<&'n NotedReply>,
}

impl<'n, A> Noting<'n, A> {
    /// What answers as `inner` does. What its replies tell is put to `noted`, if there is one.
    pub fn new(inner: A, noted: Option<&'n NotedReply>) -> Self
        ensures { result.inner ≡ inner }
    {
        Noting { inner, noted }
    }

    /// What has answered.
    pub fn into_inner(self) -> A
        ensures { result ≡ self.entry.inner }
    {
        let Noting { inner, noted: _ } = self;
        inner
    }
}

impl<'n, A: Answer> Answer for Noting<'n, A> {
    ghost max_size = { λ noting. A.max_size noting.inner };

    ghost steps = { λ old request now reply new. A.steps old.inner request now reply new.inner };

    fn max_size(&self) -> u64 {
        self.inner.max_size()
    }

    fn answer(&mut self, request: &Request, now: Moment, reply: &mut PlacedReply) {
        self.inner.answer(request, now, reply);
        if let Some(noted) = self.noted {
            noted.set(Some(seen_in(reply)));
        }
    }
}

impl<'n, A: Durability> Durability for Noting<'n, A> {
    ghost holds_back = { λ noting. A.holds_back noting.inner };

    fn holds_back(&self) -> bool {
        self.inner.holds_back()
    }
}

// What a reply to a request tells.
fn seen_in(reply: &PlacedReply) -> SeenReply
    ensures status { result.status ≡ reply_status (reply_in reply.now) }
    ensures creation { (tenant : List ℕ) (id : ℕ)
        → result.creation_status ≡ reply_status (as_creation (path.Upload tenant id) (reply_in reply.now)) }
    ensures word { result.word ≡ told_word (reply_in reply.now) }
{
    SeenReply {
        status: reply_status(reply),
        creation_status: creation_status_of(reply),
        word: word_of(reply),
    }
}

// The status of the reply to a creation whose last piece got this reply.
fn creation_status_of(reply: &PlacedReply) -> u16
    ensures { (tenant : List ℕ) (id : ℕ)
        → result ≡ reply_status (as_creation (path.Upload tenant id) (reply_in reply.now)) }
{
    if reply.is_patched() {
        201
    } else {
        reply_status(reply)
    }
}

fn word_of(reply: &PlacedReply) -> Word
    ensures { result ≡ told_word (reply_in reply.now) }
{
    match &reply.kind {
        ReplyKind::Refused { refusal, .. } => Word::of(refusal.word().as_bytes()),
        _ => Word::empty(),
    }
}

/// What the reply to a request tells that the wire refuses.
pub(crate) fn seen_refusal(refusal: WireRefusal) -> SeenReply
    ensures status { result.status ≡ wire.status_of refusal }
    ensures word { result.word ≡ wire.word_of refusal }
{
    SeenReply {
        status: refusal.status(),
        creation_status: refusal.status(),
        word: Word::of(refusal.word().as_bytes()),
    }
}

ghost use Rattle.std.specs.Prelude.{◌≡◌, ◌<◌, ◌^◌, ℕ};
ghost use Rattle.tus_steps.specs.Request as spec;
ghost use Rattle.http_wire.specs.BookStep.{BookStep};
ghost use Rattle.tus_steps.specs.declared.reply.Reply.{Reply};
ghost use Rattle.tus_steps.specs.PlacedReply.{reply_in};
ghost use Rattle.upload_book.specs.Book.{StoredBook, plain_of};

use tus_steps::{PlacedReply, Request, answer_in_place};
use upload_book::{Book, Moment};

/// What answers the requests of a connection: a book, or anything else that makes a step for each
/// request. An `answer` may wait where its type holds a handle that may.
pub trait Answer {
    // The most bytes of a body.
    ghost max_size: { Self → ℕ };

    // Its steps: from a state, by a request at a moment, with this reply, to the state after it.
    ghost steps: { Self → spec.Request → ℕ → Reply → Self → Type 0 };

    /// The most bytes of a request's body.
    fn max_size(&self) -> u64
        ensures value { result ≡ max_size self.now }
        ensures range { result < 2 ^ 62 };

    /// Makes the step of a request at its moment, and puts the reply to its place.
    fn answer(&mut self, request: &Request, now: Moment, reply: &mut PlacedReply)
        ensures { steps self.old request.now now (reply_in reply.new) self.new };
}

impl Answer for Book {
    ghost max_size = { λ (b : StoredBook). (plain_of b).settings.numbers.max_size };

    ghost steps = { BookStep };

    fn max_size(&self) -> u64 {
        self.settings().numbers().max_size
    }

    fn answer(&mut self, request: &Request, now: Moment, reply: &mut PlacedReply) {
        answer_in_place(self, request, now, reply);
    }
}

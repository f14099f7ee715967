//! Answers that may have to wait before they are told.
ghost use Rattle.std.specs.Prelude.{◌≡◌, Bool, false};

use http_wire::Answer;
use upload_book::Book;

/// What answers requests, and may hold back its replies. Then a turn of a connection reads and answers alone
/// ([`crate::take_turn`]), and what is pending is sent by another call ([`crate::send_pending`]), once all that the replies
/// rest on is kept.
pub trait Durability: Answer {
    // Its replies are held back.
    ghost holds_back: { Self → Bool };

    /// Whether its replies are held back.
    fn holds_back(&self) -> bool
        ensures { result ≡ holds_back self.now };
}

/// Nothing of a book outlives its process.
impl Durability for Book {
    ghost holds_back = { λ b. false };

    fn holds_back(&self) -> bool {
        false
    }
}

use std::marker::Model;
use upload_book::Ready;

/// What happened to a book: a change that it accepted, with the bytes that it carried, its moment, and the number of the
/// desk that made it. No value of it is made: the log of a board tells proofs of events, and stores none.
#[derive(Drop)]
pub struct Event;

impl Model for Event {
    ghost use Rattle.head_board.specs.Event as spec;

    ghost Value = { spec.Event };

    ghost view = { λ event. spec.no_event };
}

/// A change for which a book is ready, at the desk of this number: the event that it will be once it is made.
#[derive(Drop)]
pub struct Coming<'a, 'b> {
    pub desk: usize,
    pub ready: &'a Ready<'b>,
}

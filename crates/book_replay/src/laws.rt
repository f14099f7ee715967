ghost use Rattle.book_replay.specs.Laws.{EventsAreReplayed, ReplaysTellEvents};

/// A law: the records of all that happened to a book make the plain book after it.
pub fn events_are_replayed()
    ensures { EventsAreReplayed }
{}

/// A law: records of which a book is made are those of events that happened, each accepted by the book that the ones
/// before it left, and the book is the one after all of them.
pub fn replays_tell_events()
    ensures { ReplaysTellEvents }
{}

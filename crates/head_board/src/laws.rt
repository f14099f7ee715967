//! Laws of the definitions that the contracts cite: each is the contract of a function that does nothing.
ghost use Rattle.head_board.specs.Laws.{BooksStayLawful, LaterEvents, LinesHaveRoom};

/// A table of heads has room for each line that may follow on them.
pub fn lines_have_room()
    ensures { LinesHaveRoom }
{}

/// Whatever happens to a book that is lawful, it stays lawful. So the book of settings without a fault is lawful after all that
/// happened since its opening.
pub fn books_stay_lawful()
    ensures { BooksStayLawful }
{}

/// What a book tells of a name stays true when more happens to it: an upload does not become shorter, its kind, its texts and
/// its length, once that is known, stay; and a name that was given, and under which no upload stands, never has one
/// again.
pub fn later_events()
    ensures { LaterEvents }
{}

//! What is proved of all lines of a log.
ghost use Rattle.service_watch.specs.Laws.{CutsAreOneLine, RequestsAreOneLine};

/// A law: the text of a request's line is printable ASCII, with 15 spaces, and LF at its end alone, whatever a client sent.
pub fn requests_are_one_line()
    ensures { RequestsAreOneLine }
{}

/// A law: the same of the line of a connection that was cut off, with 8 spaces.
pub fn cuts_are_one_line()
    ensures { CutsAreOneLine }
{}

ghost use Rattle.journal_records.specs.Laws.{RecordsAreReadAgain, RecordsAreSpelledSo};

/// A law: each change and its moment are read again from their record, exactly as they were.
pub fn records_are_read_again()
    ensures { RecordsAreReadAgain }
{}

/// A law: bytes that are read as a record are the ones that are written of it, and it can be written again.
pub fn records_are_spelled_so()
    ensures { RecordsAreSpelledSo }
{}

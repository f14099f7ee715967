use upload_book::{Outcome, Refused};

/// What was done of a change.
#[derive(Drop)]
pub(crate) enum Done {
    /// It was made, or refused as the book does.
    Told(Result<Outcome, Refused>),
    /// The book accepts it, and it was refused so, since there is no room for its record.
    Unkept(Refused),
}

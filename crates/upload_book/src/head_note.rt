use crate::board_line::Accounts;
use crate::head_row::Name;
use crate::moment::Moment;
use crate::row_ref::RowRef;
use crate::shared_row::SharedRowRef;

/// How far an upload is, and when it expires: what a PATCH changes of its row.
#[derive(Clone, Copy, Debug, PartialEq, Eq)]
pub struct Growth {
    /// How many bytes it has.
    pub offset: u64,
    /// How many bytes it will have, where that is known.
    pub declared: Option<u64>,
    /// When it expires, if it does.
    pub expires: Option<Moment>,
}

/// What changes of the heads of a book, as small as it can be told.
#[derive(Drop)]
pub enum NotedChange<'a> {
    /// The tenant at this place in the settings has a new upload of this row, under its next id.
    Created(u8, RowRef<'a>),
    /// The same of an upload whose texts are shared, and need not be copied.
    Shared(u8, SharedRowRef<'a>),
    /// The upload of this name is so far from now on.
    Grown(Name, Growth),
    /// The upload of this name has ended.
    Gone(Name),
    /// All uploads that have expired at this moment have ended.
    Swept(Moment),
    /// The next upload of the name's tenant gets this name.
    Next(Name),
    /// The accounts alone change.
    Totals,
}

/// What a change does to the heads of a book, and the accounts after it. Texts are lent and no row is built, so it is
/// small: it stands for a [`crate::BoardLine`] where it is told of which heads.
#[derive(Drop)]
pub struct HeadNote<'a> {
    pub change: NotedChange<'a>,
    pub accounts: Accounts,
}

ghost use Rattle.std.specs.Prelude.{◌≡◌, OnErr, OnOk};
ghost use Rattle.head_board.specs.inside.Showing.{change_with, with_added};

use crate::coming_texts::{ComingTexts, Piece, TextField};
use crate::event_log::SeenEvents;
use crate::head_table::HeadTable;
use crate::last_changes::LastChanges;
use std::alloc::AllocError;
use upload_book::{
    Accounts, Growth, HeadNote, Kind, Moment, Name, NotedChange, RowRef, Settings, SharedRow,
};

/// What readers read: the heads of the book, and the events of the log whose changes were made to them. There are two
/// copies: readers read one while the writer changes the other. Each knows up to which event what it tells of an upload last
/// changed, so that a look rests on no event that came later. And each has room for the texts of the upload that is created
/// next: they come in pieces, so that a note is small, and go from there to their row. Texts that are shared come with the
/// note.
#[derive(Drop)]
pub struct BoardCopy {
    pub(crate) table: HeadTable,
    pub(crate) seen: SeenEvents,
    pub(crate) last_changes: LastChanges,
    pub(crate) coming: ComingTexts,
}

/// What an event changes of the heads, where the texts of a new upload came before, or are shared.
#[derive(Drop)]
pub enum SmallChange {
    /// The tenant at this place has a new upload.
    Created(u8, Kind, Growth),
    /// The same of an upload whose texts are shared.
    Shared(u8, SharedRow),
    /// The upload of this name is so far from now on.
    Grown(Name, Growth),
    /// The upload of this name has ended.
    Gone(Name),
    /// All uploads that have expired at this moment have ended.
    Swept(Moment),
    /// The next upload of the name's tenant gets this name.
    Next(Name),
    /// The accounts alone change.
    Totals,
}

/// What an event changes of the heads, the accounts after it, and the events of the log up to that one.
#[derive(Drop)]
pub struct Added {
    pub(crate) change: SmallChange,
    pub(crate) accounts: Accounts,
    pub(crate) after: SeenEvents,
}

/// What is to be done to both copies.
#[derive(Drop)]
pub enum Note {
    /// Nothing: it makes room for the notes to come.
    Nothing,
    /// Nothing came yet of the texts of the next new upload.
    NoTexts,
    /// More of one of them comes.
    More(TextField, Piece),
    /// The change is made.
    Adds(Added),
}

/// Which log it is, by its three names.
#[derive(Drop)]
pub struct LogName {
    pub(crate) number: u64,
    pub(crate) log_name: u64,
    pub(crate) cells_name: u64,
}

/// What a place on the board knows, once it does: whose heads are shown, and by which log. No value of it is made.
#[derive(Drop)]
pub struct View {
    pub(crate) knows: bool,
    pub(crate) settings: Settings,
    pub(crate) log: LogName,
}

impl SmallChange {
    /// The change with the texts that came.
    fn with<'a>(&'a self, texts: &'a ComingTexts) -> NotedChange<'a>
        ensures { result ≡ change_with texts.now self.now }
    {
        match self {
            SmallChange::Created(tenant, kind, growth) => {
                let row = RowRef::new(*kind, *growth, texts.metadata(), texts.concat());
                NotedChange::Created(*tenant, row)
            }
            SmallChange::Shared(tenant, row) => NotedChange::Shared(*tenant, row.lent()),
            SmallChange::Grown(name, growth) => NotedChange::Grown(*name, *growth),
            SmallChange::Gone(name) => NotedChange::Gone(*name),
            SmallChange::Swept(now) => NotedChange::Swept(*now),
            SmallChange::Next(name) => NotedChange::Next(*name),
            SmallChange::Totals => NotedChange::Totals,
        }
    }
}

impl BoardCopy {
    /// Makes the change of an event. It takes no memory, unless that is a creation whose texts came in pieces, and there is no
    /// box for them. The error is that there was none, or that shared texts have as many owners as can be counted; then nothing
    /// changes.
    pub(crate) fn add(&mut self, added: &Added) -> Result<(), AllocError>
        ensures added { OnOk result (self.new ≡ with_added self.old added.now) }
        ensures refused { OnErr result (self.new ≡ self.old) }
    {
        let note = HeadNote {
            change: added.change.with(&self.coming),
            accounts: added.accounts,
        };
        let shared = self.table.row_ahead(&note.change)?;
        self.last_changes
            .note(&self.table, &note.change, &added.after);
        self.table.put(&note, shared);
        self.seen = added.after.again();
        Ok(())
    }
}

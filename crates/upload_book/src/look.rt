ghost use Rattle.std.specs.Prelude.{◌≡◌};
ghost use Rattle.upload_book.specs.Book.{plain_of};
ghost use Rattle.upload_book.specs.Look.{look_answer};
ghost use Rattle.upload_book.specs.PlainBook.{answer_of};

use crate::book::Book;
use crate::head_row::{HeadRow, Name};
use crate::moment::Moment;
use crate::refusal::Refusal;
use crate::row_ref::RowRef;

impl Book {
    /// What a HEAD of an upload tells at `now`. It is refused as Unknown where the id was never given,
    /// and as Gone where the upload has ended or expired. It takes no memory.
    pub fn look(&self, name: &Name, now: Moment) -> Result<HeadRow, Refusal>
        ensures { result ≡ answer_of (plain_of self.now) name.now.tenant (look_answer name.now.id now) }
    {
        Ok(self.look_lent(name, now)?.copied())
    }

    /// The same, with the texts lent: so nothing is copied.
    pub fn look_lent(&self, name: &Name, now: Moment) -> Result<RowRef<'_>, Refusal>
        ensures { result ≡ answer_of (plain_of self.now) name.now.tenant (look_answer name.now.id now) }
    {
        let place = self.store.place(name, now)?;
        Ok(self.store.head_row(usize::from(name.tenant), place))
    }
}

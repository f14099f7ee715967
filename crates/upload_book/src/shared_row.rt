ghost use Rattle.std.specs.Prelude.{◌≡◌, IfOk};
ghost use Rattle.upload_book.specs.HeadNotes.{row_grown};
ghost use Rattle.upload_book.specs.inside.Texts.{shared_concat, shared_metadata};

use crate::head_note::Growth;
use crate::head_row::Kind;
use crate::moment::Moment;
use crate::row_ref::RowRef;
use crate::texts::SharedTexts;
use std::alloc::{AllocError, Global};
use std::marker::Model;

/// The row of an upload that owns its texts with others: so it is small, however long they are. A contract sees the row.
#[derive(Drop)]
pub struct SharedRow {
    kind: Kind,
    growth: Growth,
    texts: SharedTexts,
}

impl Model for SharedRow {
    ghost use Rattle.std.specs.Prelude.{◌≤◌, length};
    ghost use Rattle.upload_book.specs.declared.head_row.HeadRow.{HeadRow};
    ghost use Rattle.upload_book.specs.inside.Texts.{shared_concat, shared_metadata};

    ghost Value = { HeadRow };

    ghost view = { λ row. record {
      kind = row.kind;
      offset = row.growth.offset;
      declared = row.growth.declared;
      metadata = shared_metadata row.texts;
      concat = shared_concat row.texts;
      expires = row.growth.expires;
    } };

    ghost invariant = { λ row. (length (shared_metadata row.texts) ≤ 1024) × (length (shared_concat row.texts) ≤ 2048) };
}

impl SharedRow {
    /// This row, of whose texts it is the first owner: they are copied once, to memory as long as they are. The error is that
    /// there was none.
    pub fn copied(alloc: Global, row: &RowRef) -> Result<SharedRow, AllocError>
        ensures { IfOk result (λ shared. shared ≡ row.now) }
    {
        Ok(SharedRow {
            kind: row.kind(),
            growth: row.growth(),
            texts: SharedTexts::copied(alloc, row.metadata(), row.concat())?,
        })
    }

    /// The same row, which lends its texts to be shared.
    pub fn lent(&self) -> SharedRowRef<'_>
        ensures { result ≡ self.now }
    {
        SharedRowRef {
            kind: self.kind,
            growth: self.growth,
            texts: &self.texts,
        }
    }

    /// The same row, which lends its texts to be read.
    pub fn row(&self) -> RowRef<'_>
        ensures { result ≡ self.now }
    {
        RowRef::new(
            self.kind,
            self.growth,
            self.texts.metadata(),
            self.texts.concat(),
        )
    }

    /// The upload is so far from now on.
    pub fn grow(&mut self, growth: &Growth)
        ensures { self.new ≡ row_grown growth.now self.old }
    {
        self.growth = *growth;
    }

    /// When the upload expires, if it does.
    pub fn expires(&self) -> Option<Moment>
        ensures { result ≡ self.now.expires }
    {
        self.growth.expires
    }
}

/// A row of an upload that lends its texts to whoever will own them too. A contract sees the row.
#[derive(Drop)]
pub struct SharedRowRef<'a> {
    kind: Kind,
    growth: Growth,
    texts: &'a SharedTexts,
}

impl<'a> Model for SharedRowRef<'a> {
    ghost use Rattle.std.specs.Prelude.{◌≤◌, length};
    ghost use Rattle.upload_book.specs.declared.head_row.HeadRow.{HeadRow};
    ghost use Rattle.upload_book.specs.inside.Texts.{shared_concat, shared_metadata};

    ghost Value = { HeadRow };

    ghost view = { λ row. record {
      kind = row.kind;
      offset = row.growth.offset;
      declared = row.growth.declared;
      metadata = shared_metadata row.texts.now;
      concat = shared_concat row.texts.now;
      expires = row.growth.expires;
    } };

    ghost invariant = { λ row. (length (shared_metadata row.texts.now) ≤ 1024) × (length (shared_concat row.texts.now) ≤ 2048) };
}

impl<'a> SharedRowRef<'a> {
    /// This row with its texts as they are shared.
    pub fn new(row: &RowRef, texts: &'a SharedTexts) -> SharedRowRef<'a>
        requires metadata { shared_metadata texts.now ≡ row.now.metadata }
        requires concat { shared_concat texts.now ≡ row.now.concat }
        ensures { result ≡ row.now }
    {
        // these calls tell that the texts are short enough
        let _metadata = row.metadata();
        let _concat = row.concat();
        SharedRowRef {
            kind: row.kind(),
            growth: row.growth(),
            texts,
        }
    }

    /// The row as one more owner of the texts. It takes no memory, and copies none of them. The error is that they have as many
    /// owners as can be counted, which no run comes to.
    pub fn owned(&self) -> Result<SharedRow, AllocError>
        ensures { IfOk result (λ shared. shared ≡ self.now) }
    {
        Ok(SharedRow {
            kind: self.kind,
            growth: self.growth,
            texts: self.texts.again()?,
        })
    }

    /// The same row, which lends its texts to be read.
    pub fn row(&self) -> RowRef<'a>
        ensures { result ≡ self.now }
    {
        RowRef::new(
            self.kind,
            self.growth,
            self.texts.metadata(),
            self.texts.concat(),
        )
    }
}

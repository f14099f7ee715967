ghost use Rattle.std.specs.Prelude.{◌≡◌, ◌≤◌, length};
ghost use Rattle.upload_book.specs.Progress.{progress_in};

use crate::head_note::Growth;
use crate::head_row::{HeadRow, Kind};
use crate::progress::Progress;
use std::marker::Model;
use tus_text::Text;

/// A row of an upload whose texts are lent: so it is small, however long they are. A contract sees the row.
#[derive(Drop)]
pub struct RowRef<'a> {
    kind: Kind,
    growth: Growth,
    metadata: &'a [u8],
    concat: &'a [u8],
}

impl<'a> Model for RowRef<'a> {
    ghost use Rattle.std.specs.Prelude.{◌≤◌, length};
    ghost use Rattle.upload_book.specs.declared.head_row.HeadRow.{HeadRow};

    ghost Value = { HeadRow };

    ghost view = { λ row. record {
      kind = row.kind;
      offset = row.growth.offset;
      declared = row.growth.declared;
      metadata = row.metadata.now;
      concat = row.concat.now;
      expires = row.growth.expires;
    } };

    ghost invariant = { λ row. (length row.metadata.now ≤ 1024) × (length row.concat.now ≤ 2048) };
}

impl<'a> RowRef<'a> {
    /// The row of an upload that is so far and has these texts: at most 1,024 bytes of metadata, and 2,048 of
    /// `Upload-Concat`.
    pub fn new(kind: Kind, growth: Growth, metadata: &'a [u8], concat: &'a [u8]) -> RowRef<'a>
        requires metadata { length metadata.now ≤ 1024 }
        requires concat { length concat.now ≤ 2048 }
        ensures { result ≡ record {
          kind = kind;
          offset = growth.offset;
          declared = growth.declared;
          metadata = metadata.now;
          concat = concat.now;
          expires = growth.expires;
        } }
    {
        RowRef {
            kind,
            growth,
            metadata,
            concat,
        }
    }

    /// What the upload is for.
    pub fn kind(&self) -> Kind
        ensures { result ≡ self.now.kind }
    {
        self.kind
    }

    /// How far the upload is, and when it expires.
    pub fn growth(&self) -> Growth
        ensures { result ≡ record {
          offset = self.now.offset;
          declared = self.now.declared;
          expires = self.now.expires;
        } }
    {
        self.growth
    }

    /// How far the upload is: the row without its texts.
    pub fn progress(&self) -> Progress
        ensures { result ≡ progress_in self.now }
    {
        Progress {
            kind: self.kind,
            offset: self.growth.offset,
            declared: self.growth.declared,
            expires: self.growth.expires,
        }
    }

    /// `Upload-Metadata`, at most 1,024 bytes.
    pub fn metadata(&self) -> &'a [u8]
        ensures value { result.now ≡ self.now.metadata }
        ensures fits { length result.now ≤ 1024 }
    {
        self.metadata
    }

    /// `Upload-Concat`, at most 2,048 bytes.
    pub fn concat(&self) -> &'a [u8]
        ensures value { result.now ≡ self.now.concat }
        ensures fits { length result.now ≤ 2048 }
    {
        self.concat
    }

    /// The row with texts of its own, which are copied.
    pub fn copied(&self) -> HeadRow
        ensures { result ≡ self.now }
    {
        HeadRow {
            kind: self.kind,
            offset: self.growth.offset,
            declared: self.growth.declared,
            metadata: Text::of(self.metadata),
            concat: Text::of(self.concat),
            expires: self.growth.expires,
        }
    }
}

impl HeadRow {
    /// A row of nothing: a place for the rows to come.
    pub fn empty() -> HeadRow {
        HeadRow {
            kind: Kind::Plain,
            offset: 0,
            declared: None,
            metadata: Text::empty(),
            concat: Text::empty(),
            expires: None,
        }
    }

    /// The same row, whose texts are lent.
    pub fn lent(&self) -> RowRef<'_>
        ensures { result ≡ self.now }
    {
        let growth = Growth {
            offset: self.offset,
            declared: self.declared,
            expires: self.expires,
        };
        RowRef::new(
            self.kind,
            growth,
            self.metadata.as_slice(),
            self.concat.as_slice(),
        )
    }

    /// Becomes this row. Of the texts it copies the bytes that are used, to where its own lie.
    pub fn set(&mut self, row: &RowRef)
        ensures { self.new ≡ row.now }
    {
        let growth = row.growth();
        self.kind = row.kind();
        self.offset = growth.offset;
        self.declared = growth.declared;
        self.metadata.set(row.metadata());
        self.concat.set(row.concat());
        self.expires = growth.expires;
    }
}

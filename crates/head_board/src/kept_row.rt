ghost use Rattle.std.specs.Prelude.{◌≡◌, ◌+◌, ◌<◌, ◌≤◌, is_some, not, true, vec_capacity, vec_len, None, IfOk, IfSome};
ghost use Rattle.head_board.specs.inside.RowPlace.{is_boxed, row_in};
ghost use Rattle.upload_book.specs.Expiry.{has_expired};
ghost use Rattle.upload_book.specs.HeadNotes.{row_grown};
ghost use Rattle.upload_book.specs.inside.Texts.{boxes_in};

use std::alloc::{AllocError, Global};
use std::marker::Model;
use upload_book::{Growth, HeadRow, Moment, RowRef, SharedRow};

/// The row of an upload under its id. A contract sees the id, the row, and whether it lies in a box.
#[derive(Drop)]
pub(crate) struct KeptRow {
    pub(crate) id: u64,
    pub(crate) place: RowPlace,
}

/// Where a row lies: in a box that was there from the start, or here, where it shares its texts.
#[derive(Drop)]
pub(crate) enum RowPlace {
    Boxed(BoxedRow),
    Shared(SharingRow),
}

/// A row in a box that has room for texts of 3 KiB: rows move where one of them is taken out.
#[derive(Drop)]
pub(crate) struct BoxedRow {
    pub(crate) place: Box<HeadRow>,
}

/// A row that shares its texts.
#[derive(Drop)]
pub(crate) struct SharingRow {
    pub(crate) row: SharedRow,
}

impl RowPlace {
    /// The row that shares its texts, or else a copy in one of the spare boxes. It takes no memory.
    pub(crate) fn placed(
        spare: &mut Vec<Box<HeadRow>>,
        row: &RowRef,
        shared: Option<SharedRow>,
    ) -> RowPlace
        requires shared { IfSome shared (λ shared. shared ≡ row.now) }
        requires spare { shared ≡ None → 0 < vec_len spare.old }
        ensures row { row_in result ≡ row.now }
        ensures kind { is_boxed result ≡ not (is_some shared) }
        ensures spare { vec_len spare.new + boxes_in (is_boxed result) ≡ vec_len spare.old }
        ensures capacity { vec_capacity spare.new ≡ vec_capacity spare.old }
    {
        match shared {
            Some(shared) => RowPlace::Shared(SharingRow { row: shared }),
            None => {
                let mut place = spare.pop().unwrap();
                place.set(row);
                RowPlace::Boxed(BoxedRow { place })
            }
        }
    }

    /// Gives the box back to the spare ones, where the row lies in one; else its share of the texts is given up.
    pub(crate) fn give_back(self, spare: &mut Vec<Box<HeadRow>>)
        requires { is_boxed self ≡ true → vec_len spare.old < vec_capacity spare.old }
        ensures spare { vec_len spare.new ≡ vec_len spare.old + boxes_in (is_boxed self) }
        ensures capacity { vec_capacity spare.new ≡ vec_capacity spare.old }
    {
        match self {
            RowPlace::Boxed(boxed) => spare.push_reserved(boxed.place),
            RowPlace::Shared(_) => {}
        }
    }

    // The upload is so far from now on. No text is copied.
    fn grow(&mut self, growth: &Growth)
        ensures row { row_in self.new ≡ row_grown growth.now (row_in self.old) }
        ensures kind { is_boxed self.new ≡ is_boxed self.old }
    {
        match self {
            RowPlace::Boxed(boxed) => {
                let row = &mut *boxed.place;
                row.offset = growth.offset;
                row.declared = growth.declared;
                row.expires = growth.expires;
            }
            RowPlace::Shared(sharing) => sharing.row.grow(growth),
        }
    }

    // The row, whose texts are lent.
    fn lent(&self) -> RowRef<'_>
        ensures { result ≡ row_in self.now }
    {
        match self {
            RowPlace::Boxed(boxed) => boxed.place.lent(),
            RowPlace::Shared(sharing) => sharing.row.row(),
        }
    }

    // When the upload expires, if it does.
    fn expires(&self) -> Option<Moment>
        ensures { result ≡ (row_in self.now).expires }
    {
        match self {
            RowPlace::Boxed(boxed) => boxed.place.expires,
            RowPlace::Shared(sharing) => sharing.row.expires(),
        }
    }
}

impl Model for KeptRow {
    ghost use Rattle.upload_book.specs.TenantBook.{Entry};
    ghost use Rattle.head_board.specs.inside.BoardRow.{BoardRow};
    ghost use Rattle.head_board.specs.inside.RowPlace.{is_boxed, row_in};

    ghost Value = { Entry BoardRow };

    ghost view = { λ k. record { id = k.id; kept = record { row = row_in k.place; boxed = is_boxed k.place } } };
}

impl KeptRow {
    /// A row under an id.
    pub(crate) fn new(id: u64, place: RowPlace) -> KeptRow
        ensures { result ≡ record { id = id; kept = record { row = row_in place; boxed = is_boxed place } } }
    {
        KeptRow { id, place }
    }

    /// The upload is so far from now on. No text is copied.
    pub(crate) fn grow(&mut self, growth: &Growth)
        ensures { self.new ≡ record self.old { kept = record self.old.kept { row = row_grown growth.now self.old.kept.row } } }
    {
        self.place.grow(growth);
    }

    /// The id of the upload.
    pub(crate) fn id(&self) -> u64
        ensures { result ≡ self.now.id }
    {
        self.id
    }

    /// The row, whose texts are lent.
    pub(crate) fn lent(&self) -> RowRef<'_>
        ensures { result ≡ self.now.kept.row }
    {
        self.place.lent()
    }

    /// When the upload expires, if it does.
    pub(crate) fn expires(&self) -> Option<Moment>
        ensures { result ≡ self.now.kept.row.expires }
    {
        self.place.expires()
    }

    /// Whether the upload has expired at this moment.
    pub(crate) fn has_expired(&self, now: Moment) -> bool
        ensures { result ≡ has_expired now self.now.kept.row.expires }
    {
        match self.expires() {
            Some(end) => end <= now,
            None => false,
        }
    }

    /// Gives the box back to the spare ones, where the row lies in one; else its share of the texts is given up.
    pub(crate) fn give_back(self, spare: &mut Vec<Box<HeadRow>>)
        requires { self.kept.boxed ≡ true → vec_len spare.old < vec_capacity spare.old }
        ensures spare { vec_len spare.new ≡ vec_len spare.old + boxes_in self.kept.boxed }
        ensures capacity { vec_capacity spare.new ≡ vec_capacity spare.old }
    {
        self.place.give_back(spare);
    }
}

/// So many boxes for rows. The error is that there was too little memory.
pub(crate) fn empty_rows(alloc: Global, count: usize) -> Result<Vec<Box<HeadRow>>, AllocError>
    ensures count { IfOk result (λ v. vec_len v ≡ count) }
    ensures room { IfOk result (λ v. count ≤ vec_capacity v) }
{
    let mut rows = Vec::with_capacity(alloc, count)?;
    for _ in 0..count {
        rows.push_reserved(Box::new(alloc, HeadRow::empty())?);
    }
    Ok(rows)
}

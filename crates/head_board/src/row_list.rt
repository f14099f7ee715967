ghost use Rattle.std.specs.Prelude.{◌≡◌, ◌<◌, ◌==◌, ◌++◌, ◌∷◌, [], length, nat_le, position, set, slice_index_or, IfOk};
ghost use Rattle.std.specs.List.{remove};
ghost use Rattle.std.specs.List.Sorted.{IsStrictlyIncreasing};
ghost use Rattle.head_board.specs.inside.RowPlace.{IsRowFor};
ghost use Rattle.head_board.specs.inside.Rows.{AreBounded, row_ids};
ghost use Rattle.upload_book.specs.declared.head_row.HeadRow.{HeadRow};
ghost use Rattle.upload_book.specs.Expiry.{has_expired};
ghost use Rattle.upload_book.specs.HeadNotes.{row_grown};
ghost use Rattle.upload_book.specs.TenantBook.{Entry};

use crate::first_end::earlier;
use crate::kept_row::{KeptRow, RowPlace, empty_rows};
use std::alloc::{AllocError, Global};
use std::marker::Model;
use upload_book::{Growth, HeadRow, Moment, RowRef, SharedRow, boxes_from_start};

/// The rows of a tenant's uploads, with room for as many as it may have. Where that is at most 64, there is a box for each. A
/// contract sees the rows under their ids, and for how many there is room.
#[derive(Drop)]
pub(crate) struct RowList {
    room: usize,
    rows: Vec<KeptRow>,
    spare: Vec<Box<HeadRow>>,
}

impl Model for RowList {
    ghost use Rattle.head_board.specs.inside.RowList.{AreListed, ListedRows, listed};

    ghost Value = { ListedRows };

    ghost view = { listed };

    ghost invariant = { AreListed };
}

impl RowList {
    /// No row yet, and room for so many. All its memory is taken here, but for texts that are shared; the error is that
    /// there was too little.
    pub(crate) fn new(alloc: Global, room: usize) -> Result<RowList, AllocError>
        ensures { IfOk result (λ list. list ≡ record { rows = []; room = room }) }
    {
        Ok(RowList {
            room,
            rows: Vec::with_capacity(alloc, room)?,
            spare: empty_rows(alloc, boxes_from_start(room))?,
        })
    }

    /// How many rows there are.
    pub(crate) fn len(&self) -> usize
        ensures { result ≡ length self.now.rows }
    {
        self.rows.len()
    }

    /// Whether there is no room for one more.
    pub(crate) fn is_full(&self) -> bool
        ensures { result ≡ nat_le self.now.room (length self.now.rows) }
    {
        self.room <= self.rows.len()
    }

    /// Adds a row under an id behind the others: the one that shares its texts, or else a copy in a box. It takes no memory.
    pub(crate) fn push(&mut self, id: u64, row: &RowRef, shared: Option<SharedRow>)
        requires room { length self.old.rows < self.old.room }
        requires row { IsRowFor self.old.room shared row.now }
        ensures { self.new ≡ record self.old { rows = self.old.rows ++ record { id = id; kept = row.now } ∷ [] } }
    {
        let place = RowPlace::placed(&mut self.spare, row, shared);
        self.rows.push_reserved(KeptRow::new(id, place));
    }

    /// The place of the row under an id, if one is there. It is found by halving.
    pub(crate) fn place(&self, id: u64) -> Option<usize>
        requires { IsStrictlyIncreasing (row_ids self.now.rows) }
        ensures { result ≡ position (λ e. e.id == id) self.now.rows }
    {
        self.rows.binary_search_by_key(&id, |row| row.id()).ok()
    }

    /// The upload at a place is so far from now on. No row moves.
    pub(crate) fn grow(&mut self, place: usize, growth: &Growth)
        requires { place < length self.old.rows }
        ensures { (d : Entry HeadRow) → self.new ≡ record self.old {
          rows = set self.old.rows place (record {
            id = (slice_index_or self.old.rows place d).id;
            kept = row_grown growth.now (slice_index_or self.old.rows place d).kept;
          });
        } }
    {
        self.rows[place].grow(growth);
    }

    /// The row at a place, whose texts are lent.
    pub(crate) fn lent(&self, place: usize) -> RowRef<'_>
        requires { place < length self.now.rows }
        ensures { (d : Entry HeadRow) → result ≡ (slice_index_or self.now.rows place d).kept }
    {
        self.rows[place].lent()
    }

    /// Whether the upload at a place has expired at this moment.
    pub(crate) fn has_expired(&self, place: usize, now: Moment) -> bool
        requires { place < length self.now.rows }
        ensures { (d : Entry HeadRow) → result ≡ has_expired now (slice_index_or self.now.rows place d).kept.expires }
    {
        self.rows[place].has_expired(now)
    }

    /// When the first of the uploads expires, if one does.
    pub(crate) fn first_end(&self) -> Option<Moment>
        ensures { AreBounded result self.now.rows }
    {
        let mut first = None;
        for row in self.rows.iter() {
            first = earlier(first, row.expires());
        }
        first
    }

    /// Takes out the row at a place. Its box, if it has one, is spare again.
    pub(crate) fn take_out(&mut self, place: usize)
        requires { place < length self.old.rows }
        ensures { self.new ≡ record self.old { rows = remove self.old.rows place } }
    {
        let row = self.rows.remove(place);
        row.give_back(&mut self.spare);
    }
}

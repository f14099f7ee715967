ghost use Rattle.std.specs.Prelude.{◌≡◌, ◌<◌, ◌≤◌, ◌==◌, ◌⊎◌, length, nat_le, position, slice_index_or, true, IfOk, MatchBool, if◌then◌else◌};
ghost use Rattle.std.specs.List.{remove};
ghost use Rattle.std.specs.List.Sorted.{IsStrictlyIncreasing};
ghost use Rattle.head_board.specs.Room.{takes_row};
ghost use Rattle.head_board.specs.inside.RowPlace.{IsRowFor};
ghost use Rattle.head_board.specs.inside.Rows.{AreBounded, IsGrown, row_ids};
ghost use Rattle.upload_book.specs.declared.head_row.HeadRow.{HeadRow};
ghost use Rattle.upload_book.specs.Heads.{with_row, without_expired};
ghost use Rattle.upload_book.specs.Expiry.{has_expired};
ghost use Rattle.upload_book.specs.TenantBook.{Entry, opening_part, visible_in, with_changed, with_new, with_next};
ghost use Rattle.upload_book.specs.Terminate.{without};

use crate::row_list::RowList;
use std::alloc::{AllocError, Global};
use std::marker::Model;
use upload_book::{Growth, Moment, Refusal, RowRef, SharedRow};

/// The rows of a tenant's uploads by ascending id, and the id that its next one gets. A contract sees the tenant's part of the
/// heads, and for how many rows there is room.
#[derive(Drop)]
pub(crate) struct HeadRows {
    quota: u64,
    next: u64,
    list: RowList,
}

impl Model for HeadRows {
    ghost use Rattle.head_board.specs.inside.Rows.{Rows, rows_of, AreRows};

    ghost Value = { Rows };

    ghost view = { rows_of };

    ghost invariant = { AreRows };
}

impl HeadRows {
    /// The part of a tenant that has no upload yet, with room for so many. All its memory is taken here, but for texts that
    /// are shared; the error is that there was too little.
    pub(crate) fn new(alloc: Global, quota: u64, room: usize) -> Result<HeadRows, AllocError>
        ensures { IfOk result (λ r. r ≡ record { part = opening_part quota; room = room }) }
    {
        Ok(HeadRows {
            quota,
            next: 1,
            list: RowList::new(alloc, room)?,
        })
    }

    /// Puts the row of a new upload under the next id: the one that shares its texts, or else a copy. Says whether it did. It
    /// does not where there is no room for it, or no id up to `last_id`, and then nothing changes.
    pub(crate) fn create(&mut self, last_id: u64, row: &RowRef, shared: Option<SharedRow>) -> bool
        requires last_id { last_id < 18446744073709551615 }
        requires row { IsRowFor self.old.room shared row.now }
        ensures put { result ≡ takes_row self.old.room last_id self.old.part self.old.part.next }
        ensures after { self.new ≡ (if result then record self.old { part = with_row self.old.part self.old.part.next row.now } else self.old) }
    {
        self.add(last_id, row, shared)
    }

    // Puts the row of a new upload.
    fn add(&mut self, last_id: u64, row: &RowRef, shared: Option<SharedRow>) -> bool
        requires last_id { last_id < 18446744073709551615 }
        requires row { IsRowFor self.old.room shared row.now }
        ensures { MatchBool result
            ((length self.old.part.uploads < self.old.room) × (self.old.part.next ≤ last_id)
            × (self.new ≡ record self.old { part = with_new self.old.part row.now }))
            (((self.old.room ≤ length self.old.part.uploads) ⊎ (last_id < self.old.part.next))
            × (self.new ≡ self.old)) }
    {
        if self.next > last_id {
            return false;
        }
        if self.list.is_full() {
            return false;
        }
        self.list.push(self.next, row, shared);
        self.next += 1;
        true
    }

    /// The next upload gets this id. Says whether it does: an id that was given is not given again, and then nothing
    /// changes.
    pub(crate) fn set_next(&mut self, next: u64) -> bool
        ensures there { result ≡ nat_le self.old.part.next next }
        ensures after { self.new ≡ (if result then record self.old { part = with_next self.old.part next } else self.old) }
    {
        if next < self.next {
            return false;
        }
        self.next = next;
        true
    }

    /// The upload under an id is so far from now on. Says whether it is there; else nothing changes. No row moves.
    pub(crate) fn grow(&mut self, id: u64, growth: &Growth) -> bool
        ensures { IsGrown self.old id growth.now result self.new }
    {
        let Some(place) = self.place(id) else {
            return false;
        };
        self.list.grow(place, growth);
        true
    }

    /// Takes out the row under an id, if one is there.
    pub(crate) fn remove(&mut self, id: u64)
        ensures { self.new ≡ record self.old { part = without self.old.part id } }
    {
        if let Some(place) = self.place(id) {
            self.take_out(place);
        }
    }

    /// Takes out the rows of all uploads that have expired at this moment, the last one first: so only rows that stay move.
    pub(crate) fn sweep(&mut self, now: Moment)
        ensures { self.new ≡ record self.old { part = without_expired now self.old.part } }
    {
        let mut from = self.count();
        while from > 0 {
            from -= 1;
            if self.has_expired(from, now) {
                self.take_out(from);
            }
        }
    }

    /// What a HEAD of this id finds at this moment: Unknown where the id was never given, Gone where its upload has
    /// ended or expired, and else its row, whose texts are lent.
    pub(crate) fn look(&self, id: u64, now: Moment) -> Result<RowRef<'_>, Refusal>
        ensures { result ≡ visible_in (λ row. row.expires) self.now.part id now }
    {
        if id == 0 || self.next <= id {
            return Err(Refusal::Unknown);
        }
        let Some(place) = self.place(id) else {
            return Err(Refusal::Gone);
        };
        if self.list.has_expired(place, now) {
            return Err(Refusal::Gone);
        }
        Ok(self.list.lent(place))
    }

    /// When the first of the uploads expires, if one does.
    pub(crate) fn first_end(&self) -> Option<Moment>
        ensures { AreBounded result self.now.part.uploads }
    {
        self.list.first_end()
    }

    /// The id that the next upload gets.
    pub(crate) fn next_id(&self) -> u64
        ensures { result ≡ self.now.part.next }
    {
        self.next
    }

    /// How many rows there are.
    pub(crate) fn count(&self) -> usize
        ensures { result ≡ length self.now.part.uploads }
    {
        self.list.len()
    }

    // Whether the upload at a place has expired at this moment.
    fn has_expired(&self, place: usize, now: Moment) -> bool
        requires { place < length self.now.part.uploads }
        ensures { (d : Entry HeadRow) → result ≡ has_expired now (slice_index_or self.now.part.uploads place d).kept.expires }
    {
        self.list.has_expired(place, now)
    }

    // The place of the row under an id, if one is there.
    fn place(&self, id: u64) -> Option<usize>
        ensures place { result ≡ position (λ e. e.id == id) self.now.part.uploads }
        ensures ascending { IsStrictlyIncreasing (row_ids self.now.part.uploads) }
    {
        self.list.place(id)
    }

    // Takes out the row at a place.
    fn take_out(&mut self, place: usize)
        requires { place < length self.old.part.uploads }
        ensures { self.new ≡ record self.old {
          part = record self.old.part { uploads = remove self.old.part.uploads place };
        } }
    {
        self.list.take_out(place);
    }
}

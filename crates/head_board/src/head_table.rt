ghost use Rattle.std.specs.Prelude.{◌≡◌, ◌<◌, false, length, map, set, All, IfOk, OnErr, OnOk, if◌then◌else◌};
ghost use Rattle.std.specs.List.{range_with_len};
ghost use Rattle.head_board.specs.Expired.{NoneHasExpired};
ghost use Rattle.head_board.specs.Room.{heads_noted, MayLackRow};
ghost use Rattle.head_board.specs.Totals.{totals_of, upload_count};
ghost use Rattle.head_board.specs.inside.HeadTable.{is_taken, opening_parts, parts_noted, IsRowAhead};
ghost use Rattle.head_board.specs.inside.RowPlace.{IsRowFor};
ghost use Rattle.head_board.specs.inside.Rows.{AreBounded};
ghost use Rattle.upload_book.specs.declared.board_line.HeadChange.TheVariants as head;
ghost use Rattle.upload_book.specs.declared.head_note.NotedChange.TheVariants.{Created, Grown, Next};
ghost use Rattle.upload_book.specs.Heads.{HeadPart, head_part_at, heads_of, parts_after, shown, without_expired};
ghost use Rattle.upload_book.specs.PlainBook.{opening_book};
ghost use Rattle.upload_book.specs.Terminate.{without};

use crate::first_end::earlier;
use crate::head_rows::HeadRows;
use crate::totals::Totals;
use std::alloc::{AllocError, Global};
use std::marker::Model;
use upload_book::{
    Accounts, Growth, HeadNote, HeadRow, Moment, Name, NotedChange, Refusal, RowRef, Settings,
    SharedRow, has_boxes,
};

/// The heads of a book once more, from which a HEAD can be answered beside the book: a row for each upload, and the
/// accounts. It has room for as many rows of each tenant as the settings allow. Where that is at most 64, it takes no memory
/// after it is made; else each row shares the texts of its upload. It keeps a moment before which no row expires, so that
/// most sweeps look at no row.
#[derive(Drop)]
pub struct HeadTable {
    alloc: Global,
    settings: Settings,
    parts: Vec<HeadRows>,
    accounts: Accounts,
    first_end: Option<Moment>,
}

impl Model for HeadTable {
    ghost use Rattle.head_board.specs.inside.HeadTable.{heads_in, IsHeadTable};
    ghost use Rattle.upload_book.specs.Heads.{Heads};

    ghost Value = { Heads };

    ghost view = { heads_in };

    ghost invariant = { IsHeadTable };
}

impl HeadTable {
    /// The heads of a new book of these settings. All memory of the table is taken here, but for texts where a tenant may
    /// have more than 64 uploads; the error is that there was too little.
    pub fn new(alloc: Global, settings: &Settings) -> Result<HeadTable, AllocError>
        ensures { IfOk result (λ t. t ≡ heads_of (opening_book settings.now)) }
    {
        Ok(HeadTable {
            alloc,
            settings: settings.copied(),
            parts: empty_parts(alloc, settings)?,
            accounts: Accounts {
                charged: 0,
                released: 0,
                charge: [0; 16],
            },
            first_end: None,
        })
    }

    /// The settings of the book.
    pub fn settings(&self) -> &Settings
        ensures { result.now ≡ self.now.settings }
    {
        &self.settings
    }

    /// What was charged and released, and what each tenant pays.
    pub fn accounts(&self) -> &Accounts
        ensures { result.now ≡ self.now.accounts }
    {
        &self.accounts
    }

    /// The accounts, and how many uploads each tenant has. It looks at no row.
    pub fn totals(&self) -> Totals
        ensures { result ≡ totals_of self.now }
    {
        Totals {
            accounts: self.accounts,
            uploads: self.upload_counts(),
        }
    }

    // How many uploads each of 16 tenants has, by its place.
    fn upload_counts(&self) -> [u64; 16]
        ensures { result ≡ map (upload_count self.now) (range_with_len 0 16) }
    {
        let mut counts = [0; 16];
        for tenant in 0..16 {
            counts[tenant] = self.upload_count(tenant);
        }
        counts
    }

    // How many uploads the tenant at this place has.
    fn upload_count(&self, tenant: usize) -> u64
        ensures { result ≡ upload_count self.now tenant }
    {
        match self.parts.get(tenant) {
            Some(part) => part.count() as u64,
            None => 0,
        }
    }

    /// The id that the next upload of the tenant at this place gets.
    pub(crate) fn next_id(&self, tenant: u8) -> u64
        ensures { result ≡ (head_part_at self.now tenant).next }
    {
        match self.parts.get(usize::from(tenant)) {
            Some(part) => part.next_id(),
            None => 1,
        }
    }

    /// What a HEAD of an upload finds at this moment: Unknown where its tenant is not there or never had the id, Gone
    /// where the upload has ended or expired, and else its row, whose texts are lent. It takes no memory.
    pub fn look(&self, name: &Name, now: Moment) -> Result<RowRef<'_>, Refusal>
        ensures { result ≡ shown self.now name.now now }
    {
        match self.parts.get(usize::from(name.tenant)) {
            Some(part) => part.look(name.id, now),
            None => Err(Refusal::Unknown),
        }
    }

    /// Whether an upload may have expired at this moment: if not, none has. It looks at one number.
    pub fn may_expire(&self, now: Moment) -> bool
        ensures { result ≡ false → NoneHasExpired now self.now }
    {
        match self.first_end {
            Some(end) => end <= now,
            None => false,
        }
    }

    /// Changes what a note says. One that stands for no line on these heads changes nothing, nor does one for which there
    /// is no room: a line that may follow on these heads always has room ([`crate::laws::lines_have_room`]).
    ///
    /// It takes no memory where a tenant may have at most 64 uploads: the texts of a new one are copied to a box then. Above 64
    /// its row owns the texts that the note shares; texts that are only lent are copied to memory of their own. The error,
    /// with which nothing changes, is that there was none, or that there are as many owners as can be counted, which no run
    /// comes to.
    pub fn apply(&mut self, note: &HeadNote) -> Result<(), AllocError>
        ensures applied { OnOk result (self.new ≡ heads_noted self.old note.now) }
        ensures refused { OnErr result (self.new ≡ self.old) }
        ensures memory { OnErr result (MayLackRow self.old.settings.numbers.uploads note.now.change) }
    {
        let shared = self.row_ahead(&note.change)?;
        self.put(note, shared);
        Ok(())
    }

    /// The row of a new upload with texts that it shares, where there are no boxes for them. It takes no memory where the
    /// texts are shared already. The error is that it could not.
    pub(crate) fn row_ahead(&self, change: &NotedChange) -> Result<Option<SharedRow>, AllocError>
        ensures row { IfOk result (IsRowAhead self.now.settings.numbers.uploads change.now) }
        ensures memory { OnErr result (MayLackRow self.now.settings.numbers.uploads change.now) }
    {
        if has_boxes(self.settings.numbers().uploads) {
            return Ok(None);
        }
        match change {
            NotedChange::Created(_, row) => Ok(Some(SharedRow::copied(self.alloc, row)?)),
            NotedChange::Shared(_, row) => Ok(Some(row.owned()?)),
            _ => Ok(None),
        }
    }

    /// Changes what a note says, with the row that was made ahead. It takes no memory.
    pub(crate) fn put(&mut self, note: &HeadNote, shared: Option<SharedRow>)
        requires { IsRowAhead self.old.settings.numbers.uploads note.now.change shared }
        ensures { self.new ≡ heads_noted self.old note.now }
    {
        if self.change(&note.change, shared) {
            self.accounts = note.accounts;
        }
    }

    // Changes the rows, and says whether there is something to change, and room for it.
    fn change(&mut self, change: &NotedChange, shared: Option<SharedRow>) -> bool
        requires { IsRowAhead self.old.settings.numbers.uploads change.now shared }
        ensures there { result ≡ is_taken self.old change.now }
        ensures after { self.new ≡ (if result then record self.old { tenants = parts_noted self.old change.now } else self.old) }
    {
        match change {
            NotedChange::Created(tenant, row) => self.create(*tenant, row, shared),
            NotedChange::Shared(tenant, row) => self.create(*tenant, &row.row(), shared),
            NotedChange::Grown(name, growth) => self.grow(name, growth),
            NotedChange::Gone(name) => {
                self.remove(name);
                true
            }
            NotedChange::Swept(now) => {
                self.sweep(*now);
                true
            }
            NotedChange::Next(name) => self.set_next(name),
            NotedChange::Totals => true,
        }
    }

    // Puts the row of a new upload of a tenant, if there is room for it: the one that shares its texts, or else a copy.
    fn create(&mut self, tenant: u8, row: &RowRef, shared: Option<SharedRow>) -> bool
        requires { IsRowFor self.old.settings.numbers.uploads shared row.now }
        ensures there { result ≡ is_taken self.old (Created tenant row.now) }
        ensures after { self.new ≡ (if result then record self.old { tenants = parts_noted self.old (Created tenant row.now) } else self.old) }
    {
        let tenant = usize::from(tenant);
        if tenant >= self.parts.len() {
            return true;
        }
        let last_id = self.settings.numbers().last_id;
        self.first_end = earlier(self.first_end, row.growth().expires);
        self.parts[tenant].create(last_id, row, shared)
    }

    // The upload of a name is so far from now on, if it is there.
    fn grow(&mut self, name: &Name, growth: &Growth) -> bool
        ensures there { result ≡ is_taken self.old (Grown name.now growth.now) }
        ensures after { self.new ≡ (if result then record self.old { tenants = parts_noted self.old (Grown name.now growth.now) } else self.old) }
    {
        let tenant = usize::from(name.tenant);
        if tenant >= self.parts.len() {
            return false;
        }
        self.first_end = earlier(self.first_end, growth.expires);
        self.parts[tenant].grow(name.id, growth)
    }

    // The next upload of the name's tenant gets this name, unless an id would be given again.
    fn set_next(&mut self, name: &Name) -> bool
        ensures there { result ≡ is_taken self.old (Next name.now) }
        ensures after { self.new ≡ (if result then record self.old { tenants = parts_noted self.old (Next name.now) } else self.old) }
    {
        let tenant = usize::from(name.tenant);
        if tenant >= self.parts.len() {
            return true;
        }
        self.parts[tenant].set_next(name.id)
    }

    // Takes out the row under a name, if one is there.
    fn remove(&mut self, name: &Name)
        ensures { self.new ≡ record self.old { tenants = parts_after self.old (head.Gone name.now) } }
    {
        let tenant = usize::from(name.tenant);
        if tenant < self.parts.len() {
            self.parts[tenant].remove(name.id);
        }
    }

    // Takes out the rows of all uploads that have expired at this moment. It looks at one number where that tells that
    // none has, and else at all rows.
    fn sweep(&mut self, now: Moment)
        ensures { self.new ≡ record self.old { tenants = parts_after self.old (head.Swept now) } }
    {
        if self.may_expire(now) {
            self.sweep_parts(now);
            self.first_end = self.earliest_end();
        }
    }

    // The same, where a row may have expired.
    fn sweep_parts(&mut self, now: Moment)
        ensures { self.new ≡ record self.old { tenants = parts_after self.old (head.Swept now) } }
    {
        for part in self.parts.iter_mut() {
            part.sweep(now);
        }
    }

    // When the first of all uploads expires, if one does.
    fn earliest_end(&self) -> Option<Moment>
        ensures { All (λ (part : HeadPart). AreBounded result part.uploads) self.now.tenants }
    {
        let mut first = None;
        for part in self.parts.iter() {
            first = earlier(first, part.first_end());
        }
        first
    }
}

// A part with no row for each tenant of the settings, with room for as many as it may have.
fn empty_parts(alloc: Global, settings: &Settings) -> Result<Vec<HeadRows>, AllocError>
    ensures parts { IfOk result (λ v. map (λ r. r.part) v.items ≡ opening_parts settings.now.tenants) }
    ensures room { IfOk result (λ v. All (λ r. r.room ≡ settings.now.numbers.uploads) v.items) }
{
    let room = settings.numbers().uploads as usize;
    let mut parts = Vec::with_capacity(alloc, settings.tenant_count())?;
    for tenant in 0..settings.tenant_count() {
        parts.push_reserved(HeadRows::new(alloc, settings.quota(tenant), room)?);
    }
    Ok(parts)
}

use crate::head_row::{HeadRow, Name};
use crate::moment::Moment;

/// What changes of the heads of a book: of what HEADs tell, with no bytes.
#[derive(Drop)]
pub enum HeadChange {
    /// The upload of this name has this row from now on. It is a new one where the name has the tenant's next id.
    Put(Name, HeadRow),
    /// The upload of this name has ended.
    Gone(Name),
    /// All uploads that have expired at this moment have ended.
    Swept(Moment),
    /// The next upload of the name's tenant gets this name. No row changes: the ids between were given before.
    Next(Name),
    /// No row changes, and no next id: the accounts alone do.
    Totals,
}

/// What a tenant pays and may pay, in blocks.
#[derive(Clone, Copy, Debug, PartialEq, Eq)]
pub struct Account {
    /// What the tenant pays for its uploads, expired ones included.
    pub charge: u64,
    /// What it may pay.
    pub quota: u64,
    /// What all tenants together were charged so far.
    pub charged: u64,
}

/// What all tenants were charged so far, what was released of it, and what each of them pays, in blocks.
#[derive(Clone, Copy, Debug, PartialEq, Eq)]
pub struct Accounts {
    pub charged: u64,
    pub released: u64,
    /// By the tenants' places in the settings; 0 where there is no tenant.
    pub charge: [u64; 16],
}

/// What a step changes of the heads of a book, and the accounts after it.
#[derive(Drop)]
pub struct BoardLine {
    pub change: HeadChange,
    pub accounts: Accounts,
}

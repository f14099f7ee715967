use upload_book::Accounts;

/// What is charged and paid in a book, and how many uploads each of its tenants has.
#[derive(Clone, Copy, Debug, PartialEq, Eq)]
pub struct Totals {
    pub accounts: Accounts,
    /// Expired ones included, by the tenants' places in the settings; 0 where there is no tenant.
    pub uploads: [u64; 16],
}

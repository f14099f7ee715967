ghost use Rattle.std.specs.Prelude.{◌≡◌, ◌<◌, ◌+◌, length, IfOk};
ghost use Rattle.std.specs.List.{sum_by};
ghost use Rattle.upload_book.specs.Account.{account_in};
ghost use Rattle.upload_book.specs.BlockBook.{blocks_of, HoldsBook};
ghost use Rattle.upload_book.specs.Book.{plain_of};
ghost use Rattle.upload_book.specs.Charge.{charge_in};
ghost use Rattle.upload_book.specs.Expiries.{AreExpiries};
ghost use Rattle.upload_book.specs.Heads.{accounts_of};
ghost use Rattle.upload_book.specs.Lawful.{IsLawful};
ghost use Rattle.upload_book.specs.PlainBook.{opening_book, tenant_book};
ghost use Rattle.upload_book.specs.BlockStore.{holders_at};
ghost use Rattle.upload_book.specs.Stored.{HoldsPieces};

use crate::block_store::BlockStore;
use crate::board_line::{Account, Accounts};
use crate::expiry_list::{Expiring, ExpiryList};
use crate::head_row::Name;
use crate::settings::Settings;
use std::alloc::{AllocError, Global};
use std::marker::Model;

/// The tenants and their uploads, whose bytes lie in blocks of one pool. A contract sees the plain book
/// that it stands for, in which an upload's bytes are a list.
#[derive(Drop)]
pub struct Book {
    pub(crate) settings: Settings,
    pub(crate) store: BlockStore,
    pub(crate) charged: u64,
    pub(crate) released: u64,
    pub(crate) expiries: ExpiryList,
    pub(crate) alloc: Global,
}

impl Model for Book {
    ghost use Rattle.upload_book.specs.Book.{StoredBook, IsBook};

    ghost Value = { StoredBook };

    ghost view = { λ b. record {
      settings = b.settings;
      store = b.store;
      charged = b.charged;
      released = b.released;
      expiries = b.expiries;
    } };

    ghost invariant = { λ b. IsBook (record {
      settings = b.settings;
      store = b.store;
      charged = b.charged;
      released = b.released;
      expiries = b.expiries;
    }) };
}

impl Book {
    /// The book with no upload. All its tables and all its blocks are taken here; the error is that there
    /// was too little memory for them.
    pub fn new(alloc: Global, settings: Settings) -> Result<Book, AllocError>
        ensures { IfOk result (λ b. plain_of b ≡ opening_book settings) }
    {
        let store = BlockStore::new(alloc, &settings)?;
        let room = settings.tenant_count() * settings.numbers().uploads as usize;
        let expiries = ExpiryList::new(alloc, room)?;
        Ok(Book {
            settings,
            store,
            charged: 0,
            released: 0,
            expiries,
            alloc,
        })
    }

    /// What the book was set up with.
    pub fn settings(&self) -> &Settings
        ensures value { result.now ≡ (plain_of self.now).settings }
        ensures lawful { IsLawful (plain_of self.now) }
    {
        &self.settings
    }

    /// How many blocks the tenant at this place pays for its uploads, expired ones included.
    pub fn charge(&self, tenant: u8) -> u64
        requires { tenant < length (plain_of self.now).settings.tenants }
        ensures { result ≡ charge_in (plain_of self.now).settings.numbers (tenant_book (plain_of self.now) tenant) }
    {
        self.store.charge(usize::from(tenant))
    }

    /// How many uploads the tenant at this place has, expired ones included. It goes over none of them.
    pub fn upload_count(&self, tenant: u8) -> u64
        requires { tenant < length (plain_of self.now).settings.tenants }
        ensures { result ≡ length (tenant_book (plain_of self.now) tenant).uploads }
    {
        self.store.count(usize::from(tenant)) as u64
    }

    /// How many blocks all tenants together were charged so far.
    pub fn charged_total(&self) -> u64
        ensures value { result ≡ (plain_of self.now).charged }
        ensures lawful { IsLawful (plain_of self.now) }
    {
        self.charged
    }

    /// How many of them were released.
    pub fn released_total(&self) -> u64
        ensures { result ≡ (plain_of self.now).released }
    {
        self.released
    }

    /// What all tenants were charged so far, what was released of it, and what each of them pays.
    pub fn accounts(&self) -> Accounts
        ensures { result ≡ accounts_of (plain_of self.now) }
    {
        Accounts {
            charged: self.charged,
            released: self.released,
            charge: self.store.charges(),
        }
    }

    /// How many blocks are free: all but those that the tenants pay.
    pub fn free_blocks(&self) -> u64
        ensures { result + sum_by (charge_in (plain_of self.now).settings.numbers) (plain_of self.now).tenants
            ≡ (plain_of self.now).settings.numbers.blocks }
    {
        u64::from(self.store.free())
    }

    /// How many hold the block at a place of one of an upload's segments, both from 0, whether the upload has
    /// expired or not; `None` where there is none. A final upload has a segment for each of its parts, any other
    /// upload one. It is held once for each time that the block stands in a segment of any upload, and free where it
    /// stands in none.
    pub fn holders(&self, name: &Name, segment: usize, place: u64) -> Option<u64>
        ensures value { result ≡ holders_at self.now.store name.now.tenant name.now.id segment place }
        ensures stored { HoldsPieces self.now.store.pool self.now.store.stored_tenants }
    {
        self.store.holders(name, segment, place)
    }

    /// Says of the blocks what holds of every book, and does nothing. Each block is counted by exactly its holders, free
    /// where it has none, and no block is two tenants'. All bytes that are read through blocks are those of the plain book.
    pub fn tell_blocks(&self)
        ensures blocks { HoldsBook (blocks_of self.now) (plain_of self.now) }
        ensures lawful { IsLawful (plain_of self.now) }
    {
        self.store.free();
        self.store.tell_blocks();
    }

    /// The uploads that expire, each once, with the moment from which on it has expired: by ascending moment, then by the
    /// tenant's place, then by the id. Those that have expired and are not swept yet are among them.
    pub fn expiries(&self) -> &[Expiring]
        ensures { AreExpiries (plain_of self.now) result.now }
    {
        self.expiries.as_slice()
    }

    // The account of the tenant at this place.
    pub(crate) fn account(&self, tenant: u8) -> Account
        requires { tenant < length (plain_of self.now).settings.tenants }
        ensures { result ≡ account_in (plain_of self.now).settings.numbers
            (tenant_book (plain_of self.now) tenant) (plain_of self.now).charged }
    {
        Account {
            charge: self.charge(tenant),
            quota: self.settings.quota(usize::from(tenant)),
            charged: self.charged,
        }
    }
}

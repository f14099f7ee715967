ghost use Rattle.std.specs.Prelude.{◌≡◌, ◌<◌, ◌≤◌, ◌^◌, not, nat_lt, bytes_eq, length, map, position, sum_by, slice_get, IfSome};
ghost use Rattle.std.specs.List.{list_all, list_any};
ghost use Rattle.tus_text.specs.Tenant.{is_tenant_name};
ghost use Rattle.upload_book.specs.Refusal.{first_that_holds};
ghost use Rattle.upload_book.specs.Settings.{AreSound, settings_of, blocks_limit, block_size_limit, pool_limit, size_limit, uploads_limit, tenants_of, tenant_place, number_tests, tenant_tests, is_outside, has_name_twice};
ghost use Rattle.upload_book.specs.declared.settings.Bounds.TheVariants.{Narrow};

use crate::settings_fault::SettingsFault;
use arrayvec::ArrayVec;
use std::marker::Model;
use tus_text::{Tenant, Text, is_tenant_name};

/// The most tenants that a server has.
pub const TENANTS_MAX: usize = 16;

/// How far the numbers that a server is set up with may go.
#[derive(Clone, Copy, Debug, PartialEq, Eq)]
pub enum Bounds {
    /// There are at most 2^20 blocks of at most 2^16 bytes, together at most 2^30. An upload has at most 2^24 bytes, so the body
    /// of a request may be held as a whole. A tenant has at most 64 uploads.
    Narrow,
    /// There are at most 2^32 - 1 blocks of at most 2^20 bytes, together at most 2^44. An upload has at most 2^40 bytes,
    /// and a tenant at most 2^16 uploads.
    Wide,
}

impl Bounds {
    /// The most blocks that there may be.
    pub fn blocks_limit(self) -> u64
        ensures { result ≡ blocks_limit self }
    {
        match self {
            Bounds::Narrow => 1_048_576,
            Bounds::Wide => 4_294_967_295,
        }
    }

    /// The most bytes that a block may have.
    pub fn block_size_limit(self) -> u64
        ensures { result ≡ block_size_limit self }
    {
        match self {
            Bounds::Narrow => 65_536,
            Bounds::Wide => 1_048_576,
        }
    }

    /// The most bytes that all blocks may have together.
    pub fn pool_limit(self) -> u64
        ensures { result ≡ pool_limit self }
    {
        match self {
            Bounds::Narrow => 1_073_741_824,
            Bounds::Wide => 17_592_186_044_416,
        }
    }

    /// The most that the greatest size of an upload may be, in bytes.
    pub fn size_limit(self) -> u64
        ensures { result ≡ size_limit self }
    {
        match self {
            Bounds::Narrow => 16_777_216,
            Bounds::Wide => 1_099_511_627_776,
        }
    }

    /// The most uploads that a tenant may have.
    pub fn uploads_limit(self) -> u64
        ensures { result ≡ uploads_limit self }
    {
        match self {
            Bounds::Narrow => 64,
            Bounds::Wide => 65_536,
        }
    }
}

/// The numbers that a server is set up with.
#[derive(Clone, Copy, Debug, PartialEq, Eq)]
pub struct Numbers {
    /// How many blocks there are: 1 to 1,048,576, or to 2^32 - 1 under the wide bounds.
    pub blocks: u64,
    /// How many bytes a block has: 1 to 65,536, or to 1,048,576 under the wide bounds; all blocks together at most 2^30, or
    /// 2^44.
    pub block_size: u64,
    /// For how many seconds an upload that expires is kept after its last PATCH, or after its creation: 1
    /// to 31,536,000.
    pub lifetime: u64,
    /// For how many seconds an upload stays that is finished: one of its own that has all its bytes, or a final one. 0, where
    /// it stays until it is deleted, to 31,536,000.
    pub finished_lifetime: u64,
    /// The most bytes of an upload: 1 to 16,777,216, or to 2^40 under the wide bounds.
    pub max_size: u64,
    /// The most uploads that the book keeps for a tenant: 1 to 64, or to 65,536 under the wide bounds.
    pub uploads: u64,
    /// The last id that is given: 1 to 2^64 - 2.
    pub last_id: u64,
    /// The greatest total of blocks that is ever charged.
    pub last_total: u64,
}

/// A tenant's name, and the most blocks that its uploads may cost.
#[derive(Default, Drop)]
pub struct TenantQuota {
    pub name: Tenant,
    pub quota: u64,
}

/// What a server is set up with: numbers in their ranges, and 1 to 16 tenants of different names
/// whose quotas sum to at most the number of blocks.
#[derive(Drop)]
pub struct Settings {
    numbers: Numbers,
    tenants: ArrayVec<TenantQuota, 16>,
}

impl Model for Settings {
    ghost use Rattle.upload_book.specs.Settings as spec;

    ghost Value = { spec.Settings };

    ghost view = { λ s. record { numbers = s.numbers; tenants = s.tenants.items } };

    ghost invariant = { λ s. spec.AreSound (record { numbers = s.numbers; tenants = s.tenants.items }) };
}

impl Settings {
    /// The settings of these numbers and of these tenants under the narrow bounds, as [`Settings::within`] gives them.
    pub fn new(numbers: Numbers, tenants: &[(&[u8], u64)]) -> Result<Settings, SettingsFault>
        ensures { result ≡
            settings_of Narrow (record { numbers = numbers; tenants = tenants_of tenants.now }) }
    {
        Settings::within(Bounds::Narrow, numbers, tenants)
    }

    /// The settings of these numbers and of these tenants, each a name and the most blocks that its
    /// uploads may cost; or the first fault of them under these bounds, in the order of [`SettingsFault`]. It takes no
    /// memory, and compares each name with all later ones.
    pub fn within(
        bounds: Bounds,
        numbers: Numbers,
        tenants: &[(&[u8], u64)],
    ) -> Result<Settings, SettingsFault>
        ensures { result ≡
            settings_of bounds (record { numbers = numbers; tenants = tenants_of tenants.now }) }
    {
        if let Some(fault) = number_fault(bounds, numbers) {
            return Err(fault);
        }
        if let Some(fault) = tenant_fault(numbers.blocks, tenants) {
            return Err(fault);
        }
        let mut kept = ArrayVec::new();
        for (name, quota) in tenants {
            kept.push(TenantQuota {
                name: Text::of(name),
                quota: *quota,
            });
        }
        Ok(Settings {
            numbers,
            tenants: kept,
        })
    }

    /// The same settings once more. It takes no memory.
    pub fn copied(&self) -> Settings
        ensures { result ≡ self.now }
    {
        let mut tenants = ArrayVec::new();
        for tenant in self.tenants.as_slice() {
            tenants.push(TenantQuota {
                name: tenant.name.copied(),
                quota: tenant.quota,
            });
        }
        Settings {
            numbers: self.numbers,
            tenants,
        }
    }

    /// The numbers, each in its range.
    pub fn numbers(&self) -> &Numbers
        ensures value { result.now ≡ self.now.numbers }
        ensures sound { AreSound self.now }
        ensures max_size { result.now.max_size ≤ 2 ^ 40 }
        ensures last_total { result.now.last_total < 2 ^ 64 }
    {
        // what is read of a number tells that it is one
        let _last_total = self.numbers.last_total;
        &self.numbers
    }

    /// How many tenants there are: 1 to 16.
    pub fn tenant_count(&self) -> usize
        ensures { result ≡ length self.now.tenants }
    {
        self.tenants.len()
    }

    /// The place of the tenant of this name, from 0, in the order in which the tenants were given; None
    /// where there is none.
    pub fn tenant(&self, name: &[u8]) -> Option<u8>
        ensures place { result ≡ tenant_place self.now name.now }
        ensures there { IfSome result (λ t. t < length self.now.tenants) }
    {
        let place = place_of(self.tenants.as_slice(), name)?;
        Some(place as u8)
    }

    /// The most blocks that the uploads of the tenant at this place may cost.
    pub fn quota(&self, tenant: usize) -> u64
        requires { tenant < length self.now.tenants }
        ensures { slice_get (map (λ t. t.quota) self.now.tenants) tenant ≡ Some result }
    {
        self.tenants[tenant].quota
    }

    /// The name of the tenant at this place.
    pub fn tenant_name(&self, tenant: u8) -> &Tenant
        requires { tenant < length self.now.tenants }
        ensures { slice_get (map (λ t. t.name) self.now.tenants) tenant ≡ Some result.now }
    {
        &self.tenants[usize::from(tenant)].name
    }
}

// The place of the tenant of this name.
fn place_of(tenants: &[TenantQuota], name: &[u8]) -> Option<usize>
    ensures { result ≡ position (λ t. bytes_eq t.name name.now) tenants.now }
{
    tenants
        .iter()
        .position(|tenant| tenant.name.as_slice() == name)
}

// The first fault of the numbers under these bounds.
fn number_fault(bounds: Bounds, numbers: Numbers) -> Option<SettingsFault>
    ensures { result ≡ first_that_holds (number_tests bounds numbers) }
{
    if is_outside(numbers.blocks, bounds.blocks_limit()) {
        Some(SettingsFault::Blocks)
    } else if is_outside(numbers.block_size, bounds.block_size_limit()) {
        Some(SettingsFault::BlockSize)
    } else if numbers.blocks * numbers.block_size > bounds.pool_limit() {
        Some(SettingsFault::PoolBytes)
    } else if is_outside(numbers.lifetime, 31_536_000) {
        Some(SettingsFault::Lifetime)
    } else if numbers.finished_lifetime > 31_536_000 {
        Some(SettingsFault::FinishedLifetime)
    } else if is_outside(numbers.max_size, bounds.size_limit()) {
        Some(SettingsFault::MaxSize)
    } else if is_outside(numbers.uploads, bounds.uploads_limit()) {
        Some(SettingsFault::Uploads)
    } else if is_outside(numbers.last_id, u64::MAX - 1) {
        Some(SettingsFault::LastId)
    } else {
        None
    }
}

// Whether the number is outside 1 to `most`.
fn is_outside(number: u64, most: u64) -> bool
    ensures { result ≡ is_outside number most }
{
    number == 0 || number > most
}

// The first fault of the tenants, whose quotas may be `blocks` together.
#[tactic(auto, using(crate::proofs::Lawful::TenantLists::all_names_given, std::proofs::lemmas::Grind::common_steps))]
fn tenant_fault(blocks: u64, tenants: &[(&[u8], u64)]) -> Option<SettingsFault>
    ensures { result ≡ first_that_holds (tenant_tests blocks (tenants_of tenants.now)) }
{
    if tenants.is_empty() || tenants.len() > TENANTS_MAX {
        Some(SettingsFault::TenantCount)
    } else if !are_names(tenants) {
        Some(SettingsFault::TenantName)
    } else if has_name_twice(tenants) {
        Some(SettingsFault::TenantTwice)
    } else if !quotas_fit(blocks, tenants) {
        Some(SettingsFault::Quota)
    } else {
        None
    }
}

// Whether each can be the name of a tenant.
fn are_names(tenants: &[(&[u8], u64)]) -> bool
    ensures { result ≡ list_all (λ t. is_tenant_name t.0.now) tenants.now }
{
    tenants.iter().all(|tenant| is_tenant_name(tenant.0))
}

// Whether two of the names are the same.
fn has_name_twice(tenants: &[(&[u8], u64)]) -> bool
    ensures { result ≡ has_name_twice (tenants_of tenants.now) }
{
    match tenants.split_first() {
        Some((first, later)) => is_named_again(first.0, later) || has_name_twice(later),
        None => false,
    }
}

// Whether one of the later tenants has this name.
fn is_named_again(name: &[u8], later: &[(&[u8], u64)]) -> bool
    ensures { result ≡ list_any (λ t. bytes_eq t.0.now name.now) later.now }
{
    later.iter().any(|tenant| tenant.0 == name)
}

// Whether the quotas sum to at most `blocks`.
fn quotas_fit(blocks: u64, tenants: &[(&[u8], u64)]) -> bool
    ensures { result ≡ not (nat_lt blocks (sum_by (λ t. t.quota) (tenants_of tenants.now))) }
{
    let mut left = blocks;
    for (_, quota) in tenants {
        if *quota > left {
            return false;
        }
        left -= *quota;
    }
    true
}

ghost use Rattle.std.specs.Prelude.{◌≡◌, Some};
ghost use Rattle.upload_book.specs.Settings.{fault_word};

use std::fmt;
use std::fmt::{Display, Formatter, Write};
use thiserror::Error;

/// What is wrong with settings, in the order in which it is looked for. It displays its word.
#[derive(Clone, Copy, Debug, PartialEq, Eq, Error)]
pub enum SettingsFault {
    /// The number of blocks is outside 1 to 1,048,576, or 1 to 2^32 - 1 under the wide bounds.
    Blocks,
    /// The size of a block is outside 1 to 65,536, or 1 to 1,048,576 under the wide bounds.
    BlockSize,
    /// The blocks have more than 2^30 bytes together, or more than 2^44 under the wide bounds.
    PoolBytes,
    /// The lifetime is outside 1 to 31,536,000 seconds.
    Lifetime,
    /// The lifetime of finished uploads is above 31,536,000 seconds.
    FinishedLifetime,
    /// The greatest size is outside 1 to 16,777,216 bytes, or 1 to 2^40 under the wide bounds.
    MaxSize,
    /// The number of uploads of a tenant is outside 1 to 64, or 1 to 65,536 under the wide bounds.
    Uploads,
    /// The last id is 0 or 2^64 - 1.
    LastId,
    /// There is no tenant, or there are more than 16.
    TenantCount,
    /// A name is not 1 to 32 bytes of `a` to `z`, digits and `-`.
    TenantName,
    /// Two tenants have one name.
    TenantTwice,
    /// The quotas sum to more than the number of blocks.
    Quota,
}

impl SettingsFault {
    /// The word that names it.
    pub fn word(self) -> &'static str
        ensures { result.now ≡ fault_word self }
    {
        match self {
            SettingsFault::Blocks => "blocks",
            SettingsFault::BlockSize => "block-size",
            SettingsFault::PoolBytes => "pool-bytes",
            SettingsFault::Lifetime => "lifetime",
            SettingsFault::FinishedLifetime => "finished-lifetime",
            SettingsFault::MaxSize => "max-size",
            SettingsFault::Uploads => "uploads",
            SettingsFault::LastId => "last-id",
            SettingsFault::TenantCount => "tenants",
            SettingsFault::TenantName => "tenant",
            SettingsFault::TenantTwice => "twice",
            SettingsFault::Quota => "quota",
        }
    }
}

impl Display for SettingsFault {
    ghost output = { λ fault. Some (fault_word fault) };

    fn fmt<W: Write>(&self, f: &mut Formatter<W>) -> fmt::Result {
        f.write_str(self.word())
    }
}

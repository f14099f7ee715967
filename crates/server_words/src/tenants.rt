//! The tenants that words NAME:QUOTA name, and what their quotas come to.
ghost use Rattle.std.specs.Prelude.{◌≡◌, option_map};
ghost use Rattle.clap.specs.Walk.{texts};
ghost use Rattle.server_words.specs.Tenants.{blocks_of_quotas, greatest_quota, greatest_quota_bytes, pool_blocks, quota_in, quota_sum, tenant_in, with_quota};

use crate::quota::read_quota;
use tus_text::is_tenant_name;
use upload_book::Bounds;

/// The name and the quota of a word NAME:QUOTA, which is cut at its first `:`, where a block has so many bytes.
#[tactic(auto, using(crate::proofs::TenantLemmas::no_colon))]
pub fn tenant_of(word: &str, block_size: u64) -> Option<(&[u8], u64)>
    ensures { option_map with_quota result ≡ tenant_in block_size word.now }
{
    let (name, quota) = word.split_once(':')?;
    let quota = read_quota(quota.as_bytes(), block_size)?;
    is_tenant_name(name.as_bytes()).then_some((name.as_bytes(), quota))
}

/// As many blocks as the quotas of the words sum to, but not more than a server may have, and one at least. With more words than
/// there may be it is one: they are the fault, and are not looked at.
pub fn blocks_of_quotas(words: &[&str], block_size: u64) -> u64
    ensures { result ≡ blocks_of_quotas block_size (texts words.now) }
{
    if words.len() > 16 {
        return 1;
    }
    let sum = quota_sum(words, block_size).unwrap_or(u64::MAX);
    sum.min(pool_blocks(block_size)).max(1)
}

/// The most blocks of this size that a server may have under the wide bounds.
fn pool_blocks(block_size: u64) -> u64
    ensures { result ≡ pool_blocks block_size }
{
    if block_size == 0 {
        1
    } else {
        (Bounds::Wide.pool_limit() / block_size).min(Bounds::Wide.blocks_limit())
    }
}

/// What the quotas of the words sum to, where that is below 2^64.
pub fn quota_sum(words: &[&str], block_size: u64) -> Option<u64>
    ensures { result ≡ quota_sum block_size (texts words.now) }
{
    match words.split_first() {
        Some((word, later)) => quota_sum(later, block_size)?.checked_add(quota_of(
            word, block_size,
        )),
        None => Some(0),
    }
}

/// The quota of a word, 0 where it names no tenant.
fn quota_of(word: &str, block_size: u64) -> u64
    ensures { result ≡ quota_in block_size word.now }
{
    match tenant_of(word, block_size) {
        Some((_, quota)) => quota,
        None => 0,
    }
}

/// As many bytes as the greatest quota of the words has, but not more than an upload may have, and one at least. With more words
/// than there may be it is one.
pub fn greatest_quota_bytes(words: &[&str], block_size: u64) -> u64
    ensures { result ≡ greatest_quota_bytes block_size (texts words.now) }
{
    if words.len() > 16 {
        return 1;
    }
    let bytes = greatest_quota(words, block_size).saturating_mul(block_size);
    bytes.min(Bounds::Wide.size_limit()).max(1)
}

/// The greatest quota of the words, in blocks.
fn greatest_quota(words: &[&str], block_size: u64) -> u64
    ensures { result ≡ greatest_quota block_size (texts words.now) }
{
    match words.split_first() {
        Some((word, later)) => quota_of(word, block_size).max(greatest_quota(later, block_size)),
        None => 0,
    }
}

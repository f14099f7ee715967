//! Chains through the slots of a table, one for each bucket of names: the newest body first.
ghost use Rattle.std.specs.Prelude.{◌≡◌, ◌<◌, ◌≤◌, None, Some, IfOk, IfSome, length, replicate, slice_set, slice_index_or, vec_len};
ghost use Rattle.unfinished_bodies.specs.Chains.{heads_without, linked_at};

use std::alloc::{AllocError, Global};

/// The links of all chains. A slot in no chain may have any links.
#[derive(Drop)]
pub(crate) struct Chains {
    /// The newest slot of each bucket.
    pub(crate) heads: Vec<Option<usize>>,
    /// For each slot the next older one of its bucket.
    pub(crate) older: Vec<Option<usize>>,
    /// For each slot the next newer one of its bucket.
    pub(crate) newer: Vec<Option<usize>>,
}

impl Chains {
    /// Empty chains of so many buckets, through so many slots.
    pub(crate) fn new(alloc: Global, buckets: usize, slots: usize) -> Result<Chains, AllocError>
        ensures heads { IfOk result (λ c. c.heads.items ≡ replicate buckets None) }
        ensures older { IfOk result (λ c. vec_len c.older ≡ slots) }
        ensures newer { IfOk result (λ c. vec_len c.newer ≡ slots) }
    {
        Ok(Chains {
            heads: no_links(alloc, buckets)?,
            older: no_links(alloc, slots)?,
            newer: no_links(alloc, slots)?,
        })
    }

    /// How many buckets there are.
    pub(crate) fn buckets(&self) -> usize
        ensures { result ≡ length self.now.heads.items }
    {
        self.heads.len()
    }

    /// Puts a slot that is in no chain before all others of a bucket.
    pub(crate) fn link(&mut self, bucket: usize, slot: usize)
        requires bucket { bucket < vec_len self.old.heads }
        requires older { slot < vec_len self.old.older }
        requires newer { slot < vec_len self.old.newer }
        requires head { IfSome (slice_index_or self.old.heads.items bucket None) (λ next. next < vec_len self.old.newer) }
        ensures heads { self.new.heads.items ≡ slice_set self.old.heads.items bucket (Some slot) }
        ensures older_links { self.new.older.items ≡ slice_set self.old.older.items slot (slice_index_or self.old.heads.items bucket None) }
        ensures newer_links { self.new.newer.items ≡ linked_at (slice_set self.old.newer.items slot None) (slice_index_or self.old.heads.items bucket None) (Some slot) }
    {
        self.older[slot] = self.heads[bucket];
        self.newer[slot] = None;
        if let Some(next) = self.heads[bucket] {
            self.newer[next] = Some(slot);
        }
        self.heads[bucket] = Some(slot);
    }

    /// Takes a slot out of the chain of its bucket.
    pub(crate) fn unlink(&mut self, bucket: usize, slot: usize)
        requires bucket { bucket < vec_len self.old.heads }
        requires older { slot < vec_len self.old.older }
        requires newer { slot < vec_len self.old.newer }
        requires older_slot { IfSome (slice_index_or self.old.older.items slot None) (λ next. next < vec_len self.old.newer) }
        requires newer_slot { IfSome (slice_index_or self.old.newer.items slot None) (λ next. next < vec_len self.old.older) }
        ensures heads { self.new.heads.items ≡ heads_without self.old.heads.items bucket (slice_index_or self.old.newer.items slot None) (slice_index_or self.old.older.items slot None) }
        ensures older_links { self.new.older.items ≡ linked_at self.old.older.items (slice_index_or self.old.newer.items slot None) (slice_index_or self.old.older.items slot None) }
        ensures newer_links { self.new.newer.items ≡ linked_at self.old.newer.items (slice_index_or self.old.older.items slot None) (slice_index_or self.old.newer.items slot None) }
    {
        match self.older[slot] {
            Some(next) => self.newer[next] = self.newer[slot],
            None => {}
        }
        match self.newer[slot] {
            Some(next) => self.older[next] = self.older[slot],
            None => self.heads[bucket] = self.older[slot],
        }
    }
}

// So many links that lead nowhere.
fn no_links(alloc: Global, n: usize) -> Result<Vec<Option<usize>>, AllocError>
    ensures { IfOk result (λ links. links.items ≡ replicate n None) }
{
    let mut links = Vec::with_capacity(alloc, n)?;
    links.resize(n, None)?;
    Ok(links)
}

ghost use Rattle.std.specs.Prelude.{◌≡◌, ◌+◌, ◌-◌, ◌*◌, ◌^◌, ◌<◌, ◌≤◌, ◌↔◌, ◌++◌, length, IfSome, IfNone, IfOk, IsTrue, take, vec_len, vec_capacity};
ghost use Rattle.block_pool.specs.Blocks.{IsPool, IsWithinLimits, Takes, size_of, count_at, bytes_at, free_in, all_free, held, over, released, written};
ghost use Rattle.block_pool.specs.FreeList.{padded};

use crate::block_id::BlockId;
use std::alloc::{AllocError, Global};
use std::marker::Model;

/// The most bytes of a block.
pub const BLOCK_SIZE_MAX: u32 = 1_048_576;

/// The most bytes of all blocks of a pool together: 2^44.
pub const POOL_BYTES_MAX: u64 = 17_592_186_044_416;

/// Blocks of one size, their bytes in one piece of memory, each with a count of its holders. A contract
/// sees the counts, and the bytes of the blocks that somebody holds.
///
/// No call but `new` takes memory, and each call takes the same time however many blocks there are. The memory of a block is
/// touched once the block is taken: those that were taken before come first, and of the others none has a count or bytes.
#[derive(Drop)]
pub struct Pool {
    block_bytes: u32,
    // How many blocks there are.
    blocks: u32,
    // The counts of the blocks that were taken at some time, and their bytes.
    counts: Vec<u64>,
    bytes: Vec<u8>,
    // Which of these are free.
    free: Vec<BlockId>,
}

impl Model for Pool {
    ghost use Rattle.std.specs.Prelude.{vec_capacity};
    ghost use Rattle.block_pool.specs.Blocks.{Blocks};
    ghost use Rattle.block_pool.specs.FreeList.{blocks_of, counts_of_all, IsStored};

    ghost Value = { Blocks };

    ghost view = { λ p. record {
      block_size = p.block_bytes;
      blocks = blocks_of p.block_bytes (counts_of_all p.blocks p.counts.items) p.bytes.items;
    } };

    ghost invariant = { λ p. IsStored p.block_bytes p.blocks p.counts.items p.bytes.items p.free.items
        (vec_capacity p.counts) (vec_capacity p.bytes) (vec_capacity p.free) };
}

impl Pool {
    /// Whether [`Pool::new`] makes a pool of so many blocks with so many bytes each: 1 to 2^32 - 1
    /// blocks of 1 to [`BLOCK_SIZE_MAX`] bytes, at most [`POOL_BYTES_MAX`] together.
    pub fn is_within_limits(blocks: u32, block_size: u32) -> bool
        ensures { IsTrue result ↔ IsWithinLimits blocks block_size }
    {
        0 < blocks
            && 0 < block_size
            && block_size <= BLOCK_SIZE_MAX
            && u64::from(blocks) * u64::from(block_size) <= POOL_BYTES_MAX
    }

    /// Makes a pool of so many blocks with so many bytes each, which [`Pool::is_within_limits`] accepts.
    /// Every block is free. All memory that the pool will ever need is taken here, and none of it is touched; an
    /// `AllocError` says that there was too little.
    pub fn new(alloc: Global, blocks: u32, block_size: u32) -> Result<Pool, AllocError>
        requires { IsWithinLimits blocks block_size }
        ensures { IfOk result (λ p. p ≡ all_free blocks block_size) }
    {
        Ok(Pool {
            block_bytes: block_size,
            blocks,
            counts: Vec::with_capacity(alloc, blocks as usize)?,
            bytes: Vec::with_capacity(alloc, blocks as usize * block_size as usize)?,
            free: Vec::with_capacity(alloc, blocks as usize)?,
        })
    }

    /// How many blocks there are.
    pub fn size(&self) -> u32
        ensures value { result ≡ size_of self.now }
        ensures pool { IsPool self.now }
    {
        self.blocks
    }

    /// How many blocks nobody holds.
    pub fn free(&self) -> u32
        ensures { result ≡ free_in self.now }
    {
        let untaken = self.blocks as usize - self.counts.len();
        (untaken + self.free.len()) as u32
    }

    /// How many bytes each block has.
    pub fn block_size(&self) -> u32
        ensures value { result ≡ self.now.block_size }
        ensures pool { IsPool self.now }
    {
        self.block_bytes
    }

    /// How many hold a block of this pool; 0 where it is free.
    pub fn count(&self, block: BlockId) -> u64
        requires { block < size_of self.now }
        ensures { result ≡ count_at self.now block }
    {
        let at = block.number() as usize;
        if at < self.counts.len() {
            self.counts[at]
        } else {
            0
        }
    }

    /// Takes a free block, which is then held once. `None` comes exactly where no block is free, and then
    /// nothing changes. What the block's bytes are is not promised.
    pub fn take(&mut self) -> Option<BlockId>
        ensures some { IfSome result (λ b. Takes self.old self.new b) }
        ensures none { IfNone result (free_in self.old ≡ 0) }
        ensures unchanged { IfNone result (self.new ≡ self.old) }
    {
        self.take_with(b"")
    }

    /// Takes a free block as [`Pool::take`] does. Its first bytes are these, at most as many as a block has, and the others
    /// are not promised. The memory of a block that is taken for the first time is not cleared before they are written.
    pub fn take_with(&mut self, bytes: &[u8]) -> Option<BlockId>
        requires { length bytes.now ≤ self.old.block_size }
        ensures some { IfSome result (λ b. Takes self.old self.new b) }
        ensures first { IfSome result (λ b. take (length bytes.now) (bytes_at self.new b) ≡ bytes.now) }
        ensures none { IfNone result (free_in self.old ≡ 0) }
        ensures unchanged { IfNone result (self.new ≡ self.old) }
    {
        let size = self.block_bytes as usize;
        if let Some(block) = self.free.pop() {
            let place = block.number() as usize;
            self.counts[place] = 1;
            write_over(&mut self.bytes, place * size, bytes);
            return Some(block);
        }
        let taken = self.counts.len();
        if taken == self.blocks as usize {
            return None;
        }
        self.counts.push_reserved(1);
        put_padded(&mut self.bytes, bytes, size);
        Some(BlockId::new(taken as u32))
    }

    /// Holds once more a block that somebody holds, fewer than 2^64 - 1 times.
    pub fn hold(&mut self, block: BlockId)
        requires is_held { 0 < count_at self.old block }
        requires fits { count_at self.old block + 1 < 2 ^ 64 }
        ensures { self.new ≡ held self.old block }
    {
        let place = block.number() as usize;
        self.counts[place] += 1;
    }

    /// Holds once less a block that somebody holds, and says whether it is free now.
    pub fn release(&mut self, block: BlockId) -> bool
        requires { 0 < count_at self.old block }
        ensures freed { IsTrue result ↔ (count_at self.old block ≡ 1) }
        ensures after { self.new ≡ released self.old block }
    {
        let place = block.number() as usize;
        let left = self.counts[place] - 1;
        self.counts[place] = left;
        if left == 0 {
            self.free.push_reserved(block);
        }
        left == 0
    }

    /// Writes bytes into a block that is held once, from its byte `at` on (0 is the first) and within the
    /// block. Its other bytes stay.
    pub fn write(&mut self, block: BlockId, at: u32, bytes: &[u8])
        requires held_once { count_at self.old block ≡ 1 }
        requires within { at + length bytes.now ≤ self.old.block_size }
        ensures { self.new ≡ written self.old block at bytes.now }
    {
        let start = block.number() as usize * self.block_size() as usize;
        write_over(&mut self.bytes, start + at as usize, bytes);
    }

    /// The bytes of a block that somebody holds, as many as a block has.
    pub fn bytes(&self, block: BlockId) -> &[u8]
        requires { 0 < count_at self.now block }
        ensures value { result.now ≡ bytes_at self.now block }
        ensures len { length result.now ≡ self.now.block_size }
    {
        let size = self.block_size() as usize;
        let start = block.number() as usize * size;
        &self.bytes[start..start + size]
    }
}

// Puts bytes behind others, and zeros behind these up to `size` in all, for which there is room.
fn put_padded(all: &mut Vec<u8>, bytes: &[u8], size: usize)
    requires fits { length bytes.now ≤ size }
    requires room { vec_len all.old + size ≤ vec_capacity all.old }
    ensures items { all.new.items ≡ all.old.items ++ padded size bytes.now }
    ensures room { vec_capacity all.old ≤ vec_capacity all.new }
{
    let end = all.len() + size;
    let copied = all.extend_from_slice(bytes);
    prove!(copied.is_ok());
    let put = all.resize(end, 0);
    prove!(put.is_ok());
}

// Writes bytes in the place of others, from a place on.
fn write_over(all: &mut Vec<u8>, at: usize, bytes: &[u8])
    requires { at + length bytes.now ≤ vec_len all.old }
    ensures items { all.new.items ≡ over all.old.items at bytes.now }
    ensures room { vec_capacity all.new ≡ vec_capacity all.old }
{
    all[at..at + bytes.len()].copy_from_slice(bytes);
}

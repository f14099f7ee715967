//! Pools of blocks: how many may be held, by whom, and what they keep.
ghost use Rattle.std.specs.Prelude.{◌≡◌, ◌≤◌, ◌+◌, length};
ghost use Rattle.block_pool.specs.Blocks.{count_at, IsWithinLimits};

use block_pool::{BLOCK_SIZE_MAX, BlockId, POOL_BYTES_MAX, Pool};
use std::alloc::Global;
use std::process::Abort;

// A new pool of so many blocks with so many bytes each, where there is memory for it.
fn new_pool(rt: &impl Abort, alloc: Global, blocks: u32, block_size: u32) -> Pool
    requires { IsWithinLimits blocks block_size }
    ensures { result.block_size ≡ block_size }
{
    let Ok(pool) = Pool::new(alloc, blocks, block_size) else {
        panic!(rt; "no memory for a pool");
    };
    pool
}

// A block that was free.
fn take(rt: &impl Abort, pool: &mut Pool) -> BlockId
    ensures count { count_at pool.new result ≡ 1 }
    ensures size { pool.new.block_size ≡ pool.old.block_size }
{
    let Some(block) = pool.take() else {
        panic!(rt; "no block");
    };
    block
}

// The pool has so many blocks with so many bytes each, and so many of them are free.
fn assert_sizes(rt: &impl Abort, pool: &Pool, blocks: u32, free: u32, block_size: u32)
    ensures { pool.now.block_size ≡ block_size }
{
    assert!(rt; pool.size() == blocks);
    assert!(rt; pool.free() == free);
    assert!(rt; pool.block_size() == block_size);
}

fn assert_no_block(rt: &impl Abort, pool: &mut Pool)
    ensures { pool.new ≡ pool.old }
{
    assert!(rt; pool.take().is_none());
}

#[test]
fn two_blocks(rt: HostRuntime) {
    let mut pool = new_pool(&rt, rt.alloc(), 2, 4);
    assert_sizes(&rt, &pool, 2, 2, 4);
    let first = take(&rt, &mut pool);
    let second = take(&rt, &mut pool);
    assert!(rt; first != second);
    assert_no_block(&rt, &mut pool);
}

// A block of four bytes that is held once keeps what is written into it.
fn assert_keeps_bytes(rt: &impl Abort, pool: &mut Pool, block: BlockId)
    requires count { count_at pool.old block ≡ 1 }
    requires size { pool.old.block_size ≡ 4 }
    ensures { count_at pool.new block ≡ 1 }
{
    pool.write(block, 0, b"abcd");
    pool.write(block, 1, b"xy");
    assert!(rt; pool.bytes(block) == b"axyd".as_slice());
}

// A block of four bytes is taken with these as its first ones, for the first time and again.
fn assert_taken_with(rt: &impl Abort, pool: &mut Pool, bytes: &[u8])
    requires size { pool.old.block_size ≡ 4 }
    requires fits { length bytes.now ≤ 4 }
    ensures { pool.new.block_size ≡ 4 }
{
    let block = pool.take_with(bytes).expect(rt, "a block");
    assert!(rt; pool.bytes(block).starts_with(bytes));
    pool.release(block);
}

#[test]
fn blocks_with_their_bytes(rt: HostRuntime) {
    let mut pool = new_pool(&rt, rt.alloc(), 1, 4);
    assert_taken_with(&rt, &mut pool, b"ab");
    assert_taken_with(&rt, &mut pool, b"wxyz");
    assert_taken_with(&rt, &mut pool, b"");
}

// One of two blocks, which is held once, is held twice, and then by nobody.
fn assert_counts_holders(rt: &impl Abort, pool: &mut Pool, block: BlockId)
    requires { count_at pool.old block ≡ 1 }
{
    pool.hold(block);
    assert!(rt; pool.count(block) == 2 && pool.free() == 1);
    assert!(rt; !pool.release(block));
    assert!(rt; pool.release(block));
    assert!(rt; pool.count(block) == 0 && pool.free() == 2);
}

#[test]
fn holders_and_bytes(rt: HostRuntime) {
    let mut pool = new_pool(&rt, rt.alloc(), 2, 4);
    let block = take(&rt, &mut pool);
    assert_keeps_bytes(&rt, &mut pool, block);
    assert_counts_holders(&rt, &mut pool, block);
}

// Blocks, bytes of a block, and whether they make a pool.
static LIMITS: [(u32, u32, bool); 11] = [
    (1, 1, true),
    (0, 1, false),
    (1, 0, false),
    (4_294_967_295, 4_096, true),
    (4_294_967_295, 4_097, false),
    (4_294_967_295, 1, true),
    (16_777_216, 1_048_576, true),
    (16_777_217, 1_048_576, false),
    (1, 1_048_576, true),
    (1, 1_048_577, false),
    (4_294_967_295, 4_294_967_295, false),
];

fn assert_limit(rt: &impl Abort, blocks: u32, block_size: u32, within: bool) {
    assert!(rt;
        Pool::is_within_limits(blocks, block_size) == within,
        "{blocks} blocks of {block_size} bytes"
    );
}

#[test]
fn limits(rt: HostRuntime) {
    for (blocks, block_size, within) in &LIMITS {
        assert_limit(&rt, *blocks, *block_size, *within);
    }
    assert!(rt; BLOCK_SIZE_MAX == 1_048_576);
    assert!(rt; POOL_BYTES_MAX == 17_592_186_044_416);
}

// Takes so many blocks.
fn take_each(rt: &impl Abort, pool: &mut Pool, blocks: u32) {
    for _ in 0..blocks {
        take(rt, pool);
    }
}

// The last byte of a block that is held once can be written.
fn assert_last_byte(rt: &impl Abort, pool: &mut Pool, block: BlockId, last: u32)
    requires count { count_at pool.old block ≡ 1 }
    requires size { last + 1 ≡ pool.old.block_size }
    ensures { count_at pool.new block ≡ 1 }
{
    pool.write(block, last, b"z");
    assert!(rt; pool.bytes(block)[last as usize] == b'z');
}

// A pool of these numbers: its memory is taken, and the last block can be written.
fn assert_pool(rt: &impl Abort, alloc: Global, blocks: u32, block_size: u32) {
    assert!(rt; Pool::is_within_limits(blocks, block_size));
    let mut pool = new_pool(rt, alloc, blocks, block_size);
    take_each(rt, &mut pool, blocks - 1);
    let last = take(rt, &mut pool);
    assert_sizes(rt, &pool, blocks, 0, block_size);
    assert_last_byte(rt, &mut pool, last, block_size - 1);
    assert_no_block(rt, &mut pool);
    assert!(rt; pool.release(last));
    assert!(rt; pool.free() == 1);
}

// The smallest pool, two of more than a gibibyte, and the largest block alone.
#[test]
fn pools(rt: HostRuntime) {
    for (blocks, block_size) in [
        (1, 1),
        (1_048_577, 1_024),
        (1_025, 1_048_576),
        (1, 1_048_576),
    ] {
        assert_pool(&rt, rt.alloc(), blocks, block_size);
    }
}

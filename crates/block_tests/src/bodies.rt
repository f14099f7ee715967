//! Bodies in blocks of small pools.
ghost use Rattle.std.specs.Prelude.{◌≡◌, ◌+◌, OnOk, length};
ghost use Rattle.block_pool.specs.Blocks.{IsWithinLimits};
ghost use Rattle.block_bodies.specs.Bodies.{HasRoom, IsBodyOf, IsLastOwn};
ghost use Rattle.block_tests.specs.Sole.{AreSole, IsSole};

use block_bodies::{Body, BodyFault};
use block_pool::Pool;
use std::alloc::Global;
use std::process::Abort;

// A new pool of so many blocks with so many bytes each, and an empty body in it.
fn empty_body(rt: &impl Abort, alloc: Global, blocks: u32, block_size: u32) -> (Pool, Body)
    requires { IsWithinLimits blocks block_size }
    ensures sole { IsSole result.0 result.1 }
    ensures last { IsLastOwn result.0 result.1 }
    ensures len { result.1.len ≡ 0 }
{
    let Ok(pool) = Pool::new(alloc, blocks, block_size) else {
        panic!(rt; "no memory for a pool");
    };
    (pool, Body::empty(alloc))
}

// Appends bytes, and gives how many blocks were taken for them.
fn try_append(pool: &mut Pool, body: &mut Body, bytes: &[u8]) -> Result<u64, BodyFault>
    requires sole { IsSole pool.old body.old }
    requires last { IsLastOwn pool.old body.old }
    ensures sole { IsSole pool.new body.new }
    ensures last { IsLastOwn pool.new body.new }
    ensures len { OnOk result (body.new.len ≡ body.old.len + length bytes.now) }
{
    body.append(pool, bytes)
}

// The same, where there are blocks and memory.
fn append(rt: &impl Abort, pool: &mut Pool, body: &mut Body, bytes: &[u8]) -> u64
    requires sole { IsSole pool.old body.old }
    requires last { IsLastOwn pool.old body.old }
    ensures sole { IsSole pool.new body.new }
    ensures last { IsLastOwn pool.new body.new }
    ensures len { body.new.len ≡ body.old.len + length bytes.now }
{
    let Ok(taken) = try_append(pool, body, bytes) else {
        panic!(rt; "{} bytes were not appended", bytes.len());
    };
    taken
}

// Bytes are appended, and so many blocks are taken for them.
fn assert_appended(rt: &impl Abort, pool: &mut Pool, body: &mut Body, bytes: &[u8], blocks: u64)
    requires sole { IsSole pool.old body.old }
    requires last { IsLastOwn pool.old body.old }
    ensures sole { IsSole pool.new body.new }
    ensures last { IsLastOwn pool.new body.new }
{
    let taken = append(rt, pool, body, bytes);
    assert!(rt; taken == blocks, "{taken} blocks were taken, not {blocks}");
}

// Bytes are refused, since too few blocks are free for them.
fn assert_full(rt: &impl Abort, pool: &mut Pool, body: &mut Body, bytes: &[u8])
    requires sole { IsSole pool.old body.old }
    requires last { IsLastOwn pool.old body.old }
    ensures sole { IsSole pool.new body.new }
    ensures last { IsLastOwn pool.new body.new }
{
    let Err(BodyFault::Full) = try_append(pool, body, bytes) else {
        panic!(rt; "{} bytes were not refused", bytes.len());
    };
}

// A body has as many bytes as these, and reads as they do.
fn assert_reads(rt: &impl Abort, alloc: Global, pool: &Pool, body: &Body, bytes: &[u8])
    requires { IsBodyOf pool.now body.now }
{
    assert!(rt;
        body.len() == bytes.len() as u64,
        "{} bytes were expected",
        bytes.len()
    );
    let Ok(read) = body.read(alloc, pool) else {
        panic!(rt; "no memory for {} bytes", bytes.len());
    };
    assert!(rt;
        read.as_slice() == bytes,
        "other than {} bytes were read",
        bytes.len()
    );
}

// So many blocks of the pool are free.
fn assert_free(rt: &impl Abort, pool: &Pool, blocks: u32) {
    assert!(rt; pool.free() == blocks, "not {blocks} blocks are free");
}

// A copy that shares the body's blocks.
fn share(rt: &impl Abort, pool: &mut Pool, body: &Body) -> Body
    requires { IsSole pool.old body.now }
    ensures { AreSole pool.new body.now result }
{
    let Ok(copy) = body.share(pool) else {
        panic!(rt; "no memory for a copy");
    };
    copy
}

// The block at a place of a body is held twice.
fn assert_held_twice(rt: &impl Abort, pool: &Pool, body: &Body, place: u64) {
    let Some(block) = body.block(place) else {
        panic!(rt; "no block {place}");
    };
    assert!(rt; block.number() < pool.size());
    assert!(rt; pool.count(block) == 2, "block {place} is not held twice");
}

// A body whose blocks are all its copy's too is given back, and no block becomes free.
fn give_back_shared(rt: &impl Abort, pool: &mut Pool, body: Body, copy: &Body)
    requires { AreSole pool.old body copy.now }
    ensures { IsSole pool.new copy.now }
{
    let freed = body.give_back(pool);
    assert!(rt; freed == 0, "{freed} blocks became free");
}

// A body is given back, and so many blocks become free.
fn give_back(rt: &impl Abort, pool: &mut Pool, body: Body, blocks: u64)
    requires { IsSole pool.old body }
{
    let freed = body.give_back(pool);
    assert!(rt; freed == blocks, "{freed} blocks became free, not {blocks}");
}

// A body is given back, and then its copy: only then do their blocks become free, so many.
fn give_back_both(rt: &impl Abort, pool: &mut Pool, body: Body, copy: Body, blocks: u64)
    requires { AreSole pool.old body copy }
{
    give_back_shared(rt, pool, body, &copy);
    give_back(rt, pool, copy, blocks);
}

// A new pool of so many blocks, and a body of these bytes that takes them all, so that more bytes are refused.
fn full_body(
    rt: &impl Abort,
    alloc: Global,
    blocks: u32,
    block_size: u32,
    bytes: &[u8],
    more: &[u8],
) -> (Pool, Body)
    requires { IsWithinLimits blocks block_size }
    ensures sole { IsSole result.0 result.1 }
    ensures last { IsLastOwn result.0 result.1 }
{
    let (mut pool, mut body) = empty_body(rt, alloc, blocks, block_size);
    assert_appended(rt, &mut pool, &mut body, bytes, u64::from(blocks));
    assert_full(rt, &mut pool, &mut body, more);
    assert_reads(rt, alloc, &pool, &body, bytes);
    (pool, body)
}

#[test]
fn append_fills_the_last_block(rt: HostRuntime) {
    let alloc = rt.alloc();
    let (mut pool, mut body) = full_body(&rt, alloc, 2, 4, b"hello", b"wxyz");
    assert_appended(&rt, &mut pool, &mut body, b"wxy", 0);
    assert_reads(&rt, alloc, &pool, &body, b"hellowxy");
}

#[test]
fn share_holds_each_block_twice(rt: HostRuntime) {
    let alloc = rt.alloc();
    let (mut pool, mut body) = empty_body(&rt, alloc, 2, 4);
    assert_appended(&rt, &mut pool, &mut body, b"hello", 2);
    let copy = share(&rt, &mut pool, &body);
    assert_held_twice(&rt, &pool, &copy, 0);
    assert_held_twice(&rt, &pool, &copy, 1);
    assert_reads(&rt, alloc, &pool, &copy, b"hello");
    give_back_both(&rt, &mut pool, body, copy, 2);
    assert_free(&rt, &pool, 2);
}

// Makes room for so many more bytes, and gives how many blocks they need.
fn try_reserve(pool: &Pool, body: &mut Body, more: u64) -> Result<u64, BodyFault>
    requires sole { IsSole pool.now body.old }
    requires last { IsLastOwn pool.now body.old }
    ensures sole { IsSole pool.now body.new }
    ensures last { IsLastOwn pool.now body.new }
    ensures room { OnOk result (HasRoom pool.now body.new more) }
{
    body.reserve(pool, more)
}

// There is room for so many more bytes, which need so many blocks.
fn assert_room(rt: &impl Abort, pool: &Pool, body: &mut Body, more: u64, blocks: u64)
    requires sole { IsSole pool.now body.old }
    requires last { IsLastOwn pool.now body.old }
    ensures sole { IsSole pool.now body.new }
    ensures last { IsLastOwn pool.now body.new }
    ensures room { HasRoom pool.now body.new more }
{
    let Ok(needed) = try_reserve(pool, body, more) else {
        panic!(rt; "no room for {more} bytes");
    };
    assert!(rt;
        needed == blocks,
        "{needed} blocks are needed, not {blocks}"
    );
}

// There is no room for so many more bytes, since too few blocks are free.
fn assert_no_room(rt: &impl Abort, pool: &Pool, body: &mut Body, more: u64)
    requires sole { IsSole pool.now body.old }
    requires last { IsLastOwn pool.now body.old }
    ensures sole { IsSole pool.now body.new }
    ensures last { IsLastOwn pool.now body.new }
{
    let Err(BodyFault::Full) = try_reserve(pool, body, more) else {
        panic!(rt; "room for {more} bytes");
    };
}

// Puts bytes for which there is room, and so many blocks are taken.
fn put(rt: &impl Abort, pool: &mut Pool, body: &mut Body, bytes: &[u8], blocks: u64)
    requires sole { IsSole pool.old body.old }
    requires last { IsLastOwn pool.old body.old }
    requires room { HasRoom pool.old body.old (length bytes.now) }
    ensures sole { IsSole pool.new body.new }
    ensures last { IsLastOwn pool.new body.new }
{
    let taken = body.put(pool, bytes);
    assert!(rt; taken == blocks, "{taken} blocks were taken, not {blocks}");
}

// A copy that shares the body's blocks, made in two halves.
fn list_and_hold(rt: &impl Abort, pool: &mut Pool, body: &Body) -> Body
    requires { IsSole pool.old body.now }
    ensures { AreSole pool.new body.now result }
{
    let Ok(list) = body.list() else {
        panic!(rt; "no memory for a list");
    };
    list.hold(pool)
}

// A body has two blocks, and they are not the same.
fn assert_two_blocks(rt: &impl Abort, body: &Body) {
    assert!(rt; body.block(0) != body.block(1));
    assert!(rt; body.block(2).is_none());
}

// Bytes are put into an empty body of a pool of two blocks of four, until these are full.
fn put_twice(rt: &impl Abort, pool: &mut Pool, body: &mut Body)
    requires sole { IsSole pool.old body.old }
    requires last { IsLastOwn pool.old body.old }
    ensures { IsSole pool.new body.new }
{
    assert_room(rt, pool, body, 5, 2);
    assert!(rt; body.len() == 0 && pool.free() == 2);
    put(rt, pool, body, b"hello", 2);
    assert_no_room(rt, pool, body, 4);
    assert_room(rt, pool, body, 3, 0);
    put(rt, pool, body, b"wxy", 0);
}

// Each call in its two halves.
#[test]
fn put_and_hold(rt: HostRuntime) {
    let alloc = rt.alloc();
    let (mut pool, mut body) = empty_body(&rt, alloc, 2, 4);
    put_twice(&rt, &mut pool, &mut body);
    assert_reads(&rt, alloc, &pool, &body, b"hellowxy");
    assert_two_blocks(&rt, &body);
    let copy = list_and_hold(&rt, &mut pool, &body);
    assert_free(&rt, &pool, 0);
    give_back_both(&rt, &mut pool, body, copy, 2);
}

// So many more bytes need so many blocks.
fn assert_needs(rt: &impl Abort, pool: &Pool, body: &Body, more: u64, blocks: u64)
    requires { IsBodyOf pool.now body.now }
{
    let needed = body.blocks_needed(pool, more);
    assert!(rt;
        needed == blocks,
        "{more} bytes need {needed} blocks, not {blocks}"
    );
}

// How many more bytes need how many blocks, where the last block has room for three.
static NEEDED: [(u64, u64); 6] = [
    (0, 0),
    (3, 0),
    (4, 1),
    (7, 1),
    (8, 2),
    (18_446_744_073_709_551_615, 4_611_686_018_427_387_903),
];

// Each of these numbers of bytes needs the number of blocks beside it.
fn assert_each_needs(rt: &impl Abort, pool: &Pool, body: &Body, needed: &[(u64, u64)])
    requires { IsBodyOf pool.now body.now }
{
    for (more, blocks) in needed {
        assert_needs(rt, pool, body, *more, *blocks);
    }
}

#[test]
fn blocks_needed(rt: HostRuntime) {
    let (mut pool, mut body) = empty_body(&rt, rt.alloc(), 4, 4);
    assert_needs(&rt, &pool, &body, 0, 0);
    assert_needs(&rt, &pool, &body, 1, 1);
    append(&rt, &mut pool, &mut body, b"hello");
    assert_each_needs(&rt, &pool, &body, &NEEDED);
}

// A body of "hello" is read onto one vector, all of it and then a range within it, and an empty one between.
fn assert_read_twice(rt: &impl Abort, alloc: Global, pool: &Pool, body: &Body)
    requires body { IsBodyOf pool.now body.now }
    requires len { body.now.len ≡ 5 }
{
    let Ok(mut bytes) = Vec::with_capacity(alloc, 13) else {
        panic!(rt; "no memory for thirteen bytes");
    };
    body.read_onto(pool, 0, 5, &mut bytes);
    Body::empty(alloc).read_onto(pool, 0, 5, &mut bytes);
    body.read_onto(pool, 1, 3, &mut bytes);
    assert!(rt; bytes.as_slice() == b"helloell".as_slice());
}

#[test]
fn bodies_read_onto_one_vector(rt: HostRuntime) {
    let alloc = rt.alloc();
    let (mut pool, mut body) = empty_body(&rt, alloc, 2, 4);
    assert_reads(&rt, alloc, &pool, &body, b"");
    append(&rt, &mut pool, &mut body, b"hello");
    assert_read_twice(&rt, alloc, &pool, &body);
}

// The smallest pool: its memory is there, and so is that of its body.
#[test]
fn one_block_of_one_byte(rt: HostRuntime) {
    let (mut pool, body) = full_body(&rt, rt.alloc(), 1, 1, b"a", b"b");
    give_back(&rt, &mut pool, body, 1);
}

static TWO_THOUSAND: [u8; 2_000] = [b'x'; 2_000];

// A long list of blocks: the memory for its copy is there, and every block is shared.
#[test]
fn two_thousand_blocks(rt: HostRuntime) {
    let alloc = rt.alloc();
    let (mut pool, mut body) = empty_body(&rt, alloc, 2_000, 1);
    assert_appended(&rt, &mut pool, &mut body, &TWO_THOUSAND, 2_000);
    let copy = share(&rt, &mut pool, &body);
    give_back_shared(&rt, &mut pool, body, &copy);
    assert_reads(&rt, alloc, &pool, &copy, &TWO_THOUSAND);
    give_back(&rt, &mut pool, copy, 2_000);
    assert_free(&rt, &pool, 2_000);
}

fn assert_in_words(rt: &impl Abort, alloc: Global, fault: BodyFault, text: &str) {
    let Ok(shown) = format!(in alloc; "{fault}") else {
        panic!(rt; "no memory for a text");
    };
    assert!(rt; shown.as_str() == text, "{text}");
}

#[test]
fn faults_in_words(rt: HostRuntime) {
    assert_in_words(&rt, rt.alloc(), BodyFault::Full, "too few blocks are free");
    assert_in_words(&rt, rt.alloc(), BodyFault::Memory, "out of memory");
}

// Appends n bytes n to a plain list and to a body.
fn append_to_both(rt: &impl Abort, pool: &mut Pool, body: &mut Body, plain: &mut Vec<u8>, n: u8)
    requires sole { IsSole pool.old body.old }
    requires last { IsLastOwn pool.old body.old }
    ensures sole { IsSole pool.new body.new }
    ensures last { IsLastOwn pool.new body.new }
{
    let before = plain.len();
    let Ok(()) = plain.resize(before + n as usize, n) else {
        panic!(rt; "no memory for {n} bytes");
    };
    append(rt, pool, body, &plain[before..]);
}

// A body has the bytes of a plain list, in as few blocks of seven bytes as they need, and the others of 300 are free.
fn assert_like(rt: &impl Abort, alloc: Global, pool: &Pool, body: &Body, plain: &[u8])
    requires { IsBodyOf pool.now body.now }
{
    assert_reads(rt, alloc, pool, body, plain);
    let free = 300u64.saturating_sub(plain.len().div_ceil(7) as u64);
    assert!(rt;
        u64::from(pool.free()) == free,
        "not {free} blocks are free"
    );
}

// One body against a plain list of bytes and the number of blocks that these take.
#[test]
fn like_a_plain_list(rt: HostRuntime) {
    let alloc = rt.alloc();
    let (mut pool, mut body) = empty_body(&rt, alloc, 300, 7);
    let mut plain = Vec::new(alloc);
    for n in 0..64u8 {
        append_to_both(&rt, &mut pool, &mut body, &mut plain, n);
        assert_like(&rt, alloc, &pool, &body, &plain);
    }
    give_back(&rt, &mut pool, body, plain.len().div_ceil(7) as u64);
}

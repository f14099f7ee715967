ghost use Rattle.std.specs.Prelude.{◌≡◌, ℕ, ◌+◌, ◌-◌, ◌*◌, ◌%◌, ◌^◌, ◌<◌, ◌≤◌, ◌↔◌, [], ◌∷◌, ◌++◌, drop, length, take, max, min, IfOk, IfErr, IsOk, OnOk, OnErr, slice_get, slice_index, vec_len, vec_capacity};
ghost use Rattle.block_pool.specs.Blocks.{free_in, places_of, count_at};
ghost use Rattle.block_bodies.specs.Bodies.{Chain, IsBodyOf, IsHeld, IsLastOwn, HasRoom, StandsOnce, blocks_with, content_of};
ghost use Rattle.block_bodies.specs.Changes.{GivesBack, Holds, MayHold, Puts};

use crate::fault::BodyFault;
use crate::unheld::{Unheld, hold_each};
use block_pool::{BlockId, Pool};
use std::alloc::{AllocError, Global};
use std::marker::Model;

/// Bytes that lie in blocks of a pool, one block after the other; only the last may have a rest that is
/// not used. Each call that takes a pool wants the pool of the body's blocks. A contract sees the list of
/// the blocks, the number of bytes, and how many blocks the list has room for.
///
/// A body that is dropped keeps its blocks held: [`Body::give_back`] ends it.
#[derive(Drop)]
pub struct Body {
    blocks: Vec<BlockId>,
    len: u64,
}

impl Model for Body {
    ghost use Rattle.std.specs.Prelude.{vec_capacity};
    ghost use Rattle.block_bodies.specs.Bodies.{Chain, StandsOnce};

    ghost Value = { Chain };

    ghost view = { λ x. record { blocks = x.blocks.items; len = x.len; room = vec_capacity x.blocks } };

    ghost invariant = { λ x. StandsOnce x.blocks.items };
}

impl Body {
    /// A body of no bytes and no blocks. It takes no memory; its list of blocks will grow in that of `alloc`.
    pub fn empty(alloc: Global) -> Body
        ensures value { result ≡ record { blocks = []; len = 0; room = 0 } }
        ensures once { StandsOnce result.blocks }
    {
        Body {
            blocks: Vec::new(alloc),
            len: 0,
        }
    }

    /// A body of no bytes whose list has room for so many blocks. An `AllocError` says that there was no memory for it,
    /// which never comes for no blocks.
    pub fn with_room(alloc: Global, blocks: usize) -> Result<Body, AllocError>
        ensures value { IfOk result (λ x. x ≡ record { blocks = []; len = 0; room = x.room }) }
        ensures room { IfOk result (λ x. blocks ≤ x.room) }
        ensures once { IfOk result (λ x. StandsOnce x.blocks) }
        ensures empty { blocks ≡ 0 → IsOk result }
    {
        Ok(Body::of(Vec::with_capacity(alloc, blocks)?, 0))
    }

    pub(crate) fn of(blocks: Vec<BlockId>, len: u64) -> Body
        requires { StandsOnce blocks.items }
        ensures { result ≡ record { blocks = blocks.items; len = len; room = vec_capacity blocks } }
    {
        Body { blocks, len }
    }

    /// How many bytes there are. With it a caller learns two facts of every body: no block stands in its
    /// list twice, and the list is no longer than its room.
    pub fn len(&self) -> u64
        ensures value { result ≡ self.now.len }
        ensures once { StandsOnce self.now.blocks }
        ensures within_room { length self.now.blocks ≤ self.now.room }
    {
        self.len
    }

    /// The block at a place of the body's list, from 0; `None` past the last one.
    pub fn block(&self, place: u64) -> Option<BlockId>
        ensures { result ≡ slice_get self.now.blocks place }
    {
        self.blocks.get(place as usize).copied()
    }

    /// Appends bytes, and gives how many blocks were taken for them. It is [`Body::reserve`], then
    /// [`Body::put`]. Where there are bytes, a last block that is not full must be held once, for this body.
    ///
    /// `Full` comes exactly where fewer blocks are free than the bytes need, and before `Memory`, which comes
    /// only where the list of blocks had to grow and could not. After either the body and the pool are
    /// unchanged.
    pub fn append(&mut self, pool: &mut Pool, bytes: &[u8]) -> Result<u64, BodyFault>
        requires body { IsBodyOf pool.old self.old }
        requires last { 0 < length bytes.now → IsLastOwn pool.old self.old }
        ensures taken { IfOk result (λ n. length self.new.blocks ≡ length self.old.blocks + n) }
        ensures puts { OnOk result (Puts pool.old self.old bytes.now pool.new self.new) }
        ensures once { StandsOnce self.new.blocks }
        ensures room_kept { self.old.room ≤ self.new.room }
        ensures bound { self.new.room
            ≤ max self.old.room (max 4 (2 * blocks_with pool.old self.old (length bytes.now))) }
        ensures full { (result ≡ Err BodyFault.Full)
            ↔ (length self.old.blocks + free_in pool.old < blocks_with pool.old self.old (length bytes.now)) }
        ensures memory { result ≡ Err BodyFault.Memory → self.old.room < blocks_with pool.old self.old (length bytes.now) }
        ensures blocks { result ≡ Err BodyFault.Memory
            → length self.old.blocks < blocks_with pool.old self.old (length bytes.now) }
        ensures body_unchanged { OnErr result (self.new ≡ self.old) }
        ensures pool_unchanged { OnErr result (pool.new ≡ pool.old) }
    {
        let taken = self.reserve(pool, bytes.len() as u64)?;
        self.put(pool, bytes);
        Ok(taken)
    }

    /// Makes room in the list of blocks for `more` bytes, and gives how many blocks they need. The bytes, the
    /// blocks and the pool stay, and the list keeps the room that it had. Where it has to grow, it gets room for at
    /// most twice the blocks that the bytes then take, or for 4.
    ///
    /// `Full` comes exactly where fewer blocks are free than are needed, and before `Memory`, which comes only
    /// where the list had to grow and could not. After either the body is unchanged.
    pub fn reserve(&mut self, pool: &Pool, more: u64) -> Result<u64, BodyFault>
        requires { IsBodyOf pool.now self.old }
        ensures needed { IfOk result (λ n. blocks_with pool.now self.old more ≡ length self.old.blocks + n) }
        ensures room { OnOk result (HasRoom pool.now self.new more) }
        ensures once { StandsOnce self.new.blocks }
        ensures room_kept { self.old.room ≤ self.new.room }
        ensures bound { self.new.room ≤ max self.old.room (max 4 (2 * blocks_with pool.now self.old more)) }
        ensures body { self.new ≡ record self.old { room = self.new.room } }
        ensures full { (result ≡ Err BodyFault.Full)
            ↔ (length self.old.blocks + free_in pool.now < blocks_with pool.now self.old more) }
        ensures memory { result ≡ Err BodyFault.Memory → self.old.room < blocks_with pool.now self.old more }
        ensures blocks { result ≡ Err BodyFault.Memory → length self.old.blocks < blocks_with pool.now self.old more }
        ensures unchanged { OnErr result (self.new ≡ self.old) }
    {
        let needed = self.blocks_needed(pool, more);
        if needed > u64::from(pool.free()) {
            return Err(BodyFault::Full);
        }
        match make_room(&mut self.blocks, needed as usize) {
            Ok(()) => Ok(needed),
            Err(_) => Err(BodyFault::Memory),
        }
    }

    /// How many blocks `more` bytes need, beyond the rest of the last block: as many as [`Body::append`] takes
    /// for them. It takes none, so that a quota can be asked first.
    pub fn blocks_needed(&self, pool: &Pool, more: u64) -> u64
        requires { IsBodyOf pool.now self.now }
        ensures { blocks_with pool.now self.now more ≡ length self.now.blocks + result }
    {
        let size = u64::from(pool.block_size());
        let rest = self.blocks.len() as u64 * size - self.len;
        more.saturating_sub(rest).div_ceil(size)
    }

    /// Appends bytes for which [`Body::reserve`] made room, and gives how many blocks were taken. It cannot
    /// fail and takes no memory. Each byte is copied once: into the last block's rest, then into new blocks.
    /// Where there are bytes, a last block that is not full must be held once, for this body.
    pub fn put(&mut self, pool: &mut Pool, bytes: &[u8]) -> u64
        requires body { IsBodyOf pool.old self.old }
        requires room { HasRoom pool.old self.old (length bytes.now) }
        requires last { 0 < length bytes.now → IsLastOwn pool.old self.old }
        ensures taken { length self.new.blocks ≡ length self.old.blocks + result }
        ensures puts { Puts pool.old self.old bytes.now pool.new self.new }
        ensures once { StandsOnce self.new.blocks }
        ensures room_stays { self.new.room ≡ self.old.room }
    {
        let before = self.blocks.len();
        let mut done = 0;
        while done < bytes.len() {
            done += self.put_piece(pool, &bytes[done..]);
        }
        (self.blocks.len() - before) as u64
    }

    // Puts as many bytes as one block has room for, the last one or a new one, and says how many.
    fn put_piece(&mut self, pool: &mut Pool, bytes: &[u8]) -> usize
        requires some { 0 < length bytes.now }
        requires body { IsBodyOf pool.old self.old }
        requires room { HasRoom pool.old self.old (length bytes.now) }
        requires last { IsLastOwn pool.old self.old }
        ensures some { 0 < result }
        ensures within { result ≤ length bytes.now }
        ensures puts { Puts pool.old self.old (take result bytes.now) pool.new self.new }
        ensures room_stays { self.new.room ≡ self.old.room }
    {
        let filled = (self.len % u64::from(pool.block_size())) as u32;
        if filled == 0 {
            self.start_block(pool, bytes)
        } else {
            self.fill_last(pool, filled, bytes)
        }
    }

    fn start_block(&mut self, pool: &mut Pool, bytes: &[u8]) -> usize
        requires some { 0 < length bytes.now }
        requires body { IsBodyOf pool.old self.old }
        requires whole { self.old.len ≡ length self.old.blocks * pool.old.block_size }
        requires room { length self.old.blocks < self.old.room }
        requires free { 0 < free_in pool.old }
        ensures some { 0 < result }
        ensures within { result ≤ length bytes.now }
        ensures puts { Puts pool.old self.old (take result bytes.now) pool.new self.new }
        ensures room_stays { self.new.room ≡ self.old.room }
    {
        let n = bytes.len().min(pool.block_size() as usize);
        let block = pool.take_with(&bytes[..n]).unwrap();
        self.blocks.push_reserved(block);
        self.len += n as u64;
        n
    }

    fn fill_last(&mut self, pool: &mut Pool, filled: u32, bytes: &[u8]) -> usize
        requires some { 0 < length bytes.now }
        requires body { IsBodyOf pool.old self.old }
        requires last { IsLastOwn pool.old self.old }
        requires partial { 0 < filled }
        requires within_block { filled < pool.old.block_size }
        requires end { self.old.len + pool.old.block_size ≡ length self.old.blocks * pool.old.block_size + filled }
        ensures some { 0 < result }
        ensures within { result ≤ length bytes.now }
        ensures puts { Puts pool.old self.old (take result bytes.now) pool.new self.new }
        ensures room_stays { self.new.room ≡ self.old.room }
    {
        let n = bytes.len().min((pool.block_size() - filled) as usize);
        let last = self.blocks[self.blocks.len() - 1];
        pool.write(last, filled, &bytes[..n]);
        self.len += n as u64;
        n
    }

    /// A body of the same blocks, each held once more. It is [`Body::list`], then [`Unheld::hold`]: no byte is
    /// copied. An `AllocError` says that there was no memory for the list of blocks, which never comes where
    /// there are no blocks; the pool is then unchanged.
    pub fn share(&self, pool: &mut Pool) -> Result<Body, AllocError>
        requires { MayHold pool.old self.now.blocks }
        ensures blocks { IfOk result (λ y. y.blocks ≡ self.now.blocks) }
        ensures len { IfOk result (λ y. y.len ≡ self.now.len) }
        ensures once { IfOk result (λ y. StandsOnce y.blocks) }
        ensures holds { OnOk result (Holds pool.old self.now.blocks pool.new) }
        ensures empty { self.now.blocks ≡ [] → IsOk result }
        ensures unchanged { OnErr result (pool.new ≡ pool.old) }
    {
        Ok(self.list()?.hold(pool))
    }

    /// Makes a body that has no blocks one of these blocks, each held once more. It cannot fail, takes no memory and touches
    /// no byte: the body's list has room for the blocks. Each must be held less than 2^64 - 1 times.
    pub fn share_into(&self, body: &mut Body, pool: &mut Pool)
        requires may { MayHold pool.old self.now.blocks }
        requires empty { body.old.blocks ≡ [] }
        requires room { length self.now.blocks ≤ body.old.room }
        ensures blocks { body.new.blocks ≡ self.now.blocks }
        ensures len { body.new.len ≡ self.now.len }
        ensures once { StandsOnce body.new.blocks }
        ensures holds { Holds pool.old self.now.blocks pool.new }
    {
        hold_each(pool, &self.blocks);
        let copied = body.blocks.extend_from_slice(&self.blocks);
        prove!(copied.is_ok());
        body.len = self.len;
    }

    /// A copy of the list of blocks, which [`Unheld::hold`] makes a body. An `AllocError` says that there was
    /// no memory for it, which never comes where there are no blocks.
    pub fn list(&self) -> Result<Unheld, AllocError>
        ensures blocks { IfOk result (λ u. u.blocks ≡ self.now.blocks) }
        ensures len { IfOk result (λ u. u.len ≡ self.now.len) }
        ensures empty { self.now.blocks ≡ [] → IsOk result }
    {
        let mut blocks = Vec::with_capacity(*self.blocks.allocator(), self.blocks.len())?;
        let copied = blocks.extend_from_slice(&self.blocks);
        prove!(copied.is_ok());
        Ok(Unheld::new(blocks, self.len))
    }

    /// The body's bytes, in a new vector. An `AllocError` says that there was no memory for them, which never
    /// comes where there are no bytes.
    pub fn read(&self, alloc: Global, pool: &Pool) -> Result<Vec<u8>, AllocError>
        requires { IsBodyOf pool.now self.now }
        ensures content { IfOk result (λ v. v.items ≡ content_of pool.now self.now) }
        ensures empty { self.now.len ≡ 0 → IsOk result }
    {
        let len = self.len as usize;
        let mut bytes = Vec::with_capacity(alloc, len)?;
        self.read_onto(pool, 0, len, &mut bytes);
        Ok(bytes)
    }

    /// Reads the body's bytes from an offset on onto the end of `bytes`, as many as `count`, for which it has room, or as there
    /// are: so many bodies can be read onto a vector whose memory was taken once. It cannot fail and takes no memory.
    pub fn read_onto(&self, pool: &Pool, offset: u64, count: usize, bytes: &mut Vec<u8>)
        requires body { IsBodyOf pool.now self.now }
        requires room { vec_len bytes.old + count ≤ vec_capacity bytes.old }
        ensures content { bytes.new.items ≡ bytes.old.items ++ take count (drop offset (content_of pool.now self.now)) }
        ensures room_kept { vec_capacity bytes.old ≤ vec_capacity bytes.new }
    {
        let rest = self.len.saturating_sub(offset);
        let all = rest.min(count as u64) as usize;
        let mut done = 0;
        while done < all {
            let lent = self.bytes_from(pool, offset + done as u64);
            let n = lent.len().min(all - done);
            let copied = bytes.extend_from_slice(&lent[..n]);
            prove!(copied.is_ok());
            done += n;
        }
    }

    /// The body's bytes from an offset on, as many as lie together in one block; none from its end on. So a body can be read
    /// piece by piece where it lies. It takes no memory and copies no byte.
    pub fn bytes_from<'a>(&self, pool: &'a Pool, offset: u64) -> &'a [u8]
        requires { IsBodyOf pool.now self.now }
        ensures bytes { result.now ≡ take (length result.now) (drop offset (content_of pool.now self.now)) }
        ensures some { offset < self.now.len → 0 < length result.now }
    {
        if offset >= self.len {
            return &[];
        }
        let size = u64::from(pool.block_size());
        let block = self.blocks[(offset / size) as usize];
        let start = offset % size;
        let end = (self.len - (offset - start)).min(size);
        &pool.bytes(block)[start as usize..end as usize]
    }

    /// Ends the body: each of its blocks is held once less. Gives how many became free, which are those that
    /// nobody else holds.
    pub fn give_back(self, pool: &mut Pool) -> u64
        requires { IsHeld pool.old self.blocks }
        ensures { GivesBack pool.old self.blocks result pool.new }
    {
        let before = pool.free();
        release_each(pool, &self.blocks);
        u64::from(pool.free() - before)
    }
}

// Makes room in a list for so many more blocks. Where it has to grow, it gets room for at least twice as many as before,
// so that a body which grows little by little is not copied each time.
fn make_room(blocks: &mut Vec<BlockId>, more: usize) -> Result<(), AllocError>
    requires { more < 2 ^ 32 }
    ensures items { blocks.new.items ≡ blocks.old.items }
    ensures ok { OnOk result (vec_len blocks.new + more ≤ vec_capacity blocks.new) }
    ensures capacity { vec_capacity blocks.old ≤ vec_capacity blocks.new }
    ensures bound { vec_capacity blocks.new
        ≤ max (vec_capacity blocks.old) (max 4 (2 * (vec_len blocks.old + more))) }
    ensures full { OnErr result (vec_capacity blocks.old < vec_len blocks.old + more) }
    ensures err { OnErr result (vec_capacity blocks.new ≡ vec_capacity blocks.old) }
{
    let (len, room) = (blocks.len(), blocks.capacity());
    if more <= room - len {
        return Ok(());
    }
    let grown = (len + more).max(2 * room).max(4);
    blocks.reserve_exact(grown - len)
}

fn release_each(pool: &mut Pool, blocks: &[BlockId])
    requires { IsHeld pool.old blocks.now }
    ensures { GivesBack pool.old blocks.now (free_in pool.new - free_in pool.old) pool.new }
{
    for block in blocks {
        pool.release(*block);
    }
}

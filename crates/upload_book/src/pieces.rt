//! Lists of pieces: their blocks are held, read and given back one after another.
ghost use Rattle.std.specs.Prelude.{◌≡◌, ◌+◌, ◌-◌, ◌<◌, ◌≤◌, ◌++◌, drop, map, length, option_map, take, vec_len, vec_capacity};
ghost use Rattle.block_pool.specs.Blocks.{free_in};
ghost use Rattle.block_bodies.specs.Bodies.{IsHeld};
ghost use Rattle.block_bodies.specs.Changes.{GivesBack, Holds, MayHold};
ghost use Rattle.upload_book.specs.Charge.{price};
ghost use Rattle.upload_book.specs.inside.ChargeAfter.{sources_in};
ghost use Rattle.upload_book.specs.inside.FinalBack.{chain_from};
ghost use Rattle.upload_book.specs.Stored.{placed_in};
ghost use Rattle.upload_book.specs.inside.Pieces.{as_piece, bytes_of, AreBodies, ReadsWhole};

use block_bodies::{Body, Unheld};
use block_pool::Pool;

/// Bytes in blocks, with the upload to which they were sent, their origin.
#[derive(Drop)]
pub(crate) struct Piece {
    pub(crate) origin: u64,
    pub(crate) chain: Body,
}

/// A piece whose blocks are not held for it yet.
#[derive(Drop)]
pub(crate) struct UnheldPiece {
    pub(crate) origin: u64,
    pub(crate) chain: Unheld,
}

/// How the bytes of an upload are held.
#[derive(Drop)]
pub(crate) enum HeldBytes {
    /// Those that were sent to it, in a body of its own. It may be a partial upload, for later final ones.
    Own { partial: bool, body: Body },
    /// Those of its parts, piece by piece, which are so many together: it is a final upload.
    Joined { len: u64, pieces: Vec<Piece> },
}

/// Reads bytes of the pieces from an offset on, one piece behind the other, onto the end of `bytes`: as many as `count`, for
/// which it has room, or as there are.
pub(crate) fn read_each(
    pieces: &[Piece],
    pool: &Pool,
    offset: u64,
    count: usize,
    bytes: &mut Vec<u8>,
)
    requires bodies { AreBodies pool.now pieces.now }
    requires whole { ReadsWhole pool.now pieces.now }
    requires room { vec_len bytes.old + count ≤ vec_capacity bytes.old }
    ensures items { bytes.new.items ≡ bytes.old.items ++ take count (drop offset (bytes_of pool.now pieces.now)) }
    ensures room_kept { vec_capacity bytes.old ≤ vec_capacity bytes.new }
{
    let end = bytes.len() + count;
    let mut skipped = offset;
    for piece in pieces {
        let left = end - bytes.len();
        piece.chain.read_onto(pool, skipped, left, bytes);
        skipped = skipped.saturating_sub(piece.chain.len());
    }
}

/// Holds the blocks of each piece once more, and puts it at the end of `pieces`, which has room for them.
pub(crate) fn hold_each(unheld: Vec<UnheldPiece>, pool: &mut Pool, pieces: &mut Vec<Piece>)
    requires held { MayHold pool.old (placed_in (map as_piece unheld.items)) }
    requires room { vec_len pieces.old + length unheld.items ≤ vec_capacity pieces.old }
    ensures pieces { pieces.new.items ≡ pieces.old.items ++ map as_piece unheld.items }
    ensures holds { Holds pool.old (placed_in (map as_piece unheld.items)) pool.new }
{
    for piece in unheld {
        pieces.push_reserved(Piece {
            origin: piece.origin,
            chain: piece.chain.hold(pool),
        });
    }
}

/// Ends the pieces: each of their blocks is held once less. Gives how many became free.
pub(crate) fn give_back_each(pieces: Vec<Piece>, pool: &mut Pool) -> u64
    requires { IsHeld pool.old (placed_in pieces.items) }
    ensures { GivesBack pool.old (placed_in pieces.items) result pool.new }
{
    let before = pool.free();
    release_each(pieces, pool);
    u64::from(pool.free() - before)
}

fn release_each(pieces: Vec<Piece>, pool: &mut Pool)
    requires { IsHeld pool.old (placed_in pieces.items) }
    ensures { GivesBack pool.old (placed_in pieces.items) (free_in pool.new - free_in pool.old) pool.new }
{
    for piece in pieces {
        piece.chain.give_back(pool);
    }
}

/// The most blocks of a size that a piece of this origin takes, of the pieces from a place on; 0 where there is none.
pub(crate) fn price_from(pieces: &[Piece], from: usize, size: u64, origin: u64) -> u64
    requires { 0 < size }
    ensures { result ≡ price size (sources_in (drop from pieces.now)) origin }
{
    let mut most = 0;
    for place in from..pieces.len() {
        let piece = &pieces[place];
        if piece.origin == origin {
            most = most.max(piece.chain.len().div_ceil(size));
        }
    }
    most
}

/// The body of the first of the pieces that has this origin, where there is one.
pub(crate) fn chain_from(pieces: &[Piece], origin: u64) -> Option<&Body>
    ensures { option_map (λ chain. chain.now) result ≡ chain_from pieces.now origin }
{
    for place in 0..pieces.len() {
        if pieces[place].origin == origin {
            return Some(&pieces[place].chain);
        }
    }
    None
}

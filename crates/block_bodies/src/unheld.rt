ghost use Rattle.std.specs.Prelude.{◌≡◌, ℕ, ◌+◌, ◌^◌, ◌<◌, ◌≤◌};
ghost use Rattle.block_bodies.specs.Bodies.{IsHeld, StandsOnce};
ghost use Rattle.block_bodies.specs.Changes.{Holds, MayHold, GivesBack};

use crate::body::Body;
use block_pool::{BlockId, Pool};
use std::marker::Model;

/// The list of a body's blocks, before they are held for it. A contract sees it as it sees a body.
///
/// Its memory is taken before anything changes in the pool, so that the step that can fail comes first.
#[derive(Drop)]
pub struct Unheld {
    blocks: Vec<BlockId>,
    len: u64,
}

impl Model for Unheld {
    ghost use Rattle.std.specs.Prelude.{vec_capacity};
    ghost use Rattle.block_bodies.specs.Bodies.{Chain, StandsOnce};

    ghost Value = { Chain };

    ghost view = { λ x. record { blocks = x.blocks.items; len = x.len; room = vec_capacity x.blocks } };

    ghost invariant = { λ x. StandsOnce x.blocks.items };
}

impl Unheld {
    pub(crate) fn new(blocks: Vec<BlockId>, len: u64) -> Unheld
        requires { StandsOnce blocks.items }
        ensures blocks { result.blocks ≡ blocks.items }
        ensures len { result.len ≡ len }
    {
        Unheld { blocks, len }
    }

    /// Holds each block of the list once more, and gives the body. It cannot fail, takes no memory and touches
    /// no byte. Each block must be held by somebody, and less than 2^64 - 1 times.
    pub fn hold(self, pool: &mut Pool) -> Body
        requires { MayHold pool.old self.blocks }
        ensures body { result ≡ self }
        ensures once { StandsOnce result.blocks }
        ensures holds { Holds pool.old self.blocks pool.new }
    {
        hold_each(pool, &self.blocks);
        Body::of(self.blocks, self.len)
    }
}

/// Holds each block of a list once more.
pub(crate) fn hold_each(pool: &mut Pool, blocks: &[BlockId])
    requires { MayHold pool.old blocks.now }
    ensures { Holds pool.old blocks.now pool.new }
{
    for block in blocks {
        pool.hold(*block);
    }
}

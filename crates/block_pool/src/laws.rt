//! Laws of the definitions that the contracts cite: each is the contract of a function that does
//! nothing, and holds of every pool.
ghost use Rattle.block_pool.specs.Laws.{BlocksAreFreeOrUsed, UsedBlocksAreListed};

/// How many blocks are in use: the free ones and the used ones are all blocks, and where no block is held
/// more often than it stands in a list, the list is at least as long as blocks are used.
pub fn blocks_in_use()
    ensures free_or_used { BlocksAreFreeOrUsed }
    ensures listed { UsedBlocksAreListed }
{}

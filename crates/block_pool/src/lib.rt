//! Blocks of bytes of one size, each with a count of its holders. A block is free exactly while nobody
//! holds it.
#![tactic(auto, using(crate::proofs::Stored::stored))]

mod block_id;
mod laws;
mod pool;

pub use block_id::BlockId;
pub use laws::blocks_in_use;
pub use pool::{BLOCK_SIZE_MAX, POOL_BYTES_MAX, Pool};

//! Bodies of bytes in blocks of a pool. Bodies can share blocks, so that a copy of a body copies no byte.
#![tactic(auto)]

mod body;
mod fault;
mod laws;
mod unheld;

pub use body::Body;
pub use fault::BodyFault;
pub use laws::lists_in_parts;
pub use unheld::Unheld;

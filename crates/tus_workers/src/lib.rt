//! The workers of a server: each answers the connections that it accepts at a desk of its own,
//! one after another or many side by side.
#![tactic(auto)]

mod accept;
mod at_desk;
mod at_kept_desk;
mod at_once;
mod bodies;
mod client;
mod clients;
mod connections;
mod descriptors;
mod door;
mod keeping;
mod machine_clock;
mod noting;
mod numbers;
mod precedence;
mod server_state;
mod socket_listener;
mod stream;
mod sweeping;
mod witness;
mod worker;
mod workers;
mod yielding;

pub use accept::{Accept, Listener};
pub use descriptors::within_descriptors;
pub use keeping::{Compacting, Keeping, NoJournal};
pub use machine_clock::MachineClock;
pub use server_state::ServerState;
pub use socket_listener::{SocketAcceptor, SocketListener};
pub use stream::{MESSAGES_MAX, ServedStream, serve_stream};
pub use worker::{Worker, any_failed, dismiss, hire};
pub use workers::work_all;

//! HTTP/1.1 messages in and out: requests read from bytes, replies written as bytes.
#![tactic(auto)]

mod answer;
mod buffers;
mod clock;
mod connection;
mod connection_loop;
mod conversation;
mod driving;
mod fault;
mod framing;
mod in_memory;
mod incoming;
pub mod laws;
mod message;
mod phase;
mod piece_answer;
mod read;
mod refusal;
mod replying;
mod request_limits;
mod source;
mod wire;
mod write;

pub use answer::Answer;
pub use buffers::Buffers;
pub use clock::Clock;
pub use connection::{Connection, Wants};
pub use connection_loop::serve;
pub use conversation::{Ended, converse};
pub use fault::WireFault;
pub use framing::Framing;
pub use in_memory::conversation_of;
pub use incoming::{Cut, Incoming};
pub use message::Message;
pub use refusal::WireRefusal;
pub use request_limits::RequestLimits;
pub use source::{Sink, Source, Tapped};
pub use wire::Wire;
pub use write::reply::reply_status;
pub use write::send::put_all;

//! A client's connection over streams that would block: its turns, what it has sent, and how fast it goes.
#![tactic(auto)]

mod client_connection;
mod holding;
mod observer;
mod pace;
mod sending;
mod turn;
mod unread;
mod work_options;

pub use client_connection::ClientConnection;
pub use holding::Durability;
pub use observer::{Observer, Unwatched};
pub use pace::{Busy, ClientBounds, Late, Pace, Window};
pub use sending::{Sent, send_pending};
pub use turn::{AsTheyCome, Precedence, Share, Streams, TurnOutcome, Turned, take_turn, wants_of};
pub use unread::{ROOM_KEPT, may_be_unread};
pub use work_options::WorkOptions;

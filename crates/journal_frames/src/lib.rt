//! Payloads as frames of a file that is written over zeros: how they are written, how they are read, and what a
//! crash leaves of them. No digest is trusted for a crash: lost bytes lower the numbers of a frame, so that it no
//! longer balances.
#![tactic(auto)]

mod laws;
mod reader;
mod tail;
mod writer;

pub use laws::{
    crashes_leave_whole_frames, cuts_leave_whole_frames, frames_are_read_again,
    torn_tails_stay_torn,
};
pub use reader::Frames;
pub use tail::Tail;
pub use writer::{HEADER_LEN, PAYLOAD_MAX, close_frame, open_frame, push_frame};

//! A journal in one file: payloads as frames over zeros, synced when the caller says so, and read again after a crash.
#![tactic(auto)]

mod appending;
mod draft;
mod error;
mod filling;
mod journal;
mod opening;
mod place;
mod recovered;

pub use draft::Draft;
pub use error::{Damage, JournalError};
pub use journal::{Journal, NotOpened, Opened};
pub use place::{JournalPlace, PlaceFault};
pub use recovered::{Recovered, WholeFrames, recover, whole_frames};

//! What a service tells of itself: lines of a log, and numbers in Prometheus' text format.
#![tactic(auto)]

mod counts;
mod cut;
mod escape;
mod exposition;
mod families;
pub mod laws;
mod line;
mod log;
mod metrics;
mod put;
mod seconds;
mod snapshot;

pub use counts::{
    Bucket, Counts, Histogram, NamedCount, ReplyCount, WORD_MAX, Word, count_named, count_reply,
};
pub use cut::Cut;
pub use line::{CutLine, RequestLine, method_name};
pub use log::Log;
pub use metrics::metrics_text;
pub use snapshot::{JournalNumbers, Snapshot, TenantNumbers};

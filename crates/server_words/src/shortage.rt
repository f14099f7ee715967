//! What a start asks too little for, where a journal has uploads already.

use crate::sentence::Excerpt;

/// What of a journal's uploads the settings of the options are too small for.
#[derive(Clone, Copy, Debug, PartialEq, Eq)]
pub enum Shortage {
    /// A tenant pays more blocks, of the options' size, than its quota.
    Quota {
        tenant: Excerpt,
        pays: u64,
        quota: u64,
    },
    /// An upload has more bytes, or is to have more, than one may.
    MaxSize {
        tenant: Excerpt,
        id: u64,
        length: u64,
        max: u64,
    },
    /// A tenant has more uploads than it may.
    Uploads {
        tenant: Excerpt,
        uploads: u64,
        most: u64,
    },
}

//! Books that are made again of records.

mod changes;
mod made;
mod refused;
mod replays;
mod snapshots;

//! Journals over a disk that tears: scripts with every loss, drafts, and each error once.

mod crashes;
mod drafts;
mod payloads;
mod refusals;
mod steps;

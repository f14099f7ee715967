//! Several desks over one book behind a lock. Each desk answers requests and counts in three shares what its own steps
//! charged and released, and how many of them changed the book; together the shares are the book's totals, and the number
//! of all changes.
#![tactic(auto)]

mod again_fault;
mod ahead;
mod balance;
mod charges;
mod desk;
mod gate;
mod keeping;
pub mod laws;
mod making;
mod open_fault;
mod opening;
mod queue;
mod read_ahead;
mod shared;
mod store;
mod store_ledger;
mod turn;
mod unqueued;
mod work;
mod work_fault;

pub use again_fault::AgainFault;
pub use balance::{Balance, settle};
pub use charges::Charges;
pub use desk::Desk;
pub use gate::{Gate, NoGate, Stop};
pub use head_board::{Opened, SeenEvents};
pub use open_fault::OpenFault;
pub use opening::DESKS_MAX;
pub use queue::{Records, RecordsAndSnapshot};
pub use shared::Shared;
pub use store::Store;
pub use turn::Turn;
pub use unqueued::Unqueued;
pub use work::work_all;
pub use work_fault::WorkFault;

//! Requests as steps on the book: each is refused by the first refusal that applies, or else answered
//! and applied as the plain book does.
#![tactic(auto)]

mod asked;
mod change;
mod creation;
mod field;
mod head;
pub mod laws;
mod media;
mod method;
mod placed_reply;
mod range;
mod reply;
mod request;
mod requested_change;
mod run_fault;
mod runs;
mod step;
mod tus_fields;

pub use asked::{Asked, answer_asked, asked_of};
pub use change::{change_of, change_reply};
pub use creation::PartIds;
pub use field::Field;
pub use head::{HeadOf, head_of, head_reply};
pub use media::trim_blanks;
pub use method::Method;
pub use placed_reply::{PlacedReply, ReplyKind};
pub use range::{Extent, RangeAsked};
pub use reply::{PathKind, Reply};
pub use request::Request;
pub use requested_change::ChangeOf;
pub use run_fault::RunFault;
pub use runs::run;
pub use step::{answer, answer_in_place};
pub use tus_fields::TusFields;

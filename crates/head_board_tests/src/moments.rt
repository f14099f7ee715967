//! Moments.

use std::process::Abort;
use upload_book::Moment;

pub fn moment(rt: &impl Abort, secs: u64) -> Moment {
    Moment::new(secs).expect(rt, "a moment")
}

//! The moment of the tests, and what is settled at the end.

use std::process::Abort;
use tus_shared::Balance;
use upload_book::Moment;

/// The moment of every message.
pub fn moment(rt: &impl Abort) -> Moment {
    Moment::new(1000).expect(rt, "a moment")
}

/// Asserts how many blocks were charged, were released, and are held.
pub fn assert_balance(rt: &impl Abort, balance: Balance, expected: [u64; 3]) {
    let Balance {
        charged,
        released,
        held,
    } = balance;
    assert!(rt; [charged, released, held] == expected);
}

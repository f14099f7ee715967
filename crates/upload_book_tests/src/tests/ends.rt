//! Uploads that are ended by their owner, and what becomes of their blocks.

use crate::tests::books::{ACME, BETA};
use crate::tests::steps::Call::{Begin, Delete, Get, Head, Patch};
use crate::tests::steps::Told::{Appended, Begun, Bytes, Refused, Removed, Row};
use crate::tests::steps::{Step, run, steps};
use upload_book::{Kind, Refusal};
use worked_example::NUMBERS;

static ENDED: [Step; 10] = steps! {
    1000 ACME Begin(Some(10), b"hello") => Begun(1, Some(4600), 5, Some(4600)), [2, 0, 10, 2, 0];
    1000 ACME Delete(0) => Refused(Refusal::Unknown);
    1000 ACME Delete(2) => Refused(Refusal::Unknown);
    1000 BETA Delete(1) => Refused(Refusal::Unknown);
    1000 ACME Delete(1) => Removed(2, 2), [0, 0, 12, 2, 2];
    1000 ACME Head(1) => Refused(Refusal::Gone);
    1000 ACME Delete(1) => Refused(Refusal::Gone);
    1000 ACME Begin(Some(10), b"hi") => Begun(2, Some(4600), 2, Some(4600)), [1, 0, 11, 3, 2];
    1000 ACME Head(2) => Row(Kind::Plain, 2, Some(10), Some(4600));
    4600 ACME Delete(2) => Refused(Refusal::Gone);
};

#[test]
fn an_upload_is_ended(rt: HostRuntime) {
    run(&rt, rt.alloc(), NUMBERS, &ENDED);
}

// A middle one of three uploads ends, and each of the others goes on with its own bytes.
static A_MIDDLE_ONE: [Step; 8] = steps! {
    1000 ACME Begin(Some(6), b"aaaaa") => Begun(1, Some(4600), 5, Some(4600)), [2, 0, 10, 2, 0];
    1000 ACME Begin(Some(6), b"bbbbb") => Begun(2, Some(4600), 5, Some(4600)), [4, 0, 8, 4, 0];
    1000 ACME Begin(Some(6), b"ccccc") => Begun(3, Some(4600), 5, Some(4600)), [6, 0, 6, 6, 0];
    1000 ACME Delete(2) => Removed(2, 2), [4, 0, 8, 6, 2];
    1000 ACME Patch(3, 5, b"C") => Appended(6, None);
    1000 ACME Get(3) => Bytes(b"cccccC");
    1000 ACME Patch(1, 5, b"A") => Appended(6, None);
    1000 ACME Get(1) => Bytes(b"aaaaaA");
};

#[test]
fn an_end_leaves_the_others(rt: HostRuntime) {
    run(&rt, rt.alloc(), NUMBERS, &A_MIDDLE_ONE);
}

// The bytes of a pool that was filled, emptied, and filled again in other pieces are read back.
static FILLED_AGAIN: [Step; 16] = steps! {
    1000 ACME Begin(Some(32), b"abcdefghijklmnopqrstuvwxyz012345") => Begun(1, Some(4600), 32, None), [8, 0, 4, 8, 0];
    1000 BETA Begin(Some(16), b"0123456789abcdef") => Begun(1, Some(4600), 16, None), [8, 4, 0, 12, 0];
    1000 ACME Get(1) => Bytes(b"abcdefghijklmnopqrstuvwxyz012345");
    1000 ACME Delete(1) => Removed(8, 8), [0, 4, 8, 12, 8];
    1000 BETA Get(1) => Bytes(b"0123456789abcdef");
    1000 BETA Delete(1) => Removed(4, 4), [0, 0, 12, 12, 12];
    1000 ACME Begin(Some(16), b"ABCDEF") => Begun(2, Some(4600), 6, Some(4600)), [2, 0, 10, 14, 12];
    1000 BETA Begin(Some(16), b"abcdefg") => Begun(2, Some(4600), 7, Some(4600)), [2, 2, 8, 16, 12];
    1000 ACME Begin(Some(13), b"--") => Begun(3, Some(4600), 2, Some(4600)), [3, 2, 7, 17, 12];
    1000 ACME Patch(2, 6, b"GHIJKLM") => Appended(13, Some(4600)), [5, 2, 5, 19, 12];
    1000 ACME Patch(3, 2, b"+++++++++++") => Appended(13, None), [8, 2, 2, 22, 12];
    1000 ACME Patch(2, 13, b"NOP") => Appended(16, None);
    1000 BETA Patch(2, 7, b"hijklmnop") => Appended(16, None), [8, 4, 0, 24, 12];
    1000 ACME Get(2) => Bytes(b"ABCDEFGHIJKLMNOP");
    1000 ACME Get(3) => Bytes(b"--+++++++++++");
    1000 BETA Get(2) => Bytes(b"abcdefghijklmnop");
};

#[test]
fn a_pool_is_filled_again(rt: HostRuntime) {
    run(&rt, rt.alloc(), NUMBERS, &FILLED_AGAIN);
}

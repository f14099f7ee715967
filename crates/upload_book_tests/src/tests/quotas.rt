//! What uploads cost, and what quotas and totals refuse.

use crate::tests::books::{ACME, BETA, numbers};
use crate::tests::steps::Call::{Begin, Delete, Get, Head, Patch, Post};
use crate::tests::steps::Told::{Appended, Begun, Bytes, Created, RefusedPatch, Removed, Row};
use crate::tests::steps::{Step, run, run_behind, steps};
use upload_book::{Kind, Refusal};
use worked_example::NUMBERS;

// The last block of a quota is filled to its last byte, and no further.
static TO_THE_LAST_BYTE: [Step; 4] = steps! {
    1000 ACME Begin(Some(33), b"abcdefghijklmnopqrstuvwxyz0123") => Begun(1, Some(4600), 30, Some(4600)), [8, 0, 4, 8, 0];
    1000 ACME Patch(1, 30, b"45") => Appended(32, Some(4600));
    1000 ACME Patch(1, 32, b"6") => RefusedPatch(Refusal::Quota, Some(4600));
    1000 ACME Head(1) => Row(Kind::Plain, 32, Some(33), Some(4600));
};

#[test]
fn a_quota_is_filled(rt: HostRuntime) {
    run(&rt, rt.alloc(), NUMBERS, &TO_THE_LAST_BYTE);
}

// With no block free, the quota refuses each tenant before the pool could.
static NO_BLOCK_FREE: [Step; 6] = steps! {
    1000 BETA Begin(Some(20), b"0123456789abcdef") => Begun(1, Some(4600), 16, Some(4600)), [0, 4, 8, 4, 0];
    1000 ACME Begin(Some(40), b"abcdefghijklmnopqrstuvwxyz012345") => Begun(1, Some(4600), 32, Some(4600)), [8, 4, 0, 12, 0];
    1000 ACME Patch(1, 32, b"x") => RefusedPatch(Refusal::Quota, Some(4600));
    1000 BETA Patch(1, 16, b"x") => RefusedPatch(Refusal::Quota, Some(4600));
    1000 ACME Head(1) => Row(Kind::Plain, 32, Some(40), Some(4600));
    1000 BETA Head(1) => Row(Kind::Plain, 16, Some(20), Some(4600));
};

#[test]
fn quotas_fill_the_pool(rt: HostRuntime) {
    run(&rt, rt.alloc(), NUMBERS, &NO_BLOCK_FREE);
}

// What was charged once counts for ever, also where the blocks are free again.
static TWO_BLOCKS_EVER: [Step; 8] = steps! {
    1000 ACME Post(Some(10)) => Created(1, Some(4600));
    1000 BETA Post(Some(10)) => Created(1, Some(4600));
    1000 ACME Patch(1, 0, b"hello") => Appended(5, Some(4600)), [2, 0, 10, 2, 0];
    1000 BETA Patch(1, 0, b"x") => RefusedPatch(Refusal::Spent, Some(4600));
    1000 BETA Head(1) => Row(Kind::Plain, 0, Some(10), Some(4600));
    1000 ACME Patch(1, 5, b"wor") => Appended(8, Some(4600));
    1000 ACME Delete(1) => Removed(2, 2), [0, 0, 12, 2, 2];
    1000 BETA Patch(1, 0, b"x") => RefusedPatch(Refusal::Spent, Some(4600));
};

#[test]
fn charges_are_spent(rt: HostRuntime) {
    run(&rt, rt.alloc(), numbers!(last_total: 2), &TWO_BLOCKS_EVER);
}

// A tenant that pays all its quota, and its new upload.
static FULL: [Step; 2] = steps! {
    1000 ACME Begin(Some(32), b"abcdefghijklmnopqrstuvwxyz012345") => Begun(1, Some(4600), 32, None), [8, 0, 4, 8, 0];
    1000 ACME Post(Some(1)) => Created(2, Some(4600));
};

// Past the length before past the total, and that before past the quota.
static PAST_ALL: [Step; 2] = steps! {
    1000 ACME Patch(2, 0, b"x") => RefusedPatch(Refusal::Spent, Some(4600));
    1000 ACME Patch(2, 0, b"xy") => RefusedPatch(Refusal::TooLong, Some(4600));
};

static PAST_QUOTA: [Step; 2] = steps! {
    1000 ACME Patch(2, 0, b"x") => RefusedPatch(Refusal::Quota, Some(4600));
    1000 ACME Patch(2, 0, b"xy") => RefusedPatch(Refusal::TooLong, Some(4600));
};

#[test]
fn refusals_come_in_their_order(rt: HostRuntime) {
    run_behind(&rt, rt.alloc(), numbers!(last_total: 8), &FULL, &PAST_ALL);
    run_behind(&rt, rt.alloc(), numbers!(last_total: 9), &FULL, &PAST_QUOTA);
}

// An empty PATCH costs nothing, also where quota and total are used up.
static EMPTY_PATCHES: [Step; 5] = steps! {
    1000 ACME Begin(Some(28), b"abcdefghijklmnopqrstuvwxyz01") => Begun(1, Some(4600), 28, None), [7, 0, 5, 7, 0];
    1000 ACME Begin(Some(10), b"hi") => Begun(2, Some(4600), 2, Some(4600)), [8, 0, 4, 8, 0];
    2000 ACME Patch(1, 28, b"") => Appended(28, None);
    2000 ACME Patch(2, 2, b"") => Appended(2, Some(5600));
    2000 ACME Get(1) => Bytes(b"abcdefghijklmnopqrstuvwxyz01");
};

#[test]
fn an_empty_patch_is_free(rt: HostRuntime) {
    run(&rt, rt.alloc(), numbers!(last_total: 8), &EMPTY_PATCHES);
}

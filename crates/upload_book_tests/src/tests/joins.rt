//! Final uploads: what they are made of, what they cost, and what becomes of their blocks.

use crate::tests::books::{ACME, BETA, numbers};
use crate::tests::steps::Call::{Begin, Delete, Get, Head, Join, Part, Partial, Patch, Post};
use crate::tests::steps::Told::{
    Appended, Begun, Bytes, Created, Refused, RefusedPatch, Removed, Row,
};
use crate::tests::steps::{Step, run, run_behind, steps};
use upload_book::{Kind, Refusal};
use worked_example::NUMBERS;

/// A part, and a final upload of it.
pub(crate) static JOINED: [Step; 2] = steps! {
    1000 ACME Part(Some(5), b"abcde") => Begun(1, Some(4600), 5, Some(4600)), [2, 0, 10, 2, 0];
    1000 ACME Join(&[Some(1)]) => Created(2, None);
};

/// Two parts, and a final upload of both.
pub(crate) static TWO_JOINED: [Step; 3] = steps! {
    1000 ACME Part(Some(5), b"abcde") => Begun(1, Some(4600), 5, Some(4600)), [2, 0, 10, 2, 0];
    1000 ACME Part(Some(2), b"fg") => Begun(2, Some(4600), 2, Some(4600)), [3, 0, 9, 3, 0];
    1000 ACME Join(&[Some(1), Some(2)]) => Created(3, None);
};

// The final upload keeps its bytes when its parts end.
static PARTIALS_AND_FINAL: [Step; 7] = steps! {
    1000 ACME Head(3) => Row(Kind::Final, 7, Some(7), None);
    1000 ACME Patch(3, 7, b"") => RefusedPatch(Refusal::IsFinal, None);
    1000 ACME Delete(1) => Removed(0, 0);
    1000 ACME Delete(2) => Removed(0, 0);
    1000 ACME Get(3) => Bytes(b"abcdefg");
    1000 ACME Delete(3) => Removed(3, 3), [0, 0, 12, 3, 3];
    1000 ACME Get(3) => Refused(Refusal::Gone);
};

#[test]
fn partials_and_final(rt: HostRuntime) {
    run_behind(&rt, rt.alloc(), NUMBERS, &TWO_JOINED, &PARTIALS_AND_FINAL);
}

// Parts in another order than they were sent, and one part twice.
static PARTS_IN_ORDER: [Step; 9] = steps! {
    1000 ACME Part(Some(5), b"abcde") => Begun(1, Some(4600), 5, Some(4600)), [2, 0, 10, 2, 0];
    1000 ACME Join(&[Some(1), Some(1)]) => Created(2, None);
    1000 ACME Part(Some(2), b"fg") => Begun(3, Some(4600), 2, Some(4600)), [3, 0, 9, 3, 0];
    1000 ACME Join(&[Some(3), Some(1), Some(3)]) => Created(4, None);
    1000 ACME Delete(1) => Removed(0, 0);
    1000 ACME Get(2) => Bytes(b"abcdeabcde");
    1000 ACME Get(4) => Bytes(b"fgabcdefg");
    1000 ACME Delete(4) => Removed(0, 0);
    1000 ACME Delete(2) => Removed(2, 2), [1, 0, 11, 3, 2];
};

#[test]
fn parts_in_order(rt: HostRuntime) {
    run(&rt, rt.alloc(), NUMBERS, &PARTS_IN_ORDER);
}

// Two final uploads of one part, which its tenant pays once until the last of the three ends.
static TWO_FINALS_OF_ONE_PART: [Step; 6] = steps! {
    1000 ACME Join(&[Some(1)]) => Created(3, None);
    1000 ACME Delete(1) => Removed(0, 0);
    1000 ACME Delete(2) => Removed(0, 0);
    1000 ACME Get(3) => Bytes(b"abcde");
    1000 ACME Delete(3) => Removed(2, 2), [0, 0, 12, 2, 2];
    1000 ACME Head(3) => Refused(Refusal::Gone);
};

#[test]
fn two_finals_of_one_part(rt: HostRuntime) {
    run_behind(&rt, rt.alloc(), NUMBERS, &JOINED, &TWO_FINALS_OF_ONE_PART);
}

// A part goes on living beside its final upload, and each end of either changes nothing of the other.
static A_PART_BESIDE_ITS_FINAL: [Step; 7] = steps! {
    2000 ACME Patch(1, 5, b"") => Appended(5, Some(5600));
    2000 ACME Patch(1, 5, b"f") => RefusedPatch(Refusal::TooLong, Some(5600));
    2000 ACME Head(2) => Row(Kind::Final, 5, Some(5), None);
    2000 ACME Delete(2) => Removed(0, 0);
    2000 ACME Get(1) => Bytes(b"abcde");
    2000 ACME Join(&[Some(1)]) => Created(3, None);
    2000 ACME Head(2) => Refused(Refusal::Gone);
};

#[test]
fn a_part_beside_its_final(rt: HostRuntime) {
    run_behind(&rt, rt.alloc(), NUMBERS, &JOINED, &A_PART_BESIDE_ITS_FINAL);
}

const THIRTY_TWO: [Option<u64>; 32] = [Some(1); 32];

static THIRTY_TWO_PARTS: [Step; 6] = steps! {
    1000 ACME Part(Some(2), b"ab") => Begun(1, Some(4600), 2, Some(4600)), [1, 0, 11, 1, 0];
    1000 ACME Join(&THIRTY_TWO) => Created(2, None);
    1000 ACME Head(2) => Row(Kind::Final, 64, Some(64), None);
    1000 ACME Delete(1) => Removed(0, 0);
    1000 ACME Get(2) => Bytes(b"abababababababababababababababababababababababababababababababab");
    1000 ACME Delete(2) => Removed(1, 1), [0, 0, 12, 1, 1];
};

static THIRTY_TWO_EMPTY_PARTS: [Step; 5] = steps! {
    1000 ACME Partial(Some(0)) => Created(1, Some(4600));
    1000 ACME Join(&THIRTY_TWO) => Created(2, None);
    1000 ACME Head(2) => Row(Kind::Final, 0, Some(0), None);
    1000 ACME Get(2) => Bytes(b"");
    1000 ACME Delete(2) => Removed(0, 0);
};

#[test]
fn as_many_parts_as_there_may_be(rt: HostRuntime) {
    run(&rt, rt.alloc(), NUMBERS, &THIRTY_TWO_PARTS);
    run(&rt, rt.alloc(), NUMBERS, &THIRTY_TWO_EMPTY_PARTS);
}

// An upload that is not complete, that is no partial one, of another tenant, or never given, expired or ended.
static NO_PARTS: [Step; 18] = steps! {
    1000 ACME Partial(Some(5)) => Created(1, Some(4600));
    1000 ACME Post(Some(0)) => Created(2, None);
    1000 BETA Partial(Some(0)) => Created(1, Some(4600));
    1000 ACME Join(&[Some(1)]) => Refused(Refusal::PartOpen);
    1000 ACME Join(&[Some(2)]) => Refused(Refusal::Part);
    1000 ACME Join(&[None]) => Refused(Refusal::Part);
    1000 ACME Join(&[Some(9)]) => Refused(Refusal::Part);
    1000 ACME Join(&[Some(1), Some(2)]) => Refused(Refusal::Part);
    1000 ACME Patch(1, 0, b"abc") => Appended(3, Some(4600)), [1, 0, 11, 1, 0];
    1000 ACME Join(&[Some(1)]) => Refused(Refusal::PartOpen);
    1000 ACME Patch(1, 3, b"de") => Appended(5, Some(4600)), [2, 0, 10, 2, 0];
    4600 ACME Join(&[Some(1)]) => Refused(Refusal::Part);
    1000 ACME Join(&[Some(1)]) => Created(3, None);
    1000 ACME Join(&[Some(3)]) => Refused(Refusal::Part);
    1000 ACME Delete(1) => Removed(0, 0);
    1000 ACME Join(&[Some(1)]) => Refused(Refusal::Part);
    1000 ACME Part(None, b"f") => Begun(4, Some(4600), 1, Some(4600)), [3, 0, 9, 3, 0];
    1000 ACME Join(&[Some(4)]) => Refused(Refusal::PartOpen);
};

#[test]
fn no_parts(rt: HostRuntime) {
    run(&rt, rt.alloc(), NUMBERS, &NO_PARTS);
}

// The bytes of parts are counted as often as they are named, against the greatest size, and never against the quota.
static LONG_PARTS: [Step; 5] = steps! {
    1000 ACME Part(Some(30), b"abcdefghijklmnopqrstuvwxyz0123") => Begun(1, Some(4600), 30, Some(4600)), [8, 0, 4, 8, 0];
    1000 ACME Join(&[Some(1), Some(1), Some(1)]) => Refused(Refusal::TooLong);
    1000 ACME Join(&[Some(1), Some(1)]) => Created(2, None);
    1000 ACME Head(2) => Row(Kind::Final, 60, Some(60), None);
    1000 ACME Delete(1) => Removed(0, 0);
};

#[test]
fn long_parts(rt: HostRuntime) {
    run(&rt, rt.alloc(), NUMBERS, &LONG_PARTS);
}

// With room for two uploads and two ids, each refusal comes before the next in the order.
static REFUSED_IN_ORDER: [Step; 9] = steps! {
    1000 ACME Part(Some(30), b"abcdefghijklmnopqrstuvwxyz0123") => Begun(1, Some(4600), 30, Some(4600)), [8, 0, 4, 8, 0];
    1000 ACME Partial(Some(1)) => Created(2, Some(4600));
    1000 ACME Join(&[Some(1), Some(1), Some(1)]) => Refused(Refusal::TooLong);
    1000 ACME Join(&[Some(1), Some(2), Some(1), Some(1)]) => Refused(Refusal::PartOpen);
    1000 ACME Join(&[Some(1), Some(2), Some(1), Some(3)]) => Refused(Refusal::Part);
    1000 ACME Join(&[Some(2)]) => Refused(Refusal::PartOpen);
    1000 ACME Join(&[Some(1)]) => Refused(Refusal::Uploads);
    1000 ACME Delete(2) => Removed(0, 0);
    1000 ACME Join(&[Some(1)]) => Refused(Refusal::Spent);
};

#[test]
fn joins_refused_in_order(rt: HostRuntime) {
    run(
        &rt,
        rt.alloc(),
        numbers!(uploads: 2, last_id: 2),
        &REFUSED_IN_ORDER,
    );
}

// A join charges nothing, so it is not refused where the total of charges is used up.
static JOINS_SPEND_NOTHING: [Step; 4] = steps! {
    1000 ACME Join(&[Some(1)]) => Created(3, None);
    1000 ACME Delete(2) => Removed(0, 0);
    1000 ACME Join(&[Some(1)]) => Created(4, None);
    1000 ACME Get(4) => Bytes(b"abcde");
};

#[test]
fn joins_spend_nothing(rt: HostRuntime) {
    for last_total in [2, 4] {
        run_behind(
            &rt,
            rt.alloc(),
            numbers!(last_total: last_total),
            &JOINED,
            &JOINS_SPEND_NOTHING,
        );
    }
}

// A pool without a free block: a join needs none. It is free again when the last holder of each block has ended.
static A_FULL_POOL: [Step; 11] = steps! {
    1000 BETA Begin(Some(16), b"0123456789abcdef") => Begun(1, Some(4600), 16, None), [0, 4, 8, 4, 0];
    1000 ACME Part(Some(32), b"abcdefghijklmnopqrstuvwxyz012345") => Begun(1, Some(4600), 32, Some(4600)), [8, 4, 0, 12, 0];
    1000 ACME Join(&[Some(1)]) => Created(2, None);
    1000 ACME Post(Some(1)) => Created(3, Some(4600));
    1000 ACME Delete(1) => Removed(0, 0);
    1000 ACME Patch(3, 0, b"x") => RefusedPatch(Refusal::Quota, Some(4600));
    1000 ACME Get(2) => Bytes(b"abcdefghijklmnopqrstuvwxyz012345");
    1000 ACME Delete(2) => Removed(8, 8), [0, 4, 8, 12, 8];
    1000 ACME Patch(3, 0, b"x") => Appended(1, None), [1, 4, 7, 13, 8];
    1000 BETA Delete(1) => Removed(4, 4), [1, 0, 11, 13, 12];
    1000 ACME Delete(3) => Removed(1, 1), [0, 0, 12, 13, 13];
};

#[test]
fn a_full_pool(rt: HostRuntime) {
    run(&rt, rt.alloc(), NUMBERS, &A_FULL_POOL);
}

//! Sweeps of single uploads, and before, between and after the ends of partial uploads and of final ones over them.

use crate::tests::books::{ACME, BETA, create, moment, numbers};
use crate::tests::joins::{JOINED, TWO_JOINED};
use crate::tests::steps::Call::{
    Begin, Delete, Expiries, Get, Head, Join, Part, Partial, Patch, Post, PostWith, Sweep,
};
use crate::tests::steps::Told::{
    Appended, Begun, Bytes, Created, Expire, Refused, RefusedPatch, Removed, Row, Swept,
};
use crate::tests::steps::{Step, run, run_behind, steps};
use std::process::Abort;
use std::test::Fail;
use upload_book::{Book, Kind, Refusal, Settings};
use worked_example::NUMBERS;

// An expired upload costs its blocks until a sweep ends it.
static EXPIRED_AND_SWEPT: [Step; 8] = steps! {
    1000 ACME Begin(Some(10), b"hello") => Begun(1, Some(4600), 5, Some(4600)), [2, 0, 10, 2, 0];
    4599 ACME Sweep => Swept(0, 0, 0);
    4599 ACME Head(1) => Row(Kind::Plain, 5, Some(10), Some(4600));
    4600 ACME Head(1) => Refused(Refusal::Gone);
    4600 ACME Sweep => Swept(1, 2, 2), [0, 0, 12, 2, 2];
    4600 ACME Sweep => Swept(0, 0, 0);
    1000 ACME Head(1) => Refused(Refusal::Gone);
    4600 ACME Post(Some(10)) => Created(2, Some(8200));
};

// The first, the third and the last of five uploads end in one sweep. The others stay, each with its own bytes.
static EVERY_OTHER_ONE: [Step; 12] = steps! {
    1000 ACME Begin(Some(6), b"a") => Begun(1, Some(4600), 1, Some(4600)), [1, 0, 11, 1, 0];
    2000 ACME Begin(Some(6), b"bbbbb") => Begun(2, Some(5600), 5, Some(5600)), [3, 0, 9, 3, 0];
    1000 ACME Begin(Some(6), b"ccccc") => Begun(3, Some(4600), 5, Some(4600)), [5, 0, 7, 5, 0];
    1000 ACME Begin(Some(1), b"d") => Begun(4, Some(4600), 1, None), [6, 0, 6, 6, 0];
    1000 ACME Begin(Some(6), b"e") => Begun(5, Some(4600), 1, Some(4600)), [7, 0, 5, 7, 0];
    4600 ACME Sweep => Swept(3, 4, 4), [3, 0, 9, 7, 4];
    4600 ACME Head(5) => Refused(Refusal::Gone);
    4600 ACME Head(2) => Row(Kind::Plain, 5, Some(6), Some(5600));
    4600 ACME Patch(2, 5, b"B") => Appended(6, None);
    9000 ACME Sweep => Swept(0, 0, 0);
    9000 ACME Get(2) => Bytes(b"bbbbbB");
    9000 ACME Get(4) => Bytes(b"d");
};

#[test]
fn sweeps_of_single_uploads(rt: HostRuntime) {
    run(&rt, rt.alloc(), NUMBERS, &EXPIRED_AND_SWEPT);
    run(&rt, rt.alloc(), NUMBERS, &EVERY_OTHER_ONE);
}

// The part expires and is swept; the final upload keeps its blocks.
static SWEPT_BEFORE_ITS_FINAL: [Step; 5] = steps! {
    4599 ACME Sweep => Swept(0, 0, 0);
    4600 ACME Head(1) => Refused(Refusal::Gone);
    4600 ACME Sweep => Swept(1, 0, 0);
    4600 ACME Get(2) => Bytes(b"abcde");
    4600 ACME Delete(2) => Removed(2, 2), [0, 0, 12, 2, 2];
};

// The final upload ends first, and then the sweep gives the blocks back.
static SWEPT_AFTER_ITS_FINAL: [Step; 3] = steps! {
    1000 ACME Delete(2) => Removed(0, 0);
    4600 ACME Sweep => Swept(1, 2, 2), [0, 0, 12, 2, 2];
    4600 ACME Sweep => Swept(0, 0, 0);
};

// The part ends first. No sweep ends its final upload, however late it comes.
static ENDED_BEFORE_ITS_FINAL: [Step; 3] = steps! {
    1000 ACME Delete(1) => Removed(0, 0);
    253_402_300_799 ACME Sweep => Swept(0, 0, 0);
    253_402_300_799 ACME Delete(2) => Removed(2, 2), [0, 0, 12, 2, 2];
};

// A sweep between the ends of two final uploads that share one part.
static SWEPT_BETWEEN_FINALS: [Step; 5] = steps! {
    1000 ACME Join(&[Some(2)]) => Created(4, None);
    4600 ACME Sweep => Swept(2, 0, 0);
    4600 ACME Delete(3) => Removed(2, 2), [1, 0, 11, 3, 2];
    4600 ACME Get(4) => Bytes(b"fg");
    4600 ACME Delete(4) => Removed(1, 1), [0, 0, 12, 3, 3];
};

// One sweep ends uploads of both tenants, one in the middle; final, complete and later ones stay.
static SWEPT_AMONG_OTHERS: [Step; 10] = steps! {
    1000 ACME Part(Some(5), b"abcde") => Begun(1, Some(4600), 5, Some(4600)), [2, 0, 10, 2, 0];
    1000 ACME Join(&[Some(1), Some(1)]) => Created(2, None);
    1000 ACME Begin(Some(9), b"x") => Begun(3, Some(4600), 1, Some(4600)), [3, 0, 9, 3, 0];
    2000 ACME Part(Some(9), b"y") => Begun(4, Some(5600), 1, Some(5600)), [4, 0, 8, 4, 0];
    1000 BETA Begin(Some(9), b"hello") => Begun(1, Some(4600), 5, Some(4600)), [4, 2, 6, 6, 0];
    4600 BETA Sweep => Swept(3, 3, 3), [3, 0, 9, 6, 3];
    4600 ACME Get(2) => Bytes(b"abcdeabcde");
    4600 ACME Head(4) => Row(Kind::Partial, 1, Some(9), Some(5600));
    5600 ACME Sweep => Swept(1, 1, 1), [2, 0, 10, 6, 4];
    5600 ACME Delete(2) => Removed(2, 2), [0, 0, 12, 6, 6];
};

#[test]
fn sweeps_in_each_order(rt: HostRuntime) {
    run_behind(&rt, rt.alloc(), NUMBERS, &JOINED, &SWEPT_BEFORE_ITS_FINAL);
    run_behind(&rt, rt.alloc(), NUMBERS, &JOINED, &SWEPT_AFTER_ITS_FINAL);
    run_behind(&rt, rt.alloc(), NUMBERS, &JOINED, &ENDED_BEFORE_ITS_FINAL);
    run_behind(&rt, rt.alloc(), NUMBERS, &TWO_JOINED, &SWEPT_BETWEEN_FINALS);
    run(&rt, rt.alloc(), NUMBERS, &SWEPT_AMONG_OTHERS);
}

// Finished uploads stay for 100 seconds: one that a PATCH finishes, earlier than it would have expired, and one that its creation
// finishes. A PATCH without bytes moves no such end.
static FINISHED_AND_SWEPT: [Step; 11] = steps! {
    1000 ACME PostWith(Some(5), b"abcde") => Created(1, Some(1100)), [2, 0, 10, 2, 0];
    1000 ACME Begin(Some(2), b"f") => Begun(2, Some(4600), 1, Some(4600)), [3, 0, 9, 3, 0];
    1060 ACME Patch(2, 1, b"g") => Appended(2, Some(1160));
    1070 ACME Patch(2, 2, b"") => Appended(2, Some(1160));
    1070 ACME Patch(1, 5, b"x") => RefusedPatch(Refusal::TooLong, Some(1100));
    1080 ACME Post(Some(0)) => Created(3, Some(1180));
    1099 ACME Head(1) => Row(Kind::Plain, 5, Some(5), Some(1100));
    1100 ACME Get(1) => Refused(Refusal::Gone);
    1159 BETA Expiries => Expire(&[[1100, 0, 1], [1160, 0, 2], [1180, 0, 3]]);
    1160 BETA Sweep => Swept(2, 3, 3), [0, 0, 12, 3, 3];
    1180 BETA Sweep => Swept(1, 0, 0);
};

// A final upload ends by itself, and its part as before: the blocks go with the last of both.
static FINISHED_FINAL: [Step; 6] = steps! {
    1080 ACME Part(Some(5), b"vwxyz") => Begun(1, Some(4680), 5, Some(4680)), [2, 0, 10, 2, 0];
    1090 ACME Join(&[Some(1)]) => Created(2, Some(1190));
    1189 ACME Get(2) => Bytes(b"vwxyz");
    1190 ACME Sweep => Swept(1, 0, 0);
    1190 ACME Head(1) => Row(Kind::Partial, 5, Some(5), Some(4680));
    4680 ACME Sweep => Swept(1, 2, 2), [0, 0, 12, 2, 2];
};

// No end is past the last second.
static FINISHED_LAST: [Step; 2] = steps! {
    253_402_300_700 ACME PostWith(Some(1), b"a") => Created(1, Some(253_402_300_799)), [1, 0, 11, 1, 0];
    253_402_300_799 ACME Sweep => Swept(1, 1, 1), [0, 0, 12, 1, 1];
};

#[test]
fn finished_uploads_end(rt: HostRuntime) {
    let numbers = numbers!(finished_lifetime: 100);
    run(&rt, rt.alloc(), numbers, &FINISHED_AND_SWEPT);
    run(&rt, rt.alloc(), numbers, &FINISHED_FINAL);
    run(&rt, rt.alloc(), numbers, &FINISHED_LAST);
}

// Each upload that expires is listed once: by when, and where that is the same by its id, whatever their order before.
static LISTED_AND_SWEPT: [Step; 9] = steps! {
    1000 ACME Partial(Some(1)) => Created(1, Some(4600));
    1010 ACME Partial(Some(1)) => Created(2, Some(4610));
    1000 ACME Partial(Some(1)) => Created(3, Some(4600));
    1020 ACME Patch(1, 0, b"a") => Appended(1, Some(4620)), [1, 0, 11, 1, 0];
    1020 ACME Expiries => Expire(&[[4600, 0, 3], [4610, 0, 2], [4620, 0, 1]]);
    4600 ACME Sweep => Swept(1, 0, 0);
    4610 ACME Sweep => Swept(1, 0, 0);
    4620 ACME Sweep => Swept(1, 1, 1), [0, 0, 12, 1, 1];
    4620 ACME Expiries => Expire(&[]);
};

// Of one moment, acme's come before beta's. One that is complete, one that ends and a final upload leave the list or
// never come into it; one that has expired stays in it until the sweep.
static LISTED_BY_TENANT: [Step; 12] = steps! {
    1000 BETA Post(Some(9)) => Created(1, Some(4600));
    1000 ACME Post(Some(9)) => Created(1, Some(4600));
    1000 ACME Part(Some(1), b"a") => Begun(2, Some(4600), 1, Some(4600)), [1, 0, 11, 1, 0];
    1000 ACME Join(&[Some(2)]) => Created(3, None);
    1000 ACME Post(Some(1)) => Created(4, Some(4600));
    900 ACME Post(Some(1)) => Created(5, Some(4500));
    4499 BETA Expiries => Expire(&[[4500, 0, 5], [4600, 0, 1], [4600, 0, 2], [4600, 0, 4], [4600, 1, 1]]);
    4499 ACME Patch(4, 0, b"b") => Appended(1, None), [2, 0, 10, 2, 0];
    4500 ACME Delete(1) => Removed(0, 0);
    4500 BETA Expiries => Expire(&[[4500, 0, 5], [4600, 0, 2], [4600, 1, 1]]);
    4599 ACME Sweep => Swept(1, 0, 0);
    4599 BETA Expiries => Expire(&[[4600, 0, 2], [4600, 1, 1]]);
};

#[test]
fn uploads_that_expire(rt: HostRuntime) {
    run(&rt, rt.alloc(), NUMBERS, &LISTED_AND_SWEPT);
    run(&rt, rt.alloc(), NUMBERS, &LISTED_BY_TENANT);
}

static SIXTEEN: [(&[u8], u64); 16] = [
    (b"a", 0),
    (b"b", 0),
    (b"c", 0),
    (b"d", 0),
    (b"e", 0),
    (b"f", 0),
    (b"g", 0),
    (b"h", 0),
    (b"i", 0),
    (b"j", 0),
    (b"k", 0),
    (b"l", 0),
    (b"m", 0),
    (b"n", 0),
    (b"o", 0),
    (b"p", 0),
];

// Creates as many uploads of each tenant as it may have, which expire at second 4600.
fn create_all(rt: &impl Abort, book: &mut Book, tenants: &[(&[u8], u64)]) {
    for tenant in tenants {
        for _ in 0..64 {
            create(rt, book, tenant.0, Some(1));
        }
    }
}

// Asserts that all of them are listed until a sweep ends them.
fn assert_all_swept(rt: &impl Abort, book: &mut Book) {
    assert!(rt; book.expiries().len() == 1024);
    let swept = book.sweep(moment(rt, 4600));
    assert!(rt; swept.uploads == 1024);
    assert!(rt; book.expiries().is_empty());
}

// As many uploads as a book may have are listed, sixty-four of each of sixteen tenants, and one sweep ends them all.
#[test]
fn as_many_as_there_may_be(rt: HostRuntime) -> Result<(), Fail> {
    let mut book = Book::new(rt.alloc(), Settings::new(NUMBERS, &SIXTEEN)?)?;
    create_all(&rt, &mut book, &SIXTEEN);
    assert_all_swept(&rt, &mut book);
    Ok(())
}

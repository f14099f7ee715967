//! Single uploads: how they take their bytes, when they expire, and what is refused.

use crate::tests::books::{ACME, BETA, HELLO, NOTHING, numbers};
use crate::tests::steps::Call::{
    Begin, Checked, Delete, Get, Head, Patch, PatchOf, Post, PostChecked, PostUntyped, PostWith,
    Sweep, Untyped,
};
use crate::tests::steps::Told::{
    Appended, Begun, Bytes, Created, Refused, RefusedPatch, Removed, Row, Swept,
};
use crate::tests::steps::{Step, run, steps};
use tus_text::Checksum;
use upload_book::{Kind, Refusal};
use worked_example::NUMBERS;

// Five bytes, a wrong offset, bytes past the length, and the other five.
static IN_TWO_PIECES: [Step; 8] = steps! {
    1000 ACME Begin(Some(10), b"hello") => Begun(1, Some(4600), 5, Some(4600)), [2, 0, 10, 2, 0];
    1000 ACME Patch(1, 3, b"x") => RefusedPatch(Refusal::Offset, Some(4600));
    1000 ACME Patch(1, 5, b"worlds") => RefusedPatch(Refusal::TooLong, Some(4600));
    1000 ACME Head(1) => Row(Kind::Plain, 5, Some(10), Some(4600));
    1000 ACME Get(1) => Refused(Refusal::Unfinished);
    1000 ACME Patch(1, 5, b"world") => Appended(10, None), [3, 0, 9, 3, 0];
    9000 ACME Head(1) => Row(Kind::Plain, 10, Some(10), None);
    9000 ACME Get(1) => Bytes(b"helloworld");
};

#[test]
fn an_upload_in_two_pieces(rt: HostRuntime) {
    run(&rt, rt.alloc(), NUMBERS, &IN_TWO_PIECES);
}

static WITHOUT_BYTES: [Step; 4] = steps! {
    1000 ACME Begin(Some(0), b"") => Begun(1, None, 0, None);
    1000 ACME Head(1) => Row(Kind::Plain, 0, Some(0), None);
    9000 ACME Get(1) => Bytes(b"");
    9000 ACME Sweep => Swept(0, 0, 0);
};

#[test]
fn an_upload_without_bytes(rt: HostRuntime) {
    run(&rt, rt.alloc(), NUMBERS, &WITHOUT_BYTES);
}

// A PATCH at an earlier moment leaves the end, and no end is past the year 9999.
static ENDS_RISE: [Step; 5] = steps! {
    1000 ACME Post(Some(10)) => Created(1, Some(4600));
    500 ACME Patch(1, 0, b"a") => Appended(1, Some(4600)), [1, 0, 11, 1, 0];
    2000 ACME Patch(1, 1, b"b") => Appended(2, Some(5600));
    253_402_300_799 ACME Post(Some(10)) => Created(2, Some(253_402_300_799));
    253_402_300_799 ACME Head(2) => Refused(Refusal::Gone);
};

#[test]
fn the_expiry_is_never_lowered(rt: HostRuntime) {
    run(&rt, rt.alloc(), NUMBERS, &ENDS_RISE);
}

static EXPIRED: [Step; 6] = steps! {
    1000 ACME Post(Some(10)) => Created(1, Some(4600));
    4599 ACME Head(1) => Row(Kind::Plain, 0, Some(10), Some(4600));
    4600 ACME Head(1) => Refused(Refusal::Gone);
    4600 ACME Patch(1, 0, b"hello") => RefusedPatch(Refusal::Gone, None);
    1000 ACME Head(2) => Refused(Refusal::Unknown);
    1000 BETA Head(1) => Refused(Refusal::Unknown);
};

#[test]
fn an_upload_expires(rt: HostRuntime) {
    run(&rt, rt.alloc(), NUMBERS, &EXPIRED);
}

// A length that is told late: with a refused PATCH it is not kept, and once kept it stays.
static LENGTH_TOLD_LATE: [Step; 7] = steps! {
    1000 ACME Post(None) => Created(1, Some(4600));
    1000 ACME PatchOf(1, 1, 9, b"") => RefusedPatch(Refusal::Offset, Some(4600));
    1000 ACME Head(1) => Row(Kind::Plain, 0, None, Some(4600));
    1000 ACME PatchOf(1, 0, 5, b"abcde") => Appended(5, None), [2, 0, 10, 2, 0];
    1000 ACME PatchOf(1, 5, 6, b"") => RefusedPatch(Refusal::LengthFixed, None);
    1000 ACME PatchOf(1, 5, 5, b"") => Appended(5, None);
    1000 ACME Head(1) => Row(Kind::Plain, 5, Some(5), None);
};

#[test]
fn an_upload_is_told_its_length(rt: HostRuntime) {
    run(&rt, rt.alloc(), NUMBERS, &LENGTH_TOLD_LATE);
}

static CONTENTS: [Step; 10] = steps! {
    1000 ACME Post(Some(5)) => Created(1, Some(4600));
    1000 ACME Post(Some(0)) => Created(2, None);
    1000 ACME Post(None) => Created(3, Some(4600));
    1000 ACME Get(1) => Refused(Refusal::Unfinished);
    9000 ACME Get(2) => Bytes(b"");
    4599 ACME Get(3) => Refused(Refusal::Unfinished);
    4600 ACME Get(3) => Refused(Refusal::Gone);
    1000 ACME Get(4) => Refused(Refusal::Unknown);
    1000 ACME Patch(1, 0, b"abcde") => Appended(5, None), [2, 0, 10, 2, 0];
    9000 ACME Get(1) => Bytes(b"abcde");
};

#[test]
fn contents(rt: HostRuntime) {
    run(&rt, rt.alloc(), NUMBERS, &CONTENTS);
}

// Without its content type, a PATCH is refused after an upload that is not there, and before a wrong offset.
static WITHOUT_TYPE: [Step; 5] = steps! {
    1000 ACME Begin(Some(10), b"a") => Begun(1, Some(4600), 1, Some(4600)), [1, 0, 11, 1, 0];
    1000 ACME Untyped(1, b"hello") => RefusedPatch(Refusal::Media, Some(4600));
    1000 ACME Untyped(2, b"hello") => RefusedPatch(Refusal::Unknown, None);
    1000 ACME Untyped(0, b"hello") => RefusedPatch(Refusal::Unknown, None);
    1000 BETA Untyped(1, b"hello") => RefusedPatch(Refusal::Unknown, None);
};

#[test]
fn refused_patches(rt: HostRuntime) {
    run(&rt, rt.alloc(), NUMBERS, &WITHOUT_TYPE);
}

// A checksum is asked after the length and before the quota: only bytes of that digest are kept.
static CHECKSUMS: [Step; 9] = steps! {
    1000 ACME Post(Some(64)) => Created(1, Some(4600));
    1000 ACME Checked(1, 0, HELLO, b"hellp") => RefusedPatch(Refusal::Mismatch, Some(4600));
    1000 ACME Checked(1, 0, Checksum::Other, b"hello") => RefusedPatch(Refusal::Algorithm, Some(4600));
    2000 ACME Checked(1, 0, HELLO, b"hello") => Appended(5, Some(5600)), [2, 0, 10, 2, 0];
    2000 ACME Checked(1, 5, NOTHING, b"") => Appended(5, Some(5600));
    2000 ACME Checked(1, 5, HELLO, b"") => RefusedPatch(Refusal::Mismatch, Some(5600));
    2000 ACME Checked(1, 5, Checksum::Other, b"012345678901234567890123456789012345678901234567890123456789") => RefusedPatch(Refusal::TooLong, Some(5600));
    2000 ACME Checked(1, 5, HELLO, b"01234567890123456789012345678") => RefusedPatch(Refusal::Mismatch, Some(5600));
    2000 ACME Patch(1, 5, b"01234567890123456789012345678") => RefusedPatch(Refusal::Quota, Some(5600));
};

#[test]
fn checksums(rt: HostRuntime) {
    run(&rt, rt.alloc(), NUMBERS, &CHECKSUMS);
}

// The first bytes of an upload come with its creation, and are paid; a refused creation uses no id.
static WITH_UPLOAD: [Step; 15] = steps! {
    1000 ACME PostUntyped(Some(4), b"hello") => Refused(Refusal::Media);
    1000 ACME PostWith(Some(4), b"hello") => Refused(Refusal::TooLong);
    1000 ACME PostWith(Some(65), b"hello") => Refused(Refusal::TooLong);
    1000 ACME PostChecked(Some(10), Checksum::Other, b"hello") => Refused(Refusal::Algorithm);
    1000 ACME PostChecked(Some(10), HELLO, b"hellp") => Refused(Refusal::Mismatch);
    1000 ACME PostChecked(Some(10), HELLO, b"hello") => Created(1, Some(4600)), [2, 0, 10, 2, 0];
    1000 ACME Patch(1, 5, b"world") => Appended(10, None), [3, 0, 9, 3, 0];
    9000 ACME Get(1) => Bytes(b"helloworld");
    1000 ACME PostWith(Some(5), b"abcde") => Created(2, None), [5, 0, 7, 5, 0];
    1000 ACME PostWith(None, b"") => Created(3, Some(4600));
    1000 ACME PostWith(Some(20), b"0123456789012") => Refused(Refusal::Quota);
    1000 BETA PostWith(Some(20), b"01234567890123456") => Refused(Refusal::Quota);
    1000 BETA PostWith(Some(20), b"0123456789012345") => Created(1, Some(4600)), [5, 4, 3, 9, 0];
    1000 ACME PostChecked(Some(20), HELLO, b"0123456789012") => Refused(Refusal::Mismatch);
    1000 ACME Delete(2) => Removed(2, 2), [3, 4, 5, 9, 2];
};

// Blocks that all tenants may be charged in all are used up by a creation too.
static SPENT_BY_CREATIONS: [Step; 3] = steps! {
    1000 ACME PostWith(Some(10), b"hello") => Created(1, Some(4600)), [2, 0, 10, 2, 0];
    1000 BETA PostWith(Some(10), b"hello") => Refused(Refusal::Spent);
    1000 BETA PostWith(Some(10), b"hell") => Created(1, Some(4600)), [2, 1, 9, 3, 0];
};

#[test]
fn creations_with_upload(rt: HostRuntime) {
    run(&rt, rt.alloc(), NUMBERS, &WITH_UPLOAD);
    run(
        &rt,
        rt.alloc(),
        numbers!(last_total: 3),
        &SPENT_BY_CREATIONS,
    );
}

// A refused creation uses no id.
static TOO_LONG: [Step; 3] = steps! {
    1000 ACME Post(Some(65)) => Refused(Refusal::TooLong);
    1000 ACME Post(Some(64)) => Created(1, Some(4600));
    1000 ACME Head(2) => Refused(Refusal::Unknown);
};

// An id is used up, also where its upload has ended.
static TWO_IDS: [Step; 4] = steps! {
    1000 ACME Post(Some(1)) => Created(1, Some(4600));
    1000 ACME Delete(1) => Removed(0, 0);
    1000 ACME Post(Some(1)) => Created(2, Some(4600));
    1000 ACME Post(Some(1)) => Refused(Refusal::Spent);
};

// An expired upload counts until a sweep ends it, and one that was ended does not. Damaged bytes are told as such first.
static ONE_UPLOAD: [Step; 8] = steps! {
    1000 ACME Post(Some(1)) => Created(1, Some(4600));
    4600 ACME Post(Some(1)) => Refused(Refusal::Uploads);
    4600 ACME PostChecked(Some(5), Checksum::Other, b"hello") => Refused(Refusal::Algorithm);
    4600 ACME PostChecked(Some(5), HELLO, b"hellp") => Refused(Refusal::Mismatch);
    4600 ACME Sweep => Swept(1, 0, 0);
    4600 ACME Post(Some(1)) => Created(2, Some(8200));
    4600 ACME Delete(2) => Removed(0, 0);
    4600 ACME Post(Some(1)) => Created(3, Some(8200));
};

#[test]
fn refused_creations(rt: HostRuntime) {
    run(&rt, rt.alloc(), NUMBERS, &TOO_LONG);
    run(&rt, rt.alloc(), numbers!(last_id: 2), &TWO_IDS);
    run(&rt, rt.alloc(), numbers!(uploads: 1), &ONE_UPLOAD);
}

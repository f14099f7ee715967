//! The worked uploads at two desks.

use crate::tests::requests::Answer::{Bytes, Created, Deleted, Patched, Refused, Row, Swept};
use crate::tests::requests::Asked::{
    Checked, Delete, Get, Head, Join, Partial, Patch, Post, Upload,
};
use crate::tests::steps::Call::{Ask, Look, Sweep};
use crate::tests::steps::{Step, run, run_with, steps};
use std::test::Fail;
use upload_book::{Numbers, Refusal};
use worked_example::NUMBERS;

const FIRST: &[u8] = b"/files/acme/1";

const SECOND: &[u8] = b"/files/acme/2";

const THIRD: &[u8] = b"/files/acme/3";

const THIRTY: &[u8] = b"abcdefghijklmnopqrstuvwxyzabcd";

// One desk begins what the other ends, and each sees what the other did.
static AN_UPLOAD_AT_TWO_DESKS: [Step; 8] = steps! {
    0 1000 Ask(Post(b"10")) => Created(1, None, Some(4600)), [0, 0, 0, 12];
    0 1000 Ask(Patch(FIRST, b"0", b"hello")) => Patched(5, Some(4600)), [2, 0, 2, 10];
    1 1000 Ask(Head(FIRST)) => Row(5, Some(10), b"", Some(4600)), [2, 0, 2, 10];
    1 1000 Ask(Patch(FIRST, b"3", b"x")) => Refused(Refusal::Offset, Some(4600)), [2, 0, 2, 10];
    1 1000 Ask(Patch(FIRST, b"5", b"world")) => Patched(10, None), [3, 0, 3, 9];
    0 1000 Look(0, 1) => Row(10, Some(10), b"", None), [3, 0, 3, 9];
    0 1000 Ask(Get(FIRST)) => Bytes(b"helloworld"), [3, 0, 3, 9];
    1 1000 Ask(Delete(FIRST)) => Deleted, [3, 3, 0, 12];
};

#[test]
fn an_upload_at_two_desks(rt: HostRuntime) -> Result<(), Fail> {
    run(&rt, rt.alloc(), &AN_UPLOAD_AT_TWO_DESKS)
}

// The first bytes come with the creation, and the other desk sees them and adds the rest.
static A_CREATION_WITH_UPLOAD: [Step; 3] = steps! {
    0 1000 Ask(Upload(b"10", b"hello")) => Created(1, Some(5), Some(4600)), [2, 0, 2, 10];
    1 1000 Look(0, 1) => Row(5, Some(10), b"", Some(4600)), [2, 0, 2, 10];
    1 1000 Ask(Patch(FIRST, b"5", b"world")) => Patched(10, None), [3, 0, 3, 9];
};

#[test]
fn a_creation_with_upload(rt: HostRuntime) -> Result<(), Fail> {
    run(&rt, rt.alloc(), &A_CREATION_WITH_UPLOAD)
}

// The SHA-1 of `hello` (RFC 4648, section 4), as sha1sum has it.
const HELLO_SUM: &[u8] = b"sha1 qvTGHdzF6KLavt4PO0gs2a6pQ00=";

// Bytes that were damaged on their way are not kept, and the same PATCH is accepted once they are whole.
static A_PATCH_WITH_A_CHECKSUM: [Step; 5] = steps! {
    0 1000 Ask(Post(b"10")) => Created(1, None, Some(4600)), [0, 0, 0, 12];
    0 1000 Ask(Checked(FIRST, b"0", HELLO_SUM, b"hellp")) => Refused(Refusal::Mismatch, Some(4600)), [0, 0, 0, 12];
    1 1000 Look(0, 1) => Row(0, Some(10), b"", Some(4600)), [0, 0, 0, 12];
    0 1000 Ask(Checked(FIRST, b"0", HELLO_SUM, b"hello")) => Patched(5, Some(4600)), [2, 0, 2, 10];
    1 1000 Look(0, 1) => Row(5, Some(10), b"", Some(4600)), [2, 0, 2, 10];
};

#[test]
fn a_patch_with_a_checksum(rt: HostRuntime) -> Result<(), Fail> {
    run(&rt, rt.alloc(), &A_PATCH_WITH_A_CHECKSUM)
}

// A final upload costs nothing beside its parts, and keeps their blocks when they end.
static PARTIALS_AND_FINAL: [Step; 11] = steps! {
    0 1000 Ask(Partial(b"5")) => Created(1, None, Some(4600)), [0, 0, 0, 12];
    0 1000 Ask(Patch(FIRST, b"0", b"abcde")) => Patched(5, Some(4600)), [2, 0, 2, 10];
    1 1000 Ask(Partial(b"2")) => Created(2, None, Some(4600)), [2, 0, 2, 10];
    1 1000 Ask(Patch(SECOND, b"0", b"fg")) => Patched(2, Some(4600)), [3, 0, 3, 9];
    0 1000 Ask(Join(b"final;/files/acme/1 http://h:1/files/acme/2")) => Created(3, None, None), [3, 0, 3, 9];
    1 1000 Look(0, 3) => Row(7, Some(7), b"final;/files/acme/1 http://h:1/files/acme/2", None), [3, 0, 3, 9];
    1 1000 Ask(Patch(THIRD, b"7", b"")) => Refused(Refusal::IsFinal, None), [3, 0, 3, 9];
    0 1000 Ask(Delete(FIRST)) => Deleted, [3, 0, 3, 9];
    1 1000 Ask(Delete(SECOND)) => Deleted, [3, 0, 3, 9];
    0 1000 Ask(Get(THIRD)) => Bytes(b"abcdefg"), [3, 0, 3, 9];
    1 1000 Ask(Delete(THIRD)) => Deleted, [3, 3, 0, 12];
};

#[test]
fn partials_and_final(rt: HostRuntime) -> Result<(), Fail> {
    run(&rt, rt.alloc(), &PARTIALS_AND_FINAL)
}

// A sweep ends the part and not its final upload, so no block becomes free. Another ends an upload of its own.
static A_SWEEP_AT_A_DESK: [Step; 10] = steps! {
    0 1000 Ask(Partial(b"5")) => Created(1, None, Some(4600)), [0, 0, 0, 12];
    0 1000 Ask(Patch(FIRST, b"0", b"abcde")) => Patched(5, Some(4600)), [2, 0, 2, 10];
    1 1000 Ask(Join(b"final;/files/acme/1")) => Created(2, None, None), [2, 0, 2, 10];
    1 4599 Sweep => Swept(0, 0, 0), [2, 0, 2, 10];
    0 4600 Look(0, 1) => Refused(Refusal::Gone, None), [2, 0, 2, 10];
    1 4600 Sweep => Swept(1, 0, 0), [2, 0, 2, 10];
    0 4600 Ask(Get(SECOND)) => Bytes(b"abcde"), [2, 0, 2, 10];
    0 5000 Ask(Post(b"9")) => Created(3, None, Some(8600)), [2, 0, 2, 10];
    0 5000 Ask(Patch(THIRD, b"0", b"abcd")) => Patched(4, Some(8600)), [3, 0, 3, 9];
    1 8600 Sweep => Swept(1, 1, 1), [3, 1, 2, 10];
};

#[test]
fn a_sweep_at_a_desk(rt: HostRuntime) -> Result<(), Fail> {
    run(&rt, rt.alloc(), &A_SWEEP_AT_A_DESK)
}

// A HEAD beside the lock is never behind what its desk did or was told; an upload that ended is gone, and neither an id
// that was never given nor a tenant that is not there is known.
static HEADS_BESIDE_THE_LOCK: [Step; 9] = steps! {
    0 1000 Ask(Post(b"10")) => Created(1, None, Some(4600)), [0, 0, 0, 12];
    0 1000 Ask(Patch(FIRST, b"0", b"hello")) => Patched(5, Some(4600)), [2, 0, 2, 10];
    0 1000 Look(0, 1) => Row(5, Some(10), b"", Some(4600)), [2, 0, 2, 10];
    1 1000 Ask(Patch(FIRST, b"5", b"!")) => Patched(6, Some(4600)), [2, 0, 2, 10];
    1 1000 Look(0, 1) => Row(6, Some(10), b"", Some(4600)), [2, 0, 2, 10];
    0 1000 Ask(Delete(FIRST)) => Deleted, [2, 2, 0, 12];
    0 1000 Look(0, 1) => Refused(Refusal::Gone, None), [2, 2, 0, 12];
    0 1000 Look(0, 9) => Refused(Refusal::Unknown, None), [2, 2, 0, 12];
    0 1000 Look(2, 1) => Refused(Refusal::Unknown, None), [2, 2, 0, 12];
};

#[test]
fn heads_beside_the_lock(rt: HostRuntime) -> Result<(), Fail> {
    run(&rt, rt.alloc(), &HEADS_BESIDE_THE_LOCK)
}

// HEADs that are refused by their path, before any upload is looked at, and of an id that a neighbour has; the id of an
// upload that ended is not given again.
static HEADS_OF_NO_UPLOAD: [Step; 9] = steps! {
    0 1000 Ask(Post(b"10")) => Created(1, None, Some(4600)), [0, 0, 0, 12];
    0 1000 Look(1, 1) => Refused(Refusal::Unknown, None), [0, 0, 0, 12];
    1 1000 Ask(Delete(FIRST)) => Deleted, [0, 0, 0, 12];
    0 1000 Ask(Head(FIRST)) => Refused(Refusal::Gone, None), [0, 0, 0, 12];
    0 1000 Ask(Head(b"/files/acme/9")) => Refused(Refusal::Unknown, None), [0, 0, 0, 12];
    0 1000 Ask(Head(b"/files/acme/01")) => Refused(Refusal::Path, None), [0, 0, 0, 12];
    1 1000 Ask(Head(b"/other")) => Refused(Refusal::Path, None), [0, 0, 0, 12];
    1 1000 Ask(Head(b"/files/gamma/1")) => Refused(Refusal::Tenant, None), [0, 0, 0, 12];
    1 1000 Ask(Post(b"10")) => Created(2, None, Some(4600)), [0, 0, 0, 12];
};

#[test]
fn heads_of_no_upload(rt: HostRuntime) -> Result<(), Fail> {
    run(&rt, rt.alloc(), &HEADS_OF_NO_UPLOAD)
}

// A quota of eight blocks, the last of which has room for two bytes more.
static A_FULL_QUOTA: [Step; 5] = steps! {
    0 1000 Ask(Post(b"33")) => Created(1, None, Some(4600)), [0, 0, 0, 12];
    0 1000 Ask(Patch(FIRST, b"0", THIRTY)) => Patched(30, Some(4600)), [8, 0, 8, 4];
    1 1000 Ask(Patch(FIRST, b"30", b"de")) => Patched(32, Some(4600)), [8, 0, 8, 4];
    0 1000 Ask(Patch(FIRST, b"32", b"f")) => Refused(Refusal::Quota, Some(4600)), [8, 0, 8, 4];
    0 1000 Look(0, 1) => Row(32, Some(33), b"", Some(4600)), [8, 0, 8, 4];
};

#[test]
fn a_full_quota(rt: HostRuntime) -> Result<(), Fail> {
    run(&rt, rt.alloc(), &A_FULL_QUOTA)
}

// There is room for one upload,
static ONE_UPLOAD: [Step; 2] = steps! {
    0 1000 Ask(Post(b"10")) => Created(1, None, Some(4600)), [0, 0, 0, 12];
    1 1000 Ask(Post(b"10")) => Refused(Refusal::Uploads, None), [0, 0, 0, 12];
};

// or one id,
static ONE_ID: [Step; 3] = steps! {
    0 1000 Ask(Post(b"10")) => Created(1, None, Some(4600)), [0, 0, 0, 12];
    1 1000 Ask(Delete(FIRST)) => Deleted, [0, 0, 0, 12];
    0 1000 Ask(Post(b"10")) => Refused(Refusal::Spent, None), [0, 0, 0, 12];
};

// or two blocks are ever charged.
static TWO_BLOCKS_IN_ALL: [Step; 5] = steps! {
    0 1000 Ask(Post(b"10")) => Created(1, None, Some(4600)), [0, 0, 0, 12];
    0 1000 Ask(Post(b"10")) => Created(2, None, Some(4600)), [0, 0, 0, 12];
    0 1000 Ask(Patch(FIRST, b"0", b"hello")) => Patched(5, Some(4600)), [2, 0, 2, 10];
    1 1000 Ask(Patch(SECOND, b"0", b"x")) => Refused(Refusal::Spent, Some(4600)), [2, 0, 2, 10];
    1 1000 Look(0, 2) => Row(0, Some(10), b"", Some(4600)), [2, 0, 2, 10];
};

#[test]
fn what_the_settings_allow(rt: HostRuntime) -> Result<(), Fail> {
    let uploads = Numbers {
        uploads: 1,
        ..NUMBERS
    };
    run_with(&rt, rt.alloc(), uploads, &ONE_UPLOAD)?;
    let last_id = Numbers {
        last_id: 1,
        ..NUMBERS
    };
    run_with(&rt, rt.alloc(), last_id, &ONE_ID)?;
    let last_total = Numbers {
        last_total: 2,
        ..NUMBERS
    };
    run_with(&rt, rt.alloc(), last_total, &TWO_BLOCKS_IN_ALL)
}

//! The worked rows of the steps.
use crate::tests::requests::{Sent, TYPED};
use crate::tests::rows::{Row, check, check_at, rows};
use crate::tests::told::Told::{
    Bare, Bytes, Created, Deleted, Options, Patched, Refused, Row as Shown,
};
use std::test::Fail;
use tus_steps::Field::{Absent, Many, One};
use tus_steps::{Method, TusFields};
use upload_book::{Book, Numbers, Refusal};
use worked_example::{NUMBERS, settings_of};

static AN_UPLOAD_GROWS_TO_ITS_END: [Row; 9] = rows! {
    Post b"/files/acme" [length: One(b"10")] b"" => Created(1, None, Some(4600));
    Patch b"/files/acme/1" [offset: One(b"0"), media: TYPED] b"hello" => Patched(5, Some(4600));
    Patch b"/files/acme/1" [offset: One(b"3"), media: TYPED] b"x" => Refused(Refusal::Offset, Some(4600));
    Patch b"/files/acme/1" [offset: One(b"5"), media: TYPED] b"worlds" => Refused(Refusal::TooLong, Some(4600));
    Head b"http://h:1/files/acme/1" [] b"" => Shown(5, Some(10), b"", b"");
    Patch b"/files/acme/1" [offset: One(b"5"), media: TYPED] b"world" => Patched(10, None);
    Patch b"/files/acme/1" [offset: One(b"10"), media: TYPED] b"" => Patched(10, None);
    Post b"/files/acme" [length: One(b"65")] b"" => Refused(Refusal::TooLong, None);
    Post b"/files/acme" [length: One(b"64")] b"" => Created(2, None, Some(4600));
};

#[test]
fn an_upload_grows_to_its_end(rt: HostRuntime) -> Result<(), Fail> {
    check(&rt, rt.alloc(), &AN_UPLOAD_GROWS_TO_ITS_END)
}

static EACH_REASON_COMES_IN_ITS_ORDER: [Row; 27] = rows! {
    Post b"/files/acme" [version: Absent, length: One(b"10")] b"" => Refused(Refusal::Version, None);
    Post b"/other" [version: One(b"0.2.2"), length: One(b"1")] b"" => Refused(Refusal::Version, None);
    Post b"/files/acme" [version: Many, length: One(b"10")] b"" => Refused(Refusal::Version, None);
    Other b"/other" [] b"" => Refused(Refusal::Path, None);
    Patch b"/files/acme/01" [] b"" => Refused(Refusal::Path, None);
    Other b"/files/gamma/1" [] b"" => Refused(Refusal::Tenant, None);
    Patch b"/files/acme" [] b"" => Refused(Refusal::Method, None);
    Get b"/files/acme" [] b"" => Refused(Refusal::Method, None);
    Post b"/files/acme/1" [] b"" => Refused(Refusal::Method, None);
    Other b"/files/acme/1" [] b"" => Refused(Refusal::Method, None);
    Post b"/files/acme" [] b"" => Refused(Refusal::Field, None);
    Post b"/files/acme" [length: One(b"18446744073709551616")] b"" => Refused(Refusal::Field, None);
    Post b"/files/acme" [length: Many] b"" => Refused(Refusal::Field, None);
    Post b"/files/acme" [defer: One(b"1"), length: One(b"10")] b"" => Refused(Refusal::Field, None);
    Post b"/files/acme" [defer: One(b"2")] b"" => Refused(Refusal::Field, None);
    Post b"/files/acme" [metadata: Many, length: One(b"10")] b"" => Refused(Refusal::Field, None);
    Post b"/files/acme" [metadata: One(b"a YQ==,a"), length: One(b"10")] b"" => Refused(Refusal::Field, None);
    Post b"/files/acme" [metadata: One(b"a YQ"), length: One(b"10")] b"" => Refused(Refusal::Field, None);
    Post b"/files/acme" [metadata: One(b"a,,b"), length: One(b"10")] b"" => Refused(Refusal::Field, None);
    Post b"/files/acme" [concat: One(b"final;/files/acme/1"), media: TYPED] b"x" => Refused(Refusal::Field, None);
    Post b"/files/acme" [checksum: Many, length: One(b"10"), media: TYPED] b"x" => Refused(Refusal::Field, None);
    Patch b"/files/acme/1" [offset: One(b"0"), media: TYPED, checksum: One(b"sha1 abc")] b"x" => Refused(Refusal::Field, None);
    Patch b"/files/acme/1" [offset: Many, media: TYPED] b"x" => Refused(Refusal::Field, None);
    Patch b"/files/acme/1" [offset: One(b"0"), media: TYPED, length: One(b"ten")] b"x" => Refused(Refusal::Field, None);
    Patch b"/files/acme/1" [offset: One(b"0"), media: TYPED] b"x" => Refused(Refusal::Unknown, None);
    Post b"/files/acme" [length: One(b"10")] b"x" => Refused(Refusal::Media, None);
    Post b"/files/acme" [length: One(b"18446744073709551615")] b"" => Refused(Refusal::TooLong, None);
};

#[test]
fn each_reason_comes_in_its_order(rt: HostRuntime) -> Result<(), Fail> {
    check(&rt, rt.alloc(), &EACH_REASON_COMES_IN_ITS_ORDER)
}

static A_CREATION_MAY_CARRY_THE_FIRST_BYTES: [Row; 3] = rows! {
    Post b"/files/acme" [checksum: One(b"sha1 qvTGHdzF6KLavt4PO0gs2a6pQ00="), length: One(b"10"), media: TYPED] b"hello" => Created(1, Some(5), Some(4600));
    Post b"/files/acme" [length: One(b"10")] b"" => Created(2, None, Some(4600));
    Patch b"/files/acme/1" [offset: One(b"5"), media: TYPED] b"world" => Patched(10, None);
};

#[test]
fn a_creation_may_carry_the_first_bytes(rt: HostRuntime) -> Result<(), Fail> {
    check(&rt, rt.alloc(), &A_CREATION_MAY_CARRY_THE_FIRST_BYTES)
}

static OPTIONS_ARE_TOLD_BEFORE_ALL_ELSE: [Row; 2] = rows! {
    Options b"/files/acme" [version: Absent] b"" => Options(64);
    Options b"/other" [version: One(b"0.2.2")] b"" => Options(64);
};

#[test]
fn options_are_told_before_all_else(rt: HostRuntime) -> Result<(), Fail> {
    check(&rt, rt.alloc(), &OPTIONS_ARE_TOLD_BEFORE_ALL_ELSE)
}

static A_HEAD_TELLS_WHAT_WAS_CREATED: [Row; 6] = rows! {
    Post b"/files/acme" [defer: One(b"1")] b"" => Created(1, None, Some(4600));
    Head b"/files/acme/1" [] b"" => Shown(0, None, b"", b"");
    Post b"/files/acme" [metadata: One(b"a ,b"), length: One(b"10")] b"" => Created(2, None, Some(4600));
    Head b"/files/acme/2" [] b"" => Shown(0, Some(10), b"a ,b", b"");
    Post b"/files/acme" [metadata: One(b"a YQ==,b"), length: One(b"10")] b"" => Created(3, None, Some(4600));
    Head b"/files/acme/3" [] b"" => Shown(0, Some(10), b"a YQ==,b", b"");
};

#[test]
fn a_head_tells_what_was_created(rt: HostRuntime) -> Result<(), Fail> {
    check(&rt, rt.alloc(), &A_HEAD_TELLS_WHAT_WAS_CREATED)
}

static A_GET_GIVES_THE_BYTES: [Row; 5] = rows! {
    Post b"/files/acme" [length: One(b"5")] b"" => Created(1, None, Some(4600));
    Get b"/files/acme/1" [] b"" => Refused(Refusal::Unfinished, None);
    Patch b"/files/acme/1" [offset: One(b"0"), media: TYPED] b"hello" => Patched(5, None);
    Get b"/files/acme/1" [] b"" => Bytes(b"hello");
    Get b"/files/acme/1" [version: Absent] b"" => Bytes(b"hello");
};

#[test]
fn a_get_gives_the_bytes(rt: HostRuntime) -> Result<(), Fail> {
    check(&rt, rt.alloc(), &A_GET_GIVES_THE_BYTES)
}

static PARTS_ARE_JOINED: [Row; 11] = rows! {
    Post b"/files/acme" [length: One(b"5"), concat: One(b"partial")] b"" => Created(1, None, Some(4600));
    Post b"/files/acme" [concat: One(b"final;/files/acme/1 http://h:1/files/acme/1")] b"" => Refused(Refusal::PartOpen, None);
    Patch b"/files/acme/1" [offset: One(b"0"), media: TYPED] b"hello" => Patched(5, Some(4600));
    Post b"/files/acme" [length: One(b"0")] b"" => Created(2, None, None);
    Post b"/files/acme" [concat: One(b"final;/files/acme/1 /files/acme/2")] b"" => Refused(Refusal::Part, None);
    Post b"/files/acme" [concat: One(b"final;/files/beta/1")] b"" => Refused(Refusal::Part, None);
    Post b"/files/acme" [concat: One(b"final;/files/acme/1 http://h:1/files/acme/1")] b"" => Created(3, None, None);
    Head b"/files/acme/1" [] b"" => Shown(5, Some(5), b"", b"partial");
    Head b"/files/acme/3" [] b"" => Shown(10, Some(10), b"", b"final;/files/acme/1 http://h:1/files/acme/1");
    Get b"/files/acme/3" [] b"" => Bytes(b"hellohello");
    Patch b"/files/acme/3" [offset: One(b"10"), media: TYPED] b"x" => Refused(Refusal::IsFinal, None);
};

#[test]
fn parts_are_joined(rt: HostRuntime) -> Result<(), Fail> {
    check(&rt, rt.alloc(), &PARTS_ARE_JOINED)
}

static FIELDS_THAT_ASK_FOR_NO_CONCATENATION: [Row; 10] = rows! {
    Post b"/files/acme" [concat: One(b"")] b"" => Refused(Refusal::Field, None);
    Post b"/files/acme" [concat: One(b"final;")] b"" => Refused(Refusal::Field, None);
    Post b"/files/acme" [concat: One(b"Partial")] b"" => Refused(Refusal::Field, None);
    Post b"/files/acme" [concat: One(b"partial")] b"" => Refused(Refusal::Field, None);
    Post b"/files/acme" [concat: Many, length: One(b"10")] b"" => Refused(Refusal::Field, None);
    Post b"/files/acme" [concat: One(b"final;/files/acme/1"), length: One(b"10")] b"" => Refused(Refusal::Field, None);
    Post b"/files/acme" [length: Many, concat: One(b"final;/files/acme/1")] b"" => Refused(Refusal::Field, None);
    Post b"/files/acme" [defer: One(b"1"), concat: One(b"final;/files/acme/1")] b"" => Refused(Refusal::Field, None);
    Post b"/files/acme" [metadata: One(b"a YQ"), concat: One(b"final;/files/acme/1")] b"" => Refused(Refusal::Field, None);
    Post b"/files/acme" [concat: One(b"final;/files/acme/1")] b"x" => Refused(Refusal::Field, None);
};

#[test]
fn fields_that_ask_for_no_concatenation(rt: HostRuntime) -> Result<(), Fail> {
    check(&rt, rt.alloc(), &FIELDS_THAT_ASK_FOR_NO_CONCATENATION)
}

static AN_UPLOAD_IS_ENDED: [Row; 4] = rows! {
    Delete b"/files/acme/1" [] b"" => Refused(Refusal::Unknown, None);
    Post b"/files/acme" [length: One(b"10")] b"" => Created(1, None, Some(4600));
    Delete b"/files/acme/1" [] b"" => Deleted;
    Delete b"/files/acme/1" [] b"" => Refused(Refusal::Gone, None);
};

#[test]
fn an_upload_is_ended(rt: HostRuntime) -> Result<(), Fail> {
    check(&rt, rt.alloc(), &AN_UPLOAD_IS_ENDED)
}

static A_REFUSED_CREATION_USES_NO_ID: [Row; 4] = rows! {
    Post b"/files/acme" [version: Absent, length: One(b"10")] b"" => Refused(Refusal::Version, None);
    Post b"/files/acme" [metadata: One(b""), length: One(b"10")] b"" => Created(1, None, Some(4600));
    Patch b"/files/acme/1" [offset: One(b"0"), media: Many] b"x" => Refused(Refusal::Media, Some(4600));
    Patch b"/files/acme/1" [offset: One(b"0"), media: One(b"Application/Offset+Octet-Stream ; a=b"), length: One(b"010")] b"x" => Patched(1, Some(4600));
};

#[test]
fn a_refused_creation_uses_no_id(rt: HostRuntime) -> Result<(), Fail> {
    check(&rt, rt.alloc(), &A_REFUSED_CREATION_USES_NO_ID)
}

static AN_EXPIRED_UPLOAD_IS_GONE: [Row; 5] = rows! {
    Post b"/files/acme" [length: One(b"10")] b"" => Created(1, None, Some(4600));
    4600 Head b"/files/acme/1" [] b"" => Bare(Refusal::Gone, None);
    4599 Head b"/files/acme/1" [] b"" => Shown(0, Some(10), b"", b"");
    4599 Patch b"/files/acme/1" [offset: One(b"0"), media: TYPED] b"a" => Patched(1, Some(8199));
    4600 Head b"/files/acme/1" [] b"" => Shown(1, Some(10), b"", b"");
};

#[test]
fn an_expired_upload_is_gone(rt: HostRuntime) -> Result<(), Fail> {
    check(&rt, rt.alloc(), &AN_EXPIRED_UPLOAD_IS_GONE)
}

// Where finished uploads end after 100 seconds, the reply that finishes one tells its end.
static FINISHED_UPLOADS_END: [Row; 9] = rows! {
    Post b"/files/acme" [length: One(b"5")] b"" => Created(1, None, Some(4600));
    Patch b"/files/acme/1" [offset: One(b"0"), media: TYPED] b"hello" => Patched(5, Some(1100));
    1050 Patch b"/files/acme/1" [offset: One(b"5"), media: TYPED] b"" => Patched(5, Some(1100));
    1050 Post b"/files/acme" [length: One(b"2"), media: TYPED] b"ab" => Created(2, Some(2), Some(1150));
    1050 Post b"/files/acme" [length: One(b"0"), concat: One(b"partial")] b"" => Created(3, None, Some(4650));
    1060 Post b"/files/acme" [concat: One(b"final;/files/acme/3")] b"" => Created(4, None, Some(1160));
    1099 Get b"/files/acme/1" [] b"" => Bytes(b"hello");
    1100 Get b"/files/acme/1" [] b"" => Refused(Refusal::Gone, None);
    1160 Delete b"/files/acme/4" [] b"" => Refused(Refusal::Gone, None);
};

#[test]
fn finished_uploads_end(rt: HostRuntime) -> Result<(), Fail> {
    let numbers = Numbers {
        finished_lifetime: 100,
        ..NUMBERS
    };
    let book = Book::new(rt.alloc(), settings_of(numbers)?)?;
    check_at(&rt, book, &FINISHED_UPLOADS_END);
    Ok(())
}

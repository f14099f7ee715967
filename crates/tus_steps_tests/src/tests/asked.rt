//! What is found of a request before any book is at hand, and how one that changes nothing is answered by it.
use crate::tests::books::{at, book};
use crate::tests::requests::{CREATION, HEAD, Sent, TYPED, sent};
use crate::tests::told::{Told, told_by};
use std::process::Abort;
use std::test::Fail;
use tus_steps::Field::{Absent, One};
use tus_steps::{
    Asked, ChangeOf, Method, PartIds, PlacedReply, Reply, Request, TusFields, answer, answer_asked,
    asked_of,
};
use upload_book::{Book, Change, Moment, Name, Refusal, Settings};

/// What `asked_of` finds, with a change as which it is.
#[derive(Clone, Copy, PartialEq, Eq)]
enum Found {
    Options,
    Refused(Refusal),
    Look(Name),
    Content(Name),
    /// With the offset that its reply tells.
    Create(Option<u64>),
    /// With the number of its parts.
    Concat(usize),
    Append(Name),
    Terminate(Name),
    /// A change that no request asks for.
    Other,
}

fn found_by(asked: &Asked) -> Found {
    match asked {
        Asked::Options => Found::Options,
        Asked::Refused(refusal) => Found::Refused(*refusal),
        Asked::Look(name) => Found::Look(*name),
        Asked::Content(name) => Found::Content(*name),
        Asked::Change(asked) => change_by(asked),
    }
}

fn change_by(asked: &ChangeOf) -> Found {
    match &asked.change {
        Change::Create { .. } => Found::Create(asked.offset),
        Change::Concat { new, .. } => Found::Concat(new.parts.len()),
        Change::Append { name, .. } => Found::Append(*name),
        Change::Terminate(name) => Found::Terminate(*name),
        Change::Sweep | Change::Restore(_) => Found::Other,
    }
}

/// The first upload of acme.
const FIRST: Name = Name { tenant: 0, id: 1 };

static FOUND: [(Sent, Found); 9] = [
    (
        sent!(Options b"/other" [version: Absent] b""),
        Found::Options,
    ),
    (
        sent!(Post b"/files/acme" [] b""),
        Found::Refused(Refusal::Field),
    ),
    (HEAD, Found::Look(FIRST)),
    (
        sent!(Get b"/files/acme/1" [version: Absent] b""),
        Found::Content(FIRST),
    ),
    (CREATION, Found::Create(None)),
    (
        sent!(Post b"/files/acme" [length: One(b"10"), media: TYPED] b"hello"),
        Found::Create(Some(5)),
    ),
    (
        sent!(Post b"/files/acme" [concat: One(b"final;/files/acme/1 /files/beta/2")] b""),
        Found::Concat(2),
    ),
    (
        sent!(Patch b"/files/beta/7" [offset: One(b"0"), media: TYPED] b"hello"),
        Found::Append(Name { tenant: 1, id: 7 }),
    ),
    (
        sent!(Delete b"/files/acme/1" [] b""),
        Found::Terminate(FIRST),
    ),
];

// What a row's request asks for is what it says.
fn check_found(rt: &impl Abort, settings: &Settings, sent: &Sent, expected: &Found) {
    let mut ids = PartIds::new();
    let asked = asked_of(settings, &sent.request(), &mut ids);
    assert!(rt; found_by(&asked) == *expected);
}

#[test]
fn what_a_request_asks_for_is_found(rt: HostRuntime) -> Result<(), Fail> {
    let book = book(rt.alloc())?;
    for (sent, expected) in &FOUND {
        check_found(&rt, book.settings(), sent, expected);
    }
    Ok(())
}

// The reply to a request that changes nothing, by what was found of it.
fn reply_to(book: &Book, request: &Request, now: Moment) -> Option<Reply> {
    let mut ids = PartIds::new();
    match asked_of(book.settings(), request, &mut ids) {
        Asked::Change(_) => None,
        asked => {
            let mut reply = PlacedReply::new();
            answer_asked(book, request, asked, now, book.none_begun(), &mut reply);
            Some(reply.into_reply())
        }
    }
}

// Such a request is told this.
fn assert_answered(rt: &impl Abort, book: &Book, sent: &Sent, told: &Told) {
    let now = Moment::new(1000).expect(rt, "a moment");
    let reply = reply_to(book, &sent.request(), now).expect(rt, "a row that changes nothing");
    assert!(rt; told_by(&reply) == *told);
}

static ANSWERED: [(Sent, Told); 4] = [
    (
        sent!(Options b"/other" [version: Absent] b""),
        Told::Options(64),
    ),
    (
        sent!(Get b"/files/acme" [] b""),
        Told::Refused(Refusal::Method, None),
    ),
    (HEAD, Told::Row(4, Some(4), b"", b"")),
    (sent!(Get b"/files/acme/1" [] b""), Told::Bytes(b"abcd")),
];

const FOUR_BYTES: Sent = sent!(Post b"/files/acme" [length: One(b"4"), media: TYPED] b"abcd");

#[test]
fn what_was_found_is_answered(rt: HostRuntime) -> Result<(), Fail> {
    let mut book = book(rt.alloc())?;
    answer(&mut book, &FOUR_BYTES.request(), at(1000)?);
    for (sent, told) in &ANSWERED {
        assert_answered(&rt, &book, sent, told);
    }
    Ok(())
}

//! How a HEAD is found among requests, and answered by what its upload shows.
use crate::tests::books::{at, book};
use crate::tests::requests::{CREATION, HEAD, Sent, sent};
use crate::tests::told::{Told, told_by};
use std::process::Abort;
use std::test::Fail;
use tus_steps::{HeadOf, Method, TusFields, answer, head_of, head_reply};
use upload_book::{Book, Moment, Name, Refusal, Settings};

/// What `head_of` finds, with a reply as what it tells.
#[derive(Clone, Copy, PartialEq, Eq)]
enum Found<'a> {
    NotHead,
    Refused(Told<'a>),
    Of(Name),
}

fn found_by(found: &HeadOf) -> Found<'_> {
    match found {
        HeadOf::NotHead => Found::NotHead,
        HeadOf::Refused(reply) => Found::Refused(told_by(reply)),
        HeadOf::Of(name) => Found::Of(*name),
    }
}

static FOUND: [(Sent, Found); 5] = [
    (HEAD, Found::Of(Name { tenant: 0, id: 1 })),
    (
        sent!(Head b"/files/beta/7" [] b""),
        Found::Of(Name { tenant: 1, id: 7 }),
    ),
    (
        sent!(Head b"/files/acme" [] b""),
        Found::Refused(Told::Bare(Refusal::Method, None)),
    ),
    (sent!(Get b"/files/acme/1" [] b""), Found::NotHead),
    (CREATION, Found::NotHead),
];

fn check_found(rt: &impl Abort, settings: &Settings, rows: &[(Sent, Found)]) {
    for (sent, expected) in rows {
        let found = head_of(settings, &sent.request());
        assert!(rt; found_by(&found) == *expected);
    }
}

#[test]
fn a_head_is_found_among_the_requests(rt: HostRuntime) -> Result<(), Fail> {
    let book = book(rt.alloc())?;
    check_found(&rt, book.settings(), &FOUND);
    Ok(())
}

// A HEAD of acme's first upload, answered by a look, is told this.
fn assert_shown(rt: &impl Abort, book: &Book, told: &Told) {
    let now = Moment::new(1000).expect(rt, "a moment");
    let reply = head_reply(book.look(&Name { tenant: 0, id: 1 }, now));
    assert!(rt; told_by(&reply) == *told);
}

#[test]
fn a_head_is_answered_by_a_look(rt: HostRuntime) -> Result<(), Fail> {
    let mut book = book(rt.alloc())?;
    assert_shown(&rt, &book, &Told::Bare(Refusal::Unknown, None));
    answer(&mut book, &CREATION.request(), at(1000)?);
    assert_shown(&rt, &book, &Told::Row(0, Some(10), b"", b""));
    Ok(())
}

//! Which bytes a GET gives by its field Range.
use crate::tests::books::{at, book};
use crate::tests::requests::{CREATION, Sent, TYPED, sent};
use crate::tests::told::{Told, told_by};
use std::process::Abort;
use std::test::Fail;
use tus_steps::Field::{Absent, Many, One};
use tus_steps::{Extent, Field, Method, RangeAsked, TusFields, answer};
use upload_book::Book;

/// What a value of Range gives of an upload of so many bytes.
#[derive(Clone, Copy, PartialEq, Eq)]
enum Given {
    All,
    /// From the first place to the last.
    Range(u64, u64),
    Nothing,
}

fn given_by(extent: Option<Extent>, len: u64) -> Option<Given> {
    match extent {
        Some(Extent::Plain) => None,
        Some(Extent::Whole) => Some(Given::All),
        Some(
            Extent::Range {
                first,
                last,
                len: all,
            },
        ) => {
            if all == len {
                Some(Given::Range(first, last))
            } else {
                None
            }
        }
        None => Some(Given::Nothing),
    }
}

/// The first eight are of RFC 9110, section 14.1.2.
static RANGES: [(&[u8], u64, Given); 22] = [
    (b"bytes=0-499", 10_000, Given::Range(0, 499)),
    (b"bytes=500-999", 10_000, Given::Range(500, 999)),
    (b"bytes=-500", 10_000, Given::Range(9500, 9999)),
    (b"bytes=9500-", 10_000, Given::Range(9500, 9999)),
    (b"bytes=0-0,-1", 10_000, Given::All),
    (b"bytes= 0-999, 4500-5499, -1000", 10_000, Given::All),
    (b"bytes=500-600,601-999", 10_000, Given::All),
    (b"bytes=500-700,601-999", 10_000, Given::All),
    (b"bytes=0-0", 10_000, Given::Range(0, 0)),
    (b"bytes=-1", 10_000, Given::Range(9999, 9999)),
    (b"bytes=9999-20000", 10_000, Given::Range(9999, 9999)),
    (
        b"bytes=0-18446744073709551615",
        10_000,
        Given::Range(0, 9999),
    ),
    (b"bytes=0-18446744073709551616", 10_000, Given::All),
    (b"bytes=-20000", 10_000, Given::Range(0, 9999)),
    (b"bytes=10000-", 10_000, Given::Nothing),
    (b"bytes=10000-10001", 10_000, Given::Nothing),
    (b"bytes=18446744073709551615-", 10_000, Given::Nothing),
    (b"bytes=-0", 10_000, Given::Nothing),
    (b"bytes=5-4", 10_000, Given::All),
    (b"bytes=0-", 0, Given::Nothing),
    (b"bytes=-5", 0, Given::All),
    (b"bytes=-0", 0, Given::Nothing),
];

#[test]
fn a_range_gives_these_bytes(rt: HostRuntime) {
    for (place, (value, len, given)) in RANGES.iter().enumerate() {
        let asked = RangeAsked::by(One(value), Absent);
        assert!(&rt;
            given_by(asked.extent(*len), *len) == Some(*given),
            "row {place}"
        );
    }
}

/// Fields Range and If-Range that ask for all bytes.
static FOR_ALL: [(Field, Field); 5] = [
    (Absent, Absent),
    (Many, Absent),
    (Absent, One(b"\"a\"")),
    (One(b"bytes=0-1"), One(b"\"a\"")),
    (One(b"bytes=0-1"), Many),
];

#[test]
fn other_fields_ask_for_all(rt: HostRuntime) {
    for (range, condition) in &FOR_ALL {
        assert!(&rt; RangeAsked::by(*range, *condition) == RangeAsked::All);
    }
}

const GET: Sent = sent!(Get b"/files/acme/1" [version: Absent] b"");

const PATCH: Sent = sent!(Patch b"/files/acme/1" [offset: One(b"0"), media: TYPED] b"helloworld");

// A GET with this field is told this.
fn assert_told(
    rt: &impl Abort,
    book: &mut Book,
    range: RangeAsked,
    told: &Told,
) -> Result<(), Fail> {
    let mut request = GET.request();
    request.range = range;
    let reply = answer(book, &request, at(1000)?);
    assert!(rt; told_by(&reply) == *told);
    Ok(())
}

static TOLD: [(&[u8], Told); 5] = [
    (b"bytes=0-4", Told::Range(b"hello", 0, 4, 10)),
    (b"bytes=9-99", Told::Range(b"d", 9, 9, 10)),
    (b"bytes=-5", Told::Range(b"world", 5, 9, 10)),
    (b"bytes=10-", Told::NoneOf(10)),
    (b"bytes=1-2,4-5", Told::Bytes(b"helloworld")),
];

#[test]
fn a_get_gives_a_range(rt: HostRuntime) -> Result<(), Fail> {
    let mut book = book(rt.alloc())?;
    answer(&mut book, &CREATION.request(), at(1000)?);
    answer(&mut book, &PATCH.request(), at(1000)?);
    for (value, told) in &TOLD {
        assert_told(&rt, &mut book, RangeAsked::by(One(value), Absent), told)?;
    }
    assert_told(
        &rt,
        &mut book,
        RangeAsked::Unserved,
        &Told::Bytes(b"helloworld"),
    )
}

//! Lines of a log.
use service_watch::{Cut, CutLine, Log, RequestLine, laws, method_name};
use std::alloc::Global;
use std::process::Abort;
use std::test::Fail;
use tus_steps::Method;
use upload_book::Moment;

/// A path from outside, and how the line shows it.
static PATHS: [(&[u8], &[u8]); 9] = [
    (b"/files/a/1", b"/files/a/1"),
    (b"", b"-"),
    (b"/a b", b"/a%20b"),
    (
        b"/\n\"Thu, 01 Jan 1970 00:00:00 GMT\" 1",
        b"/%0A%22Thu,%2001%20Jan%201970%2000:00:00%20GMT%22%201",
    ),
    (b"/\r\x1b[31m", b"/%0D%1B[31m"),
    (b"/100%\\", b"/100%25%5C"),
    (b"/\xc3\xa9", b"/%C3%A9"),
    (b"\x00\x7f\x80\xff", b"%00%7F%80%FF"),
    (b"!~", b"!~"),
];

const FRONT: &[u8] = b"\"Fri, 27 Nov 2026 00:00:00 GMT\" 127.0.0.1:4000 acme PATCH ";

const REST: &[u8] = b" 204 - 1234 200 153 sent\n";

fn moment(rt: &impl Abort, secs: u64) -> Moment {
    let Some(moment) = Moment::new(secs) else {
        panic!(rt; "no moment");
    };
    moment
}

fn line<'a>(moment: Moment, path: &'a [u8]) -> RequestLine<'a> {
    RequestLine {
        moment,
        peer: b"127.0.0.1:4000",
        tenant: b"acme",
        method: Some(Method::Patch),
        path,
        status: Some(204),
        word: b"",
        received: 1234,
        sent: 200,
        micros: 153,
        was_sent: true,
    }
}

// A request that was refused before its head was read.
fn headless<'a>(moment: Moment) -> RequestLine<'a> {
    RequestLine {
        moment,
        peer: b"[::1]:9",
        tenant: b"",
        method: None,
        path: b"",
        status: None,
        word: b"head",
        received: 0,
        sent: 18_446_744_073_709_551_615,
        micros: 1,
        was_sent: false,
    }
}

fn assert_shown(rt: &impl Abort, alloc: Global, path: &[u8], expected: &[u8]) {
    let mut log = Log::new(alloc);
    assert!(rt; log.put_request(&line(moment(rt, 1_795_737_600), path)));
    let Some(rest) = log.waiting().strip_prefix(FRONT) else {
        panic!(rt; "another front");
    };
    let Some(shown) = rest.strip_suffix(REST) else {
        panic!(rt; "another rest");
    };
    assert!(rt; shown == expected);
}

#[test]
fn paths_from_outside(rt: HostRuntime) -> Result<(), Fail> {
    for (path, shown) in &PATHS {
        assert_shown(&rt, rt.alloc(), path, shown);
    }
    Ok(())
}

fn assert_waits(rt: &impl Abort, log: &Log, text: &[u8]) {
    assert!(rt; log.waiting() == text);
}

// Asserts that two texts are the same.
fn assert_text(rt: &impl Abort, text: &[u8], other: &[u8]) {
    assert!(rt; text == other);
}

const REFUSED: &[u8] =
    b"\"Thu, 01 Jan 1970 00:00:00 GMT\" [::1]:9 - - - - head 0 18446744073709551615 1 unsent\n";

#[test]
fn a_request_without_a_head(rt: HostRuntime) -> Result<(), Fail> {
    let mut log = Log::new(rt.alloc());
    assert!(rt; log.put_request(&headless(moment(&rt, 0))));
    assert_waits(&rt, &log, REFUSED);
    Ok(())
}

const CUT: &[u8] = b"\"Thu, 01 Jan 1970 00:00:00 GMT\" 127.0.0.1:1 cut idle\n";

#[test]
fn a_connection_that_was_cut(rt: HostRuntime) -> Result<(), Fail> {
    let mut log = Log::new(rt.alloc());
    let line = CutLine {
        moment: moment(&rt, 0),
        peer: b"127.0.0.1:1",
        cut: Cut::Idle,
    };
    assert!(rt; log.put_cut(&line));
    assert_waits(&rt, &log, CUT);
    log.lose(1);
    assert_waits(&rt, &log, b"");
    assert!(rt; log.lost() == 1);
    log.clear();
    assert!(rt; log.lost() == 1);
    Ok(())
}

#[test]
fn names_and_laws(rt: HostRuntime) -> Result<(), Fail> {
    assert_text(&rt, method_name(Method::Options), b"OPTIONS");
    assert_text(&rt, Cut::Newer.name(), b"newer");
    laws::requests_are_one_line();
    laws::cuts_are_one_line();
    Ok(())
}

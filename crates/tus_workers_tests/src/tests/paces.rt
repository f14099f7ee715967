//! When a client is cut off.

use connection_turns::{Busy, ClientBounds, Late, Pace};
use std::process::Abort;

const BOUNDS: ClientBounds = ClientBounds {
    idle: 20,
    message_seconds: 30,
    least_rate: 100,
};

/// What a turn came to: its second, how many bytes passed, what the client is at, and whether a message was answered.
type Turn = (u64, u64, Busy, bool);

/// For what a client is cut off at this second that came at the second 1000 and took these turns.
fn assert_lateness(
    rt: &impl Abort,
    turns: &[Turn],
    second: u64,
    bounds: ClientBounds,
    expected: Option<Late>,
) {
    let mut pace = Pace::new(1000);
    for (second, bytes, busy, has_answered) in turns {
        pace.note(*second, *bytes, *busy, *has_answered);
    }
    assert_eq!(rt; pace.lateness(second, bounds), expected);
}

#[test]
fn what_is_too_late(rt: HostRuntime) {
    let idle: &[Turn] = &[(1001, 9, Busy::Idle, true)];
    let head: &[Turn] = &[(1002, 1, Busy::Head, false), (1020, 1, Busy::Head, false)];
    let next: &[Turn] = &[(1002, 1, Busy::Head, false), (1020, 1, Busy::Head, true)];
    let body: &[Turn] = &[
        (1002, 500, Busy::Body, false),
        (1011, 499, Busy::Body, false),
    ];
    let enough: &[Turn] = &[
        (1002, 500, Busy::Body, false),
        (1011, 500, Busy::Body, false),
    ];
    let reply: &[Turn] = &[(1002, 50, Busy::Reply, true), (1011, 0, Busy::Reply, false)];
    let none = ClientBounds {
        idle: 0,
        message_seconds: 0,
        least_rate: 0,
    };
    let rows: [(&[Turn], u64, ClientBounds, Option<Late>); 14] = [
        (&[], 1020, BOUNDS, None),
        (&[], 1021, BOUNDS, Some(Late::Idle)),
        (idle, 1021, BOUNDS, None),
        (idle, 1022, BOUNDS, Some(Late::Idle)),
        (idle, 9999, none, None),
        (head, 1032, BOUNDS, None),
        (head, 1033, BOUNDS, Some(Late::Message)),
        (next, 1033, BOUNDS, None),
        (head, 9999, none, None),
        (body, 1012, BOUNDS, None),
        (body, 1013, BOUNDS, Some(Late::Rate)),
        (enough, 1013, BOUNDS, None),
        (reply, 1013, BOUNDS, Some(Late::Rate)),
        (reply, 9999, none, None),
    ];
    for (turns, second, bounds, expected) in rows {
        assert_lateness(&rt, turns, second, bounds, expected);
    }
}

/// Once ten seconds have passed a next window begins, and what was counted in the first is no longer told.
#[test]
fn a_rate_is_counted_anew(rt: HostRuntime) {
    let mut pace = Pace::new(1000);
    pace.note(1000, 5000, Busy::Body, false);
    pace.renew(1010);
    pace.note(1010, 1, Busy::Body, false);
    assert_eq!(&rt; pace.lateness(1011, BOUNDS), None);
    pace.renew(1011);
    pace.note(1021, 999, Busy::Body, false);
    assert_eq!(&rt; pace.lateness(1021, BOUNDS), None);
    assert_eq!(&rt; pace.lateness(1022, BOUNDS), Some(Late::Rate));
}

//! Tables of conversations: what is sent and what is written for it, held against the wire, with 1, 7 and all bytes a read,
//! and against the plain program.

use crate::tests::spoken::{Expected, assert_both_with, at_1000, joined, repeated};
use http_wire::Ended;
use std::alloc::Global;
use std::process::Abort;
use upload_book::{Moment, Numbers};
use worked_example::NUMBERS;

/// What a client sends to a new book and what is written for it, how the conversation ends, and how many bytes the first
/// upload of acme has then.
pub struct Row {
    pub name: &'static str,
    pub numbers: Numbers,
    pub sent: &'static [&'static [u8]],
    /// How often it is sent.
    pub times: usize,
    /// The moments of the first messages. All others come at 1000.
    pub secs: &'static [u64],
    pub written: &'static [&'static [u8]],
    pub ended: Ended,
    pub offset: Option<u64>,
}

/// Nothing is sent.
pub const NO_ROW: Row = Row {
    name: "",
    numbers: NUMBERS,
    sent: &[],
    times: 1,
    secs: &[],
    written: &[],
    ended: Ended::Input,
    offset: None,
};

/// A table of rows, each `name: sent => written, ended, offset;`, with further fields in braces behind the name.
macro_rules! rows {
    ($($name:literal $({$($field:ident: $value:expr),*})?: $sent:tt => $written:tt, $ended:ident, $offset:expr;)*) => {
        [$($crate::tests::rows::Row {
            name: $name,
            sent: &$sent,
            written: &$written,
            ended: http_wire::Ended::$ended,
            offset: $offset,
            $($($field: $value,)*)?
            ..$crate::tests::rows::NO_ROW
        }),*]
    };
}

pub(crate) use rows;

/// The moments of a row's messages, and of the end.
fn moments_of(row: &Row) -> [Moment; 8] {
    let mut moments = at_1000();
    for (moment, secs) in moments.iter_mut().zip(row.secs) {
        *moment = Moment::new(*secs).unwrap_or(*moment);
    }
    moments
}

impl Row {
    /// What the conversation has to write, where `written` is what the row says of it in one text, and how it has to end.
    pub fn expected<'a>(&self, written: &'a [u8]) -> Expected<'a> {
        Expected {
            text: written,
            ended: Ok(self.ended),
            offset: self.offset,
        }
    }
}

/// Asserts that a conversation is as its row says.
fn check_row(rt: &impl Abort, alloc: Global, row: &Row) {
    let sent = repeated(rt, alloc, &joined(rt, alloc, row.sent), row.times);
    let written = joined(rt, alloc, row.written);
    let expected = row.expected(&written);
    let moments = moments_of(row);
    assert_both_with(rt, alloc, row.numbers, row.name, &sent, &moments, &expected)
}

/// Asserts it for each of these rows.
pub fn check_rows(rt: &impl Abort, alloc: Global, rows: &[Row]) {
    for row in rows {
        check_row(rt, alloc, row);
    }
}

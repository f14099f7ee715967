//! Rows: requests one after another at a book, and what each is told.
use crate::tests::books::book;
use crate::tests::requests::Sent;
use crate::tests::told::{Told, told_by};
use std::alloc::Global;
use std::process::Abort;
use std::test::Fail;
use tus_steps::answer;
use upload_book::{Book, Moment};

/// A request at a moment in seconds, and what its reply tells.
pub(crate) struct Row<'a> {
    pub(crate) now: u64,
    pub(crate) sent: Sent<'a>,
    pub(crate) told: Told<'a>,
}

/// A table of rows, each `now Method target [field: value, ..] body => told;`, or without `now` at second 1000.
macro_rules! rows {
    ($($($now:literal)? $method:ident $target:literal [$($name:ident: $field:expr),*] $body:literal => $told:expr;)*) => {
        [$(Row {
            now: crate::tests::rows::second!($($now)?),
            sent: crate::tests::requests::sent!($method $target [$($name: $field),*] $body),
            told: $told,
        }),*]
    };
}

/// The second of a row.
macro_rules! second {
    () => {
        1000
    };
    ($now:literal) => {
        $now
    };
}

pub(crate) use rows;
pub(crate) use second;

/// Asks a new book what the rows ask, in turn.
pub(crate) fn check(rt: &impl Abort, alloc: Global, rows: &[Row]) -> Result<(), Fail> {
    check_at(rt, book(alloc)?, rows);
    Ok(())
}

/// Asks a book what the rows ask, in turn.
pub(crate) fn check_at(rt: &impl Abort, mut book: Book, rows: &[Row]) {
    for (place, row) in rows.iter().enumerate() {
        check_row(rt, &mut book, place, row);
    }
}

// Asks a book what the row at a place asks.
fn check_row(rt: &impl Abort, book: &mut Book, place: usize, row: &Row) {
    let now = Moment::new(row.now).expect(rt, "a moment");
    let reply = answer(book, &row.sent.request(), now);
    assert!(rt; told_by(&reply) == row.told, "row {place}");
}

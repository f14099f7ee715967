//! A small book: 12 blocks of 4 bytes, two tenants, a lifetime of an hour and uploads of at most 64 bytes.
use std::alloc::Global;
use std::test::Fail;
use upload_book::{Book, Moment};
use worked_example::settings;

pub(crate) fn book(alloc: Global) -> Result<Book, Fail> {
    Ok(Book::new(alloc, settings()?)?)
}

pub(crate) fn at(secs: u64) -> Result<Moment, Fail> {
    Ok(Moment::new(secs).ok_or("a moment after the year 9999")?)
}

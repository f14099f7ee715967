//! What is seen of a book, and of a plain one after the first changes of the script.
use crate::tests::acme::settings;
use crate::tests::kept::requests::{CHANGES, change, moment};
use std::alloc::Global;
use std::process::Abort;
use tus_steps::{Reply, answer};
use upload_book::{Book, Name};

/// What was charged and released, and how far each of the twenty uploads is, if it is there.
#[derive(Clone, Copy, Debug, PartialEq, Eq)]
pub(crate) struct Seen {
    charged: u64,
    released: u64,
    offsets: [Option<u64>; 20],
}

/// What is seen of a book.
pub(crate) fn seen_of(rt: &impl Abort, book: &Book) -> Seen {
    let mut offsets = [None; 20];
    for (place, offset) in offsets.iter_mut().enumerate() {
        let name = Name {
            tenant: 0,
            id: place as u64 + 1,
        };
        *offset = book.look(&name, moment(rt)).ok().map(|row| row.offset);
    }
    Seen {
        charged: book.charged_total(),
        released: book.released_total(),
        offsets,
    }
}

// Makes the change of this number in a plain book.
fn make(rt: &impl Abort, book: &mut Book, number: u64) {
    let reply = answer(book, &change(number), moment(rt));
    assert!(rt; !matches!(reply, Reply::Refused { .. }));
}

fn new_book(rt: &impl Abort, alloc: Global) -> Book {
    Book::new(alloc, settings(rt)).expect(rt, "memory")
}

/// What is seen of a plain book after the first so many changes.
pub(crate) fn seen_after(rt: &impl Abort, alloc: Global, changes: u64) -> Seen {
    let mut book = new_book(rt, alloc);
    for number in 0..changes {
        make(rt, &mut book, number);
    }
    seen_of(rt, &book)
}

// Makes the changes, and puts what is seen behind each.
fn put_seen(rt: &impl Abort, book: &mut Book, all: &mut Vec<Seen>) {
    for number in 0..CHANGES {
        make(rt, book, number);
        assert!(rt; all.push(seen_of(rt, book)).is_ok());
    }
}

/// What is seen after none, one, two and so on of the changes.
pub(crate) fn all_seen(rt: &impl Abort, alloc: Global) -> Vec<Seen> {
    let mut book = new_book(rt, alloc);
    let mut all = vec![in alloc; seen_of(rt, &book)].expect(rt, "memory");
    put_seen(rt, &mut book, &mut all);
    all
}

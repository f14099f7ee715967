//! How many hold each block.

use crate::tests::books::{acme, join, moment, new_book, part};
use std::process::Abort;
use upload_book::Book;
use worked_example::NUMBERS;

// How many hold the first, the second and a third block of an upload's first segment, and the second of its second.
fn held(book: &Book, id: u64) -> [Option<u64>; 4] {
    let name = acme(id);
    [
        book.holders(&name, 0, 0),
        book.holders(&name, 0, 1),
        book.holders(&name, 0, 2),
        book.holders(&name, 1, 1),
    ]
}

// How many hold the blocks of acme's first two uploads.
type Holders = [[Option<u64>; 4]; 2];

// A part holds its two blocks,
static MADE: Holders = [[Some(1), Some(1), None, None], [None; 4]];

// a final upload of it twice holds them twice more,
static JOINED: Holders = [
    [Some(3), Some(3), None, None],
    [Some(3), Some(3), None, Some(3)],
];

// and goes on to where the part has ended.
static ENDED: Holders = [[None; 4], [Some(2), Some(2), None, Some(2)]];

// Asserts how many hold the blocks, after what was done last.
fn assert_held(rt: &impl Abort, book: &Book, done: &str, expected: &Holders) {
    assert!(rt; held(book, 1) == expected[0], "the first, {done}");
    assert!(rt; held(book, 2) == expected[1], "the second, {done}");
}

// Ends acme's first upload, whose blocks are held by others.
fn terminate(rt: &impl Abort, book: &mut Book) {
    let removed = book.terminate(&acme(1), moment(rt, 1000));
    let removed = removed.expect(rt, "an end");
    assert!(rt; removed.blocks == 0);
}

// Asserts how many hold the last block of a final upload of 32 parts, and how many blocks are free.
fn assert_held_by_each(rt: &impl Abort, book: &Book) {
    assert!(rt; book.holders(&acme(4), 31, 0) == Some(33));
    assert!(rt; book.free_blocks() == 9);
}

static THIRTY_TWO: [Option<u64>; 32] = [Some(3); 32];

#[test]
fn each_naming_of_a_part_holds_its_blocks(rt: HostRuntime) {
    let mut book = new_book(&rt, rt.alloc(), NUMBERS);
    part(&rt, &mut book, b"abcde");
    assert_held(&rt, &book, "made", &MADE);
    join(&rt, &mut book, &[Some(1), Some(1)]);
    assert_held(&rt, &book, "joined", &JOINED);
    terminate(&rt, &mut book);
    assert_held(&rt, &book, "ended", &ENDED);
    part(&rt, &mut book, b"fg");
    join(&rt, &mut book, &THIRTY_TWO);
    assert_held_by_each(&rt, &book);
}

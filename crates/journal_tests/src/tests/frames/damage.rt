//! One byte of a file that is changed where it lies.
use crate::tests::frames::reading::assert_frames;
use journal_frames::Tail;

// The frame of ab under the key 7, and 16 zeros.
const FILE: [u8; 42] = [
    0, 0, 0, 0, 0, 0, 0, 10, 255, 255, 255, 255, 255, 255, 251, 80, 4, 242, 141, 98, 35, 232, 35,
    207, 97, 98, 0, 0, 0, 0, 0, 0, 0, 0, 0, 0, 0, 0, 0, 0, 0, 0,
];

// A place, the byte that is put there, how many frames are left, and what stands behind them.
static CHANGES: [(usize, u8, usize, Tail); 11] = [
    // nothing is changed
    (0, 0, 1, Tail::Torn),
    // a byte of the payload is higher, as lost bytes never are
    (24, 98, 0, Tail::Damaged),
    // lower, as where bytes are lost
    (24, 96, 0, Tail::Torn),
    (25, 0, 0, Tail::Torn),
    // the balance that is told
    (15, 81, 0, Tail::Damaged),
    (15, 79, 0, Tail::Torn),
    // the length: above the greatest, past the end, one more, one less
    (0, 1, 0, Tail::Damaged),
    (5, 1, 0, Tail::Cut),
    (7, 11, 0, Tail::Damaged),
    (7, 9, 0, Tail::Torn),
    // a byte behind the frame, which is none of a header
    (41, 1, 1, Tail::Torn),
];

#[test]
fn one_byte(rt: HostRuntime) {
    for (place, byte, frames, tail) in &CHANGES {
        let mut file = FILE;
        assert!(rt; *place < 42);
        file[*place] = *byte;
        assert_frames(&rt, 7, &file, *frames, *tail);
    }
}

// The sum of the bytes is as it was, so that only the digest tells.
#[test]
fn two_bytes_that_change_places(rt: HostRuntime) {
    let mut file = FILE;
    file[24] = b'b';
    file[25] = b'a';
    assert_frames(&rt, 7, &file, 0, Tail::Damaged);
}

#[test]
fn another_key(rt: HostRuntime) {
    assert_frames(&rt, 8, &FILE, 0, Tail::Damaged);
}

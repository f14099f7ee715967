//! Each image that a crash may leave of a small file, and each length to which it may be cut.
use crate::tests::frames::reading::assert_frames;
use journal_frames::Tail;
use std::test::Fail;

const KEY: u64 = 1;

// One frame that was synced, with the payload x.
const SYNCED: [u8; 25] = [
    0, 0, 0, 0, 0, 0, 0, 9, 255, 255, 255, 255, 255, 255, 252, 63, 82, 98, 33, 71, 153, 42, 180,
    172, 120,
];

// One with the payload a, which was not.
const FIRST: [u8; 25] = [
    0, 0, 0, 0, 0, 0, 0, 9, 255, 255, 255, 255, 255, 255, 250, 160, 190, 185, 166, 187, 246, 27,
    88, 180, 97,
];

// One with the payload bc, which was not.
const SECOND: [u8; 26] = [
    0, 0, 0, 0, 0, 0, 0, 10, 255, 255, 255, 255, 255, 255, 253, 6, 88, 130, 31, 81, 115, 0, 92, 17,
    98, 99,
];

// So many bytes of the first are not 0.
const FIRST_BYTES: u32 = 18;

// Keeps those bytes of the first that are not 0 and have a bit of the mask, in their order; all others are 0.
fn keep(image: &mut [u8], mask: u32) {
    let mut left = mask;
    for (byte, written) in image.iter_mut().zip(&FIRST) {
        *byte = if left % 2 == 1 { *written } else { 0 };
        if *written != 0 {
            left /= 2;
        }
    }
}

// The first frame behind the synced one, in all 262,144 ways in which bytes of it can be lost.
#[test]
fn each_image_of_one_frame(rt: HostRuntime) -> Result<(), Fail> {
    let mut file = Vec::from_slice(rt.alloc(), &SYNCED)?;
    file.extend_from_slice(&FIRST)?;
    file.extend_from_slice(&[0; 16])?;
    let whole: u32 = (1 << FIRST_BYTES) - 1;
    for mask in 0..=whole {
        assert!(rt; file.len() == 66);
        keep(&mut file[25..50], mask);
        let frames = if mask == whole { 2 } else { 1 };
        assert_frames(&rt, KEY, &file, frames, Tail::Torn);
    }
    Ok(())
}

// Two frames behind the synced one, where one range of their bytes is lost: each range.
#[test]
fn each_range_of_two_frames(rt: HostRuntime) -> Result<(), Fail> {
    for start in 0..=51_usize {
        for end in start..=51 {
            let mut written = Vec::from_slice(rt.alloc(), &FIRST)?;
            written.extend_from_slice(&SECOND)?;
            assert!(rt; written.len() == 51 && start <= end && end <= 51);
            written[start..end].fill(0);
            let first = written.starts_with(&FIRST);
            let second = written.ends_with(&SECOND);
            let mut file = Vec::from_slice(rt.alloc(), &SYNCED)?;
            file.extend_from_slice(&written)?;
            file.extend_from_slice(&[0; 16])?;
            let frames = match (first, second) {
                (true, true) => 3,
                (true, false) => 2,
                (false, _) => 1,
            };
            assert_frames(&rt, KEY, &file, frames, Tail::Torn);
        }
    }
    Ok(())
}

// What stands behind 16 zeros does not matter.
#[test]
fn bytes_behind_zeros(rt: HostRuntime) -> Result<(), Fail> {
    let mut file = Vec::from_slice(rt.alloc(), &SYNCED)?;
    file.extend_from_slice(&[0; 16])?;
    file.extend_from_slice(&FIRST)?;
    assert_frames(&rt, KEY, &file, 1, Tail::Torn);
    Ok(())
}

#[test]
fn each_cut(rt: HostRuntime) -> Result<(), Fail> {
    let mut file = Vec::from_slice(rt.alloc(), &SYNCED)?;
    file.extend_from_slice(&SECOND)?;
    for len in 0..=51_usize {
        assert!(rt; file.len() == 51 && len <= 51);
        let frames = if len == 51 {
            2
        } else if len >= 25 {
            1
        } else {
            0
        };
        assert_frames(&rt, KEY, &file[..len], frames, Tail::Cut);
    }
    Ok(())
}

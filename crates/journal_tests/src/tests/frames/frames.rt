//! Frames as bytes. The digests were computed by a program in Python that gives SipHash's published test vector.
use crate::tests::frames::reading::assert_frames;
use journal_frames::{Frames, HEADER_LEN, PAYLOAD_MAX, Tail, close_frame, open_frame, push_frame};
use std::alloc::Global;
use std::process::Abort;
use std::test::Fail;

// The next payload of the frames.
fn assert_payload(rt: &impl Abort, frames: &mut Frames, payload: &[u8]) {
    let Ok(found) = frames.next() else {
        panic!(rt; "no payload");
    };
    assert!(rt; found == payload);
}

// The payload makes this frame under the key, and is read again, twice where the frame stands twice.
fn assert_frame(
    rt: &impl Abort,
    alloc: Global,
    key: u64,
    payload: &[u8],
    frame: &[u8],
) -> Result<(), Fail> {
    let mut file = Vec::new(alloc);
    assert!(rt; payload.len() <= PAYLOAD_MAX);
    push_frame(&mut file, key, payload)?;
    assert!(rt; file.as_slice() == frame);
    push_frame(&mut file, key, payload)?;
    let mut frames = Frames::new(key, &file);
    assert_payload(rt, &mut frames, payload);
    assert!(rt; frames.rest == frame);
    assert_payload(rt, &mut frames, payload);
    assert_frames(rt, key, frames.rest, 0, Tail::Cut);
    Ok(())
}

// A key, a payload, and the frame that it makes: of no bytes, of two, of these under another key, and under the greatest key.
static FRAMES: [(u64, &[u8], &[u8]); 4] = [
    (
        7,
        b"",
        &[
            0, 0, 0, 0, 0, 0, 0, 8, 255, 255, 255, 255, 255, 255, 251, 73, 102, 52, 176, 189, 164,
            254, 138, 123,
        ],
    ),
    (
        7,
        b"ab",
        &[
            0, 0, 0, 0, 0, 0, 0, 10, 255, 255, 255, 255, 255, 255, 251, 80, 4, 242, 141, 98, 35,
            232, 35, 207, 97, 98,
        ],
    ),
    (
        8,
        b"ab",
        &[
            0, 0, 0, 0, 0, 0, 0, 10, 255, 255, 255, 255, 255, 255, 250, 86, 208, 24, 185, 156, 215,
            133, 155, 168, 97, 98,
        ],
    ),
    (
        u64::MAX,
        b"\x00\xff\x00",
        &[
            0, 0, 0, 0, 0, 0, 0, 11, 255, 255, 255, 255, 255, 255, 252, 34, 121, 21, 52, 229, 98,
            76, 19, 107, 0, 255, 0,
        ],
    ),
];

#[test]
fn payloads_make_frames(rt: HostRuntime) -> Result<(), Fail> {
    for (key, payload, frame) in &FRAMES {
        assert_frame(&rt, rt.alloc(), *key, payload, frame)?;
    }
    Ok(())
}

// A payload that is pushed behind room for its header becomes the same frame, and what stands before it stays.
#[test]
fn a_payload_that_is_not_moved(rt: HostRuntime) -> Result<(), Fail> {
    let mut pushed = Vec::from_slice(rt.alloc(), b"before")?;
    push_frame(&mut pushed, 7, b"ab")?;
    let mut file = Vec::from_slice(rt.alloc(), b"before")?;
    let start = file.len();
    open_frame(&mut file)?;
    file.extend_from_slice(b"ab")?;
    assert!(rt; file.len() == start + HEADER_LEN + 2);
    close_frame(&mut file, start, 7);
    assert!(rt; file.as_slice() == pushed.as_slice());
    Ok(())
}

//! The frame of a record.
use journal_frames::Frames;
use journal_records::frame_of;
use upload_book::{Change, Moment};

// The moment, and a sweep.
const SWEEP: &[u8] = &[0, 0, 0, 0, 0, 0, 1, 2, 4];

#[test]
fn the_frame_of_a_sweep(rt: HostRuntime) {
    let room = Vec::from_slice(rt.alloc(), b"what the room had").expect(&rt, "memory");
    let moment = Moment::new(258).expect(&rt, "a moment");
    let frame = frame_of(room, 7, moment, &Change::Sweep).expect(&rt, "a frame");
    let Ok(payload) = Frames::new(7, &frame).next() else {
        panic!(&rt; "no payload");
    };
    assert!(rt; payload == SWEEP);
    assert!(rt; Frames::new(8, &frame).next().is_err(), "under another key");
}

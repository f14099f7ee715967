//! What is still answered once the disk has failed.
use crate::tests::kept::books::{Answer, new_book};
use crate::tests::kept::steps::{Step, play};
use crate::tests::torn_disk::TornDisk;
use upload_book::Refusal;

static STEPS: [Step; 8] = [
    Step::Change(0, Answer::Created),
    Step::Change(1, Answer::Fails),
    Step::Unkept(
        1,
        b"/files/acme/1",
        Answer::Refused(Refusal::Memory, Some(4600)),
    ),
    Step::Unkept(
        2,
        b"/files/acme/1",
        Answer::Refused(Refusal::Offset, Some(4600)),
    ),
    Step::Unkept(1, b"/files/acme/9", Answer::Refused(Refusal::Unknown, None)),
    Step::Unkept(0, b"/files/acme", Answer::Refused(Refusal::Memory, None)),
    Step::Unkept(0, b"/files/beta", Answer::Refused(Refusal::Tenant, None)),
    Step::UnkeptHead(b"/files/acme/1", Answer::Head(2)),
];

// Making the book takes three calls of the disk, and each change two. The second change fails, and after it one that the book
// accepts is refused as Memory, and else what is asked is answered.
#[test]
fn a_failed_disk(rt: HostRuntime) {
    let disk = TornDisk::new(rt.alloc(), usize::MAX, 5);
    let mut kept = new_book(&rt, rt.alloc(), disk, 4000);
    play(&rt, rt.alloc(), &mut kept, &STEPS);
}

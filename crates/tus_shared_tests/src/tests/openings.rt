//! How many desks there may be, and the words of faults.

use crate::tests::stage::{Scene, played};
use std::alloc::Global;
use std::process::Abort;
use std::sync::Wait;
use std::test::Fail;
use std::thread::Threads;
use tus_shared::{AgainFault, OpenFault, WorkFault};
use upload_book::{Refusal, Refused};
use worked_example::settings;

// How many desks an opening gives that asks for so many.
fn opened<W: Threads + Wait + Abort + Sync>(
    rt: &W,
    alloc: Global,
    desks: usize,
) -> Result<Result<usize, OpenFault>, Fail> {
    let settled = played(rt, alloc, settings()?, desks, &Scene::Nothing);
    Ok(settled.map(|settled| settled.desks))
}

#[test]
fn one_to_sixteen_desks(rt: HostRuntime) -> Result<(), Fail> {
    let rows = [
        (0, Err(OpenFault::Desks)),
        (1, Ok(1)),
        (16, Ok(16)),
        (17, Err(OpenFault::Desks)),
    ];
    for (desks, expected) in rows {
        assert_eq!(rt; opened(&rt, rt.alloc(), desks)?, expected, "{desks} desks");
    }
    Ok(())
}

#[test]
fn faults_are_told_by_their_words(rt: HostRuntime) -> Result<(), Fail> {
    assert!(rt; OpenFault::Desks.word() == "desks");
    assert!(rt; OpenFault::Memory.word() == "memory");
    assert!(rt; OpenFault::Board.word() == "board");
    assert!(rt; WorkFault::Memory.word() == "memory");
    assert!(rt; AgainFault::Waiting.word() == "waiting");
    assert!(rt; AgainFault::Change.word() == "change");
    assert!(rt; REFUSED.word() == "refused");
    Ok(())
}

const REFUSED: AgainFault = AgainFault::Refused(Refused {
    refusal: Refusal::Gone,
    expires: None,
});

//! Who stands on which list: steps in a row, and what the lists are after each.
use std::process::Abort;
use std::test::Fail;
use turn_lists::{TurnList, TurnLists};

// A step, with what it gives.
#[derive(Clone, Copy)]
enum Step {
    Put(usize, TurnList, bool),
    Take(TurnList, Option<usize>),
    Leave(usize),
}

// A step, and behind it how many stand on each list, in the order of the lists.
struct Row(Step, [usize; 3]);

const BOUND: usize = 3;

const LISTS: [TurnList; 3] = [
    TurnList::HasMore,
    TurnList::WaitsForTurn,
    TurnList::WaitsForKeeping,
];

static ROWS: [Row; 14] = [
    Row(Step::Put(2, TurnList::HasMore, true), [1, 0, 0]),
    Row(Step::Put(0, TurnList::HasMore, true), [2, 0, 0]),
    // who stands on a list stays there
    Row(Step::Put(2, TurnList::WaitsForTurn, true), [2, 0, 0]),
    Row(Step::Put(1, TurnList::WaitsForKeeping, true), [2, 0, 1]),
    // past the bound
    Row(Step::Put(3, TurnList::HasMore, false), [2, 0, 1]),
    Row(Step::Take(TurnList::WaitsForTurn, None), [2, 0, 1]),
    // the first that came is the first taken, and comes behind the others then
    Row(Step::Take(TurnList::HasMore, Some(2)), [1, 0, 1]),
    Row(Step::Put(2, TurnList::HasMore, true), [2, 0, 1]),
    Row(Step::Take(TurnList::HasMore, Some(0)), [1, 0, 1]),
    Row(Step::Leave(2), [0, 0, 1]),
    // one that stands on no list leaves none
    Row(Step::Leave(2), [0, 0, 1]),
    Row(Step::Leave(usize::MAX), [0, 0, 1]),
    Row(Step::Put(2, TurnList::WaitsForTurn, true), [0, 1, 1]),
    Row(Step::Take(TurnList::WaitsForKeeping, Some(1)), [0, 1, 0]),
];

// Whether a step gives what it is to give.
fn fits(lists: &mut TurnLists, step: Step) -> bool {
    match step {
        Step::Put(key, list, is_put) => lists.put(key, list) == is_put,
        Step::Take(list, first) => lists.take_first(list) == first,
        Step::Leave(key) => {
            lists.leave(key);
            lists.list_of(key).is_none()
        }
    }
}

// How many keys are told to stand on a list.
fn told_of(lists: &TurnLists, list: TurnList) -> usize {
    let mut keys: usize = 0;
    for key in 0..BOUND {
        if lists.list_of(key) == Some(list) {
            keys = keys.saturating_add(1);
        }
    }
    keys
}

// Whether so many keys stand on each list, and as many are told of.
fn have(lists: &TurnLists, counts: &[usize; 3]) -> bool {
    for (list, count) in LISTS.iter().zip(counts) {
        if lists.len(*list) != *count || told_of(lists, *list) != *count {
            return false;
        }
    }
    true
}

#[test]
fn steps_in_a_row(rt: HostRuntime) -> Result<(), Fail> {
    let mut lists = TurnLists::new(rt.alloc(), BOUND)?;
    for (place, row) in ROWS.iter().enumerate() {
        assert!(rt; fits(&mut lists, row.0), "{place}");
        assert!(rt; have(&lists, &row.1), "{place}");
    }
    Ok(())
}

#[test]
fn lists_for_nobody(rt: HostRuntime) -> Result<(), Fail> {
    let mut lists = TurnLists::new(rt.alloc(), 0)?;
    assert!(rt; !lists.put(0, TurnList::HasMore));
    assert!(rt; lists.is_empty(TurnList::HasMore));
    assert!(rt; TurnLists::new(rt.alloc(), usize::MAX).is_err());
    Ok(())
}

//! Each call once, and each thing that a caller may hand in wrong.
use std::process::Abort;
use std::test::Fail;
use unfinished_bodies::{Body, BodyPlace, Holder, Unfinished, UploadName};

const NAME: UploadName = UploadName { tenant: 7, id: 9 };

// A body of this client for one upload.
fn body(client: usize, held: u64) -> Body {
    Body {
        holder: Holder { worker: 1, client },
        upload: Some(NAME),
        held,
    }
}

// Enters a body where there is room.
fn enter(rt: &impl Abort, table: &mut Unfinished, body: Body) -> BodyPlace {
    let Some(place) = table.enter(body) else {
        panic!(rt; "no room");
    };
    place
}

fn assert_newest(rt: &impl Abort, table: &Unfinished, place: BodyPlace, body: Body) {
    let Some((found, newest)) = table.of_upload(NAME) else {
        panic!(rt; "no body for the upload");
    };
    assert!(rt; found == place);
    assert!(rt; newest == body);
}

fn assert_largest(rt: &impl Abort, table: &Unfinished, place: BodyPlace, body: Body) {
    let Some((found, largest)) = table.largest() else {
        panic!(rt; "no body at all");
    };
    assert!(rt; found == place);
    assert!(rt; largest == body);
}

fn assert_leaves(rt: &impl Abort, table: &mut Unfinished, place: BodyPlace, body: Body) {
    let Some(left) = table.leave(place) else {
        panic!(rt; "the body had left");
    };
    assert!(rt; left == body);
}

#[test]
fn two_bodies_of_one_upload(rt: HostRuntime) -> Result<(), Fail> {
    let mut table = Unfinished::new(rt.alloc(), 2)?;
    let old = enter(&rt, &mut table, body(3, 100));
    let new = enter(&rt, &mut table, body(4, 20));
    assert_newest(&rt, &table, new, body(4, 20));
    assert_largest(&rt, &table, old, body(3, 100));
    table.hold(new, 101);
    assert_largest(&rt, &table, new, body(4, 101));
    assert!(rt; table.held() == 201);
    assert_leaves(&rt, &mut table, new, body(4, 101));
    assert_newest(&rt, &table, old, body(3, 100));
    Ok(())
}

#[test]
fn an_empty_table(rt: HostRuntime) -> Result<(), Fail> {
    let table = Unfinished::new(rt.alloc(), 2)?;
    assert!(rt; table.is_empty());
    assert!(rt; table.largest().is_none());
    assert!(rt; table.of_upload(NAME).is_none());
    Ok(())
}

#[test]
fn asked_once(rt: HostRuntime) -> Result<(), Fail> {
    let mut table = Unfinished::new(rt.alloc(), 2)?;
    let place = enter(&rt, &mut table, body(3, 100));
    assert!(rt; !table.is_asked(place));
    assert!(rt; table.ask_to_cut(place), "the first time");
    assert!(rt; !table.ask_to_cut(place), "the second time");
    assert!(rt; table.is_asked(place));
    Ok(())
}

// A place whose body has left leads to nothing, also where another body lies in its slot.
#[test]
fn a_place_that_was_left(rt: HostRuntime) -> Result<(), Fail> {
    let mut table = Unfinished::new(rt.alloc(), 1)?;
    let gone = enter(&rt, &mut table, body(1, 10));
    assert_leaves(&rt, &mut table, gone, body(1, 10));
    let next = enter(&rt, &mut table, body(2, 5));
    table.hold(gone, 1000);
    assert!(rt; table.leave(gone).is_none());
    assert!(rt; table.body(gone).is_none());
    assert!(rt; !table.ask_to_cut(gone));
    assert_newest(&rt, &table, next, body(2, 5));
    Ok(())
}

// Two bodies of the most bytes.
#[test]
fn the_greatest_sum(rt: HostRuntime) -> Result<(), Fail> {
    let mut table = Unfinished::new(rt.alloc(), 2)?;
    enter(&rt, &mut table, body(usize::MAX, u64::MAX));
    enter(&rt, &mut table, body(0, u64::MAX));
    assert!(rt; table.held() == 36_893_488_147_419_103_230);
    Ok(())
}

#[test]
fn how_many_may_enter(rt: HostRuntime) -> Result<(), Fail> {
    for most in [0_usize, 1, 3, 1000] {
        let mut table = Unfinished::new(rt.alloc(), most)?;
        for client in 0..most {
            enter(&rt, &mut table, body(client, 1));
        }
        assert!(rt; table.enter(body(0, 1)).is_none(), "{most}");
    }
    assert!(rt; Unfinished::new(rt.alloc(), usize::MAX).is_err());
    Ok(())
}

// Whoever holds a table may hand it to another thread.
fn can_cross<T: Send + Drop>(_value: T) {}

#[test]
fn a_table_crosses_threads(rt: HostRuntime) -> Result<(), Fail> {
    can_cross(Unfinished::new(rt.alloc(), 1)?);
    Ok(())
}

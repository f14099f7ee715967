//! Random steps on a table, beside a plain list of the same bodies.
use std::alloc::AllocError;
use std::process::Abort;
use std::test::Fail;
use unfinished_bodies::{Body, BodyPlace, Holder, Unfinished, UploadName};

// A body of the list, the oldest first: where it lies in the table, and whether it was asked to be cut.
#[derive(Clone, Copy)]
struct Listed {
    place: BodyPlace,
    body: Body,
    asked: bool,
}

const MOST: usize = 12;

// Few names, so that an upload often has several bodies, and buckets several uploads.
const NAMES: [UploadName; 5] = [
    UploadName { tenant: 0, id: 1 },
    UploadName { tenant: 0, id: 13 },
    UploadName { tenant: 0, id: 14 },
    UploadName { tenant: 3, id: 1 },
    UploadName {
        tenant: 255,
        id: 18_446_744_073_709_551_615,
    },
];

// The next of a row of numbers that look random.
fn next(seed: &mut u64) -> u64 {
    *seed = seed
        .wrapping_mul(6_364_136_223_846_793_005)
        .wrapping_add(1_442_695_040_888_963_407);
    *seed >> 33
}

fn random_body(seed: &mut u64) -> Body {
    let upload = NAMES.get((next(seed) % 6) as usize).copied();
    Body {
        holder: Holder {
            worker: (next(seed) % 4) as usize,
            client: (next(seed) % 1000) as usize,
        },
        upload,
        held: next(seed) % 100,
    }
}

fn enter(
    rt: &impl Abort,
    table: &mut Unfinished,
    list: &mut Vec<Listed>,
    body: Body,
) -> Result<(), AllocError> {
    let full = list.len() == MOST;
    match table.enter(body) {
        Some(place) => {
            assert!(rt; !full);
            list.push(Listed {
                place,
                body,
                asked: false,
            })?;
        }
        None => assert!(rt; full),
    }
    Ok(())
}

fn hold(table: &mut Unfinished, list: &mut [Listed], at: usize, held: u64) {
    if let Some(listed) = list.get_mut(at) {
        table.hold(listed.place, held);
        listed.body.held = held;
    }
}

fn ask(rt: &impl Abort, table: &mut Unfinished, list: &mut [Listed], at: usize) {
    if let Some(listed) = list.get_mut(at) {
        assert!(rt; table.ask_to_cut(listed.place) != listed.asked);
        listed.asked = true;
    }
}

fn leave(rt: &impl Abort, table: &mut Unfinished, list: &mut Vec<Listed>, at: usize) {
    if at < list.len() {
        let listed = list.remove(at);
        assert!(rt; table.leave(listed.place) == Some(listed.body));
        assert!(rt; table.leave(listed.place).is_none());
    }
}

// The newest body of the list for an upload.
fn newest(list: &[Listed], name: UploadName) -> Option<(BodyPlace, Body)> {
    let mut found = None;
    for listed in list {
        if listed.body.upload == Some(name) {
            found = Some((listed.place, listed.body));
        }
    }
    found
}

fn assert_largest(rt: &impl Abort, table: &Unfinished, list: &[Listed]) {
    let mut most: u64 = 0;
    for listed in list {
        most = most.max(listed.body.held);
    }
    match table.largest() {
        Some((place, body)) => {
            assert!(rt; body.held == most);
            assert!(rt; table.body(place) == Some(body));
        }
        None => assert!(rt; list.is_empty()),
    }
}

fn assert_same(rt: &impl Abort, table: &Unfinished, list: &[Listed]) {
    let mut held: u128 = 0;
    for listed in list {
        held = held.saturating_add(u128::from(listed.body.held));
        assert!(rt; table.body(listed.place) == Some(listed.body));
        assert!(rt; table.is_asked(listed.place) == listed.asked);
    }
    assert!(rt; table.held() == held);
    assert!(rt; table.len() == list.len());
    for name in NAMES {
        assert!(rt; table.of_upload(name) == newest(list, name));
    }
    assert_largest(rt, table, list);
}

#[test]
fn as_a_plain_list(rt: HostRuntime) -> Result<(), Fail> {
    let mut table = Unfinished::new(rt.alloc(), MOST)?;
    let mut list = Vec::new(rt.alloc());
    let mut seed: u64 = 20_261_126;
    for _ in 0..5000 {
        let at = (next(&mut seed) % 14) as usize;
        match next(&mut seed) % 8 {
            0..=2 => enter(&rt, &mut table, &mut list, random_body(&mut seed))?,
            3 | 4 => leave(&rt, &mut table, &mut list, at),
            5 => ask(&rt, &mut table, &mut list, at),
            _ => hold(&mut table, &mut list, at, next(&mut seed) % 100),
        }
        assert_same(&rt, &table, &list);
    }
    Ok(())
}

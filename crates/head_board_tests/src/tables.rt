//! A table of heads that follows notes.

ghost use Rattle.std.specs.Prelude.{◌≡◌};

use crate::moments::moment;
use head_board::HeadTable;
use std::process::Abort;
use std::test::Fail;
use upload_book::NotedChange::{Created, Gone, Grown, Next, Shared, Swept, Totals};
use upload_book::{
    Accounts, Bounds, Growth, HeadNote, Kind, Moment, Name, NotedChange, Numbers, Refusal, RowRef,
    Settings, SharedRow,
};
use worked_example::settings;

// The note of a change, after which so much was charged.
fn note(change: NotedChange, charged: u64) -> HeadNote {
    HeadNote {
        change,
        accounts: Accounts {
            charged,
            released: 0,
            charge: [0; 16],
        },
    }
}

/// The name of an upload.
pub fn name(tenant: u8, id: u64) -> Name
    ensures { result ≡ record { tenant = tenant; id = id } }
{
    Name { tenant, id }
}

// So many bytes of ten, and this end.
fn growth(offset: u64, expires: Option<Moment>) -> Growth {
    Growth {
        offset,
        declared: Some(10),
        expires,
    }
}

// A row of so many bytes of ten, with this metadata and this end.
fn row(offset: u64, metadata: &'static [u8; 6], expires: Option<Moment>) -> RowRef<'static> {
    RowRef::new(Kind::Plain, growth(offset, expires), metadata, b"")
}

/// Asserts the offset and the metadata that a HEAD of an upload finds, or why it finds none.
pub fn assert_shown(
    rt: &impl Abort,
    found: &Result<RowRef, Refusal>,
    expected: Result<(u64, &[u8]), Refusal>,
) {
    match (found, expected) {
        (Ok(row), Ok((offset, metadata))) => assert_row(rt, row, offset, metadata),
        (Err(found), Err(refusal)) => assert!(rt; *found == refusal),
        _ => assert!(rt; false, "a row, or none"),
    }
}

// A row of so many bytes of ten has this metadata.
fn assert_row(rt: &impl Abort, row: &RowRef, offset: u64, metadata: &[u8]) {
    let growth = row.growth();
    assert!(rt; growth.offset == offset);
    assert!(rt; growth.declared == Some(10));
    assert!(rt; row.metadata() == metadata);
}

// The tenant and the id of an upload.
type Place = (u8, u64);

// A note for a table, with how many blocks were charged after it, or what the table shows then.
enum Step {
    // A tenant has a new upload of so many bytes, this metadata and this end.
    Created(u8, u64, &'static [u8; 6], Option<u64>, u64),
    // An upload has so many bytes and this end.
    Grown(Place, u64, Option<u64>, u64),
    Gone(Place, u64),
    Swept(u64, u64),
    // A tenant's next upload gets this id.
    Next(Place, u64),
    // The accounts alone change.
    Totals(u64),
    // At a second an upload has so many bytes and this metadata, or is not shown.
    Shows(Place, u64, Result<(u64, &'static [u8]), Refusal>),
}

static FOLLOWED: [Step; 21] = [
    Step::Shows((0, 1), 1000, Err(Refusal::Unknown)),
    Step::Created(0, 0, b"key QQ", Some(5000), 0),
    Step::Shows((0, 1), 1000, Ok((0, b"key QQ"))),
    Step::Shows((0, 1), 5000, Err(Refusal::Gone)),
    Step::Grown((0, 1), 5, Some(5500), 2),
    Step::Shows((0, 1), 5000, Ok((5, b"key QQ"))),
    Step::Created(0, 7, b"key Qw", None, 4),
    Step::Created(1, 9, b"key RA", Some(5000), 7),
    Step::Shows((0, 2), 1000, Ok((7, b"key Qw"))),
    Step::Shows((1, 1), 1000, Ok((9, b"key RA"))),
    Step::Gone((0, 1), 7),
    Step::Shows((0, 1), 1000, Err(Refusal::Gone)),
    Step::Shows((0, 2), 1000, Ok((7, b"key Qw"))),
    Step::Swept(5000, 7),
    Step::Shows((1, 1), 1000, Err(Refusal::Gone)),
    Step::Shows((0, 2), 5000, Ok((7, b"key Qw"))),
    Step::Next((0, 9), 7),
    Step::Shows((0, 8), 5000, Err(Refusal::Gone)),
    Step::Created(0, 3, b"key UQ", None, 8),
    Step::Shows((0, 9), 5000, Ok((3, b"key UQ"))),
    Step::Totals(12),
];

// Asserts what a table shows of an upload at a second, or why nothing.
fn assert_shows(
    rt: &impl Abort,
    table: &HeadTable,
    name: Name,
    secs: u64,
    expected: Result<(u64, &[u8]), Refusal>,
) {
    assert_shown(rt, &table.look(&name, moment(rt, secs)), expected);
}

// Applies a note to a table, which then has what was charged after it.
fn apply(rt: &impl Abort, table: &mut HeadTable, change: NotedChange, charged: u64) {
    assert!(rt; table.apply(&note(change, charged)).is_ok());
    assert!(rt; table.accounts().charged == charged);
}

// Takes a table through one step.
fn take(rt: &impl Abort, table: &mut HeadTable, step: &Step) {
    match step {
        Step::Created(tenant, offset, metadata, expires, charged) => {
            let expires = expires.map(|end| moment(rt, end));
            let change = Created(*tenant, row(*offset, metadata, expires));
            apply(rt, table, change, *charged);
        }
        Step::Grown((tenant, id), offset, expires, charged) => {
            let expires = expires.map(|end| moment(rt, end));
            let change = Grown(name(*tenant, *id), growth(*offset, expires));
            apply(rt, table, change, *charged);
        }
        Step::Gone((tenant, id), charged) => apply(rt, table, Gone(name(*tenant, *id)), *charged),
        Step::Swept(secs, charged) => apply(rt, table, Swept(moment(rt, *secs)), *charged),
        Step::Next((tenant, id), charged) => apply(rt, table, Next(name(*tenant, *id)), *charged),
        Step::Totals(charged) => apply(rt, table, Totals, *charged),
        Step::Shows((tenant, id), secs, expected) => {
            assert_shows(rt, table, name(*tenant, *id), *secs, *expected)
        }
    }
}

#[test]
fn a_table_follows_its_notes(rt: HostRuntime) -> Result<(), Fail> {
    let mut table = HeadTable::new(rt.alloc(), &settings()?)?;
    for step in &FOLLOWED {
        take(&rt, &mut table, step);
    }
    assert_shows(&rt, &table, name(0, 10), 1000, Err(Refusal::Unknown));
    assert_shows(&rt, &table, name(2, 1), 1000, Err(Refusal::Unknown));
    Ok(())
}

/// Settings of one tenant with so many uploads at most, of which the last has this id.
pub fn narrow(uploads: u64, last_id: u64) -> Result<Settings, Fail> {
    let numbers = Numbers {
        blocks: 12,
        block_size: 4,
        lifetime: 3600,
        finished_lifetime: 0,
        max_size: 64,
        uploads,
        last_id,
        last_total: u64::MAX,
    };
    Ok(Settings::within(Bounds::Wide, numbers, &[(b"acme", 8)])?)
}

// A new upload of acme has as many bytes as blocks were charged.
fn create(rt: &impl Abort, table: &mut HeadTable, charged: u64, metadata: &'static [u8; 6]) {
    let created = Created(0, row(charged, metadata, None));
    assert!(rt; table.apply(&note(created, charged)).is_ok());
}

// Of three new uploads a table has room for two: after the third it is as after the second.
fn assert_two_fit(rt: &impl Abort, table: &mut HeadTable) {
    create(rt, table, 1, b"key QQ");
    create(rt, table, 2, b"key Qg");
    create(rt, table, 3, b"key Qw");
    assert_shows(rt, table, name(0, 3), 1000, Err(Refusal::Unknown));
    assert_shows(rt, table, name(0, 2), 1000, Ok((2, b"key Qg")));
    assert!(rt; table.accounts().charged == 2);
}

#[test]
fn a_note_without_room_changes_nothing(rt: HostRuntime) -> Result<(), Fail> {
    let mut table = HeadTable::new(rt.alloc(), &narrow(2, 9)?)?;
    assert_two_fit(&rt, &mut table);
    let mut table = HeadTable::new(rt.alloc(), &narrow(9, 2)?)?;
    assert_two_fit(&rt, &mut table);
    Ok(())
}

// A new upload of acme is shown, and is gone once it ends.
fn create_and_end(rt: &impl Abort, table: &mut HeadTable, id: u64) {
    create(rt, table, id, b"key QQ");
    assert_shows(rt, table, name(0, id), 1000, Ok((id, b"key QQ")));
    apply(rt, table, Gone(name(0, id)), id);
    assert_shows(rt, table, name(0, id), 1000, Err(Refusal::Gone));
}

#[test]
fn a_box_serves_the_next_upload(rt: HostRuntime) -> Result<(), Fail> {
    let mut table = HeadTable::new(rt.alloc(), &narrow(1, 9)?)?;
    for id in 1..6 {
        create_and_end(&rt, &mut table, id);
    }
    Ok(())
}

// Uploads of acme whose texts are shared are shown once nobody else owns these.
fn assert_shares(rt: &impl Abort, table: &mut HeadTable, shared: SharedRow) {
    apply(rt, table, Shared(0, shared.lent()), 1);
    apply(rt, table, Shared(0, shared.lent()), 2);
    drop(shared);
    assert_shows(rt, table, name(0, 1), 1000, Ok((7, b"key Qw")));
    assert_shows(rt, table, name(0, 2), 1000, Ok((7, b"key Qw")));
    create_and_end(rt, table, 3);
    assert_shows(rt, table, name(0, 1), 1000, Ok((7, b"key Qw")));
}

#[test]
fn texts_are_shared_where_there_is_no_box(rt: HostRuntime) -> Result<(), Fail> {
    for uploads in [64, 65] {
        let mut table = HeadTable::new(rt.alloc(), &narrow(uploads, 9)?)?;
        let shared = SharedRow::copied(rt.alloc(), &row(7, b"key Qw", None))?;
        assert_shares(&rt, &mut table, shared);
    }
    Ok(())
}

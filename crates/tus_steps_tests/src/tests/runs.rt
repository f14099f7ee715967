//! Runs: worked rows, and random events of three tenants.
use crate::tests::books::{at, book};
use crate::tests::requests::{Sent, TYPED};
use crate::tests::rows::{Row, rows};
use crate::tests::told::Told::{Created, Patched, Refused, Row as Shown};
use crate::tests::told::{Told, told_by};
use std::alloc::Global;
use std::process::Abort;
use std::test::Fail;
use tus_steps::{Field, Method, RangeAsked, Reply, Request, RunFault, TusFields, run};
use tus_text::{Path, read_path};
use upload_book::{Book, Moment, Numbers, Refusal, Settings};
use worked_example::FIELDS;

// Runs what the rows ask at a book.
fn check_run(rt: &impl Abort, alloc: Global, book: &mut Book, rows: &[Row]) -> Result<(), Fail> {
    let mut turns = Vec::new(alloc);
    for row in rows {
        turns.push((row.sent.request(), at(row.now)?))?;
    }
    let replies = run(alloc, book, turns.as_slice())?;
    assert_told(rt, replies.as_slice(), rows);
    Ok(())
}

// The replies tell what the rows say, one after another.
fn assert_told(rt: &impl Abort, replies: &[Reply], rows: &[Row]) {
    assert!(rt; replies.len() == rows.len());
    for (place, (reply, row)) in replies.iter().zip(rows).enumerate() {
        assert!(rt; told_by(reply) == row.told, "row {place}");
    }
}

static IN_ORDER: [Row; 4] = rows! {
    Post b"/files/acme" [length: Field::One(b"10")] b"" => Created(1, None, Some(4600));
    Patch b"/files/acme/1" [offset: Field::One(b"0"), media: TYPED] b"hello" => Patched(5, Some(4600));
    Patch b"/files/acme/1" [offset: Field::One(b"3"), media: TYPED] b"x" => Refused(Refusal::Offset, Some(4600));
    Head b"/files/acme/1" [] b"" => Shown(5, Some(10), b"", b"");
};

#[test]
fn a_run_answers_in_order(rt: HostRuntime) -> Result<(), Fail> {
    assert!(rt; RunFault::Memory.word() == "memory");
    let mut book = book(rt.alloc())?;
    check_run(&rt, rt.alloc(), &mut book, &[])?;
    check_run(&rt, rt.alloc(), &mut book, &IN_ORDER)
}

static FULL: [Row; 6] = rows! {
    Post b"/files/beta" [length: Field::One(b"16")] b"" => Created(1, None, Some(4600));
    Patch b"/files/beta/1" [offset: Field::One(b"0"), media: TYPED] b"bbbbbbbbbbbbbbbb" => Patched(16, None);
    Post b"/files/acme" [length: Field::One(b"32")] b"" => Created(1, None, Some(4600));
    Patch b"/files/acme/1" [offset: Field::One(b"0"), media: TYPED] b"aaaaaaaaaaaaaaaaaaaaaaaaaaaaaaaa" => Patched(32, None);
    Post b"/files/acme" [length: Field::One(b"1")] b"" => Created(2, None, Some(4600));
    Patch b"/files/acme/2" [offset: Field::One(b"0"), media: TYPED] b"x" => Refused(Refusal::Quota, Some(4600));
};

#[test]
fn a_full_tenant_leaves_room_for_its_neighbour(rt: HostRuntime) -> Result<(), Fail> {
    let mut book = book(rt.alloc())?;
    check_run(&rt, rt.alloc(), &mut book, &FULL)?;
    assert!(rt; book.free_blocks() == 0);
    Ok(())
}

/// How many random events there are.
const EVENTS: u64 = 1000;

/// What happens: a request of the tenant of this number, or a sweep.
#[derive(Drop)]
enum Event {
    Request(u64, Request<'static>),
    Sweep,
}

// A number that looks random, for each number (SplitMix64).
fn random(n: u64) -> u64 {
    let a = n.wrapping_mul(0x9E37_79B9_7F4A_7C15);
    let b = (a ^ (a >> 30)).wrapping_mul(0xBF58_476D_1CE4_E5B9);
    let c = (b ^ (b >> 27)).wrapping_mul(0x94D0_49BB_1331_11EB);
    c ^ (c >> 31)
}

// Where the uploads of the tenant of this number are created.
fn creations(tenant: u64) -> &'static [u8] {
    match tenant {
        0 => b"/files/acme",
        1 => b"/files/beta",
        _ => b"/files/gamma",
    }
}

// The path of an upload of a tenant.
fn upload(tenant: u64, id: u64) -> Path {
    match read_path(creations(tenant)) {
        Path::Create { tenant } => Path::Upload { tenant, id },
        other => other,
    }
}

// What joins two parts of a tenant.
fn parts(tenant: u64) -> &'static [u8] {
    match tenant {
        0 => b"final;/files/acme/1 /files/acme/2",
        1 => b"final;/files/beta/2 /files/beta/2",
        _ => b"final;/files/gamma/3",
    }
}

// A creation for a tenant with these fields and bytes.
fn creation_for(
    tenant: u64,
    fields: TusFields<Field<'static>>,
    body: &'static [u8],
) -> Request<'static> {
    Request {
        method: Method::Post,
        path: read_path(creations(tenant)),
        fields,
        body,
        range: RangeAsked::Unserved,
        given: 0,
        more: 0,
    }
}

const FOUR: TusFields<Field<'static>> = TusFields {
    length: Field::One(b"4"),
    ..FIELDS
};

const PART_OF_FOUR: TusFields<Field<'static>> = TusFields {
    concat: Field::One(b"partial"),
    ..FOUR
};

const FIRST_OF_NINE: TusFields<Field<'static>> = TusFields {
    length: Field::One(b"9"),
    media: TYPED,
    ..FIELDS
};

const AT_START: TusFields<Field<'static>> = TusFields {
    offset: Field::One(b"0"),
    media: TYPED,
    ..FIELDS
};

const AT_FOUR: TusFields<Field<'static>> = TusFields {
    offset: Field::One(b"4"),
    ..AT_START
};

// A request of this kind for a tenant and an id.
fn request_of(kind: u64, tenant: u64, id: u64) -> Request<'static> {
    match kind {
        0 => creation_for(tenant, FOUR, b""),
        1 => creation_for(tenant, FIRST_OF_NINE, b"abcd"),
        2 => creation_for(tenant, PART_OF_FOUR, b""),
        3 => {
            let concat = Field::One(parts(tenant));
            creation_for(tenant, TusFields { concat, ..FIELDS }, b"")
        }
        _ => request_at(kind, upload(tenant, id)),
    }
}

// A request of this kind at an upload.
fn request_at(kind: u64, path: Path) -> Request<'static> {
    let (method, fields, body) = match kind {
        4 | 5 | 6 => (Method::Patch, AT_START, b"abcd".as_slice()),
        7 => (Method::Patch, AT_FOUR, b"efghi".as_slice()),
        8 => (Method::Patch, AT_START, b"".as_slice()),
        9 => (Method::Get, FIELDS, b"".as_slice()),
        10 => (Method::Delete, FIELDS, b"".as_slice()),
        _ => (Method::Head, FIELDS, b"".as_slice()),
    };
    Request {
        method,
        path,
        fields,
        body,
        range: RangeAsked::Unserved,
        given: 0,
        more: 0,
    }
}

// The event of this number.
fn event_at(n: u64) -> Event {
    let drawn = random(n);
    if drawn % 32 == 0 {
        return Event::Sweep;
    }
    let tenant = (drawn >> 8) % 3;
    let id = 1 + (n / 22).saturating_sub((drawn >> 16) % 8);
    Event::Request(tenant, request_of((drawn >> 24) % 12, tenant, id))
}

// The moment of the event of this number.
fn moment(n: u64) -> Result<Moment, Fail> {
    at((1000 + random(n) % 8).saturating_add(n))
}

/// A server of three tenants: its requests that wait to be run, the tenants of all of them, and the replies so far.
#[derive(Drop)]
struct Server {
    alloc: Global,
    book: Book,
    turns: Vec<(Request<'static>, Moment)>,
    tenants: Vec<u64>,
    replies: Vec<Reply>,
}

impl Server {
    fn new(alloc: Global) -> Result<Server, Fail> {
        let numbers = Numbers {
            blocks: 16,
            block_size: 4,
            lifetime: 100,
            finished_lifetime: 0,
            max_size: 16,
            uploads: 8,
            last_id: 48,
            last_total: u64::MAX,
        };
        let tenants = [
            (b"acme".as_slice(), 8),
            (b"beta".as_slice(), 5),
            (b"gamma".as_slice(), 3),
        ];
        Ok(Server {
            alloc,
            book: Book::new(alloc, Settings::new(numbers, &tenants)?)?,
            turns: Vec::new(alloc),
            tenants: Vec::new(alloc),
            replies: Vec::new(alloc),
        })
    }

    // The server after all events, or after those of one tenant and the sweeps.
    fn after(alloc: Global, only: Option<u64>) -> Result<Server, Fail> {
        let mut server = Server::new(alloc)?;
        for n in 0..EVENTS {
            server.take(n, only)?;
        }
        server.run()?;
        Ok(server)
    }

    // Does the event of this number, unless it is a request of another tenant than the only one.
    fn take(&mut self, n: u64, only: Option<u64>) -> Result<(), Fail> {
        match event_at(n) {
            Event::Request(tenant, request) => {
                if only.is_none_or(|own| own == tenant) {
                    self.turns.push((request, moment(n)?))?;
                    self.tenants.push(tenant)?;
                }
            }
            Event::Sweep => {
                self.run()?;
                self.book.sweep(moment(n)?);
            }
        }
        Ok(())
    }

    // Runs the requests that wait.
    fn run(&mut self) -> Result<(), Fail> {
        for reply in run(self.alloc, &mut self.book, self.turns.as_slice())? {
            self.replies.push(reply)?;
        }
        self.turns.clear();
        Ok(())
    }

    // What the requests of a tenant were told.
    fn told_to(&self, tenant: u64) -> Result<Vec<Told<'_>>, Fail> {
        let mut told = Vec::new(self.alloc);
        for (of, reply) in self.tenants.iter().zip(&self.replies) {
            if *of == tenant {
                told.push(told_by(reply))?;
            }
        }
        Ok(told)
    }
}

// Whether two servers told a tenant the same.
fn tell_alike<'a>(one: &'a Server, other: &'a Server, tenant: u64) -> Result<bool, Fail> {
    let told = one.told_to(tenant)?;
    let also = other.told_to(tenant)?;
    Ok(told.as_slice() == also.as_slice())
}

// A tenant is told the same by a server of all as where its requests are the only ones.
fn assert_alone(rt: &impl Abort, all: &Server, tenant: u64) -> Result<(), Fail> {
    let own = Server::after(all.alloc, Some(tenant))?;
    assert!(rt; tell_alike(all, &own, tenant)?);
    Ok(())
}

#[test]
fn neighbours_change_no_reply(rt: HostRuntime) -> Result<(), Fail> {
    let all = Server::after(rt.alloc(), None)?;
    for tenant in 0..3 {
        assert_alone(&rt, &all, tenant)?;
    }
    Ok(())
}

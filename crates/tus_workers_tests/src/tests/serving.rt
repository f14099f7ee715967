//! What is served at the desks of a new store, and what is settled after it.

ghost use Rattle.std.specs.Prelude.{◌≡◌, None};

use crate::tests::at_once::{Connections, assert_answered, connected};
use crate::tests::connections::{assert_content, assert_replies, client};
use crate::tests::opening::{assert_balance, moment};
use crate::tests::script::Script;
use crate::tests::streams::{Row, serve_row};
use crate::tests::texts::{BETA_CREATED, BETA_PATCH, BETA_PATCHED, BETA_POST};
use connection_turns::{ClientBounds, WorkOptions};
use http_wire::Buffers;
use std::alloc::Global;
use std::io::Eprint;
use std::marker::Brand;
use std::net::{Ipv4Addr, Net, SocketAddr, TcpListener, TcpStream};
use std::process::Abort;
use std::sync::Wait;
use std::sync::ledger::{Blank, Ledger};
use std::test::Fail;
use std::thread::Threads;
use std::{mem, time};
use tus_shared::{Charges, Desk, Opened, Shared, settle};
use tus_workers::{
    Listener, NoJournal, ServerState, SocketListener, any_failed, dismiss, hire, work_all,
};
use upload_book::Settings;
use worked_example::{CREATED, PATCH, PATCHED, POST, settings};

/// What is served at the desks of a new store.
#[derive(Clone, Copy)]
pub enum Scene<'a> {
    /// One worker serves these clients, at most so many at once.
    AtOnce(Connections),
    /// Two workers serve a client each.
    Both,
    /// The same, but each worker is to accept three connections, and its second accept fails.
    BothUntilAFault,
    /// One desk serves the connections of these rows, one after another.
    Rows(&'a [Row]),
}

// The store and its desks.
#[derive(Drop)]
struct Stage<'a, C: Charges, R: Ledger, M: Ledger, W: Wait> {
    rt: &'a W,
    alloc: Global,
    shared: Shared<C, R, M, &'a W>,
    desks: Vec<Desk<C, R, M>>,
}

impl<
    C: Charges + Send + Sync,
    R: Ledger + Send + Sync,
    M: Ledger + Send + Sync,
    W: Threads
        + Wait
        + Abort
        + Net<Stream = TcpStream, Listener = TcpListener>
        + Eprint
        + time::Clock
        + Sync,
> Stage<'_, C, R, M, W> {
    fn play(&mut self, scene: &Scene) -> Result<(), Fail>
        requires { C.journal ≡ None }
    {
        match scene {
            Scene::AtOnce(connections) => self.serve_all(*connections),
            Scene::Both => self.serve_both::<SocketListener>(1, false),
            Scene::BothUntilAFault => self.serve_both::<Script<SocketListener>>(3, true),
            Scene::Rows(rows) => self.serve_rows(rows),
        }
    }

    // A worker at each desk does this work at a listener, and one of them fails, or none does.
    fn work<L: Listener + Drop>(
        &mut self,
        listener: &L,
        options: WorkOptions,
        fails: bool,
    ) -> Result<(), Fail>
    where
        L::Acceptor: Send + Drop,
    {
        let (rt, alloc) = (self.rt, self.alloc);
        let desks = mem::replace(&mut self.desks, Vec::new(alloc));
        let mut server_state = ServerState::new(alloc, desks.len(), &options)?;
        server_state.watch(rt)?;
        let room = Vec::with_capacity(alloc, desks.len())?;
        let room_after = Vec::with_capacity(alloc, desks.len())?;
        let mut workers = hire(listener, desks, room)?;
        work_all(
            rt,
            alloc,
            &self.shared,
            &NoJournal,
            workers.as_mut_slice(),
            options,
            &server_state,
        );
        assert!(rt; any_failed(workers.as_slice()) == fails);
        self.desks = dismiss(workers, room_after);
        Ok(())
    }

    fn serve_all(&mut self, connections: Connections) -> Result<(), Fail> {
        let (rt, alloc) = (self.rt, self.alloc);
        let listener = SocketListener::listen(rt, local())?;
        let clients = connected(rt, alloc, listener.place().port(), connections)?;
        let options = WorkOptions {
            bounds: ClientBounds {
                idle: 0,
                message_seconds: 0,
                least_rate: 1,
            },
            ..work_for(rt, connections.clients, connections.at_once)
        };
        self.work(&listener, options, false)?;
        assert_answered(rt, alloc, clients.as_slice(), connections.heads)
    }

    // Each worker is to accept so many connections.
    fn serve_both<L: Listener + Drop>(&mut self, accepts: u64, fails: bool) -> Result<(), Fail>
    where
        L::Acceptor: Send + Drop,
    {
        let (rt, alloc) = (self.rt, self.alloc);
        let listener = L::listen(rt, local())?;
        let acme = client(rt, listener.place().port(), &[POST, PATCH])?;
        let beta = client(rt, listener.place().port(), &[BETA_POST, BETA_PATCH])?;
        self.work(&listener, work_for(rt, accepts, 1), fails)?;
        assert_replies(rt, alloc, &acme, &[CREATED, PATCHED]);
        assert_replies(rt, alloc, &beta, &[BETA_CREATED, BETA_PATCHED]);
        Ok(())
    }

    fn serve_rows(&mut self, rows: &[Row]) -> Result<(), Fail>
        requires { C.journal ≡ None }
    {
        let desk = self.desks.pop().ok_or("a desk")?;
        let mut served = (desk, Buffers::new(self.alloc)?);
        for row in rows {
            served = serve_row(self.rt, self.alloc, &self.shared, served.0, served.1, row);
        }
        self.desks.push(served.0)?;
        Ok(())
    }
}

// A port of this machine that is free.
fn local() -> SocketAddr {
    SocketAddr::from((Ipv4Addr::LOCALHOST, 0))
}

// The work of a worker that is to accept so many connections, and serves so many at once.
fn work_for(rt: &impl Abort, connections: u64, at_once: usize) -> WorkOptions {
    WorkOptions {
        moment: Some(moment(rt)),
        connections,
        at_once,
        bounds: ClientBounds {
            idle: 30,
            message_seconds: 0,
            least_rate: 0,
        },
        body_memory: 268_435_456,
        piece: None,
        max_body: None,
        by_readiness: false,
        ranges: false,
        grace: None,
    }
}

// Plays a scene at the desks of a store of these brands, and asserts what is settled after it.
fn settle_after<
    C: Charges + Send + Sync,
    R: Ledger + Send + Sync,
    M: Ledger + Send + Sync,
    W: Threads
        + Wait
        + Abort
        + Net<Stream = TcpStream, Listener = TcpListener>
        + Eprint
        + time::Clock
        + Sync,
>(
    rt: &W,
    alloc: Global,
    settings: Settings,
    desks: usize,
    charged: Blank,
    released: Blank,
    made: Blank,
    events: Opened,
    scene: &Scene,
    balance: [u64; 3],
) -> Result<(), Fail>
    requires settings { settings ≡ C.settings }
    requires desks { desks ≡ C.desks }
    requires charged { (charged.name ≡ C.name) × (charged.parts ≡ C.parts) × (C.parts ≡ 16) }
    requires released { (released.name ≡ R.name) × (released.parts ≡ R.parts) × (R.parts ≡ 16) }
    requires made { (made.name ≡ M.name) × (made.parts ≡ M.parts) × (M.parts ≡ 16) }
    requires log { events.seen.book ≡ C.log }
    requires journal { C.journal ≡ None }
{
    let (shared, opened) = Shared::<C, R, M, &W>::open(
        rt, alloc, settings, desks, charged, released, made, events, None,
    )?;
    let mut stage = Stage {
        rt,
        alloc,
        shared,
        desks: opened,
    };
    stage.play(scene)?;
    let Stage {
        shared,
        desks: after,
        ..
    } = stage;
    assert!(rt; after.len() == desks, "each desk comes back");
    let (book, settled) = settle(shared, after);
    if let Scene::Both | Scene::BothUntilAFault = scene {
        assert_content(rt, &book);
    }
    assert_balance(rt, settled, balance);
    Ok(())
}

/// Plays a scene at so many desks of a new store, and asserts how many blocks were charged, were released, and are held
/// after it.
pub fn served<
    W: Threads
        + Wait
        + Abort
        + Net<Stream = TcpStream, Listener = TcpListener>
        + Eprint
        + time::Clock
        + Sync,
>(rt: &W, alloc: Global, desks: usize, scene: &Scene, balance: [u64; 3]) -> Result<(), Fail> {
    settle_after::<Brand, Brand, Brand, W>(
        rt,
        alloc,
        settings()?,
        desks,
        Blank::new(16),
        Blank::new(16),
        Blank::new(16),
        Opened::new(),
        scene,
        balance,
    )
}

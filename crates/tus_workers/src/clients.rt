//! The clients that one worker holds at once, each under a key.
ghost use Rattle.std.specs.Prelude.{◌≡◌, None};
ghost use mathlib.Core.List.{IsPrefix};
ghost use Rattle.slab.specs.Slab.{get};

use crate::bodies::Bodies;
use crate::client::{Client, Next};
use crate::noting::NotedReply;
use crate::precedence::{NewestFirst, upload_of};
use crate::witness::Witness;
use access_log::{Seen, Watch};
use connection_turns::{Busy, ClientBounds, ClientConnection, Durability, Late};
use http_wire::{Buffers, Clock};
use mio::Registry;
use mio::net::TcpStream;
use service_watch::Cut;
use slab::Slab;
use std::alloc::{AllocError, Global};
use std::sync::Wait;
use std::sync::ledger::Ledger;
use std::time;
use tus_shared::{Charges, Desk};
use unfinished_bodies::{Body, BodyPlace, Holder, UploadName};
use upload_book::Settings;

/// The clients of one worker, under keys that are the tokens of their streams.
#[derive(Drop)]
pub(crate) struct Clients<'a, 'n, W: Wait> {
    rt: &'a W,
    alloc: Global,
    bodies: &'a Bodies,
    // Which worker it is.
    number: usize,
    bounds: ClientBounds,
    settings: Settings,
    held: Slab<Client<'n>>,
    free: Vec<Buffers>,
    // Who has no message under way is let go.
    is_ending: bool,
    // What was seen and is not told yet; none where nobody watches.
    watch: Option<Watch<'a>>,
    // What the last reply tells.
    noted: &'n NotedReply,
}

impl<'a, 'n, W: Wait + time::Clock> Clients<'a, 'n, W> {
    /// No clients, at the worker with this number. The error is that there is no memory for so many.
    pub fn new(
        rt: &'a W,
        alloc: Global,
        bodies: &'a Bodies,
        number: usize,
        bounds: ClientBounds,
        settings: Settings,
        most: usize,
        watch: Option<Watch<'a>>,
        noted: &'n NotedReply,
    ) -> Result<Self, AllocError> {
        Ok(Clients {
            rt,
            alloc,
            bodies,
            number,
            bounds,
            settings,
            held: Slab::with_capacity(alloc, most)?,
            free: Vec::new(alloc),
            is_ending: false,
            watch,
            noted,
        })
    }

    /// How many clients there are.
    pub fn len(&self) -> usize {
        self.held.len()
    }

    /// Each client has a key below this number.
    pub fn key_bound(&self) -> usize {
        self.held.capacity()
    }

    /// Where what a reply tells is to be put; nowhere where nobody watches.
    pub fn noted(&self) -> Option<&'n NotedReply> {
        match self.watch {
            Some(_) => Some(self.noted),
            None => None,
        }
    }

    /// Notes that uploads that had expired were ended so often.
    pub fn note_sweeps(&mut self, sweeps: u64) {
        if let Some(watch) = &mut self.watch {
            watch.sweep(sweeps);
        }
    }

    /// Tells what was seen. The clock is asked only where somebody watches.
    pub fn publish<K: Clock>(&mut self, clock: &mut K) {
        if let Some(watch) = &mut self.watch {
            watch.publish(self.rt, clock.moment());
        }
    }

    /// Takes in a client at this second. Its stream is told of by its key as the token. One that can't be registered, or has no
    /// place, is let go.
    pub fn admit(
        &mut self,
        registry: &Registry,
        stream: TcpStream,
        client_connection: ClientConnection,
        second: u64,
    ) {
        let witness = Witness::new(seen_at(&mut self.watch, &stream), self.noted);
        let Ok(key) = self
            .held
            .insert(Client::new(stream, client_connection, second, witness))
        else {
            return;
        };
        let Some(client) = self.held.get_mut(key) else {
            return;
        };
        if client.register(registry, key).is_err() {
            let _ = self.held.try_remove(key);
        }
    }

    /// Notes that the input of the client with this key has ended, or its stream failed, if there is one.
    pub fn close(&mut self, key: usize) {
        if let Some(client) = self.held.get_mut(key) {
            client.close();
        }
    }

    /// Takes a turn of the client with this key, if there is one, at this second. One that ends is let go.
    pub fn turn<A: Durability, K: Clock>(
        &mut self,
        key: usize,
        answerer: &mut A,
        clock: &mut K,
        second: u64,
    ) -> Next
        ensures gone { result ≡ Next.Ends → get self.new.held key ≡ None }
    {
        let Some(client) = self.held.get_mut(key) else {
            return Next::Ends;
        };
        let precedence = NewestFirst {
            rt: self.rt,
            bodies: self.bodies,
            settings: &self.settings,
            holder: Holder {
                worker: self.number,
                client: key,
            },
            has_waited: client.has_waited(second),
        };
        begin_turn(&self.watch, self.rt, client);
        let next = client.turn(
            self.alloc,
            &mut self.free,
            answerer,
            clock,
            &precedence,
            second,
        );
        self.settle(key, next)
    }

    /// Sends what is pending of the client with this key, if there is one, at this second. All is kept that the desk has seen, so
    /// all that it tells. One that ends is let go.
    pub fn send<C: Charges, R: Ledger, M: Ledger>(
        &mut self,
        _desk: &Desk<C, R, M>,
        key: usize,
        second: u64,
    ) -> Next
        requires kept { IsPrefix _desk.now.seen _desk.now.kept }
        ensures gone { result ≡ Next.Ends → get self.new.held key ≡ None }
    {
        let Some(client) = self.held.get_mut(key) else {
            return Next::Ends;
        };
        let next = client.send(&mut self.free, second);
        self.settle(key, next)
    }

    // Notes what came of a turn of the client with this key, and lets it go where it ends. What becomes of it is given.
    fn settle(&mut self, key: usize, next: Next) -> Next
        ensures gone { result ≡ Next.Ends → get self.new.held key ≡ None }
        ensures stands { (list : _) → result ≡ Next.Stands list → next ≡ Next.Stands list }
    {
        let Some(client) = self.held.get_mut(key) else {
            return Next::Ends;
        };
        let holder = Holder {
            worker: self.number,
            client: key,
        };
        note_body(self.rt, self.bodies, &self.settings, client, holder);
        let unsent = client.unsent();
        gather(&mut self.watch, self.rt, client, unsent, next == Next::Ends);
        let is_over = self.is_ending && client.is_idle();
        match next {
            Next::Stands(list) => Next::Stands(list),
            Next::Waits if !is_over => Next::Waits,
            Next::Waits | Next::Ends => {
                self.remove(key);
                Next::Ends
            }
        }
    }

    /// The client that another worker, or a request of this one, asked to end at this place, and why. None where it is there no
    /// more.
    pub fn to_cut(&self, place: BodyPlace) -> Option<(usize, Cut)> {
        let key = self.bodies.client_to_cut(self.rt, self.number, place)?;
        if self.bodies.is_greatest(self.rt, place) {
            Some((key, Cut::Memory))
        } else {
            Some((key, Cut::Newer))
        }
    }

    /// The places of the bodies that are asked to end at this worker.
    pub fn take_asked(&self) -> Vec<BodyPlace> {
        self.bodies.take_asked(self.rt, self.number)
    }

    /// Has each client end after one more message at most. It is true the first time.
    pub fn end_soon(&mut self) -> bool {
        if self.is_ending {
            return false;
        }
        self.is_ending = true;
        for key in 0..self.held.capacity() {
            if let Some(client) = self.held.get_mut(key) {
                client.end_soon();
            }
        }
        true
    }

    /// Whether there is a client with this key that is too late at this second.
    pub fn is_late(&self, key: usize, second: u64) -> bool {
        match self.held.get(key) {
            Some(client) => client.is_late(second, self.bounds),
            None => false,
        }
    }

    /// For what the client with this key is too late, as far as that is told.
    pub fn lateness(&self, key: usize, second: u64) -> Cut {
        let late = match self.held.get(key) {
            Some(client) => client.lateness(second, self.bounds),
            None => None,
        };
        match late {
            Some(Late::Message) => Cut::Message,
            Some(Late::Rate) => Cut::Rate,
            Some(Late::Idle) | None => Cut::Idle,
        }
    }

    /// Has the rate of the client with this key, if there is one, counted anew at this second, where it is time for that.
    pub fn renew_pace(&mut self, key: usize, second: u64) {
        if let Some(client) = self.held.get_mut(key) {
            client.renew_pace(second);
        }
    }

    /// Cuts a client off for this reason, if there is one with this key.
    pub fn cut<A: Durability, K: Clock>(
        &mut self,
        key: usize,
        why: Cut,
        answerer: &mut A,
        clock: &mut K,
    )
        ensures { get self.new.held key ≡ None }
    {
        if let Some(client) = self.held.get_mut(key) {
            note_cut(&mut self.watch, client, why);
            let unsent = client.unsent();
            client.cut(self.alloc, &mut self.free, answerer, clock);
            gather(&mut self.watch, self.rt, client, unsent, true);
        }
        self.remove(key);
    }

    /// Lets a client go, if there is one with this key.
    pub fn remove(&mut self, key: usize)
        ensures { get self.new.held key ≡ None }
    {
        if let Some(client) = self.held.try_remove(key)
            && client.place.is_some()
        {
            let _ = self.bodies.note(self.rt, client.place, None);
        }
    }
}

// Notes that a client came, and gives what is to be seen of it.
fn seen_at(watch: &mut Option<Watch>, stream: &TcpStream) -> Seen {
    match watch {
        Some(watch) => {
            watch.accept();
            watch.record(stream.peer_addr().ok())
        }
        None => Seen::unwatched(),
    }
}

// Tells what is seen of a client that its turn begins.
fn begin_turn<W: time::Clock>(watch: &Option<Watch>, rt: &W, client: &mut Client) {
    if let Some(watch) = watch {
        client.witness.seen.begin_turn(watch.micros(rt));
    }
}

// Takes what was seen of a client after its turn, of whose replies so many bytes are not sent yet.
fn gather<W: time::Clock>(
    watch: &mut Option<Watch>,
    rt: &W,
    client: &mut Client,
    unsent: u64,
    has_ended: bool,
) {
    if let Some(watch) = watch {
        if client.has_failed {
            watch.cut(&client.witness.seen, Cut::Failed);
        }
        let micros = watch.micros(rt);
        watch.gather(&mut client.witness.seen, micros, unsent, has_ended);
    }
}

// Notes for what a client is cut off, if it is still talked with.
fn note_cut(watch: &mut Option<Watch>, client: &Client, why: Cut) {
    if let Some(watch) = watch
        && client.client_connection().is_some()
    {
        watch.cut(&client.witness.seen, why);
    }
}

// Tells all workers what this client holds of a body after its turn.
fn note_body<W: Wait>(
    rt: &W,
    bodies: &Bodies,
    settings: &Settings,
    client: &mut Client,
    holder: Holder,
) {
    if client.has_gone_on && client.place.is_some() {
        client.place = bodies.note(rt, client.place, None);
    }
    let body = body_of(client, settings, holder);
    if body.is_some() || client.place.is_some() {
        client.place = bodies.note(rt, client.place, body);
    }
}

// What a client holds of a body that it sends, of replies that it takes, or of room since a large body came.
fn body_of(client: &Client, settings: &Settings, holder: Holder) -> Option<Body> {
    let client_connection = client.client_connection()?;
    let held = client_connection.held() as u64;
    match client_connection.busy() {
        Busy::Idle | Busy::Head if held == 0 => None,
        _ => Some(Body {
            holder,
            upload: patched_by(client_connection, settings),
            held,
        }),
    }
}

// The upload to which it sends bytes: that of a PATCH, or the one that a creation in pieces has created.
fn patched_by(client_connection: &ClientConnection, settings: &Settings) -> Option<UploadName> {
    let message = client_connection.under_way()?;
    let request = message.request();
    if request.method.is_patch() {
        upload_of(settings, &request)
    } else {
        None
    }
}

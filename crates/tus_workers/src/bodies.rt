//! The bodies that are half read or half sent at all workers, and what the workers ask each other for.

use mio::{Poll, Token, Waker};
use std::alloc::{AllocError, Global};
use std::net::Net;
use std::sync::atomic::{AtomicUsize, Ordering};
use std::sync::{Mutex, Wait};
use std::{io, mem};
use unfinished_bodies::{Body, BodyPlace, Holder, Unfinished, UploadName};

/// The token of what other workers wake this one by. No client has it, since there are fewer keys.
const WAKER: Token = Token(usize::MAX - 1);

/// What a worker is asked for by the others, and by what it is woken.
#[derive(Drop)]
struct Mailbox {
    // The places of the bodies that it is to cut off.
    asked: Mutex<Vec<BodyPlace>>,
    // What tells it of events, until it has begun, and what others wake it by.
    poll: Mutex<Option<Poll>>,
    waker: Option<Waker>,
}

/// The bodies that are half read or half sent, at all workers of a server. Their memory is bounded for all of them together;
/// and a request finds by the name of its upload whether a body for it lies half read somewhere.
#[derive(Drop)]
pub(crate) struct Bodies {
    alloc: Global,
    known: Mutex<Known>,
    // How many bodies of known uploads are half read: where there is none, no request need take the lock.
    patches: AtomicUsize,
    boxes: Vec<Mailbox>,
    // How many bytes may be held in all.
    most: u64,
}

// The bodies, and which of them was asked to end since all hold too much.
#[derive(Drop)]
struct Known {
    table: Unfinished,
    greatest: Option<BodyPlace>,
}

/// A body to cut off.
#[derive(Clone, Copy)]
struct Order {
    place: BodyPlace,
    worker: usize,
}

impl Bodies {
    /// No bodies, of which there may be so many, with so many bytes in all, at so many workers. The error is that there is no
    /// memory for that.
    pub fn new(
        alloc: Global,
        workers: usize,
        places: usize,
        most: u64,
    ) -> Result<Self, AllocError> {
        let mut boxes = Vec::with_capacity(alloc, workers)?;
        for _ in 0..workers {
            boxes.push(Mailbox {
                asked: Mutex::new(Vec::new(alloc)),
                poll: Mutex::new(None),
                waker: None,
            })?;
        }
        Ok(Bodies {
            alloc,
            known: Mutex::new(Known {
                table: Unfinished::new(alloc, places)?,
                greatest: None,
            }),
            patches: AtomicUsize::new(0),
            boxes,
            most,
        })
    }

    /// Makes what tells the workers of events, so that they can be woken. The error is the system's.
    pub fn watch<N: Net>(&mut self, net: &N) -> io::Result<()> {
        for mailbox in self.boxes.iter_mut() {
            let poll = Poll::new(net)?;
            mailbox.waker = Some(Waker::new(poll.registry(), WAKER)?);
            mailbox.poll = Mutex::new(Some(poll));
        }
        Ok(())
    }

    /// What tells this worker of events. It is there once.
    pub fn take_poll<W: Wait>(&self, rt: &W, worker: usize) -> Option<Poll> {
        self.boxes.get(worker)?.poll.lock(rt).take()
    }

    /// Tells what a client holds after a turn: at this place, if it had one. The place is given at which it stands now. Where
    /// there is no room for one, the body stands nowhere. One whose upload is another now, as where a creation in pieces has
    /// created it, gets another place. Where a body gets a place, an older one that is half read for the same upload is asked to
    /// end. So is the body that holds most, where all hold too much.
    pub fn note<W: Wait>(
        &self,
        rt: &W,
        place: Option<BodyPlace>,
        body: Option<Body>,
    ) -> Option<BodyPlace> {
        match (place, body) {
            (None, None) => None,
            (None, Some(body)) => self.enter(rt, body),
            (Some(place), None) => {
                self.leave(rt, place);
                None
            }
            (Some(place), Some(body)) if self.is_for(rt, place, &body.upload) => {
                self.hold(rt, place, body.held);
                Some(place)
            }
            (Some(place), Some(body)) => {
                self.leave(rt, place);
                self.enter(rt, body)
            }
        }
    }

    // Whether the body at this place was entered for this upload.
    fn is_for<W: Wait>(&self, rt: &W, place: BodyPlace, upload: &Option<UploadName>) -> bool {
        match self.known.lock(rt).table.body(place) {
            Some(body) => body.upload == *upload,
            None => false,
        }
    }

    /// Whether a body for some known upload lies half read at a worker.
    pub fn has_half_read(&self) -> bool {
        self.patches.load(Ordering::Acquire) > 0
    }

    /// Whether a request for this upload may be answered now: no body for it lies half read, but by its own client. Else that
    /// one is asked to end.
    pub fn may_pass<W: Wait>(&self, rt: &W, name: &UploadName, holder: Holder) -> bool {
        let found = self.known.lock(rt).table.of_upload(*name);
        match found {
            Some((place, body)) if body.holder != holder => {
                self.ask(rt, place);
                false
            }
            _ => true,
        }
    }

    /// The places of the bodies that this worker is asked to cut off, each once.
    pub fn take_asked<W: Wait>(&self, rt: &W, worker: usize) -> Vec<BodyPlace> {
        match self.boxes.get(worker) {
            Some(mailbox) => mem::replace(&mut *mailbox.asked.lock(rt), Vec::new(self.alloc)),
            None => Vec::new(self.alloc),
        }
    }

    /// Whether the body at this place was asked to end since all together hold too much.
    pub fn is_greatest<W: Wait>(&self, rt: &W, place: BodyPlace) -> bool {
        self.known.lock(rt).greatest == Some(place)
    }

    /// The client that holds the body at this place, where that was asked to end and is at this worker.
    pub fn client_to_cut<W: Wait>(&self, rt: &W, worker: usize, place: BodyPlace) -> Option<usize> {
        let known = self.known.lock(rt);
        let body = known.table.body(place)?;
        if known.table.is_asked(place) && body.holder.worker == worker {
            Some(body.holder.client)
        } else {
            None
        }
    }

    fn enter<W: Wait>(&self, rt: &W, body: Body) -> Option<BodyPlace> {
        let older = match &body.upload {
            Some(name) => self.known.lock(rt).table.of_upload(*name),
            None => None,
        };
        if let Some((place, _)) = older {
            self.ask(rt, place);
        }
        let is_patch = body.upload.is_some();
        let held = body.held;
        let place = self.known.lock(rt).table.enter(body)?;
        if is_patch {
            self.patches.fetch_add(1, Ordering::AcqRel);
        }
        self.hold(rt, place, held);
        Some(place)
    }

    fn hold<W: Wait>(&self, rt: &W, place: BodyPlace, held: u64) {
        let greatest = self.hold_within(rt, place, held);
        if let Some(place) = greatest {
            self.ask(rt, place);
        }
    }

    // Notes how many bytes a body holds. The body that holds most is given where all hold too much, unless one was given that
    // has not ended yet.
    fn hold_within<W: Wait>(&self, rt: &W, place: BodyPlace, held: u64) -> Option<BodyPlace> {
        let mut known = self.known.lock(rt);
        known.table.hold(place, held);
        if known.table.held() <= u128::from(self.most) || known.is_cutting() {
            return None;
        }
        let (place, _) = known.table.largest()?;
        known.greatest = Some(place);
        Some(place)
    }

    // A body has come to its end. Who waits for that is woken.
    fn leave<W: Wait>(&self, rt: &W, place: BodyPlace) {
        let (was_asked, left) = self.take_out(rt, place);
        if let Some(body) = left
            && body.upload.is_some()
        {
            self.patches.fetch_sub(1, Ordering::AcqRel);
        }
        if was_asked {
            self.wake_all();
        }
    }

    /// Wakes all workers.
    pub fn wake_all(&self) {
        for mailbox in &self.boxes {
            wake(mailbox);
        }
    }

    // The body at this place, which is there no more, and whether it was asked to end.
    fn take_out<W: Wait>(&self, rt: &W, place: BodyPlace) -> (bool, Option<Body>) {
        let mut known = self.known.lock(rt);
        let was_asked = known.table.is_asked(place);
        (was_asked, known.table.leave(place))
    }

    // Asks the worker of a body to cut it off, unless it was asked for that before.
    fn ask<W: Wait>(&self, rt: &W, place: BodyPlace) {
        let Some(order) = self.order(rt, place) else {
            return;
        };
        let Some(mailbox) = self.boxes.get(order.worker) else {
            return;
        };
        let _ = mailbox.asked.lock(rt).push(order.place);
        wake(mailbox);
    }

    // What is asked for of a body that nobody asked for yet.
    fn order<W: Wait>(&self, rt: &W, place: BodyPlace) -> Option<Order> {
        let mut known = self.known.lock(rt);
        let body = known.table.body(place)?;
        if known.table.ask_to_cut(place) {
            Some(Order {
                place,
                worker: body.holder.worker,
            })
        } else {
            None
        }
    }
}

impl Known {
    // Whether the body that was asked to end for its memory is still there.
    fn is_cutting(&self) -> bool {
        match self.greatest {
            Some(place) => self.table.body(place).is_some(),
            None => false,
        }
    }
}

// Wakes a worker, if it can be.
fn wake(mailbox: &Mailbox) {
    if let Some(waker) = &mailbox.waker {
        let _ = waker.wake();
    }
}

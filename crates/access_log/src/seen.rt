//! What is seen of the requests of one client, until it is told.
ghost use Rattle.std.specs.Prelude.{◌≡◌, ◌≢◌, ◌-◌, None, Some, IfSome, false, true};
ghost use Rattle.tus_steps.specs.declared.method.Method.TheVariants.{Post};
ghost use Rattle.access_log.specs.Telling.{AreSent, IsAdded, begun_by, replied, told_of};

use service_watch::Word;
use std::alloc::Global;
use std::net::SocketAddr;
use tus_steps::Method;
use tus_text::Path;

/// The most bytes of a target that are told.
const TARGET_MAX: usize = 1_024;

/// A request that came in, or a part of one, as it is to be answered.
#[derive(Clone, Copy)]
pub struct SeenRequest<'a> {
    /// The method in force.
    pub method: Method,
    /// What its target names.
    pub path: &'a Path,
    /// Its target, as it was sent. The first 1,024 bytes are told, where the path names no tenant.
    pub target: &'a [u8],
    /// How many bytes came of its body so far.
    pub received: u64,
}

/// What a reply tells.
#[derive(Drop)]
pub struct SeenReply {
    /// Its status.
    pub status: u16,
    /// The status where it answers the last piece of a creation, which gets the reply to the creation.
    pub creation_status: u16,
    /// The word of its refusal; empty where it refuses nothing.
    pub word: Word,
}

/// One request that was answered.
#[derive(Drop)]
pub(crate) struct Answered {
    /// The method in force; none where no whole head came.
    pub method: Option<Method>,
    pub path: Path,
    /// What was asked for where the path names no tenant, or the first bytes of it.
    pub target: Vec<u8>,
    /// The status of its reply; none where it gets none.
    pub status: Option<u16>,
    /// The word of its refusal; empty where it was not refused.
    pub word: Word,
    /// How many bytes came of its body, and how many its reply has.
    pub received: u64,
    pub sent: u64,
    /// When its first byte came, in microseconds of the worker's clock.
    pub began: u64,
}

/// What is known of a client's requests that is not told yet.
#[derive(Drop)]
pub(crate) struct Record {
    pub peer: Option<SocketAddr>,
    /// The requests whose replies may not be sent yet.
    pub answered: Vec<Answered>,
    /// How many bytes were read and sent.
    pub received: u64,
    pub sent: u64,
    /// How many requests can't be told, since memory is lacking.
    pub lost: u64,
    alloc: Global,
    // What is being answered, and how many bytes were pending before.
    asked: Option<Answered>,
    before: usize,
    // When this turn began, and the message that is under way, in microseconds.
    now: u64,
    began: Option<u64>,
    // The request whose body has more pieces to come, as it began.
    begun: Option<Answered>,
}

/// What is seen of one client; nothing where nobody watches.
#[derive(Drop)]
pub struct Seen {
    pub(crate) record: Option<Box<Record>>,
}

impl Answered {
    // A request as it is told once it was answered, by this reply if it got one, of which so many bytes are sent. One that came
    // in pieces is told as it began.
    fn told(
        asked: Answered,
        begun: Option<Answered>,
        reply: Option<SeenReply>,
        sent: u64,
    ) -> Answered
        ensures { result ≡ told_of begun asked reply sent }
    {
        let whole = match begun {
            Some(begun) => Answered {
                received: asked.received,
                sent,
                ..begun
            },
            None => Answered { sent, ..asked },
        };
        match reply {
            Some(reply) if sent > 0 => whole.replied(reply),
            _ => whole,
        }
    }

    // The request with what its reply tells. A creation is told as one, also where its reply is that to its last piece.
    fn replied(self, reply: SeenReply) -> Answered
        ensures created { self.method ≡ Some Post → result.status ≡ Some reply.creation_status }
        ensures other { self.method ≢ Some Post → result.status ≡ Some reply.status }
        ensures all { result ≡ replied self reply }
    {
        let status = match self.method {
            Some(Method::Post) => reply.creation_status,
            _ => reply.status,
        };
        Answered {
            status: Some(status),
            word: reply.word,
            ..self
        }
    }
}

impl Record {
    /// Nothing is known yet of this client.
    pub fn new(alloc: Global, peer: Option<SocketAddr>) -> Self {
        Record {
            peer,
            answered: Vec::new(alloc),
            received: 0,
            sent: 0,
            lost: 0,
            alloc,
            asked: None,
            before: 0,
            now: 0,
            began: None,
            begun: None,
        }
    }

    /// Of how many requests, the first ones, all of the reply was sent, where so many bytes are not sent yet.
    pub fn sent_among(&self, unsent: u64) -> usize
        ensures sent { AreSent unsent self.entry.now.answered.items result }
    {
        let mut behind: u64 = 0;
        for place in (0..self.answered.len()).rev() {
            if behind >= unsent {
                return place + 1;
            }
            behind = behind.saturating_add(self.answered[place].sent);
        }
        0
    }

    // Notes how many bytes are pending before a reply, and gives when the message that it answers began.
    fn begin_reply(&mut self, pending: usize) -> u64 {
        self.before = pending;
        self.began.take().unwrap_or(self.now)
    }

    // A request whose body has more pieces to come is told with its last one, as it began. A reply that is not sent, as that to a
    // PATCH that was cut, is not told.
    fn answer(&mut self, is_in_pieces: bool, reply: Option<SeenReply>, pending: usize)
        ensures asked { self.new.asked ≡ None }
        ensures pieces { is_in_pieces ≡ true → (self.new.answered ≡ self.old.answered) ×
            (self.new.begun ≡ begun_by self.old.begun self.old.asked) }
        ensures last { is_in_pieces ≡ false → IfSome self.old.asked (λ asked.
            IsAdded (told_of self.old.begun asked reply (pending - self.old.before)) self.old.answered.items self.old.lost self.new.answered.items self.new.lost) }
        ensures nothing { self.old.asked ≡ None → self.new ≡ self.old }
    {
        let Some(asked) = self.asked.take() else {
            return;
        };
        if is_in_pieces {
            if self.begun.is_none() {
                self.begun = Some(asked);
            }
            return;
        }
        let sent = pending.saturating_sub(self.before) as u64;
        let answered = Answered::told(asked, self.begun.take(), reply, sent);
        if self.answered.push(answered).is_err() {
            self.lost = self.lost.saturating_add(1);
        }
    }
}

impl Seen {
    /// Nothing will be seen, since nobody watches.
    pub fn unwatched() -> Self {
        Seen { record: None }
    }

    /// Nothing is seen yet, and nothing will be told where there is no record.
    pub(crate) fn new(record: Option<Box<Record>>) -> Self {
        Seen { record }
    }

    /// Whether what happens is noted: somebody watches, and there was memory for that.
    pub fn is_watched(&self) -> bool {
        self.record.is_some()
    }

    /// A turn begins at this microsecond of its worker's clock ([`Watch::micros`](crate::Watch::micros)).
    pub fn begin_turn(&mut self, now: u64) {
        if let Some(record) = &mut self.record {
            record.now = now;
        }
    }

    /// So many bytes were read. The first ones of a message tell when it began.
    pub fn has_read(&mut self, bytes: usize) {
        if let Some(record) = &mut self.record {
            record.received = record.received.saturating_add(bytes as u64);
            if bytes > 0 && record.began.is_none() {
                record.began = Some(record.now);
            }
        }
    }

    /// So many bytes were sent.
    pub fn has_sent(&mut self, bytes: usize) {
        if let Some(record) = &mut self.record {
            record.sent = record.sent.saturating_add(bytes as u64);
        }
    }

    /// This request is to be answered now. Before its reply so many bytes are pending.
    pub fn asks(&mut self, request: &SeenRequest, pending: usize) {
        if let Some(record) = &mut self.record {
            let began = record.begin_reply(pending);
            record.asked = Some(answered_of(record.alloc, request, began));
        }
    }

    /// What came is to be refused now, since it is no whole head. Before the reply so many bytes are pending.
    pub fn asks_unreadable(&mut self, pending: usize) {
        if let Some(record) = &mut self.record {
            let began = record.begin_reply(pending);
            record.asked = Some(unknown_at(record.alloc, began));
        }
    }

    /// What came is to be answered now, and is no request that is told, as the end of the input. So many bytes are pending.
    pub fn asks_nothing(&mut self, pending: usize) {
        if let Some(record) = &mut self.record {
            let _ = record.begin_reply(pending);
            record.asked = None;
        }
    }

    /// What was to be answered was, by this reply if it got one, and now so many bytes are pending. Where these are no more than
    /// when it was asked, the reply is not sent, as that to a PATCH that was cut. Where this was a piece of a body with more to
    /// come (`is_in_pieces`), the request is told with its last one. Where memory is lacking, it is counted as lost.
    pub fn has_answered(&mut self, is_in_pieces: bool, reply: Option<SeenReply>, pending: usize) {
        if let Some(record) = &mut self.record {
            record.answer(is_in_pieces, reply, pending);
        }
    }
}

// What is known of a request before it is answered.
fn answered_of(alloc: Global, request: &SeenRequest, began: u64) -> Answered {
    Answered {
        method: Some(request.method),
        path: copied(request.path),
        target: target_of(alloc, request),
        status: None,
        word: Word::empty(),
        received: request.received,
        sent: 0,
        began,
    }
}

// The same of one whose head did not come whole.
fn unknown_at(alloc: Global, began: u64) -> Answered {
    Answered {
        method: None,
        path: Path::Other,
        target: Vec::new(alloc),
        status: None,
        word: Word::empty(),
        received: 0,
        sent: 0,
        began,
    }
}

// The first bytes of the target of a request whose path names no tenant; nothing where memory is lacking.
fn target_of(alloc: Global, request: &SeenRequest) -> Vec<u8> {
    let mut target = Vec::new(alloc);
    if matches!(request.path, Path::Other) {
        let sent = request.target;
        let _kept = target.extend_from_slice(sent.get(..TARGET_MAX).unwrap_or(sent));
    }
    target
}

fn copied(path: &Path) -> Path {
    match path {
        Path::Create { tenant } => Path::Create {
            tenant: tenant.copied(),
        },
        Path::Upload { tenant, id } => Path::Upload {
            tenant: tenant.copied(),
            id: *id,
        },
        Path::Other => Path::Other,
    }
}

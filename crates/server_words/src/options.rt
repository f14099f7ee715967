//! What the command line asks for: a command with its options.
ghost use Rattle.std.specs.Prelude.{◌≡◌, ◌<◌, IfSome, None, false};
ghost use Rattle.std.proofs.Props.{props};
ghost use Rattle.upload_book.specs.Settings.{is_outside};

use upload_book::{Moment, Numbers};

/// A command with what it was asked for.
#[derive(Clone, Copy)]
pub enum CommandOptions<'m, 'a> {
    Talk(TalkOptions<'m, 'a>),
    Serve(ServeOptions<'m, 'a>),
    /// `journal check`, of the journal in this folder.
    Check(&'a str),
    Export(ExportOptions<'a>),
}

/// What the command `talk` was asked for.
#[derive(Clone, Copy)]
pub struct TalkOptions<'m, 'a> {
    pub numbers: Numbers,
    /// The moment of every message.
    pub moment: Moment,
    /// The folder of the journal, where there is one.
    pub journal: Option<&'a str>,
    /// The size of the pieces in which bodies without a checksum are stored as they come; bodies are gathered where there is none.
    pub piece: Option<usize>,
    /// Words NAME:QUOTA, as they were given.
    pub tenants: &'m [&'a str],
    pub ghost pieces_have_bytes: { IfSome piece (λ n. 0 < n) } by { Prim.hlevel props },
}

/// What the command `serve` or `run` was asked for.
#[derive(Clone, Copy)]
pub struct ServeOptions<'m, 'a> {
    pub numbers: Numbers,
    /// Words NAME:QUOTA, as they were given.
    pub tenants: &'m [&'a str],
    /// The address that is listened at, as it was given.
    pub address: &'a str,
    /// The port that is listened at; 0 is any that is free.
    pub port: u16,
    /// The folder of the journal, where there is one.
    pub journal: Option<&'a str>,
    /// How many workers there are, from 1 to 16.
    pub workers: usize,
    pub work: WorkerOptions,
    /// The file of the log, where there is one; `-` is standard error.
    pub log: Option<&'a str>,
    /// The port at which numbers and a stop are asked for, where there is one.
    pub metrics: Option<u16>,
    pub ghost workers_in_range: { is_outside workers 16 ≡ false },
    pub ghost grace_with_port: { metrics ≡ None → work.grace ≡ None },
}

/// What each worker of a server was asked for.
#[derive(Clone, Copy)]
pub struct WorkerOptions {
    /// The moment of every message; the machine's clock where there is none.
    pub moment: Option<Moment>,
    /// How many connections it accepts.
    pub connections: u64,
    /// How many of them it holds at once, 1 or more.
    pub at_once: usize,
    /// For how many seconds a client may neither send nor take a byte; of this and the next two, 0 is no bound.
    pub idle: u64,
    /// How many seconds one message may take, head and body.
    pub message_seconds: u64,
    /// How many bytes a second a client has to send of a body, or to take of a reply.
    pub least_rate: u64,
    /// How many bytes all workers together may hold of bodies that are half read, and of replies that are half sent.
    pub body_memory: u64,
    /// The size of the pieces in which bodies without a checksum are stored as they come; bodies are gathered where there is none.
    pub piece: Option<usize>,
    /// The most bytes of a body that is gathered; where there is none, those of the greatest upload, and at most 16,777,216.
    pub max_body: Option<u64>,
    /// Whether clients are served by the readiness of their streams even where each worker holds one at a time.
    pub by_readiness: bool,
    /// Whether a GET may ask for a range of an upload's bytes.
    pub ranges: bool,
    /// For how many seconds messages that are under way may still end once a stop was asked for; none where nobody can ask for
    /// one.
    pub grace: Option<u64>,
}

/// What the command `journal export` was asked for.
#[derive(Clone, Copy)]
pub struct ExportOptions<'a> {
    /// The folder of the journal.
    pub folder: &'a str,
    /// The upload in it, as TENANT/ID.
    pub upload: &'a str,
}

//! What a service counts.
ghost use Rattle.std.specs.Prelude.{◌≡◌, [], map, position, MatchResult};
ghost use Rattle.service_watch.specs.Counts.{bucket_with, empty_histogram, histogram_with, is_named, is_reply_of, named_with, replies_with};

use std::alloc::{AllocError, Global};
use tus_text::Text;

/// The most bytes of a word that is counted: that of a refusal, a method or a cut.
pub const WORD_MAX: usize = 16;

/// A word that is counted.
pub type Word = Text<WORD_MAX>;

/// How often something of this name happened.
#[derive(Drop)]
pub struct NamedCount {
    pub name: Word,
    pub count: u64,
}

/// How many replies had this status, to requests of this method.
#[derive(Drop)]
pub struct ReplyCount {
    pub method: Word,
    pub status: u16,
    pub count: u64,
}

/// How many requests took no longer than a bound.
#[derive(Clone, Copy)]
pub struct Bucket {
    /// The bound, in microseconds.
    pub bound: u64,
    pub count: u64,
}

/// How long requests took. Each bucket counts those of the smaller ones too.
#[derive(Drop)]
pub struct Histogram {
    pub buckets: [Bucket; 14],
    /// The microseconds of all requests together.
    pub micros: u64,
    /// How many there were.
    pub count: u64,
}

/// What a service has counted since it began. Each number stays at 2^64 - 1 once it is there. What has not happened yet has
/// no row.
#[derive(Drop)]
pub struct Counts {
    /// Replies by method and status, in the order in which these first came.
    pub replies: Vec<ReplyCount>,
    /// Refusals by their words.
    pub refusals: Vec<NamedCount>,
    /// Connections that were cut off, by their reasons.
    pub cuts: Vec<NamedCount>,
    pub seconds: Histogram,
    /// Bytes that were read from clients, and that were written to them.
    pub received: u64,
    pub sent: u64,
    pub accepted: u64,
    pub sweeps: u64,
    pub lost_lines: u64,
}

impl Counts {
    /// Nothing was counted yet. It takes no memory.
    pub fn new(alloc: Global) -> Self
        ensures replies { result.replies.items ≡ [] }
        ensures refusals { result.refusals.items ≡ [] }
        ensures cuts { result.cuts.items ≡ [] }
        ensures seconds { result.seconds ≡ empty_histogram }
        ensures bytes { (result.received ≡ 0) × (result.sent ≡ 0) }
        ensures others { (result.accepted ≡ 0) × (result.sweeps ≡ 0) × (result.lost_lines ≡ 0) }
    {
        Counts {
            replies: Vec::new(alloc),
            refusals: Vec::new(alloc),
            cuts: Vec::new(alloc),
            seconds: Histogram::new(),
            received: 0,
            sent: 0,
            accepted: 0,
            sweeps: 0,
            lost_lines: 0,
        }
    }
}

impl Histogram {
    /// No requests.
    pub fn new() -> Self
        ensures { result ≡ empty_histogram }
    {
        Histogram {
            buckets: [
                up_to(500),
                up_to(1_000),
                up_to(2_500),
                up_to(5_000),
                up_to(10_000),
                up_to(25_000),
                up_to(50_000),
                up_to(100_000),
                up_to(250_000),
                up_to(500_000),
                up_to(1_000_000),
                up_to(2_500_000),
                up_to(5_000_000),
                up_to(10_000_000),
            ],
            micros: 0,
            count: 0,
        }
    }

    /// Counts a request that took so many microseconds: in each bucket whose bound it is not above.
    pub fn count_request(&mut self, micros: u64)
        ensures { self.new ≡ histogram_with micros self.old }
    {
        count_in(&mut self.buckets, micros);
        self.micros = self.micros.saturating_add(micros);
        self.count = self.count.saturating_add(1);
    }
}

// A bucket in which nothing was counted.
fn up_to(bound: u64) -> Bucket
    ensures { result ≡ record { bound = bound; count = 0 } }
{
    Bucket { bound, count: 0 }
}

fn count_in(buckets: &mut [Bucket], micros: u64)
    ensures { buckets.new ≡ map (bucket_with micros) buckets.old }
{
    for bucket in buckets.iter_mut() {
        *bucket = counted(*bucket, micros);
    }
}

// A bucket after a request that took so long.
fn counted(bucket: Bucket, micros: u64) -> Bucket
    ensures { result ≡ bucket_with micros bucket }
{
    if micros <= bucket.bound {
        Bucket {
            bound: bucket.bound,
            count: bucket.count.saturating_add(1),
        }
    } else {
        bucket
    }
}

/// Counts one of this name. The error is that memory is lacking for a name that has no row; then nothing is counted.
pub fn count_named(counts: &mut Vec<NamedCount>, name: &Word) -> Result<(), AllocError>
    ensures { MatchResult result (λ _. counts.new.items ≡ named_with name.now counts.old.items)
        (λ _. counts.new.items ≡ counts.old.items) }
{
    match place_of_name(counts, name) {
        Some(place) => {
            counts[place].count = counts[place].count.saturating_add(1);
            Ok(())
        }
        None => {
            counts.push(NamedCount {
                name: name.copied(),
                count: 1,
            })?;
            Ok(())
        }
    }
}

fn place_of_name(counts: &[NamedCount], name: &Word) -> Option<usize>
    ensures { result ≡ position (is_named name.now) counts.now }
{
    counts
        .iter()
        .position(|row| row.name.as_slice() == name.as_slice())
}

/// Counts one reply of this status to a request of this method. The error is that memory is lacking for a row that is not
/// there; then nothing is counted.
pub fn count_reply(
    counts: &mut Vec<ReplyCount>,
    method: &Word,
    status: u16,
) -> Result<(), AllocError>
    ensures { MatchResult result (λ _. counts.new.items ≡ replies_with method.now status counts.old.items)
        (λ _. counts.new.items ≡ counts.old.items) }
{
    match place_of_reply(counts, method, status) {
        Some(place) => {
            counts[place].count = counts[place].count.saturating_add(1);
            Ok(())
        }
        None => {
            counts.push(ReplyCount {
                method: method.copied(),
                status,
                count: 1,
            })?;
            Ok(())
        }
    }
}

fn place_of_reply(counts: &[ReplyCount], method: &Word, status: u16) -> Option<usize>
    ensures { result ≡ position (is_reply_of method.now status) counts.now }
{
    counts.iter().position(|row| row.status == status && row.method.as_slice() == method.as_slice())
}

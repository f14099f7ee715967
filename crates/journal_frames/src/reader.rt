ghost use Rattle.std.specs.Prelude.{◌≡◌, ◌+◌, ◌<◌, ◌≤◌, ◌^◌, ◌∷◌, [], ◌++◌, length, drop, Ok, Err, IfOk, IfErr, OnOk, OnErr, MatchResult};
ghost use Rattle.journal_frames.specs.Frames.{frame, first_frame, judged, number_at, opened, recovered, tail_of, weighed, Fits, Stands};

use crate::tail::Tail;
use crate::writer::{BODY_MAX, HEADER_LEN, balance};
use sqlite_disk::digest_of;

/// The frames of a file, read one after another. Each payload is lent from the file.
#[derive(Clone, Copy)]
pub struct Frames<'a> {
    /// The key of the file, under which the digests of its payloads were made.
    pub key: u64,
    /// What is not read yet.
    pub rest: &'a [u8],
}

impl<'a> Frames<'a> {
    /// The frames of a file under its key.
    pub fn new(key: u64, file: &'a [u8]) -> Frames<'a>
        ensures key { result.key ≡ key }
        ensures rest { result.rest.now ≡ file.now }
    {
        Frames { key, rest: file }
    }

    /// The next payload; or, where no whole frame stands, what stands there, and then each later call answers the
    /// same. It takes no memory.
    pub fn next(&mut self) -> Result<&'a [u8], Tail>
        ensures key { self.new.key ≡ self.old.key }
        ensures payload { IfOk result (λ payload.
            recovered self.old.key self.old.rest.now ≡ payload.now ∷ recovered self.old.key self.new.rest.now) }
        ensures same_tail { OnOk result (tail_of self.old.key self.old.rest.now ≡ tail_of self.old.key self.new.rest.now) }
        // what was read stands there, spelled so
        ensures stands { IfOk result (λ payload. self.old.rest.now ≡ frame self.old.key payload.now ++ self.new.rest.now) }
        ensures fits { IfOk result (λ payload. Fits payload.now) }
        ensures shorter { OnOk result (length self.new.rest.now < length self.old.rest.now) }
        ensures ended { OnErr result (recovered self.old.key self.old.rest.now ≡ []) }
        ensures tail { IfErr result (λ tail. tail_of self.old.key self.old.rest.now ≡ tail) }
        ensures unchanged { OnErr result (self.new.rest.now ≡ self.old.rest.now) }
    {
        let payload = first_frame(self.key, self.rest)?;
        let (_, rest) = self.rest.split_at(HEADER_LEN + payload.len());
        self.rest = rest;
        Ok(payload)
    }
}

// The payload of the frame that stands first, or what else stands there.
#[tactic(auto, unfolding(crate::specs::Frames::first_frame))]
fn first_frame(key: u64, file: &[u8]) -> Result<&[u8], Tail>
    ensures value { MatchResult result (λ payload. first_frame key file.now ≡ Ok payload.now) (λ tail. first_frame key file.now ≡ Err tail) }
    ensures stands { IfOk result (λ payload. Stands key file.now payload.now) }
{
    if file.len() < 16 {
        return Err(Tail::Cut);
    }
    let (len, rest) = number_at(file);
    let (told, behind) = number_at(rest);
    judged(key, len, told, behind)
}

// The payload of a frame that tells this length and this balance, by what stands behind these.
fn judged(key: u64, len: u64, told: u64, behind: &[u8]) -> Result<&[u8], Tail>
    ensures { MatchResult result (λ payload. judged key len told behind.now ≡ Ok payload.now) (λ tail. judged key len told behind.now ≡ Err tail) }
{
    if len > BODY_MAX as u64 {
        return Err(Tail::Damaged);
    }
    let len = len as usize;
    if behind.len() < len {
        return Err(Tail::Cut);
    }
    let (body, _) = behind.split_at(len);
    weighed(key, told, body)
}

// The payload of a body whose frame tells this balance.
fn weighed(key: u64, told: u64, body: &[u8]) -> Result<&[u8], Tail>
    requires { length body.now ≤ 2 ^ 32 + 8 }
    ensures { MatchResult result (λ payload. weighed key told body.now ≡ Ok payload.now) (λ tail. weighed key told body.now ≡ Err tail) }
{
    let lacking = balance(body);
    if told < lacking {
        Err(Tail::Torn)
    } else if told == lacking {
        opened(key, body)
    } else {
        Err(Tail::Damaged)
    }
}

// The payload of a body that balances.
fn opened(key: u64, body: &[u8]) -> Result<&[u8], Tail>
    ensures { MatchResult result (λ payload. opened key body.now ≡ Ok payload.now) (λ tail. opened key body.now ≡ Err tail) }
{
    let (told, payload) = body.split_at(body.len().min(8));
    if told == digest_of(key, payload).to_be_bytes().as_slice() {
        Ok(payload)
    } else {
        Err(Tail::Damaged)
    }
}

// The number whose eight bytes stand first, and what stands behind them.
fn number_at(bytes: &[u8]) -> (u64, &[u8])
    requires { 8 ≤ length bytes.now }
    ensures number { result.0 ≡ number_at bytes.now }
    ensures behind { result.1.now ≡ drop 8 bytes.now }
{
    let (number, rest) = bytes.split_at(8);
    let number = u64::from_be_bytes([
        number[0], number[1], number[2], number[3], number[4], number[5], number[6], number[7],
    ]);
    (number, rest)
}

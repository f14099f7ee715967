//! The book by a plain, slow program, for the tests. It keeps every upload that there ever was, as segments of
//! bytes, and counts ids, uploads and charges anew from them. It has no blocks, and keeps no texts.

use sha1::Sha1;
use std::alloc::Global;
use std::process::Abort;
use tus_text::Checksum;
use upload_book::{
    Appended, Chunk, Created, FirstChunk, Kind, Moment, Name, Numbers, Refusal, Refused, Removed,
    Swept,
};

/// Bytes, and the id of the upload to which they were sent.
#[derive(Drop)]
struct Segment {
    origin: u64,
    bytes: Vec<u8>,
}

#[derive(Drop)]
struct Upload {
    name: Name,
    has_ended: bool,
    kind: Kind,
    declared: Option<u64>,
    segments: Vec<Segment>,
    /// The second at which it expires, if it does.
    expires: Option<u64>,
}

impl Upload {
    fn offset(&self) -> u64 {
        let mut offset = 0u64;
        for segment in &self.segments {
            offset = offset.saturating_add(segment.bytes.len() as u64);
        }
        offset
    }

    fn is_complete(&self) -> bool {
        self.declared == Some(self.offset())
    }

    fn is_visible(&self, now: Moment) -> bool {
        !self.has_ended && !self.expires.is_some_and(|end| end <= now.secs())
    }

    fn content(&self, rt: &impl Abort, alloc: Global) -> Vec<u8> {
        let mut bytes = Vec::new(alloc);
        for segment in &self.segments {
            let copied = bytes.extend_from_slice(&segment.bytes);
            copied.expect(rt, "memory");
        }
        bytes
    }

    // Appends bytes to each of its segments. From then on it has this length and this end.
    fn append(
        &mut self,
        rt: &impl Abort,
        bytes: &[u8],
        declared: Option<u64>,
        expires: Option<u64>,
    ) {
        self.declared = declared;
        self.expires = expires;
        for segment in self.segments.iter_mut() {
            let copied = segment.bytes.extend_from_slice(bytes);
            copied.expect(rt, "memory");
        }
    }
}

/// The kind, the offset, the length and the end of an upload.
pub type PlainRow = (Kind, u64, Option<u64>, Option<u64>);

// The first of the refusals whose test holds.
fn refused_by(tests: &[(bool, Refusal)]) -> Result<(), Refusal> {
    match tests.iter().find(|test| test.0) {
        Some(test) => Err(test.1),
        None => Ok(()),
    }
}

// Whether a digest is another than that of the bytes, which is made of them one by one.
fn differs(check: Option<Checksum>, bytes: &[u8]) -> bool {
    let mut hasher = Sha1::new();
    for byte in bytes {
        hasher.update(&[*byte]);
    }
    let made = hasher.finalize();
    match check {
        Some(Checksum::Sha1(digest)) => digest != made,
        _ => false,
    }
}

// Whether a digest is by an algorithm that the book does not know.
fn is_other(check: Option<Checksum>) -> bool {
    matches!(check, Some(Checksum::Other))
}

fn refused(refusal: Refusal, expires: Option<u64>) -> Refused {
    Refused {
        refusal,
        expires: expires.and_then(Moment::new),
    }
}

/// When an upload expires, its tenant's place, and its id.
pub type Ending = [u64; 3];

// Whether one comes before another: by the first number in which they differ.
fn comes_before(one: &Ending, other: &Ending) -> bool {
    for place in 0..3 {
        if one[place] != other[place] {
            return one[place] < other[place];
        }
    }
    false
}

/// The settings' numbers, the quotas of two tenants, all uploads, and the totals of blocks charged and released.
#[derive(Drop)]
pub struct PlainBook {
    pub alloc: Global,
    pub numbers: Numbers,
    pub quotas: [u64; 2],
    pub charged: u64,
    pub released: u64,
    uploads: Vec<Upload>,
}

impl PlainBook {
    pub fn new(alloc: Global, numbers: Numbers, quotas: [u64; 2]) -> PlainBook {
        PlainBook {
            alloc,
            numbers,
            quotas,
            charged: 0,
            released: 0,
            uploads: Vec::new(alloc),
        }
    }

    /// What a tenant pays: for each id that was given, the most blocks that a segment of this origin takes.
    pub fn charge(&self, tenant: u8) -> u64 {
        let size = self.numbers.block_size.max(1);
        let mut sum = 0u64;
        for origin in 1..self.next(tenant) {
            let mut most = 0;
            for upload in &self.uploads {
                for segment in &upload.segments {
                    let is_paid = upload.name.tenant == tenant && !upload.has_ended;
                    if is_paid && segment.origin == origin {
                        most = most.max((segment.bytes.len() as u64).div_ceil(size));
                    }
                }
            }
            sum = sum.saturating_add(most);
        }
        sum
    }

    // Counts what a tenant pays more than before as charged, and what it pays less as released, which it gives.
    fn settle(&mut self, tenant: u8, before: u64) -> u64 {
        let after = self.charge(tenant);
        let less = before.saturating_sub(after);
        self.charged = self.charged.saturating_add(after.saturating_sub(before));
        self.released = self.released.saturating_add(less);
        less
    }

    // Whether an upload of this length may not have so many bytes.
    fn is_too_long(&self, length: Option<u64>, len: u64) -> bool {
        let most = length.unwrap_or(self.numbers.max_size);
        most > self.numbers.max_size || len > most
    }

    // How many blocks a segment takes more that grows to this offset.
    fn added(&self, before: u64, offset: u64) -> u64 {
        let size = self.numbers.block_size.max(1);
        offset.div_ceil(size).saturating_sub(before.div_ceil(size))
    }

    // The quota of a tenant.
    fn quota(&self, tenant: u8) -> u64 {
        self.quotas[usize::from(tenant.min(1))]
    }

    // The id that the tenant's next upload gets.
    fn next(&self, tenant: u8) -> u64 {
        let uploads = self.uploads.iter();
        let given = uploads.filter(|u| u.name.tenant == tenant).count() as u64;
        given.saturating_add(1)
    }

    // The upload that a request for a name sees.
    fn visible(&self, name: &Name, now: Moment) -> Result<&Upload, Refusal> {
        match self.uploads.iter().find(|u| u.name == *name) {
            Some(upload) if upload.is_visible(now) => Ok(upload),
            Some(_) => Err(Refusal::Gone),
            None => Err(Refusal::Unknown),
        }
    }

    // When an upload expires that is finished now.
    fn finished(&self, now: Moment) -> Option<u64> {
        let seconds = self.numbers.finished_lifetime;
        if seconds == 0 {
            return None;
        }
        Some(now.secs().saturating_add(seconds).min(253_402_300_799))
    }

    // When an upload expires that is touched now, which was done before or is now.
    fn touched(
        &self,
        kind: Kind,
        was_done: bool,
        done: bool,
        end: Option<u64>,
        now: Moment,
    ) -> Option<u64> {
        if kind == Kind::Plain && was_done {
            return end;
        }
        if kind == Kind::Plain && done {
            return self.finished(now);
        }
        let later = now.secs().saturating_add(self.numbers.lifetime);
        end.max(Some(later.min(253_402_300_799)))
    }

    // Keeps an upload under its tenant's next id, where the tenant may have one more and pay so many blocks more.
    fn add(&mut self, rt: &impl Abort, upload: Upload, added: u64) -> Result<Created, Refusal> {
        let name = upload.name;
        let tenant = name.tenant;
        let expires = upload.expires;
        let before = self.charge(tenant);
        let charge = before.saturating_add(added);
        let charged = self.charged.saturating_add(added);
        let uploads = self.uploads.iter();
        let count = uploads.filter(|u| u.name.tenant == tenant && !u.has_ended);
        let is_full = count.count() as u64 >= self.numbers.uploads;
        let is_spent = name.id > self.numbers.last_id || charged > self.numbers.last_total;
        refused_by(&[
            (is_full, Refusal::Uploads),
            (is_spent, Refusal::Spent),
            (charge > self.quota(tenant), Refusal::Quota),
        ])?;
        self.uploads.push(upload).expect(rt, "memory");
        self.settle(tenant, before);
        Ok(Created {
            name,
            expires: expires.and_then(Moment::new),
        })
    }

    /// A creation with first bytes, which may be none.
    pub fn create(
        &mut self,
        rt: &impl Abort,
        tenant: u8,
        kind: Kind,
        length: Option<u64>,
        first: &FirstChunk,
        now: Moment,
    ) -> Result<Created, Refusal> {
        let len = first.bytes.len() as u64;
        refused_by(&[
            (!first.typed, Refusal::Media),
            (self.is_too_long(length, len), Refusal::TooLong),
            (is_other(first.check), Refusal::Algorithm),
            (
                differs(first.check, first.bytes.as_slice()),
                Refusal::Mismatch,
            ),
        ])?;
        let id = self.next(tenant);
        let bytes = Vec::from_slice(self.alloc, first.bytes.as_slice()).expect(rt, "memory");
        let segment = Segment { origin: id, bytes };
        let upload = Upload {
            name: Name { tenant, id },
            has_ended: false,
            kind,
            declared: length,
            segments: vec![in self.alloc; segment].expect(rt, "memory"),
            expires: self.touched(kind, false, length == Some(len), None, now),
        };
        self.add(rt, upload, self.added(0, len))
    }

    pub fn concat(
        &mut self,
        rt: &impl Abort,
        tenant: u8,
        parts: &[Option<u64>],
        now: Moment,
    ) -> Result<Created, Refusal> {
        let mut segments = Vec::new(self.alloc);
        let mut done = true;
        let mut len = 0u64;
        for part in parts {
            let origin = part.unwrap_or(0);
            match self.visible(&Name { tenant, id: origin }, now) {
                Ok(upload) if upload.kind == Kind::Partial => {
                    done = done && upload.is_complete();
                    len = len.saturating_add(upload.offset());
                    let bytes = upload.content(rt, self.alloc);
                    let kept = segments.push(Segment { origin, bytes });
                    kept.expect(rt, "memory");
                }
                _ => {}
            }
        }
        let there = segments.len() == parts.len();
        let is_too_long = there && done && len > self.numbers.max_size;
        refused_by(&[
            (is_too_long, Refusal::TooLong),
            (!there, Refusal::Part),
            (!done, Refusal::PartOpen),
        ])?;
        let id = self.next(tenant);
        let upload = Upload {
            name: Name { tenant, id },
            has_ended: false,
            kind: Kind::Final,
            declared: Some(len),
            segments,
            expires: self.finished(now),
        };
        self.add(rt, upload, 0)
    }

    pub fn look(&self, name: &Name, now: Moment) -> Result<PlainRow, Refusal> {
        let u = self.visible(name, now)?;
        Ok((u.kind, u.offset(), u.declared, u.expires))
    }

    pub fn content(&self, rt: &impl Abort, name: &Name, now: Moment) -> Result<Vec<u8>, Refusal> {
        let upload = self.visible(name, now)?;
        refused_by(&[(!upload.is_complete(), Refusal::Unfinished)])?;
        Ok(upload.content(rt, self.alloc))
    }

    // Refuses a PATCH of an upload of this row.
    fn admit(&self, tenant: u8, row: PlainRow, chunk: &Chunk) -> Result<(), Refusal> {
        let (kind, at, declared, _) = row;
        let offset = at.saturating_add(chunk.bytes.len() as u64);
        let added = self.added(at, offset);
        let charge = self.charge(tenant).saturating_add(added);
        let charged = self.charged.saturating_add(added);
        let length = declared.or(chunk.length);
        let other = chunk.length.is_some() && chunk.length != length;
        refused_by(&[
            (kind == Kind::Final, Refusal::IsFinal),
            (!chunk.typed, Refusal::Media),
            (chunk.offset != at, Refusal::Offset),
            (other, Refusal::LengthFixed),
            (self.is_too_long(length, offset), Refusal::TooLong),
            (is_other(chunk.check), Refusal::Algorithm),
            (
                differs(chunk.check, chunk.bytes.as_slice()),
                Refusal::Mismatch,
            ),
            (charged > self.numbers.last_total, Refusal::Spent),
            (charge > self.quota(tenant), Refusal::Quota),
        ])
    }

    pub fn append(
        &mut self,
        rt: &impl Abort,
        name: &Name,
        chunk: &Chunk,
        now: Moment,
    ) -> Result<Appended, Refused> {
        let row = match self.look(name, now) {
            Ok(row) => row,
            Err(refusal) => return Err(refused(refusal, None)),
        };
        let (kind, at, declared, expires) = row;
        if let Err(refusal) = self.admit(name.tenant, row, chunk) {
            return Err(refused(refusal, expires));
        }
        let before = self.charge(name.tenant);
        let offset = at.saturating_add(chunk.bytes.len() as u64);
        let length = declared.or(chunk.length);
        let was_done = declared == Some(at);
        let expires = self.touched(kind, was_done, length == Some(offset), expires, now);
        for upload in self.uploads.iter_mut() {
            if upload.name == *name {
                upload.append(rt, chunk.bytes.as_slice(), length, expires);
            }
        }
        self.settle(name.tenant, before);
        Ok(Appended {
            offset,
            expires: expires.and_then(Moment::new),
        })
    }

    pub fn terminate(&mut self, name: &Name, now: Moment) -> Result<Removed, Refusal> {
        self.visible(name, now)?;
        let before = self.charge(name.tenant);
        for upload in self.uploads.iter_mut() {
            upload.has_ended = upload.has_ended || upload.name == *name;
        }
        let blocks = self.settle(name.tenant, before);
        Ok(Removed {
            blocks,
            released: blocks,
        })
    }

    /// The uploads that expire, in order: each at the place of as many as come before it.
    pub fn expiries(&self, rt: &impl Abort) -> Vec<Ending> {
        let mut endings = Vec::new(self.alloc);
        for upload in &self.uploads {
            if let Some(at) = upload.expires.filter(|_| !upload.has_ended) {
                let ending = [at, u64::from(upload.name.tenant), upload.name.id];
                let place = endings
                    .iter()
                    .filter(|other| comes_before(other, &ending))
                    .count();
                endings.insert(place, ending).expect(rt, "memory");
            }
        }
        endings
    }

    pub fn sweep(&mut self, now: Moment) -> Swept {
        let (acme, beta) = (self.charge(0), self.charge(1));
        let mut uploads = 0u64;
        for upload in self.uploads.iter_mut() {
            if !upload.has_ended && !upload.is_visible(now) {
                upload.has_ended = true;
                uploads = uploads.saturating_add(1);
            }
        }
        let blocks = self.settle(0, acme).saturating_add(self.settle(1, beta));
        Swept {
            uploads,
            blocks,
            released: blocks,
        }
    }
}

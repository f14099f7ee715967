ghost use Rattle.std.specs.Prelude.{◌≡◌, ◌⊎◌, ◌-◌, ◌≤◌, [], Err, length, min, vec_capacity, vec_len};
ghost use Rattle.upload_book.specs.Begun.{IsBegun, with_more};
ghost use Rattle.upload_book.specs.Book.{plain_of};
ghost use Rattle.upload_book.specs.Content.{LacksRoom, content_answer, len_answer, span_answer};
ghost use Rattle.upload_book.specs.PlainBook.{answer_of};
ghost use Rattle.upload_book.specs.Refusal.{IsAnswer};

use crate::book::Book;
use crate::head_row::Name;
use crate::moment::Moment;
use crate::refusal::Refusal;
use std::marker::Model;

/// Which bytes of an upload: at most so many, from a place on.
#[derive(Clone, Copy, Debug, PartialEq, Eq)]
pub struct ByteSpan {
    /// The place of the first, from 0.
    pub first: u64,
    /// How many, where the upload has as many from there on; else all that it has.
    pub count: u64,
}

impl ByteSpan {
    /// So many bytes from the start of an upload.
    pub fn front(count: u64) -> ByteSpan
        ensures { result ≡ record { first = 0; count = count } }
    {
        ByteSpan { first: 0, count }
    }
}

/// Bytes that were copied out of an upload before the rest of what a GET gives.
#[derive(Drop)]
pub struct Begun {
    /// The place of the first of them in the upload, from 0.
    pub first: u64,
    pub bytes: Vec<u8>,
}

impl Begun {
    // Those of them that begin this span: all, or none where they begin elsewhere or are more. The room stays.
    fn of_span(self, span: ByteSpan) -> Vec<u8>
        ensures bytes { (result.items ≡ []) ⊎ ((result.items ≡ self.bytes.items) × (self.first ≡ span.first)) }
        ensures few { length result.items ≤ span.count }
        ensures room { vec_capacity result ≡ vec_capacity self.bytes }
    {
        let mut bytes = self.bytes;
        if self.first != span.first || bytes.len() as u64 > span.count {
            bytes.clear();
        }
        bytes
    }
}

/// The bytes of an upload, copied out of the book. A contract sees the list of them.
#[derive(Drop)]
pub struct Content {
    bytes: Vec<u8>,
}

impl Model for Content {
    ghost use Rattle.std.specs.Prelude.{List, ℕ};

    ghost Value = { List ℕ };

    ghost view = { λ c. c.bytes.items };
}

impl Content {
    /// The content of these bytes.
    pub(crate) fn of(bytes: Vec<u8>) -> Content
        ensures { result ≡ bytes.items }
    {
        Content { bytes }
    }

    /// The bytes.
    pub fn as_slice(&self) -> &[u8]
        ensures { result.now ≡ self.now }
    {
        &self.bytes
    }

    /// The bytes as a vector, without copying them or taking memory.
    pub fn into_vec(self) -> Vec<u8>
        ensures { result.items ≡ self }
    {
        self.bytes
    }
}

impl Book {
    /// How many bytes a GET of an upload gives at `now`, where it asks for all; they never change. It is refused as
    /// [`Book::content`] is, but for Memory.
    pub fn content_len(&self, name: &Name, now: Moment) -> Result<u64, Refusal>
        ensures { result ≡ answer_of (plain_of self.now) name.now.tenant (len_answer name.now.id now) }
    {
        let place = self.store.place(name, now)?;
        let progress = self.store.progress(usize::from(name.tenant), place);
        if !progress.is_complete() {
            return Err(Refusal::Unfinished);
        }
        Ok(progress.offset)
    }

    /// What a GET of these bytes of an upload gives at `now`. Where `begun` has the first ones of them, the others are copied
    /// once behind these; else all are. Memory is taken only where its capacity is less than all of them; whoever reserved it
    /// before a lock was taken takes none under it.
    ///
    /// It is refused by the first of these that applies: Unknown where the id was never given, Gone
    /// where the upload has ended or expired, and Unfinished where the upload does not have all of its
    /// bytes; and where none of them does, as Memory where the vector has too little room and got no more.
    /// No bytes need no room.
    pub fn content(
        &self,
        name: &Name,
        now: Moment,
        span: ByteSpan,
        begun: Begun,
    ) -> Result<Content, Refusal>
        requires begun { IsBegun (plain_of self.now) name.now begun.first begun.bytes.items }
        ensures { IsAnswer
            (answer_of (plain_of self.now) name.now.tenant (span_answer span name.now.id now))
            (LacksRoom (vec_capacity begun.bytes) (answer_of (plain_of self.now) name.now.tenant (span_answer span name.now.id now)))
            (Err Refusal.Memory) result }
    {
        let place = self.store.place(name, now)?;
        let tenant = usize::from(name.tenant);
        if !self.store.progress(tenant, place).is_complete() {
            return Err(Refusal::Unfinished);
        }
        match self.store.read(tenant, place, span, begun.of_span(span)) {
            Ok(bytes) => Ok(Content::of(bytes)),
            Err(_) => Err(Refusal::Memory),
        }
    }

    /// Copies the next bytes of an upload behind those that `begun` has: at most `most`, and as many as there is room
    /// for. Where a GET at `now` is refused, it copies none. So the bytes of a GET can be copied piece by piece, with changes
    /// between, before [`Book::content`] gives them. It takes no memory.
    pub fn read_ahead(&self, name: &Name, now: Moment, begun: &mut Begun, most: usize)
        requires begun { IsBegun (plain_of self.now) name.now begun.old.first begun.old.bytes.items }
        ensures begins { IsBegun (plain_of self.now) name.now begun.new.first begun.new.bytes.items }
        ensures more { begun.new.bytes.items ≡ with_more (answer_of (plain_of self.now) name.now.tenant (content_answer name.now.id now))
            begun.old.first (min most (vec_capacity begun.old.bytes - vec_len begun.old.bytes)) begun.old.bytes.items }
        ensures first { begun.new.first ≡ begun.old.first }
        ensures room { vec_capacity begun.old.bytes ≤ vec_capacity begun.new.bytes }
    {
        let Ok(place) = self.store.place(name, now) else {
            return;
        };
        let tenant = usize::from(name.tenant);
        if !self.store.progress(tenant, place).is_complete() {
            return;
        }
        let done = begun.bytes.len();
        let count = most.min(begun.bytes.capacity() - done);
        let offset = begun.first.saturating_add(done as u64);
        self.store
            .read_onto(tenant, place, offset, count, &mut begun.bytes);
    }

    /// Nothing of an upload, for a GET for which nobody reserved room.
    pub fn none_begun(&self) -> Begun
        ensures { (result.first ≡ 0) × (result.bytes.items ≡ []) }
    {
        Begun {
            first: 0,
            bytes: self.no_room(),
        }
    }

    /// A vector without room.
    pub fn no_room(&self) -> Vec<u8>
        ensures { result.items ≡ [] }
    {
        Vec::new(self.alloc)
    }
}

//! What a desk does of a request before it takes the lock.
ghost use Rattle.std.specs.Prelude.{◌≡◌, [], IfSome};
ghost use Rattle.tus_shared.specs.Answers.{OnlyLooks};
ghost use Rattle.tus_shared.specs.Journal.{change_frame};
ghost use Rattle.tus_steps.specs.Asked.{change_in as change_asked};

use crate::charges::Charges;
use crate::desk::Desk;
use journal_records::frame_of;
use std::sync::ledger::Ledger;
use tus_steps::{Asked, Request};
use upload_book::{Begun, ByteSpan, Change, FirstChunk, Moment, Name, NewUpload};

impl<C: Charges, R: Ledger, M: Ledger> Desk<C, R, M> {
    /// Does of what a request asks for what can be done without the lock, so that the lock is held for less. The SHA-1 of a
    /// body is computed where it came with one: that of a PATCH where the heads tell that it will be compared, that of a
    /// creation where its own fields do. For a GET as much memory is reserved as the heads tell that it needs, for bytes from
    /// the place on from which it gives some; there may be too little. What is asked for stays what it is. It takes no lock, copies no text, and waits for nobody.
    pub(crate) fn work_ahead(&mut self, request: &Request, asked: &mut Asked, now: Moment) -> Begun
        ensures asked { asked.new ≡ asked.old }
        ensures empty { result.bytes.items ≡ [] }
        ensures desk { OnlyLooks self.old self.new }
    {
        match asked {
            Asked::Content(name) => return self.content_room(request, name, now),
            Asked::Change(asked) => {
                if self.may_compare(&asked.change, now) {
                    asked.change.digest();
                }
            }
            Asked::Options | Asked::Refused(_) | Asked::Look(_) => {}
        }
        self.room_for(ByteSpan::front(0))
    }

    // The frame of the record of the change that is asked for, where changes are journalled and there is memory for it.
    pub(crate) fn frame_ahead(&self, asked: &Asked, now: Moment) -> Option<Vec<u8>>
        ensures { IfSome result (λ frame. IfSome (change_asked asked.now) (λ found. frame.items ≡ change_frame C.journal found.change now)) }
    {
        match asked {
            Asked::Change(asked) => self.frame_for(&asked.change, now),
            _ => None,
        }
    }

    // The frame of the record of a change, where changes are journalled and there is memory for it.
    pub(crate) fn frame_for(&self, change: &Change, now: Moment) -> Option<Vec<u8>>
        ensures { IfSome result (λ frame. frame.items ≡ change_frame C.journal change.now now) }
    {
        let key = self.journal?;
        let Ok(room) = Vec::with_capacity(self.alloc, frame_len(change)) else {
            return None;
        };
        frame_of(room, key, now, change)
    }

    // Memory for the bytes that a GET gives of an upload that is complete, as far as the heads tell and there is some.
    fn content_room(&mut self, request: &Request, name: &Name, now: Moment) -> Begun
        ensures empty { result.bytes.items ≡ [] }
        ensures desk { OnlyLooks self.old self.new }
    {
        let len = match self.read_progress(name, now) {
            Some(Ok(progress)) if progress.is_complete() => progress.offset,
            _ => 0,
        };
        let span = match request.range.extent(len) {
            Some(extent) => extent.span(len),
            None => ByteSpan::front(0),
        };
        self.room_for(span)
    }

    // Memory for so many bytes from a place on, or for none where there is too little.
    fn room_for(&self, span: ByteSpan) -> Begun
        ensures { result.bytes.items ≡ [] }
    {
        let bytes = match Vec::with_capacity(self.alloc, span.count as usize) {
            Ok(room) => room,
            Err(_) => Vec::new(self.alloc),
        };
        Begun {
            first: span.first,
            bytes,
        }
    }

    // Whether the bytes of a change may come to be compared with a checksum, as far as can be told without the book.
    fn may_compare(&mut self, change: &Change, now: Moment) -> bool
        ensures { OnlyLooks self.old self.new }
    {
        match change {
            Change::Create { new, first, .. } => {
                may_compare_first(self.settings.numbers().max_size, new, first)
            }
            Change::Append { name, chunk } if chunk.check.is_some() => {
                let Some(Ok(progress)) = self.read_progress(name, now) else {
                    return false;
                };
                chunk
                    .refusal_by_row(self.settings.numbers(), &progress)
                    .is_none()
            }
            _ => false,
        }
    }
}

// Whether the first bytes of a new upload may come to be compared with a checksum: they are of the type that is wanted, and
// not too many.
fn may_compare_first(max_size: u64, new: &NewUpload, first: &FirstChunk) -> bool {
    let most = new.length.unwrap_or(max_size).min(max_size);
    first.check.is_some() && first.typed && first.bytes.len() as u64 <= most
}

// About how many bytes the frame of the record of a change has that a request asks for: so its memory is asked for once.
fn frame_len(change: &Change) -> usize {
    let long = match change {
        Change::Create { new, first, .. } => first
            .bytes
            .len()
            .saturating_add(new.metadata.len())
            .saturating_add(new.concat.len()),
        Change::Append { chunk, .. } => chunk.bytes.len(),
        Change::Concat { new, .. } => new.metadata.len().saturating_add(new.concat.len()),
        Change::Terminate(_) | Change::Sweep | Change::Restore(_) => 0,
    };
    long.saturating_add(FIELDS_LEN)
}

// As many bytes as the header of a frame and the fields of a record of fixed length take in most cases.
const FIELDS_LEN: usize = 128;

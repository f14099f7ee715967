//! The search for the head of the next message.
ghost use Rattle.std.specs.Prelude.{◌≡◌, ◌≢◌, ◌≤◌, ◌<◌, ◌+◌, ℕ, List, length, IfSome, IfNone};
ghost use Rattle.std.specs.Bool.{OnFalse, OnTrue};
ghost use Rattle.http_wire.specs.HeadText.{blank_len};
ghost use Rattle.http_wire.specs.inside.HeadSearch.{IsHeldBy, LooksFor, NeedsMore, Searching, search_start};

use crate::read::head_text::{HEAD_LIMIT, Scan, count_blank};
use crate::read::read_buffer::{READ_SIZE, ReadBuffer};

/// The head that the input begins with.
#[derive(Clone, Copy)]
pub enum HeadFound {
    Whole(usize),
    TooLong,
    Cut,
    Nothing,
}

/// A search for the head of the next message in what a read buffer holds. It touches no reader: each look goes on where the
/// last one stopped, and none looks at a byte that was seen before.
#[derive(Clone, Copy, PartialEq, Eq)]
pub struct Search {
    /// How far the search for the end of the head has come.
    pub scan: Scan,
    /// How many of the bytes that are held were searched: the head so far.
    pub seen: usize,
    /// How many line ends before the head were skipped.
    pub skipped: usize,
}

impl Search {
    /// A search that saw no byte yet.
    pub fn new() -> Self
        ensures { result ≡ search_start }
    {
        Search {
            scan: Scan::new(),
            seen: 0,
            skipped: 0,
        }
    }

    /// Whether it saw no byte yet.
    pub fn is_new(&self) -> bool
        ensures new { OnTrue result (self.now ≡ search_start) }
        ensures other { OnFalse result (self.now ≢ search_start) }
    {
        *self == Search::new()
    }

    /// Looks for the head in what is held. After `None` more has to be read: all that is held was seen, it is a part of a
    /// head or nothing, and there is room for a read.
    pub fn look(&mut self, read_buffer: &mut ReadBuffer) -> Option<HeadFound>
        requires seen { self.old.seen ≤ length read_buffer.old.held }
        requires few { self.old.skipped < HEAD_LIMIT }
        ensures finds { (bytes : List ℕ) → Searching bytes read_buffer.old.held self.old
            → LooksFor bytes read_buffer.new self.new result }
        ensures within { IfSome result (IsHeldBy read_buffer.new) }
        ensures more { IfNone result (NeedsMore read_buffer.new self.new) }
        ensures room { IfNone result (length read_buffer.new.held + READ_SIZE ≤ read_buffer.new.room) }
        ensures kept { self.new.skipped + length read_buffer.new.held ≡ self.old.skipped + length read_buffer.old.held }
        ensures ended { read_buffer.new.ended ≡ read_buffer.old.ended }
    {
        let blank = self.blank_in(read_buffer.held());
        read_buffer.skip(blank);
        self.skipped += blank;
        let held = read_buffer.held();
        let unseen = &held[self.seen..];
        if let Some(more) = self.scan.end_in(unseen) {
            let len = self.seen + more;
            return Some(if self.skipped + len <= HEAD_LIMIT {
                HeadFound::Whole(len)
            } else {
                HeadFound::TooLong
            });
        }
        self.seen = held.len();
        if self.skipped + self.seen >= HEAD_LIMIT {
            return Some(HeadFound::TooLong);
        }
        if !read_buffer.is_ended() {
            return None;
        }
        Some(if self.seen == 0 {
            HeadFound::Nothing
        } else {
            HeadFound::Cut
        })
    }

    // How many line ends stand before the head at the start of what is held. Where a part of it was seen, these were
    // skipped.
    fn blank_in(&self, held: &[u8]) -> usize
        ensures blank { (0 < self.now.seen → blank_len held.now ≡ 0) → result ≡ blank_len held.now }
        ensures within { result ≤ length held.now }
        ensures seen { self.now.seen ≤ length held.now → result + self.now.seen ≤ length held.now }
    {
        if self.seen > 0 { 0 } else { count_blank(held) }
    }
}

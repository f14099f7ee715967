//! Lines that wait to be written to a log.
ghost use Rattle.std.specs.Prelude.{◌≡◌, ◌+◌, ◌-◌, ◌^◌, ◌++◌, [], length, min, if◌then◌else◌, IsTrue};
ghost use Rattle.service_watch.specs.Line.{cut_text, request_text};
ghost use Rattle.service_watch.specs.Log.{lost_more, with_line};

use crate::line::{CutLine, RequestLine, put_cut, put_request};
use std::alloc::Global;
use std::marker::Model;

/// Lines that wait to be written to a log, and how many lines were lost. It does no input and output. A contract sees the text
/// that waits, and that number.
#[derive(Drop)]
pub struct Log {
    waiting: Vec<u8>,
    // Where a line is put together, so that it is put as a whole or not at all.
    line: Vec<u8>,
    lost: u64,
}

impl Model for Log {
    ghost use Rattle.service_watch.specs.Log as spec;

    ghost Value = { spec.Log };

    ghost view = { λ l. record { waiting = l.waiting.items; lost = l.lost } };
}

impl Log {
    /// A log in which nothing waits, and of which nothing was lost. It takes no memory.
    pub fn new(alloc: Global) -> Self
        ensures { result ≡ record { waiting = []; lost = 0 } }
    {
        Log {
            waiting: Vec::new(alloc),
            line: Vec::new(alloc),
            lost: 0,
        }
    }

    /// Puts the line of a request behind those that wait. It is false where memory is lacking; then the line is lost, and
    /// what waits is as it was.
    pub fn put_request(&mut self, line: &RequestLine) -> bool
        ensures { self.new ≡ with_line result (request_text line.now) self.old }
    {
        self.line.clear();
        let is_made = put_request(&mut self.line, line).is_ok();
        put_whole(&mut self.waiting, &mut self.lost, &self.line, is_made)
    }

    /// Puts the line of a connection that was cut off behind those that wait. It is false where memory is lacking; then the
    /// line is lost, and what waits is as it was.
    pub fn put_cut(&mut self, line: &CutLine) -> bool
        ensures { self.new ≡ with_line result (cut_text line.now) self.old }
    {
        self.line.clear();
        let is_made = put_cut(&mut self.line, line).is_ok();
        put_whole(&mut self.waiting, &mut self.lost, &self.line, is_made)
    }

    /// The lines that wait, one behind the other.
    pub fn waiting(&self) -> &[u8]
        ensures { result.now ≡ self.now.waiting }
    {
        &self.waiting
    }

    /// Lets the lines go that wait, since they were written.
    pub fn clear(&mut self)
        ensures { self.new ≡ record self.old { waiting = [] } }
    {
        self.waiting.clear();
    }

    /// Lets the lines go that wait, of which so many could not be written.
    pub fn lose(&mut self, lines: u64)
        ensures { self.new ≡ lost_more lines (record self.old { waiting = [] }) }
    {
        self.waiting.clear();
        self.lost = self.lost.saturating_add(lines);
    }

    /// How many lines were lost, up to 2^64 - 1.
    pub fn lost(&self) -> u64
        ensures { result ≡ self.now.lost }
    {
        self.lost
    }
}

// Puts a line that was made behind those that wait. One that was not, or for which memory is lacking, is lost.
fn put_whole(waiting: &mut Vec<u8>, lost: &mut u64, line: &[u8], is_made: bool) -> bool
    ensures made { IsTrue result → IsTrue is_made }
    ensures waiting { waiting.new.items ≡ (if result then waiting.old.items ++ line.now else waiting.old.items) }
    ensures lost { lost.new ≡ (if result then lost.old else min (lost.old + 1) (2 ^ 64 - 1)) }
{
    let is_put = is_made && waiting.extend_from_slice(line).is_ok();
    if !is_put {
        *lost = lost.saturating_add(1);
    }
    is_put
}

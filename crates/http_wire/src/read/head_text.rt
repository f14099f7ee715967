ghost use Rattle.std.specs.Prelude.{◌≡◌, ◌≤◌, length, IfSome, None};
ghost use Rattle.http_wire.specs.HeadText.{head_len_after, is_line_end, blank_len, ends_empty_line, has_many_lines};
ghost use Rattle.http_wire.specs.inside.Scan.{scanned};

use memchr::{memchr, memchr_iter};

/// The greatest number of bytes of a head, with the line ends before it.
pub const HEAD_LIMIT: usize = 16_384;

/// The most lines of a head with 64 fields: the first line, the fields and the empty line.
const LINE_LIMIT: usize = 66;

/// How far the search for the end of a head has come: the last two bytes that it saw. Bytes that come
/// later are searched from there on, and none is looked at twice.
#[derive(Clone, Copy, PartialEq, Eq)]
pub struct Scan {
    pub before: u8,
    pub last: u8,
}

impl Scan {
    /// A search that saw no byte yet.
    pub fn new() -> Self
        ensures before { result.before ≡ 0 }
        ensures last { result.last ≡ 0 }
    {
        Scan { before: 0, last: 0 }
    }

    /// How many of `bytes`, which follow those seen before, reach to the end of the first empty line.
    /// After `None` all of them are seen. It goes from one LF to the next.
    pub fn end_in(&mut self, bytes: &[u8]) -> Option<usize>
        ensures end { result ≡ head_len_after self.old.before self.old.last bytes.now }
        ensures within { IfSome result (λ n. n ≤ length bytes.now) }
        ensures seen { result ≡ None → self.new ≡ scanned self.old bytes.now }
    {
        let mut seen = 0;
        while let Some(more) = memchr(b'\n', &bytes[seen..]) {
            self.pass(&bytes[seen..seen + more]);
            if self.ends_empty_line() {
                return Some(seen + more + 1);
            }
            self.before = self.last;
            self.last = b'\n';
            seen += more + 1;
        }
        self.pass(&bytes[seen..]);
        None
    }

    // Goes past these bytes.
    fn pass(&mut self, bytes: &[u8])
        ensures { self.new ≡ scanned self.old bytes.now }
    {
        if let Some((last, others)) = bytes.split_last() {
            self.before = last_of(others, self.last);
            self.last = *last;
        }
    }

    // Whether an LF, as the next byte, ends an empty line.
    fn ends_empty_line(&self) -> bool
        ensures { result ≡ ends_empty_line self.now.before self.now.last 10 }
    {
        self.last == b'\n' || (self.last == b'\r' && self.before == b'\n')
    }
}

// The last of these bytes, or `before` where there are none.
fn last_of(bytes: &[u8], before: u8) -> u8
    ensures { (s : Scan) → s.last ≡ before → result ≡ (scanned s bytes.now).last }
{
    match bytes.split_last() {
        Some((byte, _)) => *byte,
        None => before,
    }
}

/// How many line ends stand at the start of `bytes`.
pub fn count_blank(bytes: &[u8]) -> usize
    ensures value { result ≡ blank_len bytes.now }
    ensures within { result ≤ length bytes.now }
{
    for (index, byte) in bytes.iter().enumerate() {
        if !is_line_end(*byte) {
            return index;
        }
    }
    bytes.len()
}

fn is_line_end(byte: u8) -> bool
    ensures { result ≡ is_line_end byte }
{
    byte == b'\r' || byte == b'\n'
}

/// Whether a head has more than 64 lines between its first line and its empty one.
pub fn has_many_lines(head: &[u8]) -> bool
    ensures { result ≡ has_many_lines head.now }
{
    memchr_iter(b'\n', head).nth(LINE_LIMIT).is_some()
}

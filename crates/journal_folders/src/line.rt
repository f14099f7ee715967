//! Lines of numbers with words between them.
ghost use Rattle.std.specs.Prelude.{◌≡◌, ◌+◌, ◌≤◌, ◌++◌, length};
ghost use Rattle.arrayvec.specs.ArrayString.{array_string_len};

use arrayvec::ArrayString;
use itoa::{Buffer, Integer};

/// Puts a number behind a line, and words behind the number. There must be room for the longest number.
pub fn put_number<N: Integer, const CAP: usize>(line: &mut ArrayString<CAP>, number: N, words: &str)
    requires { array_string_len line.old + N.MAX_STR_LEN + length words.now ≤ CAP }
    ensures bytes { line.new.bytes ≡ line.old.bytes ++ N.text number ++ words.now }
    ensures len { array_string_len line.new ≤ array_string_len line.old + N.MAX_STR_LEN + length words.now }
{
    let mut digits = Buffer::new();
    line.push_str(digits.format(number));
    line.push_str(words);
}

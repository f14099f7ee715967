//! The parts of a text between marks, each found by its number.
ghost use Rattle.std.specs.Prelude.{◌≡◌, ◌==◌, option_copied, slice_get};
ghost use Rattle.std.specs.List.{position_or_len, slice_split};

/// How many bytes stand before the first `mark`.
pub fn part_end(text: &[u8], mark: u8) -> usize
    ensures { result ≡ position_or_len (λ b. b == mark) text.now }
{
    for end in 0..text.len() {
        if text[end] == mark {
            return end;
        }
    }
    text.len()
}

/// The part with this number, from 0 on, of those that stand between the marks.
pub fn part_at(text: &[u8], mark: u8, number: usize) -> Option<&[u8]>
    ensures { option_copied result ≡ slice_get (slice_split (λ b. b == mark) text.now) number }
{
    let end = part_end(text, mark);
    if number == 0 {
        return Some(&text[..end]);
    }
    if end == text.len() {
        return None;
    }
    part_at(&text[end + 1..], mark, number - 1)
}

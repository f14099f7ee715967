//! Cuts of a text at a byte.
ghost use Rattle.std.specs.Prelude.{◌≡◌, ◌==◌, reverse};
ghost use Rattle.std.specs.List.{before_first, after_first};
ghost use Rattle.tus_text.specs.Cut.{skip_spaces, trim_spaces};

// What stands before the first `mark` and after it, or all of the text and nothing.
pub(crate) fn split_at_first(text: &[u8], mark: u8) -> (&[u8], &[u8])
    ensures before { result.0.now ≡ before_first (λ b. b == mark) text.now }
    ensures after { result.1.now ≡ after_first (λ b. b == mark) text.now }
{
    match text.iter().position(|byte| *byte == mark) {
        Some(place) => (&text[..place], &text[place + 1..]),
        None => (text, &[]),
    }
}

// The text without the spaces at both ends.
pub(crate) fn trim_spaces(text: &[u8]) -> &[u8]
    ensures { result.now ≡ trim_spaces text.now }
{
    trim_end(trim_start(text))
}

// The text without the spaces at its front.
pub(crate) fn trim_start(mut text: &[u8]) -> &[u8]
    ensures { result.now ≡ skip_spaces text.now }
{
    while let [b' ', rest @ ..] = text {
        text = rest;
    }
    text
}

// The text without the spaces at its end.
fn trim_end(mut text: &[u8]) -> &[u8]
    ensures { result.now ≡ reverse (skip_spaces (reverse text.now)) }
{
    while let [rest @ .., b' '] = text {
        text = rest;
    }
    text
}

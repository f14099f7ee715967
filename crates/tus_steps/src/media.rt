ghost use Rattle.std.specs.Prelude.{◌≡◌, reverse};
ghost use Rattle.std.specs.List.{before_first};
ghost use Rattle.std.specs.Prelude.{◌==◌};
ghost use Rattle.tus_steps.specs.Media.{is_patch_type as is_type, skip_blanks as skipped, trim_blanks as trimmed};

/// The content type of a PATCH, in lower case.
const PATCH_TYPE: &[u8] = b"application/offset+octet-stream";

/// Whether the value of a `Content-Type` field names the type of a PATCH, in any letter case and with
/// any parameters after a `;` (tus 1.0.0, Core Protocol, PATCH). In lower case and alone, as clients send it, it is told at once.
pub fn is_patch_type(value: &[u8]) -> bool
    ensures { result ≡ is_type value.now }
{
    if value == PATCH_TYPE {
        return true;
    }
    trim_blanks(before_semicolon(value)).eq_ignore_ascii_case(PATCH_TYPE)
}

fn before_semicolon(value: &[u8]) -> &[u8]
    ensures { result.now ≡ before_first (λ b. b == 59) value.now }
{
    match value.iter().position(|&b| b == b';') {
        Some(end) => value.split_at(end).0,
        None => value,
    }
}

/// The bytes without the spaces and tabs at both ends.
pub fn trim_blanks(bytes: &[u8]) -> &[u8]
    ensures { result.now ≡ trimmed bytes.now }
{
    skip_blanks_at_end(skip_blanks(bytes))
}

fn skip_blanks(bytes: &[u8]) -> &[u8]
    ensures { result.now ≡ skipped bytes.now }
{
    let mut rest = bytes;
    while let [b' ' | b'\t', tail @ ..] = rest {
        rest = tail;
    }
    rest
}

fn skip_blanks_at_end(bytes: &[u8]) -> &[u8]
    ensures { result.now ≡ reverse (skipped (reverse bytes.now)) }
{
    let mut rest = bytes;
    while let [head @ .., b' ' | b'\t'] = rest {
        rest = head;
    }
    rest
}

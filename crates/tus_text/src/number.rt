ghost use Rattle.std.specs.Prelude.{◌≡◌};
ghost use Rattle.tus_text.specs.Number.{number_of};

/// The number that `text` writes in decimal: one or more ASCII digits, of a value at most
/// 2^64 - 1. Leading zeros are accepted, however many. `None` where `text` is anything else: empty,
/// with a sign, a space or another byte, or of a greater value.
pub fn read_number(text: &[u8]) -> Option<u64>
    ensures { result ≡ number_of text.now }
{
    if text.is_empty() {
        return None;
    }
    let mut value: u64 = 0;
    for byte in text {
        if !byte.is_ascii_digit() {
            return None;
        }
        value = value.checked_mul(10)?.checked_add(u64::from(*byte - b'0'))?;
    }
    Some(value)
}

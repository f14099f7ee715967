//! A plain program for Base64 (RFC 4648, section 4): padded, and no bits left over.
ghost use Rattle.std.specs.Prelude.{◌≡◌, ◌↔◌, ◌<◌, ◌≤◌, ℕ, List, length, slice_index, IsTrue, IfSome, IfNone};
ghost use Rattle.base64.specs.Engines.{standard};
ghost use Rattle.base64.specs.GeneralPurpose.{IsBytes, encode_of};

// The symbols, in the order of their values.
const ALPHABET: [u8; 64] = *b"ABCDEFGHIJKLMNOPQRSTUVWXYZabcdefghijklmnopqrstuvwxyz0123456789+/";

// The value of a symbol.
fn symbol_value(symbol: u8) -> Option<usize>
    ensures some { IfSome result (λ value. (value < 64) × (value ≡ slice_index standard.decode_table symbol)) }
    ensures none { IfNone result (slice_index standard.decode_table symbol ≡ 255) }
{
    for value in 0..64 {
        if ALPHABET[value] == symbol {
            return Some(value);
        }
    }
    None
}

// Whether the four bytes of `group` are three bytes in Base64.
fn is_group(group: &[u8]) -> bool
    requires { length group.now ≡ 4 }
    ensures { IsTrue result ↔ ((bytes : List ℕ) × IsBytes bytes × (length bytes ≡ 3)
        × (group.now ≡ encode_of standard bytes)) }
{
    for place in 0..4 {
        if symbol_value(group[place]).is_none() {
            return false;
        }
    }
    true
}

// Whether the four bytes of `group` are one to three bytes in Base64.
fn is_last_group(group: &[u8]) -> bool
    requires { length group.now ≡ 4 }
    ensures { IsTrue result ↔ ((bytes : List ℕ) × IsBytes bytes × (0 < length bytes) × (length bytes ≤ 3)
        × (group.now ≡ encode_of standard bytes)) }
{
    if symbol_value(group[0]).is_none() {
        return false;
    }
    let Some(second) = symbol_value(group[1]) else {
        return false;
    };
    if group[2] == b'=' {
        return group[3] == b'=' && second % 16 == 0;
    }
    let Some(third) = symbol_value(group[2]) else {
        return false;
    };
    if group[3] == b'=' {
        return third % 4 == 0;
    }
    symbol_value(group[3]).is_some()
}

/// Whether `text` is some bytes in Base64, group by group.
pub fn is_base64(text: &[u8]) -> bool
    ensures { IsTrue result ↔ ((bytes : List ℕ) × IsBytes bytes × (text.now ≡ encode_of standard bytes)) }
{
    if text.is_empty() {
        return true;
    }
    let Some((group, rest)) = text.split_at_checked(4) else {
        return false;
    };
    if rest.is_empty() {
        return is_last_group(group);
    }
    is_group(group) && is_base64(rest)
}

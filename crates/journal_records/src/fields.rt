//! The fields of a record, each read from the front of some bytes: its value and the bytes behind it, or none where it is
//! not there.
ghost use Rattle.std.specs.Prelude.{◌≡◌, Some, None, IfSome, length, option_map};
ghost use Rattle.journal_records.specs.Reading.{Gives, byte_at, bytes_at, check_at, expires_at, flag_at, flag_more_at, nonzero_at, kind_at, name_at, number_at, optional_at, optional_text_at, text_at};

use tus_text::{Checksum, DIGEST_LEN};
use upload_book::{Kind, Moment, Name};

pub(crate) fn byte_of(bytes: &[u8]) -> Option<(u8, &[u8])>
    ensures { Gives (λ x. (x.0, x.1.now)) result (byte_at bytes.now) }
{
    match bytes {
        [] => None,
        [byte, rest @ ..] => Some((*byte, rest)),
    }
}

#[tactic(auto, unfolding(crate::specs::Reading::number_at))]
pub(crate) fn number_of(bytes: &[u8]) -> Option<(u64, &[u8])>
    ensures { Gives (λ x. (x.0, x.1.now)) result (number_at bytes.now) }
{
    if bytes.len() < 8 {
        return None;
    }
    let (front, rest) = bytes.split_at(8);
    let number = u64::from_be_bytes([
        front[0], front[1], front[2], front[3], front[4], front[5], front[6], front[7],
    ]);
    Some((number, rest))
}

#[tactic(auto, unfolding(crate::specs::Reading::bytes_at))]
fn bytes_of(len: u64, bytes: &[u8]) -> Option<(&[u8], &[u8])>
    ensures value { Gives (λ x. (x.0.now, x.1.now)) result (bytes_at len bytes.now) }
    ensures len { IfSome result (λ x. length x.0.now ≡ len) }
{
    let len = len as usize;
    if bytes.len() < len {
        return None;
    }
    let (front, rest) = bytes.split_at(len);
    Some((front, rest))
}

#[tactic(auto, unfolding(crate::specs::Reading::flag_at))]
pub(crate) fn flag_of(bytes: &[u8]) -> Option<(bool, &[u8])>
    ensures { Gives (λ x. (x.0, x.1.now)) result (flag_at bytes.now) }
{
    match bytes {
        [] => None,
        [0, rest @ ..] => Some((false, rest)),
        [1, rest @ ..] => Some((true, rest)),
        [_, ..] => None,
    }
}

#[tactic(auto, unfolding(crate::specs::Reading::nonzero_at))]
fn nonzero_of(bytes: &[u8]) -> Option<(u64, &[u8])>
    ensures { Gives (λ x. (x.0, x.1.now)) result (nonzero_at bytes.now) }
{
    let (n, rest) = number_of(bytes)?;
    if n == 0 {
        return None;
    }
    Some((n, rest))
}

#[tactic(auto, unfolding(crate::specs::Reading::flag_more_at))]
pub(crate) fn flag_more_of(bytes: &[u8]) -> Option<(bool, u64, &[u8])>
    ensures { Gives (λ x. ((x.0, x.1), x.2.now)) result (flag_more_at bytes.now) }
{
    match bytes {
        [] => None,
        [0, rest @ ..] => Some((false, 0, rest)),
        [1, rest @ ..] => Some((true, 0, rest)),
        [2, rest @ ..] => {
            let (more, rest) = nonzero_of(rest)?;
            Some((false, more, rest))
        }
        [3, rest @ ..] => {
            let (more, rest) = nonzero_of(rest)?;
            Some((true, more, rest))
        }
        [_, ..] => None,
    }
}

#[tactic(auto, unfolding(crate::specs::Reading::optional_at))]
pub(crate) fn optional_of(bytes: &[u8]) -> Option<(Option<u64>, &[u8])>
    ensures { Gives (λ x. (x.0, x.1.now)) result (optional_at bytes.now) }
{
    match bytes {
        [] => None,
        [0, rest @ ..] => Some((None, rest)),
        [1, rest @ ..] => {
            let (number, rest) = number_of(rest)?;
            Some((Some(number), rest))
        }
        [_, ..] => None,
    }
}

#[tactic(auto, unfolding(crate::specs::Reading::text_at))]
pub(crate) fn text_of(bytes: &[u8]) -> Option<(&[u8], &[u8])>
    ensures { Gives (λ x. (x.0.now, x.1.now)) result (text_at bytes.now) }
{
    let (len, rest) = number_of(bytes)?;
    bytes_of(len, rest)
}

#[tactic(auto, unfolding(crate::specs::Reading::check_at))]
pub(crate) fn check_of(bytes: &[u8]) -> Option<(Option<Checksum>, &[u8])>
    ensures { Gives (λ x. (x.0, x.1.now)) result (check_at bytes.now) }
{
    match bytes {
        [] => None,
        [0, rest @ ..] => Some((None, rest)),
        [1, rest @ ..] => {
            let (front, rest) = bytes_of(DIGEST_LEN as u64, rest)?;
            let mut digest = [0; DIGEST_LEN];
            digest.copy_from_slice(front);
            Some((Some(Checksum::Sha1(digest)), rest))
        }
        [2, rest @ ..] => Some((Some(Checksum::Other), rest)),
        [_, ..] => None,
    }
}

#[tactic(auto, unfolding(crate::specs::Reading::name_at))]
pub(crate) fn name_of(bytes: &[u8]) -> Option<(Name, &[u8])>
    ensures { Gives (λ x. (x.0, x.1.now)) result (name_at bytes.now) }
{
    let (tenant, rest) = byte_of(bytes)?;
    let (id, rest) = number_of(rest)?;
    Some((Name { tenant, id }, rest))
}

#[tactic(auto, unfolding(crate::specs::Reading::kind_at))]
pub(crate) fn kind_of(bytes: &[u8]) -> Option<(Kind, &[u8])>
    ensures { Gives (λ x. (x.0, x.1.now)) result (kind_at bytes.now) }
{
    match bytes {
        [] => None,
        [0, rest @ ..] => Some((Kind::Plain, rest)),
        [1, rest @ ..] => Some((Kind::Partial, rest)),
        [2, rest @ ..] => Some((Kind::Final, rest)),
        [_, ..] => None,
    }
}

#[tactic(auto, unfolding(crate::specs::Reading::expires_at, crate::specs::Reading::moment_at))]
pub(crate) fn expires_of(bytes: &[u8]) -> Option<(Option<Moment>, &[u8])>
    ensures { Gives (λ x. (x.0, x.1.now)) result (expires_at bytes.now) }
{
    match bytes {
        [] => None,
        [0, rest @ ..] => Some((None, rest)),
        [1, rest @ ..] => {
            let (secs, rest) = number_of(rest)?;
            let expires = Moment::new(secs)?;
            Some((Some(expires), rest))
        }
        [_, ..] => None,
    }
}

#[tactic(auto, unfolding(crate::specs::Reading::optional_text_at))]
pub(crate) fn optional_text_of(bytes: &[u8]) -> Option<(Option<&[u8]>, &[u8])>
    ensures { Gives (λ x. (option_map (λ text. text.now) x.0, x.1.now)) result (optional_text_at bytes.now) }
{
    match bytes {
        [] => None,
        [0, rest @ ..] => Some((None, rest)),
        [1, rest @ ..] => {
            let (text, rest) = text_of(rest)?;
            Some((Some(text), rest))
        }
        [_, ..] => None,
    }
}

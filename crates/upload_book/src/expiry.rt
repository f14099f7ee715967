//! When an upload expires (tus 1.0.0, Expiration).
ghost use Rattle.std.specs.Prelude.{◌≡◌, max, unwrap_or};
ghost use Rattle.upload_book.specs.Expiry.{finished_end, has_expired, lifetime_end, may_end, renewed};

use crate::head_row::Kind;
use crate::moment::Moment;
use crate::settings::Numbers;

/// When an upload that is touched at `now` expires: a lifetime later, or at the last moment that there
/// is.
pub fn lifetime_end(numbers: &Numbers, now: Moment) -> Moment
    ensures { result ≡ lifetime_end numbers.now now }
{
    now.after(numbers.lifetime)
}

/// When an upload that is finished at `now` expires, if finished ones end by themselves.
pub fn finished_end(numbers: &Numbers, now: Moment) -> Option<Moment>
    ensures { result ≡ finished_end numbers.now now }
{
    if numbers.finished_lifetime > 0 {
        Some(now.after(numbers.finished_lifetime))
    } else {
        None
    }
}

/// When an upload expires that is touched at `now`, where it expired at `before`, was complete or not, and is complete now or
/// not. One of its own that is finished by this ends as finished ones do, and one that was finished before as it did. Any
/// other ends a lifetime later, but not earlier than before. A new upload is one that had no end, and was not complete.
pub fn renewed(
    numbers: &Numbers,
    kind: Kind,
    was_complete: bool,
    is_complete: bool,
    before: Option<Moment>,
    now: Moment,
) -> Option<Moment>
    ensures { result ≡ renewed numbers.now kind was_complete is_complete before now }
{
    match kind {
        Kind::Plain if was_complete => before,
        Kind::Plain if is_complete => finished_end(numbers, now),
        Kind::Plain | Kind::Partial => Some(later_end(before, lifetime_end(numbers, now))),
        Kind::Final => before,
    }
}

// The later of two ends, of which the first may be lacking.
fn later_end(before: Option<Moment>, end: Moment) -> Moment
    ensures { result ≡ max (unwrap_or before 0) end }
{
    match before {
        Some(before) if before > end => before,
        _ => end,
    }
}

/// Whether an upload of this kind, complete or not, may have this end.
pub fn may_end(numbers: &Numbers, kind: Kind, is_complete: bool, expires: Option<Moment>) -> bool
    ensures { result ≡ may_end numbers.now kind is_complete expires }
{
    match kind {
        Kind::Plain if !is_complete => expires.is_some(),
        Kind::Partial => expires.is_some(),
        Kind::Plain | Kind::Final => numbers.finished_lifetime > 0 || expires.is_none(),
    }
}

/// Whether an upload with this end has expired at `now`.
pub fn has_expired(now: Moment, expires: Option<Moment>) -> bool
    ensures { result ≡ has_expired now expires }
{
    expires.is_some_and(|end| end <= now)
}

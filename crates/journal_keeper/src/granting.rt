//! How much of a journal's room a desk is granted.
ghost use Rattle.std.specs.Prelude.{◌≡◌, ◌+◌, ◌^◌, ◌<◌, Some, IfSome};
ghost use Rattle.journal_keeper.specs.Granting.{needed_for};

/// What a desk has room for beyond the records that it is to queue, so that uploads can be ended when there is no more.
pub(crate) const SPARE: u64 = 65_536;

/// What it is granted beyond that, so that it asks seldom.
pub(crate) const AHEAD: u64 = 4 << 20;

/// The room that a desk needs which has this room and is to queue so many bytes of records, where it has less.
pub(crate) fn needed_for(room: u64, bytes: u64) -> Option<u64>
    ensures value { result ≡ needed_for room bytes }
    ensures range { IfSome result (λ needed. needed + 4194304 < 2 ^ 64) }
{
    let needed = bytes.checked_add(SPARE)?;
    if room >= needed || needed > u64::MAX - AHEAD {
        return None;
    }
    Some(needed)
}

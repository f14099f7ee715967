ghost use Rattle.std.specs.Prelude.{◌≡◌};
ghost use Rattle.head_board.specs.inside.Rows.{earlier};

use upload_book::Moment;

/// The earlier of two ends, where there are any.
pub(crate) fn earlier(one: Option<Moment>, other: Option<Moment>) -> Option<Moment>
    ensures { result ≡ earlier one other }
{
    let Some(one) = one else {
        return other;
    };
    let Some(other) = other else {
        return Some(one);
    };
    if one <= other { Some(one) } else { Some(other) }
}

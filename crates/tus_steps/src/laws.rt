//! Laws of the definitions that the contracts cite: each is the contract of a function that does nothing.
ghost use Rattle.tus_steps.specs.InPieces.{PiecesAreTheRequest};
ghost use Rattle.tus_steps.specs.Isolation.{OtherNeighbours, OwnEvents, StepsSeeOneTenant};
ghost use Rattle.tus_steps.specs.Laws.{RequestsFollowOrder};

/// A request is refused before the book is asked by the first of its tests that holds, and these follow
/// the one order of refusals.
pub fn requests_follow_the_order()
    ensures { RequestsFollowOrder }
{}

/// A tenant's request is answered by the request, its moment, the numbers of the settings and the tenant's part of
/// the book, which every other request leaves; and what a sweep leaves of a part, that part and the moment say. The
/// replies to a tenant tell which id its next upload gets.
///
/// The exceptions are refusals for what all tenants share: memory, and the total of blocks that they may be charged.
/// A PATCH is `spent` for that total alone. A creation that is `spent` while the tenant has an id left is so for it; one
/// for which there is no id is none of the exceptions.
pub fn steps_see_one_tenant()
    ensures { StepsSeeOneTenant }
{}

/// Each of a tenant's requests gets the reply that it would get if no other tenant ever sent one. For every list of
/// requests and sweeps from an opening book, the replies to a tenant's requests are those that they get in the list
/// of its own events, which are its requests and all sweeps.
///
/// The premise is that none of these replies, in either list, is a refusal for what all tenants share: memory, or the
/// total of blocks that they may be charged. For which a reply is `spent`, the tenant's own requests and replies say: a
/// PATCH always for that total, and a creation as long as the replies so far left the tenant an id. A creation for which
/// there is no id is refused as `spent` in both lists.
pub fn own_events()
    ensures { OwnEvents }
{}

/// A tenant keeps its replies among other neighbours: on two servers with the same numbers and the same quota for it,
/// whoever else has a quota there and whatever the others send, the same own events get the same replies. None of
/// these is a refusal for what all tenants share.
pub fn other_neighbours()
    ensures { OtherNeighbours }
{}

/// A PATCH or a creation without a checksum may be taken in pieces. However it is cut, with nothing between, its pieces are its whole step:
/// where it is accepted as one at the moment of the last, each is accepted, and the last reply and the book are those of the
/// whole.
pub fn pieces_are_the_request()
    ensures { PiecesAreTheRequest }
{}

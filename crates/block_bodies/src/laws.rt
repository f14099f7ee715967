//! Laws of the definitions that the contracts cite: each is the contract of a function that does
//! nothing, and holds of every pool and list.
ghost use Rattle.block_bodies.specs.Laws.{MayHoldInParts, HoldsInParts, IsHeldInParts, GivesBackInParts};

/// The blocks of several bodies are one list: to hold, or to give back, two lists one after the other is to
/// hold, or to give back, the second after the first as one list, and each may be done where that may.
pub fn lists_in_parts()
    ensures may_hold { MayHoldInParts }
    ensures holds { HoldsInParts }
    ensures is_held { IsHeldInParts }
    ensures gives_back { GivesBackInParts }
{}

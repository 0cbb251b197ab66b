//! Laws of placements. The contract of each function here is a law, and the function does nothing.
ghost use Rattle.gc_placement.specs.Names.{ReachableIsPlaced};

/// A law of placements: what is reachable in a world is placed.
pub fn what_is_reachable_is_placed()
    ensures { ReachableIsPlaced }
{}

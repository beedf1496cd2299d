//! What holds of all images and their trails.
ghost use Rattle.sea_trail.specs.Laws.{OneTrail, OneReason, NotBoth, Grows, GrowsFrom, Rolls};

/// An image has one trail alone and isn't refused then, or it is refused for one reason alone.
/// Where the links of a trail stand and records go on behind it, these are added to it, whatever
/// lies elsewhere; where a new header goes on behind it, that segment is open.
pub fn trail_laws()
    ensures one { OneTrail }
    ensures not_both { NotBoth }
    ensures one_reason { OneReason }
    ensures grows { Grows }
    ensures grows_from { GrowsFrom }
    ensures rolls { Rolls }
{}

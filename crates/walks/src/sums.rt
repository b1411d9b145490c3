ghost use Rattle.walks.specs.Sums.{TimeIsSum, StrainIsLargest, HandoversAreSum, NoStopMet, NoStopAfterCalls};

/// What a walk costs under the three kinds, as a sum over the whole walk.
///
/// Under time: the time of each run and the penalty of each joint. Under strain: the largest strain.
/// Under hand-overs: the same as under time, and 4,294,967,296 for each joint of two different winches.
pub fn sums_stand()
    ensures time { TimeIsSum }
    ensures strain { StrainIsLargest }
    ensures handovers { HandoversAreSum }
{}

/// A walk over a rig's map that repeats no run takes at most 33,488,130 tenths, so neither sum is stopped.
pub fn no_stop_met()
    ensures rig { NoStopMet }
    ensures calls { NoStopAfterCalls }
{}

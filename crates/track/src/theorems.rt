ghost use Rattle.track.specs.History.{CallsStand};

/// Whole lists of calls: in every list of calls with their answers that the two states of a rig allow, beginning with a new rig,
/// each answer is right on the map worked out from the calls before it alone, and the rig holds the map worked out from all of them.
pub fn calls_stand()
    ensures { CallsStand }
{}

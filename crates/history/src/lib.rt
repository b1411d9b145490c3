#![tactic(auto)]

ghost use contract.Fact.{fact};
ghost use Rattle.history.specs.Events.{CallsStand};

pub mod rehearse;

/// Whole lists of calls: in every list of calls with their outcomes that the two states of a rig allow, beginning with a new rig,
/// each outcome is right on the map worked out from the calls before it alone. Each survey and route has a kind, a rule and a cost type of its own.
pub fn calls_stand()
    ensures* { fact 𝓤 CallsStand }
{}

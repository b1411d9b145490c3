ghost use Rattle.walks.specs.Costs.{handover_kind};
ghost use Rattle.std.proofs.Common.{rules};

use crate::kind::CostKind;

/// What a joint of two different winches counts besides its penalty: more than any time.
pub const CHANGE: u64 = 4_294_967_296;

/// The hand-overs of a walk before its time: the time, and 4,294,967,296 for each joint of two different winches.
/// It stops at 18,446,744,073,709,551,615.
#[derive(Clone, Copy, Drop)]
pub struct HandOvers;

impl CostKind for HandOvers {
    type Cost = u64;

    ghost meaning = { λ _. handover_kind };

    ghost lawful = { Prim.search rules };

    fn start(&self) -> u64 {
        0
    }

    fn at_most(&self, a: u64, b: u64) -> bool {
        a <= b
    }

    fn along(&self, cost: u64, time: u16, _strain: u8) -> u64 {
        cost.saturating_add(u64::from(time))
    }

    fn over(&self, cost: u64, penalty: u16, differ: bool) -> u64 {
        let change = if differ { CHANGE } else { 0 };
        cost.saturating_add(u64::from(penalty) + change)
    }
}

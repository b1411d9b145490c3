ghost use Rattle.walks.specs.Costs.{time_kind};
ghost use Rattle.std.proofs.Common.{rules};

use crate::kind::CostKind;

/// The time of a walk, its penalties included, in tenths of a second: it stops at 4,294,967,295.
#[derive(Clone, Copy, Drop)]
pub struct Time;

impl CostKind for Time {
    type Cost = u32;

    ghost meaning = { λ _. time_kind };

    ghost lawful = { Prim.search rules };

    fn start(&self) -> u32 {
        0
    }

    fn at_most(&self, a: u32, b: u32) -> bool {
        a <= b
    }

    fn along(&self, cost: u32, time: u16, _strain: u8) -> u32 {
        cost.saturating_add(u32::from(time))
    }

    fn over(&self, cost: u32, penalty: u16, _differ: bool) -> u32 {
        cost.saturating_add(u32::from(penalty))
    }
}

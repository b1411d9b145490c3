ghost use Rattle.company.specs.Own.{wear_kind};
ghost use Rattle.std.proofs.Common.{rules};

use walks::kind::CostKind;

/// What a walk wears the ropes: each run's time times its strain, added up. Joints wear nothing.
/// It stops at 18,446,744,073,709,551,615.
#[derive(Clone, Copy, Drop)]
pub struct Wear;

impl CostKind for Wear {
    type Cost = u64;

    ghost meaning = { λ _. wear_kind };

    ghost lawful = { Prim.search rules };

    fn start(&self) -> u64 {
        0
    }

    fn at_most(&self, a: u64, b: u64) -> bool {
        a <= b
    }

    fn along(&self, cost: u64, time: u16, strain: u8) -> u64 {
        cost.saturating_add(u64::from(time) * u64::from(strain))
    }

    fn over(&self, cost: u64, _penalty: u16, _differ: bool) -> u64 {
        cost
    }
}

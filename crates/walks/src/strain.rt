ghost use Rattle.walks.specs.Costs.{strain_kind};
ghost use Rattle.std.proofs.Common.{rules};

use crate::kind::CostKind;

/// The largest strain of a walk's runs, in percent of rated load. Joints count nothing.
#[derive(Clone, Copy, Drop)]
pub struct Strain;

impl CostKind for Strain {
    type Cost = u8;

    ghost meaning = { λ _. strain_kind };

    ghost lawful = { Prim.search rules };

    fn start(&self) -> u8 {
        0
    }

    fn at_most(&self, a: u8, b: u8) -> bool {
        a <= b
    }

    fn along(&self, cost: u8, _time: u16, strain: u8) -> u8 {
        cost.max(strain)
    }

    fn over(&self, cost: u8, _penalty: u16, _differ: bool) -> u8 {
        cost
    }
}

ghost use Rattle.std.specs.Prelude.{◌≡◌, ◌+◌, min};
ghost use Rattle.walks.specs.Costs.{time_top};
ghost use Rattle.desk.specs.Desks.{named_kind};
ghost use Rattle.std.proofs.Common.{rules};

use tape::command::KindName;
use walks::hand_overs::HandOvers;
use walks::kind::CostKind;

/// The kind of cost of this name, with costs of 64 bits whichever it is.
#[derive(Clone, Copy, Drop)]
pub struct ByName(pub KindName);

impl CostKind for ByName {
    type Cost = u64;

    ghost meaning = { λ k. named_kind k.0 };

    ghost lawful = { Prim.search rules };

    fn start(&self) -> u64 {
        0
    }

    fn at_most(&self, a: u64, b: u64) -> bool {
        a <= b
    }

    fn along(&self, cost: u64, time: u16, strain: u8) -> u64 {
        match self.0 {
            KindName::Time => add_time(cost, time),
            KindName::Strain => cost.max(u64::from(strain)),
            KindName::HandOvers => HandOvers.along(cost, time, strain),
        }
    }

    fn over(&self, cost: u64, penalty: u16, differ: bool) -> u64 {
        match self.0 {
            KindName::Time => add_time(cost, penalty),
            KindName::Strain => cost,
            KindName::HandOvers => HandOvers.over(cost, penalty, differ),
        }
    }
}

/// The time `cost` and `tenths` more, which stops at 4,294,967,295.
fn add_time(cost: u64, tenths: u16) -> u64
    ensures { result ≡ min (cost + tenths) time_top }
{
    cost.saturating_add(u64::from(tenths))
        .min(u64::from(u32::MAX))
}

use tape::command::KindName;
use track::run::Run;
use walks::hand_overs::HandOvers;
use walks::kind::CostKind;
use walks::strain::Strain;
use walks::time::Time;

/// What is asked: by which kind of cost and hand-over rule, over which runs, from which home.
#[derive(Drop)]
pub struct Question<'a, 'b, K, R> {
    pub kind: &'a K,
    pub rule: &'a R,
    pub runs: &'b [Run],
    pub home: u8,
}

/// A kind of cost that is asked for by its name too, as the programs ask.
pub trait Named: CostKind {
    const NAME: KindName;

    /// A cost as it is told where the kind is asked for by its name.
    fn told(cost: Self::Cost) -> u64;
}

impl Named for Time {
    const NAME: KindName = KindName::Time;

    fn told(cost: u32) -> u64 {
        u64::from(cost)
    }
}

impl Named for Strain {
    const NAME: KindName = KindName::Strain;

    fn told(cost: u8) -> u64 {
        u64::from(cost)
    }
}

impl Named for HandOvers {
    const NAME: KindName = KindName::HandOvers;

    fn told(cost: u64) -> u64 {
        cost
    }
}

ghost use Rattle.company.specs.Own.{isolated};
ghost use Rattle.company.specs.Sound.{isolated_sound};

use walks::rule::HandoverRule;

/// A rule with one winch kept to itself, as while its brake is mended: it takes over nothing and gives up nothing.
/// Every other joint is as `rule` says.
#[derive(Clone, Copy, Drop)]
pub struct Isolated<R> {
    pub rule: R,
    pub winch: u8,
}

impl<R: HandoverRule> HandoverRule for Isolated<R> {
    ghost table = { λ t. isolated (R.HandoverRule.table t.rule) t.winch };

    ghost sound = { λ t. isolated_sound (R.HandoverRule.table t.rule) t.winch (R.HandoverRule.sound t.rule) };

    fn ask(&self, point: u8, arriving: u8, leaving: u8) -> Option<u16> {
        if arriving != leaving && (arriving == self.winch || leaving == self.winch) {
            return None;
        }
        self.rule.ask(point, arriving, leaving)
    }
}

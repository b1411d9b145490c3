ghost use Rattle.std.specs.Prelude.{◌≡◌};
ghost use Rattle.walks.specs.Settings.{flat_rule};
ghost use Rattle.std.proofs.Common.{rules};

use crate::rule::HandoverRule;
use crate::setting::answer;

/// One setting for all joints of two different winches.
#[derive(Clone, Copy, Drop)]
pub struct Flat {
    setting: u16,
}

impl Flat {
    /// The rule as it begins: the setting is 0.
    pub fn new() -> Flat
        ensures { result.setting ≡ 0 }
    {
        Flat { setting: 0 }
    }

    /// Sets the penalty of every joint of two different winches; 65,535 bars them all.
    pub fn set(&mut self, setting: u16)
        ensures { self.new.setting ≡ setting }
    {
        self.setting = setting;
    }
}

impl HandoverRule for Flat {
    ghost table = { λ t. flat_rule t.setting };

    ghost sound = { Prim.search rules };

    fn ask(&self, point: u8, arriving: u8, leaving: u8) -> Option<u16> {
        answer(self.setting, point, arriving, leaving)
    }
}

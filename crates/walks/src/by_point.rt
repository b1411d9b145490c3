ghost use Rattle.std.specs.Prelude.{◌≡◌, replicate};
ghost use Rattle.track.specs.Sizes.{points};
ghost use Rattle.track.specs.Answers.{told};
ghost use Rattle.walks.specs.Refusals.{number};
ghost use Rattle.walks.specs.Settings.{point_rule, point_answer, point_after, MovedAt, at_point};
ghost use Rattle.std.proofs.Common.{rules};

use crate::refusal::RuleRefusal;
use crate::rule::HandoverRule;
use crate::setting::answer;
use track::run::POINTS;

/// One setting for each point, for its joints of two different winches.
#[derive(Clone, Copy, Drop)]
pub struct ByPoint {
    settings: [u16; POINTS],
}

impl ByPoint {
    /// The rule as it begins: every setting is 0.
    pub fn new() -> ByPoint
        ensures { result.settings ≡ replicate points 0 }
    {
        ByPoint {
            settings: [0; POINTS],
        }
    }

    /// Sets the penalty of the joints of two different winches at `point`; 65,535 bars them.
    ///
    /// Refuses with 1 a point above 127.
    pub fn set(&mut self, point: u8, setting: u16) -> Result<(), RuleRefusal>
        ensures answer { told number result ≡ point_answer point }
        ensures settings { self.new.settings ≡ point_after self.old.settings point setting }
        ensures table { MovedAt (at_point point) setting (point_rule self.old.settings) (point_rule self.new.settings) }
    {
        let point = usize::from(point);
        if point >= POINTS {
            return Err(RuleRefusal::NoPoint);
        }
        self.settings[point] = setting;
        Ok(())
    }
}

impl HandoverRule for ByPoint {
    ghost table = { λ t. point_rule t.settings };

    ghost sound = { Prim.search rules };

    fn ask(&self, point: u8, arriving: u8, leaving: u8) -> Option<u16> {
        let setting = self.settings.get(usize::from(point))?;
        answer(*setting, point, arriving, leaving)
    }
}
